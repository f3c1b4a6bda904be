//! The connections whose first line isn't whole, and which of them leaves where there is no room.
//!
//! They stand by their numbers, which are given in the order of arrival: so who leaves is found as soon where all places are taken as where
//! few are.

ghost use Rattle.std.specs.Prelude.{◌≡◌, Some, None, IfSome, IfNone, OnOk, OnErr};
ghost use Rattle.std.specs.Ordering.{nat_cmp};
ghost use Rattle.std.specs.BTreeMap.{IsEmpty, Updates};
ghost use Rattle.connection_lobby.specs.Guests.{Begins, IsAsBefore, IsNobody, Leaves, stage_of};

use std::alloc::{AllocError, Global};
use std::collections::BTreeMap;

/// How far a connection that waits has come.
#[derive(Clone, Copy, PartialEq, Eq)]
pub enum GuestStage {
    /// It has sent nothing.
    Silent,
    /// Its first line has begun.
    Begun,
    /// Its first line is there: it waits for a session.
    Ready,
}

/// The places of those whose first line isn't whole, by their numbers.
#[derive(Drop)]
pub struct Guests {
    /// Of those that have sent nothing.
    silent: BTreeMap<u64, usize>,
    /// Of those whose first line has begun.
    begun: BTreeMap<u64, usize>,
}

impl Guests {
    /// Nobody.
    pub fn new(alloc: Global) -> Guests
        ensures { IsNobody result }
    {
        Guests {
            silent: BTreeMap::new(alloc),
            begun: BTreeMap::new(alloc),
        }
    }

    /// How far the guest of this number has come: one that isn't here is ready, or gone.
    pub fn stage(&self, number: u64) -> GuestStage
        ensures { result ≡ stage_of self.now number }
    {
        if self.silent.contains_key(&number) {
            GuestStage::Silent
        } else if self.begun.contains_key(&number) {
            GuestStage::Begun
        } else {
            GuestStage::Ready
        }
    }

    /// The place of the guest that leaves where there is no room: the oldest that has sent nothing, or else the oldest whose first
    /// line has begun. None where all are ready or gone: then no other comes in.
    pub fn who_leaves(&self) -> Option<usize>
        ensures leaves { IfSome result (Leaves self.now) }
        ensures none { IfNone result (IsNobody self.now) }
    {
        if let Some((_, at)) = self.silent.first_key_value() {
            return Some(*at);
        }
        match self.begun.first_key_value() {
            Some((_, at)) => Some(*at),
            None => None,
        }
    }

    /// A guest of this number, which has sent nothing, has this place. AllocError where memory is refused: then it isn't here.
    pub fn enter(&mut self, number: u64, at: usize) -> Result<(), AllocError>
        ensures entered { OnOk result
            (Updates nat_cmp self.old.silent self.new.silent number (Some at)) }
        ensures begun { self.new.begun ≡ self.old.begun }
        ensures refused { OnErr result (IsAsBefore self.old self.new) }
    {
        self.silent.insert(number, at)?;
        Ok(())
    }

    /// The first line of the guest of this number has begun. AllocError where memory is refused: then it has come as far as before.
    pub fn begin(&mut self, number: u64) -> Result<(), AllocError>
        ensures begins { OnOk result (Begins self.old self.new number) }
        ensures refused { OnErr result (IsAsBefore self.old self.new) }
    {
        let Some(at) = self.silent.get(&number).copied() else {
            return Ok(());
        };
        self.begun.insert(number, at)?;
        self.silent.remove(&number);
        Ok(())
    }

    /// The guest of this number is ready, or gone.
    pub fn leave(&mut self, number: u64)
        ensures silent { Updates nat_cmp self.old.silent self.new.silent number None }
        ensures begun { Updates nat_cmp self.old.begun self.new.begun number None }
    {
        self.silent.remove(&number);
        self.begun.remove(&number);
    }
}
