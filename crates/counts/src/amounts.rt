//! Amounts of each kind of resource.

ghost use Rattle.std.specs.Prelude.{◌≡◌, ℕ, ◌+◌, ◌<◌, ◌^◌, ◌↔◌, IsTrue, IsOk, IfOk, OnOk, OnErr, length, replicate, slice_set};
ghost use Rattle.counts.specs.Amounts.{amount, Fits, sum_of, rest_of};

use std::alloc::{AllocError, Global};
use std::error::Error;
use std::fmt;
use std::marker::Model;

/// Amounts, one for each kind of resource. Contracts see the list of them.
#[derive(Debug, Drop)]
pub struct Counts {
    amounts: Vec<u32>,
}

impl Model for Counts {
    ghost use Rattle.std.specs.Prelude.{List, ℕ};

    ghost Value = { List ℕ };

    ghost view = { λ c. c.amounts.items };
}

/// A sum of two amounts of one kind that is over 4,294,967,295.
#[derive(Clone, Copy, Debug, PartialEq, Eq)]
pub struct TooLarge;

/// Writes the number and the name.
impl fmt::Display for TooLarge {
    ghost use Rattle.std.specs.Prelude.{Some, codes};

    ghost output = { λ _. Some (codes "23 TooLarge") };

    fn fmt<W: fmt::Write>(&self, f: &mut fmt::Formatter<W>) -> fmt::Result {
        f.write_str("23 TooLarge")
    }
}

impl Error for TooLarge {}

impl Counts {
    /// Nothing of each of so many kinds.
    pub fn zero(alloc: Global, kinds: usize) -> Result<Counts, AllocError>
        ensures { IfOk result (λ c. c ≡ replicate kinds 0) }
    {
        Ok(Counts {
            amounts: vec![in alloc; 0; kinds]?,
        })
    }

    /// How many kinds there are.
    pub fn kinds(&self) -> usize
        ensures kinds { result ≡ length self.now }
        ensures small { (kind : ℕ) → amount self.now kind < 2 ^ 32 }
    {
        are_small(self.amounts.as_slice());
        self.amounts.len()
    }

    /// The amounts by kind.
    pub fn as_slice(&self) -> &[u32]
        ensures { result.now ≡ self.now }
    {
        self.amounts.as_slice()
    }

    /// How much there is of a kind.
    pub fn get(&self, kind: usize) -> u32
        requires { kind < length self.now }
        ensures { result ≡ amount self.now kind }
    {
        self.as_slice()[kind]
    }

    /// Makes this the amount of a kind.
    pub fn set(&mut self, kind: usize, amount: u32)
        requires { kind < length self.old }
        ensures { self.new ≡ slice_set self.old kind amount }
    {
        self.amounts[kind] = amount;
    }

    /// Whether no amount is more than the other's.
    pub fn le(&self, other: &Counts) -> bool
        requires { length self.now ≡ length other.now }
        ensures { IsTrue result ↔ Fits self.now (amount other.now) }
    {
        for k in 0..self.amounts.len() {
            if self.amounts[k] > other.amounts[k] {
                return false;
            }
        }
        true
    }

    /// Adds each amount of the other.
    pub fn add(&mut self, more: &Counts)
        requires kinds { length more.now ≡ length self.old }
        requires room { (kind : ℕ) → amount self.old kind + amount more.now kind < 2 ^ 32 }
        ensures { self.new ≡ sum_of self.old more.now }
    {
        let (sums, added) = (self.amounts.as_mut_slice(), more.as_slice());
        for k in 0..added.len() {
            sums[k] += added[k];
        }
    }

    /// Adds each amount of the other, where all sums are at most 4,294,967,295. Otherwise
    /// nothing changes.
    pub fn try_add(&mut self, more: &Counts) -> Result<(), TooLarge>
        requires { length more.now ≡ length self.old }
        ensures fits { IsOk result
            ↔ ((kind : ℕ) → amount self.old kind + amount more.now kind < 2 ^ 32) }
        ensures sum { OnOk result (self.new ≡ sum_of self.old more.now) }
        ensures unchanged { OnErr result (self.new ≡ self.old) }
    {
        for k in 0..more.amounts.len() {
            if self.amounts[k].checked_add(more.amounts[k]).is_none() {
                return Err(TooLarge);
            }
        }
        self.add(more);
        Ok(())
    }

    /// Takes each amount of the other away.
    pub fn sub(&mut self, less: &Counts)
        requires kinds { length less.now ≡ length self.old }
        requires enough { Fits less.now (amount self.old) }
        ensures { self.new ≡ rest_of self.old less.now }
    {
        let (rests, taken) = (self.amounts.as_mut_slice(), less.as_slice());
        for k in 0..taken.len() {
            rests[k] -= taken[k];
        }
    }

    /// Becomes equal to the other.
    pub fn copy_from(&mut self, other: &Counts)
        requires { length other.now ≡ length self.old }
        ensures { self.new ≡ other.now }
    {
        self.amounts
            .as_mut_slice()
            .copy_from_slice(other.amounts.as_slice());
    }

    /// Equal amounts of their own.
    pub fn copy(&self, alloc: Global) -> Result<Counts, AllocError>
        ensures same { IfOk result (λ c. c ≡ self.now) }
        ensures small { IfOk result (λ _. (kind : ℕ) → amount self.now kind < 2 ^ 32) }
    {
        let mut copied = Counts::zero(alloc, self.kinds())?;
        copied.copy_from(self);
        Ok(copied)
    }
}

/// Numbers of this type are below its limit.
fn are_small(amounts: &[u32])
    ensures { (kind : ℕ) → amount amounts.now kind < 2 ^ 32 }
{}
