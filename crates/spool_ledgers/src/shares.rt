//! A share of each of the three ledgers.

ghost use Rattle.std.specs.Prelude.{◌≡◌, ◌+◌, ◌<◌};
ghost use Rattle.spool_ledgers.specs.Sums.{both, no_sums};

use std::marker::Model;
use std::sync::ledger::{Ledger, Share};

/// A share of each ledger. Contracts see its parts and its amounts.
#[derive(Drop)]
pub struct Shares<E: Ledger, K: Ledger, H: Ledger> {
    pub(crate) entries: Share<E>,
    pub(crate) kinds: Share<K>,
    pub(crate) handed: Share<H>,
}

impl<E: Ledger, K: Ledger, H: Ledger> Model for Shares<E, K, H> {
    ghost use Rattle.std.specs.Prelude.{◌≡◌};
    ghost use Rattle.spool_ledgers.specs.Sums.{Sums};

    ghost Value = { Sums };

    ghost view = { λ s. record {
      parts = s.entries.parts;
      entries = s.entries.amount;
      kinds = s.kinds.amount;
      handed = s.handed.amount;
    } };

    ghost invariant = { λ s.
        (s.kinds.parts ≡ s.entries.parts) × (s.handed.parts ≡ s.entries.parts) };
}

impl<E: Ledger, K: Ledger, H: Ledger> Shares<E, K, H> {
    /// Gives one part of shares that have no amount.
    pub fn split_one(&mut self) -> Shares<E, K, H>
        requires some { 0 < self.old.parts }
        requires fresh { self.old ≡ no_sums self.old.parts }
        ensures one { result ≡ no_sums 1 }
        ensures parts { self.new.parts + 1 ≡ self.old.parts }
        ensures fresh { self.new ≡ no_sums self.new.parts }
    {
        Shares {
            entries: self.entries.split_off(1, 0),
            kinds: self.kinds.split_off(1, 0),
            handed: self.handed.split_off(1, 0),
        }
    }

    /// A share of no part.
    pub fn empty(&mut self) -> Shares<E, K, H>
        ensures none { result ≡ no_sums 0 }
        ensures same { self.new ≡ self.old }
    {
        Shares {
            entries: self.entries.empty(),
            kinds: self.kinds.empty(),
            handed: self.handed.empty(),
        }
    }

    /// Takes another's parts and amounts.
    pub fn merge(&mut self, other: Shares<E, K, H>)
        ensures { self.new ≡ both self.old other }
    {
        self.entries.merge(other.entries);
        self.kinds.merge(other.kinds);
        self.handed.merge(other.handed);
    }
}
