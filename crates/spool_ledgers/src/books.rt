//! The totals of the three ledgers.

ghost use Rattle.std.specs.Prelude.{◌≡◌, ◌<◌, ◌≤◌};
ghost use Rattle.spool_ledgers.specs.Blanks.{AreOf, mark};
ghost use Rattle.spool_ledgers.specs.Sums.{no_sums, with_entry};

use crate::blanks::Blanks;
use crate::shares::Shares;
use account::Kind;
use std::marker::Model;
use std::sync::ledger::{Book, Ledger};

/// The totals of the three ledgers, which are kept under the lock, beside what they count.
#[derive(Drop)]
pub struct Books<E: Ledger, K: Ledger, H: Ledger> {
    entries: Book<E>,
    kinds: Book<K>,
    handed: Book<H>,
    // A share of no part, from which others are made.
    rest: Shares<E, K, H>,
}

impl<E: Ledger, K: Ledger, H: Ledger> Model for Books<E, K, H> {
    ghost use Rattle.spool_ledgers.specs.Sums.{Sums};

    ghost Value = { Sums };

    ghost view = { λ b. record {
      parts = 0;
      entries = b.entries.total;
      kinds = b.kinds.total;
      handed = b.handed.total;
    } };
}

impl<E: Ledger, K: Ledger, H: Ledger> Books<E, K, H> {
    /// Opens the three ledgers.
    pub fn open(blanks: Blanks) -> (Books<E, K, H>, Shares<E, K, H>)
        requires { AreOf blanks (mark E.name E.parts) (mark K.name K.parts)
            (mark H.name H.parts) }
        ensures books { result.0 ≡ no_sums 0 }
        ensures shares { result.1 ≡ no_sums E.parts }
    {
        let (entries, all_entries) = blanks.entries.open::<E>();
        let (kinds, all_kinds) = blanks.kinds.open::<K>();
        let (handed, all_handed) = blanks.handed.open::<H>();
        let mut all = Shares {
            entries: all_entries,
            kinds: all_kinds,
            handed: all_handed,
        };
        let books = Books {
            entries,
            kinds,
            handed,
            rest: all.empty(),
        };
        (books, all)
    }

    /// A share of no part.
    pub fn no_shares(&mut self) -> Shares<E, K, H>
        ensures none { result ≡ no_sums 0 }
        ensures same { self.new ≡ self.old }
    {
        self.rest.empty()
    }

    /// Counts an entry of a kind, and adds it to the share.
    pub fn count(&mut self, mine: &mut Shares<E, K, H>, kind: Kind)
        requires { 0 < mine.old.parts }
        ensures books { self.new ≡ with_entry kind self.old }
        ensures shares { mine.new ≡ with_entry kind mine.old }
    {
        self.entries.add(&mut mine.entries, 1);
        self.kinds.add(&mut mine.kinds, kind.number());
        let handed = u64::from(matches!(kind, Kind::Handed));
        self.handed.add(&mut mine.handed, handed);
    }

    /// No share has more than the total.
    pub fn bound(&mut self, mine: &mut Shares<E, K, H>)
        ensures books { self.new ≡ self.old }
        ensures shares { mine.new ≡ mine.old }
        ensures bound { mine.old.handed ≤ self.old.handed }
    {
        self.handed.audit(&mut mine.handed);
    }

    /// All shares together have the totals.
    pub fn audit(&mut self, all: &mut Shares<E, K, H>)
        requires { (all.old.parts ≡ E.parts) × (K.parts ≡ E.parts) × (H.parts ≡ E.parts) }
        ensures books { self.new ≡ self.old }
        ensures shares { all.new ≡ all.old }
        ensures whole { (all.old.entries ≡ self.old.entries) × (all.old.kinds ≡ self.old.kinds)
            × (all.old.handed ≡ self.old.handed) }
    {
        self.entries.audit(&mut all.entries);
        self.kinds.audit(&mut all.kinds);
        self.handed.audit(&mut all.handed);
    }
}
