//! What the lock keeps.

ghost use Rattle.std.specs.Prelude.{◌≡◌, ◌<◌, [], ◌∷◌, length, IfErr, IfOk};
ghost use Rattle.account.specs.Kinds.{kind_of};
ghost use Rattle.account.specs.Seen.{event_seen};
ghost use Rattle.spool_history.specs.Base.{first_base};
ghost use Rattle.spool_ledgers.specs.Blanks.{AreOf, mark};
ghost use Rattle.spool_ledgers.specs.Sums.{no_sums, with_entry};
ghost use Rattle.locked_spool.specs.Rotation.{IsSegmentOf};
ghost use Rattle.locked_spool.specs.Segments.{HasHeadline, IsLegalSegment, all_entries, all_handed, all_kinds};

use crate::unopened::Unopened;
use account::{Account, Base, Entry, Segment};
use spool_core::{Config, Core, Unmade};
use spool_ledgers::{Blanks, Books, Shares, SpoolLedger};
use std::alloc::Global;
use std::marker::Model;
use std::sync::ledger::Ledger;

/// A spool's core, the account of its events, and the totals of the three ledgers.
#[derive(Drop)]
pub struct Locked<E: SpoolLedger, K: Ledger, H: Ledger> {
    pub(crate) alloc: Global,
    pub(crate) core: Core,
    pub(crate) base: Base,
    pub(crate) account: Account,
    // How many entries since the base were handed out by trims, and how much of the counted reserve was given back.
    pub(crate) since: u64,
    pub(crate) freed: u64,
    pub(crate) number: u64,
    pub(crate) before: u64,
    pub(crate) kinds_before: u64,
    pub(crate) handed_before: u64,
    pub(crate) books: Books<E, K, H>,
    // A printer may be stopped. Where this is false none is, and none is looked at.
    pub(crate) may_be_stopped: bool,
}

impl<E: SpoolLedger, K: Ledger, H: Ledger> Model for Locked<E, K, H> {
    ghost use Rattle.account.specs.Seen.{base_seen};
    ghost use Rattle.locked_spool.specs.Held.{Held, IsHeld};

    ghost Value = { Held };

    ghost view = { λ s. record {
      core = s.core;
      base = base_seen s.base;
      events = s.account.events;
      since = s.since;
      freed = s.freed;
      number = s.number;
      before = s.before;
      kinds_before = s.kinds_before;
      handed_before = s.handed_before;
    } };

    ghost invariant = { λ s. IsHeld E.config (record {
      core = s.core;
      base = base_seen s.base;
      events = s.account.events;
      since = s.since;
      freed = s.freed;
      number = s.number;
      before = s.before;
      kinds_before = s.kinds_before;
      handed_before = s.handed_before;
    }) s.account.kept s.account.room s.books s.may_be_stopped };
}

/// Writes an entry into the account, and counts it.
pub(crate) fn write<E: Ledger, K: Ledger, H: Ledger>(
    account: &mut Account,
    books: &mut Books<E, K, H>,
    mine: &mut Shares<E, K, H>,
    entry: Entry,
)
    requires part { 0 < mine.old.parts }
    requires room { length account.old.kept < account.old.room }
    ensures events { account.new.events ≡ event_seen entry ∷ account.old.events }
    ensures kept { account.new.kept ≡ event_seen entry ∷ account.old.kept }
    ensures room { account.new.room ≡ account.old.room }
    ensures books { books.new ≡ with_entry (kind_of (event_seen entry)) books.old }
    ensures shares { mine.new ≡ with_entry (kind_of (event_seen entry)) mine.old }
{
    books.count(mine, entry.kind());
    account.add(entry);
}

impl<E: SpoolLedger, K: Ledger, H: Ledger> Locked<E, K, H> {
    /// A spool in which nothing happened yet, with an account of no entries; and the shares of all parts of its ledgers.
    ///
    /// Where memory for it is refused all that it was given comes back.
    pub fn new(
        alloc: Global,
        blanks: Blanks,
        config: Config,
    ) -> Result<(Locked<E, K, H>, Shares<E, K, H>), Unopened>
        requires blanks { AreOf blanks (mark E.name E.parts) (mark K.name K.parts)
            (mark H.name H.parts) }
        requires config { config ≡ E.config }
        ensures first { IfOk result (λ made. let s = made.0 in
            (s.base ≡ first_base) × (s.events ≡ []) × (s.since ≡ 0) × (s.freed ≡ 0) × (s.number ≡ 1) × (s.before ≡ 0)
            × (s.kinds_before ≡ 0) × (s.handed_before ≡ 0)) }
        ensures shares { IfOk result (λ made. made.1 ≡ no_sums E.parts) }
        ensures back { IfErr result (λ u. (u.blanks ≡ blanks) × (u.config ≡ config)) }
    {
        let mut account = Account::new(alloc);
        let Ok(()) = account.reserve(1) else {
            return Err(Unopened { blanks, config });
        };
        let core = match Core::new(alloc, config) {
            Ok(core) => core,
            Err(Unmade { config }) => return Err(Unopened { blanks, config }),
        };
        let (books, all) = Books::open(blanks);
        let locked = Locked {
            alloc,
            core,
            base: Base::first(alloc),
            account,
            since: 0,
            freed: 0,
            number: 1,
            before: 0,
            kinds_before: 0,
            handed_before: 0,
            books,
            may_be_stopped: false,
        };
        Ok((locked, all))
    }

    /// A share of no part.
    pub fn no_shares(&mut self) -> Shares<E, K, H>
        ensures none { result ≡ no_sums 0 }
        ensures same { self.new ≡ self.old }
    {
        self.books.no_shares()
    }

    /// The account with its base, where all shares are here.
    pub fn into_segment(self, all: &mut Shares<E, K, H>) -> Segment
        requires { (all.old.parts ≡ E.parts) × (K.parts ≡ E.parts) × (H.parts ≡ E.parts) }
        ensures segment { IsSegmentOf self result }
        ensures legal { IsLegalSegment E.config result }
        ensures headline { HasHeadline E.config result }
        ensures entries { all_entries result ≡ all.old.entries }
        ensures kinds { all_kinds result ≡ all.old.kinds }
        ensures handed { all_handed result ≡ all.old.handed }
    {
        let Locked {
            alloc: _,
            core,
            base,
            account,
            since,
            freed,
            number,
            before,
            kinds_before,
            handed_before,
            mut books,
            may_be_stopped: _,
        } = self;
        drop(core);
        books.audit(all);
        Segment {
            number,
            before,
            kinds_before,
            handed_before,
            base,
            since,
            freed,
            entries: account.into_entries(),
        }
    }
}
