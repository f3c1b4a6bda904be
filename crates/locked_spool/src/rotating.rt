//! The rotation of the account.

ghost use Rattle.std.specs.Prelude.{◌≡◌, ◌↔◌, ◌+◌, ◌≤◌, ◌^◌, [], IsTrue, IfOk};
ghost use Rattle.account.specs.Seen.{base_seen};
ghost use Rattle.spool_calls.specs.Calls as calls;
ghost use Rattle.spool_calls.specs.Calls.{IsRight};
ghost use Rattle.spool_history.specs.Now.{now};
ghost use Rattle.spool_history.specs.Rotated.{rotated};
ghost use Rattle.locked_spool.specs.Rotation.{BeginsAfter, CanTrim, GoesOn, HasNumbers, IsSegmentOf, Keeps, LeavesRotated, LeavesTrimmed, Rotates, Trims, gives_back, number_of};
ghost use Rattle.locked_spool.specs.Segments.{HasHeadline, IsLegalSegment};

use crate::locked::Locked;
use account::{Account, Base, Segment};
use spool_ledgers::SpoolLedger;
use std::alloc::{AllocError, Global};
use std::error::Error;
use std::sync::ledger::Ledger;
use std::{fmt, mem};

/// The most entries that an account may have, with all that was given back.
const MOST: u64 = 1 << 62;

/// A base that says the same. AllocError where memory for it is refused.
fn copy_of(alloc: Global, base: &Base) -> Result<Base, AllocError>
    ensures { IfOk result (λ copy. base_seen copy ≡ base_seen base.now) }
{
    Ok(Base {
        accepted: base.accepted,
        reserved: base.reserved,
        closed: base.closed,
        stopped: base.stopped.iter().copied().collect(alloc)?,
    })
}

/// Why an account can't be rotated. Nothing has changed then.
#[derive(Clone, Copy, Debug, PartialEq, Eq)]
pub enum RotateError {
    /// A job is held.
    JobsHeld = 14,
    /// The next segment would have no number, or the sums over all segments would pass what a number holds.
    AccountFull = 3,
    /// Memory was refused.
    Memory = 12,
}

impl RotateError {
    /// Its number, as it is printed.
    pub fn number(self) -> u8
        ensures { result ≡ number_of self }
    {
        self as u8
    }
}

/// Writes the number and the name, as `14 JobsHeld`.
impl fmt::Display for RotateError {
    ghost use Rattle.std.specs.Prelude.{Some};
    ghost use Rattle.locked_spool.specs.Rotation.{error_words};

    ghost output = { λ error. Some (error_words error) };

    fn fmt<W: fmt::Write>(&self, f: &mut fmt::Formatter<W>) -> fmt::Result {
        f.write_str(match self {
            RotateError::JobsHeld => "14 JobsHeld",
            RotateError::AccountFull => "3 AccountFull",
            RotateError::Memory => "12 Memory",
        })
    }
}

impl Error for RotateError {}

impl From<AllocError> for RotateError {
    ghost use Rattle.std.specs.Prelude.{◌≡◌};
    ghost use Rattle.locked_spool.specs.declared.rotating.RotateError.TheVariants.{Memory};

    ghost from_gives = { λ _ e. e ≡ Memory };

    fn from(_error: AllocError) -> RotateError {
        RotateError::Memory
    }
}

impl<E: SpoolLedger, K: Ledger, H: Ledger> Locked<E, K, H> {
    /// Whether there is a number for the next segment, and the sums over all segments stay within numbers.
    fn has_numbers(&self) -> bool
        ensures { IsTrue result ↔ HasNumbers self.now }
    {
        let account = u128::from(self.core.config().account() - self.freed);
        let entries = u128::from(self.before) + u128::from(self.account.len()) + account;
        self.number < u64::MAX && 13 * entries <= u128::from(u64::MAX)
    }

    /// How many of the counted entries a trim would give back.
    pub(crate) fn gives_back(&self) -> u64
        ensures { result ≡ gives_back self.now }
    {
        let still = self.core.still_reserved();
        u128::from(self.counted()).saturating_sub(still) as u64
    }

    /// Whether a trim that gives back so many is refused for want of memory alone.
    fn can_trim(&self, more: u64) -> bool
        requires { more ≡ gives_back self.now }
        ensures { IsTrue result ↔ CanTrim self.now }
    {
        let left = self.counted() - more;
        self.has_numbers() && more <= MOST - self.core.config().account() && left < u64::MAX
    }

    /// Hands out the entries so far with their base, and begins an account of no entries from the base that they leave.
    fn put_away(&mut self, base: Base, account: Account) -> Segment
        requires jobs { self.old.core.book.jobs ≡ [] }
        requires numbers { HasNumbers self.old }
        requires base { base_seen base
            ≡ rotated (now self.old.core.config self.old.base self.old.events) }
        requires none { account.events ≡ [] }
        requires none_there { account.kept ≡ [] }
        requires room { base.reserved + 1 ≤ account.room }
        ensures segment { IsSegmentOf self.old result }
        ensures begins { BeginsAfter self.old self.new result }
        ensures core { IsRight self.old.core (λ d b h.
            calls.Rotates d b h self.old.core self.new.core) }
    {
        let kinds = self.account.kinds();
        let handed = self.account.handed();
        let entries = self.account.len();
        let room = self.core.config().account() - self.freed;
        self.core.rotated_to(room);
        let segment = Segment {
            number: self.number,
            before: self.before,
            kinds_before: self.kinds_before,
            handed_before: self.handed_before,
            base: mem::replace(&mut self.base, base),
            since: self.since,
            freed: self.freed,
            entries: mem::replace(&mut self.account, account).into_entries(),
        };
        self.since = 0;
        self.freed = 0;
        self.number += 1;
        self.before += entries;
        self.kinds_before += kinds;
        self.handed_before += handed;
        segment
    }

    /// Hands out the entries so far with their base, and begins an account of no entries from the base that they leave.
    ///
    /// JobsHeld where a job is held; AccountFull where the next segment's number, or 13 times the sum of the entries before it
    /// and of the entries that it may have, would pass 2^64 - 1; Memory where memory for the new account is refused.
    pub fn rotate(&mut self) -> Result<Segment, RotateError>
        ensures answer { Rotates self.old self.new result }
        ensures core { LeavesRotated self.old self.new result }
        ensures legal { IfOk result (λ segment. IsLegalSegment E.config segment) }
        ensures headline { IfOk result (λ segment. HasHeadline E.config segment) }
    {
        if self.core.held() != 0 {
            return Err(RotateError::JobsHeld);
        }
        if !self.has_numbers() {
            return Err(RotateError::AccountFull);
        }
        let base = self.core.base(self.alloc)?;
        let Some(room) = base.reserved.checked_add(1) else {
            return Err(RotateError::Memory);
        };
        let mut account = Account::new(self.alloc);
        account.reserve(room)?;
        Ok(self.put_away(base, account))
    }

    /// Hands out the entries that are there, and lets the account have so many more.
    fn hand_out(&mut self, more: u64, base: Base, next: Account) -> Segment
        requires base { base_seen base ≡ self.old.base }
        requires numbers { HasNumbers self.old }
        requires account { more + self.old.core.config.account ≤ 2 ^ 62 }
        requires within { more + self.old.freed ≤ self.old.core.reserved }
        requires gives { more ≡ gives_back self.old }
        requires none { next.kept ≡ [] }
        requires room { self.old.core.reserved + 1 ≤ next.room + (more + self.old.freed) }
        ensures segment { IsSegmentOf self.old result }
        ensures goes_on { GoesOn self.old self.new result }
        ensures leaves { LeavesTrimmed self.old self.new }
    {
        let kinds = self.account.kinds();
        let handed = self.account.handed();
        let entries = self.account.len();
        let account = self.core.config().account();
        self.core.set_account(more + account);
        let segment = Segment {
            number: self.number,
            before: self.before,
            kinds_before: self.kinds_before,
            handed_before: self.handed_before,
            base,
            since: self.since,
            freed: self.freed,
            entries: self.account.go_on(next),
        };
        self.since += entries;
        self.freed = more + self.freed;
        self.number += 1;
        self.before += entries;
        self.kinds_before += kinds;
        self.handed_before += handed;
        segment
    }

    /// Hands out the entries that are there, also where jobs are held, and gives back all of the counted reserve but what these
    /// and the stopped printers may still add. The account goes on behind them.
    ///
    /// AccountFull where the next segment's number, or 13 times the sum of the entries before it and of those that it may have,
    /// would pass 2^64 - 1, or where the account would have more than 2^62 entries with what was given back; Memory where memory for
    /// its next entries is refused.
    pub fn trim(&mut self) -> Result<Segment, RotateError>
        ensures answer { Trims self.old self.new result }
        ensures leaves { LeavesTrimmed self.old self.new }
        ensures legal { IfOk result (λ segment. IsLegalSegment E.config segment) }
        ensures headline { IfOk result (λ segment. HasHeadline E.config segment) }
    {
        let more = self.gives_back();
        if !self.can_trim(more) {
            return Err(RotateError::AccountFull);
        }
        let base = copy_of(self.alloc, &self.base)?;
        let mut next = Account::new(self.alloc);
        next.reserve(self.counted() - more + 1)?;
        Ok(self.hand_out(more, base, next))
    }

    /// Hands out the entries that are there: it rotates where no job is held, and else trims.
    ///
    /// Refused as these are.
    pub fn keep(&mut self) -> Result<Segment, RotateError>
        ensures answer { Keeps self.old self.new result }
        ensures legal { IfOk result (λ segment. IsLegalSegment E.config segment) }
        ensures headline { IfOk result (λ segment. HasHeadline E.config segment) }
    {
        if self.core.held() == 0 {
            self.rotate()
        } else {
            self.trim()
        }
    }
}
