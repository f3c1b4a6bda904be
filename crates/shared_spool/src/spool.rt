//! The spool, its seats, and its end.

ghost use Rattle.std.specs.Prelude.{◌≡◌, ◌≢◌, ◌+◌, ◌≤◌, ◌↔◌, [], sum_by, vec_len, vec_capacity, IfOk, IfErr, IsErr};
ghost use Rattle.config_values.specs.Config.{printer_count};
ghost use Rattle.locked_spool.specs.Segments.{HasHeadline, IsLegalSegment, all_entries, all_handed, all_kinds};
ghost use Rattle.spool_ledgers.specs.Blanks.{AreFor, mark};
ghost use Rattle.shared_spool.specs.Seats.{AreDesks, AreFresh, entries_by, handed_by_all, kinds_by};

use crate::bells::Bells;
use crate::line::{Line, Room};
use crate::seats::{PrinterSeat, SessionSeat};
use locked_spool::{Config, Locked, Segment, Unopened};
use spool_ledgers::{Blanks, Shares, SpoolLedger};
use std::alloc::{AllocError, Global};
use std::fmt;
use std::marker::Model;
use std::sync::ledger::Ledger;
use std::sync::{Condvar, Mutex};

/// A spool that threads share. Contracts see how many seats it has.
///
/// It is generic in the three ledgers of its entries, their kind numbers and its hand-outs, so whoever makes one does it in a
/// function that is generic in all three.
#[derive(Drop)]
pub struct SharedSpool<E: SpoolLedger, K: Ledger, H: Ledger> {
    pub(crate) state: Mutex<Room<E, K, H>>,
    // Told after each event that wrote an entry, for those that wait until nothing is left to do.
    pub(crate) changed: Condvar,
    // Told after an event that may end the wait of a seat.
    pub(crate) bells: Bells,
    seats: u64,
}

impl<E: SpoolLedger, K: Ledger, H: Ledger> Model for SharedSpool<E, K, H> {
    ghost use Rattle.std.specs.Prelude.{◌≡◌, ℕ};

    ghost Value = { ℕ };

    ghost view = { λ s. s.seats };

    ghost invariant = { λ s. (s.seats ≡ E.parts) × (K.parts ≡ E.parts) × (H.parts ≡ E.parts) };
}

/// A spool with its seats.
#[derive(Drop)]
pub struct Opened<E: SpoolLedger, K: Ledger, H: Ledger> {
    pub spool: SharedSpool<E, K, H>,
    /// The seats of the sessions.
    pub sessions: Vec<SessionSeat<E, K, H>>,
    /// The seats of the printers, by their numbers.
    pub printers: Vec<PrinterSeat<E, K, H>>,
}

/// What `finish` gives back where a seat is missing.
#[derive(Drop)]
pub struct Unfinished<E: SpoolLedger, K: Ledger, H: Ledger> {
    pub spool: SharedSpool<E, K, H>,
    pub sessions: Vec<SessionSeat<E, K, H>>,
    pub printers: Vec<PrinterSeat<E, K, H>>,
}

/// Writes the number and the name of the refusal, `13 SeatsMissing`.
impl<E: SpoolLedger, K: Ledger, H: Ledger> fmt::Display for Unfinished<E, K, H> {
    ghost use Rattle.std.specs.Prelude.{Some, codes};

    ghost output = { λ _. Some (codes "13 SeatsMissing") };

    fn fmt<W: fmt::Write>(&self, f: &mut fmt::Formatter<W>) -> fmt::Result {
        f.write_str("13 SeatsMissing")
    }
}

/// Puts together what these seats of sessions added.
fn merge_sessions<E: SpoolLedger, K: Ledger, H: Ledger>(
    all: &mut Shares<E, K, H>,
    seats: Vec<SessionSeat<E, K, H>>,
)
    ensures parts { all.new.parts ≡ all.old.parts + vec_len seats }
    ensures entries { all.new.entries ≡ all.old.entries + sum_by (λ s. s.entries) seats.items }
    ensures kinds { all.new.kinds ≡ all.old.kinds + sum_by (λ s. s.kinds) seats.items }
    ensures handed { all.new.handed ≡ all.old.handed }
{
    for seat in seats {
        all.merge(seat.into_shares());
    }
}

/// Puts together what these seats of printers added.
fn merge_printers<E: SpoolLedger, K: Ledger, H: Ledger>(
    all: &mut Shares<E, K, H>,
    seats: Vec<PrinterSeat<E, K, H>>,
)
    ensures parts { all.new.parts ≡ all.old.parts + vec_len seats }
    ensures entries { all.new.entries
        ≡ all.old.entries + sum_by (λ d. d.sums.entries) seats.items }
    ensures kinds { all.new.kinds ≡ all.old.kinds + sum_by (λ d. d.sums.kinds) seats.items }
    ensures handed { all.new.handed ≡ all.old.handed + sum_by (λ d. d.sums.handed) seats.items }
{
    for seat in seats {
        all.merge(seat.into_shares());
    }
}

/// What a spool takes memory for beside what lies under its lock: its bells, its line, and room for its seats.
#[derive(Drop)]
struct Places<E: SpoolLedger, K: Ledger, H: Ledger> {
    sessions: Vec<SessionSeat<E, K, H>>,
    printers: Vec<PrinterSeat<E, K, H>>,
    bells: Bells,
    line: Line,
}

/// Places for so many sessions and for the printers of a configuration, none of which has a seat yet.
fn places_for<E: SpoolLedger, K: Ledger, H: Ledger>(
    alloc: Global,
    config: &Config,
    sessions: u32,
) -> Result<Places<E, K, H>, AllocError>
    ensures none { IfOk result (λ p. (p.sessions.items ≡ []) × (p.printers.items ≡ [])) }
    ensures room { IfOk result (λ p. (sessions ≤ vec_capacity p.sessions)
        × (printer_count config.now ≤ vec_capacity p.printers)) }
{
    let printers = config.printer_count();
    Ok(Places {
        sessions: Vec::with_capacity(alloc, sessions as usize)?,
        printers: Vec::with_capacity(alloc, printers as usize)?,
        bells: Bells::new(alloc, config, sessions)?,
        line: Line::new(alloc, config, sessions)?,
    })
}

impl<E: SpoolLedger, K: Ledger, H: Ledger> SharedSpool<E, K, H> {
    /// A spool in which nothing happened yet, a seat for each of so many sessions, and one for each printer.
    ///
    /// Where memory for it is refused all that it was given comes back.
    pub fn new(
        alloc: Global,
        blanks: Blanks,
        config: Config,
        sessions: u32,
    ) -> Result<Opened<E, K, H>, Unopened>
        requires { AreFor blanks config sessions E.config (mark E.name E.parts)
            (mark K.name K.parts) (mark H.name H.parts) }
        ensures seats { IfOk result (λ o. o.spool ≡ sessions + printer_count config) }
        ensures sessions { IfOk result (λ o. AreFresh sessions o.sessions.items) }
        ensures printers { IfOk result (λ o. AreDesks (printer_count config) o.printers.items) }
        ensures back { IfErr result (λ u. (u.blanks ≡ blanks) × (u.config ≡ config)) }
    {
        let printers = config.printer_count();
        let Ok(places) = places_for::<E, K, H>(alloc, &config, sessions) else {
            return Err(Unopened { blanks, config });
        };
        let (locked, mut all) = Locked::<E, K, H>::new(alloc, blanks, config)?;
        let Places {
            sessions: mut session_seats,
            printers: mut printer_seats,
            bells,
            line,
        } = places;
        'sessions: for i in 0..sessions {
            session_seats.push_reserved(SessionSeat::new(i, all.split_one()));
        }
        'printers: for i in 0..printers {
            printer_seats.push_reserved(PrinterSeat::new(i + 1, all.split_one()));
        }
        Ok(Opened {
            spool: SharedSpool {
                state: Mutex::new(Room { locked, line }),
                changed: Condvar::new(),
                bells,
                seats: u64::from(sessions) + u64::from(printers),
            },
            sessions: session_seats,
            printers: printer_seats,
        })
    }

    /// The last segment of the account, for which all seats come back.
    ///
    /// With all earlier segments it has as many entries as the calls of all seats wrote, their kind numbers add up to what the
    /// seats added, and as many of them are hand-outs as the printers' seats took. Where a seat is missing everything comes back.
    pub fn finish(
        self,
        sessions: Vec<SessionSeat<E, K, H>>,
        printers: Vec<PrinterSeat<E, K, H>>,
    ) -> Result<Segment, Unfinished<E, K, H>>
        ensures legal { IfOk result (IsLegalSegment E.config) }
        ensures headline { IfOk result (HasHeadline E.config) }
        ensures entries { IfOk result (λ s. all_entries s
            ≡ entries_by sessions.items printers.items) }
        ensures kinds { IfOk result (λ s. all_kinds s ≡ kinds_by sessions.items printers.items) }
        ensures handed { IfOk result (λ s. all_handed s
            ≡ handed_by_all printers.items) }
        ensures missing { IsErr result ↔ (vec_len sessions + vec_len printers ≢ self) }
        ensures back { IfErr result (λ u. (u.spool ≡ self) × (u.sessions ≡ sessions)
            × (u.printers ≡ printers)) }
    {
        let given = sessions.len() as u64 + printers.len() as u64;
        if given != self.seats {
            return Err(Unfinished {
                spool: self,
                sessions,
                printers,
            });
        }
        let SharedSpool { state, .. } = self;
        let Room { mut locked, .. } = state.into_inner();
        let mut all = locked.no_shares();
        merge_sessions(&mut all, sessions);
        merge_printers(&mut all, printers);
        Ok(locked.into_segment(&mut all))
    }
}
