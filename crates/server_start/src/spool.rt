//! The spool of a server: made at its start, and over at its end.

ghost use Rattle.std.specs.Prelude.{◌≡◌, ◌≤◌, ◌+◌, ℕ, Ok, OnOk, IfErr};
ghost use Rattle.server_house.specs.Faults.{IsRunningFault, write_faults};
ghost use Rattle.server_house.specs.Lines.{line_octets};
ghost use Rattle.server_house.specs.declared.faults.ServerFault.TheVariants.{Memory};
ghost use Rattle.server_house.specs.declared.lines.PrintedLine.TheVariants.{Closed};
ghost use Rattle.lpd_commands.specs.Ends.{Writes};
ghost use Rattle.spool_ledgers.specs.Blanks.{AreFor, mark};

use config_values::Config;
use log::Log;
use lpd_commands::OctetWrite;
use server_house::{
    Hall, HouseLedger, HouseSpool, PrintedLine, Roles, Seats, ServerFault, print_or_tell,
};
use shared_spool::{Blanks, Segment};
use std::alloc::{AllocError, Global};
use std::fs::{File, Files};
use std::rt::Clock;
use std::sync::Wait;

/// How many entries this segment and those before it have.
fn entries_until(segment: &Segment) -> u64 {
    let entries = segment.entries.len() as u64;
    segment.before.saturating_add(entries)
}

/// Takes all seats back, and prints how many entries all segments of the account have, where all
/// was well until now. Where the account's segments become files, those that are left do so before.
///
/// Output where the line can't be written, which is logged; Memory where a seat or memory for the
/// line is missing.
pub fn finish<R: Files<File = File> + Clock + Log + Wait, E: HouseLedger, W: OctetWrite>(
    hall: &Hall<'_, R>,
    spool: HouseSpool<E>,
    seats: Seats<E>,
    told: Result<(), ServerFault>,
    output: &mut W,
) -> Result<(), ServerFault>
    ensures before { OnOk result (told ≡ Ok tt) }
    ensures written { OnOk result ((entries : ℕ)
        × Writes (W.written output.old) (W.written output.new) (line_octets (Closed entries))) }
    ensures write_fault { (n : ℕ) → W.faults output.old ≡ write_faults n told
        → W.faults output.new ≡ write_faults n result }
    ensures fault { IfErr told IsRunningFault → IfErr result IsRunningFault }
{
    let last = spool.finish(seats.sessions, seats.printers).ok();
    let entries = last.as_ref().map(entries_until);
    if let Some(archive) = &hall.archive {
        archive.end(hall.rt, last);
    }
    told?;
    let Some(entries) = entries else {
        return Err(ServerFault::Memory);
    };
    print_or_tell(hall.rt, hall.alloc, output, PrintedLine::Closed { entries })
}

/// What a spool is made of.
#[derive(Drop)]
pub struct Stock {
    pub config: Config,
    pub blanks: Blanks,
    /// How many seats it has beside those of its printers.
    pub seats: u32,
}

/// A spool of this, and who gets which seat. Memory where memory is refused, or a seat is missing.
pub fn open_spool<E: HouseLedger>(
    alloc: Global,
    stock: Stock,
) -> Result<(HouseSpool<E>, Roles<E>), ServerFault>
    requires { AreFor stock.blanks stock.config stock.seats E.config (mark E.name E.parts)
        (mark E.kinds E.parts) (mark E.handed E.parts) }
    ensures { IfErr result (λ fault. fault ≡ Memory) }
{
    let Stock {
        config,
        blanks,
        seats,
    } = stock;
    let opened = HouseSpool::<E>::new(alloc, blanks, config, seats);
    let opened = opened.map_err(AllocError::from)?;
    let roles = Roles::deal(opened.sessions, opened.printers)?;
    Ok((opened.spool, roles))
}
