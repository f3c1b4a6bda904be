//! A server, from its start to its end.

ghost use Rattle.std.specs.Prelude.{◌≡◌, OnOk, IfErr};
ghost use Rattle.server_house.specs.Faults.{IsRunningFault, write_faults};
ghost use Rattle.server_house.specs.Lines.{IsQuiet, WritesAll};
ghost use Rattle.spool_ledgers.specs.Blanks.{AreFor, mark};

use crate::crew::{Entrance, Returned, work};
use crate::preparing::prepare;
use config_values::Config;
use lpd_commands::OctetWrite;
use program_edge::{Settings, StartFault};
use server_care::Counter;
use server_commands::end_answer;
use server_house::{
    Hall, Host, House, HouseLedger, HouseSpool, OTHERS, PrintedLine, Roles, ServerFault,
    print_or_tell, sessions_of,
};
use server_start::{Stock, finish, open_spool, warn_of};
use shared_spool::Blanks;
use std::alloc::Global;
use std::marker::Brand;

/// What a server is to be.
#[derive(Drop)]
pub struct Plan<'a> {
    pub config: Config,
    pub settings: Settings<'a>,
    /// What reaches it beside its clients.
    pub counter: Counter,
}

/// Runs a server: opens what its printers print to, as the settings say, or else files in their
/// directory, `printer-1` and so on, at their ends; listens, and prints `listening N` with the port; holds connections until
/// their first line is there and a session is free; serves them by `request_session::serve_with` at a
/// session's seat, and has pages printed by `printer_worker::work`. Sessions that end neither as finished nor as closed are
/// logged, with the peer's address. Once a second jobs are ended that wait for a page and whose
/// peers are gone.
///
/// After each `rotate` connections it waits until no job is held or a printer is stopped, rotates
/// the account, and prints `rotated K entries E` with the number and the entries of the segment.
/// With `keep_room` it does so too as soon as no job is held, once a quarter of the account is
/// counted; and it trims it as soon as a quarter is counted for jobs that are gone. A rotation or trim
/// that is refused is logged.
///
/// After `connections` connections it waits until their sessions have ended and no job is held or a
/// printer is stopped, closes the spool, and prints `closed entries E` with the entries of all
/// segments. It does what `counter` is asked, and ends as that says where it is asked to stop. Where the settings have a place for
/// that, its status is shown there.
///
/// Opening where what a printer prints to, or a folder, can't be opened, before it listens, or where it can't
/// listen, for jobs or for who asks for its status; Output where a line couldn't be written, which is logged at once: after the first one it
/// goes on to its end;
/// Memory where memory or a thread is refused. A printer's file that fails later stops its printer.
pub fn serve<R: Host, W: OctetWrite>(
    rt: &R,
    alloc: Global,
    plan: Plan<'_>,
    output: &mut W,
) -> Result<(), ServerFault>
where
    R::Dir: Send + Sync,
    ensures printed { OnOk result (WritesAll (W.written output.old) (W.written output.new)) }
    ensures quiet { IfErr result (IsQuiet (W.written output.old) (W.written output.new)) }
    ensures write_fault { W.faults output.new ≡ write_faults (W.faults output.old) result }
{
    let Plan {
        config,
        settings,
        counter,
    } = plan;
    let seats = sessions_of(&settings) + OTHERS;
    warn_of(rt, &settings, &config);
    let (hall, entrance) = match prepare(rt, alloc, settings, &config, counter) {
        Ok(prepared) => prepared,
        Err(StartFault::Memory) => return Err(ServerFault::Memory),
        Err(StartFault::Opening(opening)) => return Err(ServerFault::Opening(opening)),
    };
    let blanks = Blanks::new(&config, seats);
    let stock = Stock {
        config,
        blanks,
        seats,
    };
    run::<R, Brand, W>(hall, entrance, stock, output)
}

/// Runs with a spool of this, which has a seat for each session, and for each of the other threads.
///
/// Output where a line can't be written; Memory where memory or a thread is refused.
fn run<R: Host, E: HouseLedger + Send + Sync, W: OctetWrite>(
    hall: Box<Hall<'_, R>>,
    entrance: Box<Entrance>,
    stock: Stock,
    output: &mut W,
) -> Result<(), ServerFault>
where
    R::Dir: Send + Sync,
    requires blanks { AreFor stock.blanks stock.config stock.seats E.config (mark E.name E.parts)
        (mark E.kinds E.parts) (mark E.handed E.parts) }
    ensures printed { OnOk result
        (WritesAll (W.written output.old) (W.written output.new)) }
    ensures write_fault { W.faults output.new ≡ write_faults (W.faults output.old) result }
    ensures fault { IfErr result IsRunningFault }
{
    let (spool, roles) = open_spool::<E>(hall.alloc, stock)?;
    run_house(hall, spool, roles, entrance, output)
}

/// Says where it listens, has all threads work to their end, and says how many entries the account has. Who waits for that at
/// the control socket is answered then.
///
/// Output where a line can't be written; Memory where memory or a thread is refused.
fn run_house<R: Host, E: HouseLedger + Send + Sync, W: OctetWrite>(
    hall: Box<Hall<'_, R>>,
    spool: HouseSpool<E>,
    roles: Roles<E>,
    entrance: Box<Entrance>,
    output: &mut W,
) -> Result<(), ServerFault>
where
    R::Dir: Send + Sync,
    ensures printed { OnOk result
        (WritesAll (W.written output.old) (W.written output.new)) }
    ensures write_fault { W.faults output.new ≡ write_faults (W.faults output.old) result }
    ensures fault { IfErr result IsRunningFault }
{
    let line = PrintedLine::Listening {
        port: entrance.port,
    };
    print_or_tell(hall.rt, hall.alloc, output, line)?;
    let house = House {
        spool: &spool,
        hall: &*hall,
    };
    house.hold_again();
    let (told, returned) = work(house, roles, entrance, output);
    let Returned { seats, counter } = returned;
    let ended = finish(&*hall, spool, seats, told, output);
    if let Some(counter) = counter {
        let left = hall.kept.as_ref().map_or(0, |kept| kept.left(hall.rt));
        // Without memory for the answer there is none.
        let answer = end_answer(hall.alloc, &ended, left).unwrap_or(Vec::new(hall.alloc));
        counter.end(hall.rt, answer.as_slice());
    }
    ended
}
