//! The thread that holds connections and hands them on.

ghost use Rattle.std.specs.Prelude.{◌≡◌, ℕ, List, Option, OnOk, IfErr, Ok};
ghost use Rattle.server_house.specs.Lines.{TellsRotations};
ghost use Rattle.program_edge.specs.Openings.{IsUnopened};
ghost use Rattle.program_edge.specs.declared.opening.StartPart.{StartPart};
ghost use Rattle.program_edge.specs.declared.opening.StartPart.TheVariants.{Listener};

use connection_lobby::{Doors, Doorway, Listening, Lobby, Visit, places};
use log::{Log, error, warn};
use lpd_commands::OctetWrite;
use mio::Waker;
use program_edge::{Settings, StartFault, StartPart, descriptor_limit, tell_cause};
use server_house::{
    AccountRoom, Hall, House, HouseLedger, HouseSeat, HouseSpool, PrintedLine, ServerFault,
    has_turn, print,
};
use server_notes::{Rotation, Rotations};
use std::alloc::Global;
use std::net::{Net, SocketAddr, TcpListener, TcpStream};
use std::num::NonZeroU64;
use std::rt::Clock;
use std::sync::Wait;
use std::time::Duration;
use std::{mem, thread};

/// The part of the program that logs what happens here, as the log names it.
const PART: &str = "lpd_daemon::listening";

/// The pause after the system didn't tell what happened, in milliseconds.
const PAUSE_MS: u64 = 100;

/// The time between two looks at whether jobs that wait are let in, in milliseconds.
const LOOK_MS: u64 = 10;

/// A lobby at the address of the settings, what wakes its thread, and its port. `kept` descriptors
/// are left for others. Opening where the system doesn't give what it takes, of which the log is told why too; Memory.
pub fn listen<R: Log + Net<Listener = TcpListener, Stream = TcpStream>>(
    rt: &R,
    alloc: Global,
    settings: &mut Settings<'_>,
    kept: u64,
) -> Result<(Lobby, Waker, u16), StartFault>
    ensures { IfErr result (IsUnopened (λ (part : StartPart). part ≡ Listener)) }
{
    let address = SocketAddr::from((settings.bind, settings.port));
    let allowed = mem::replace(&mut settings.allowed, Vec::new(alloc));
    let proxied = mem::replace(&mut settings.proxied, Vec::new(alloc));
    let listening = Listening {
        address,
        places: places(descriptor_limit(), kept).max(1),
        connections: settings.connections.unwrap_or(u64::MAX),
        awaits_lines: true,
        doorway: Doorway::new(alloc, allowed, proxied),
    };
    match Lobby::new(rt, alloc, listening) {
        Ok(listening) => Ok(listening),
        Err(error) => {
            tell_cause(rt, &address, Some(error));
            Err(StartFault::of(alloc, StartPart::Listener, &address, &error))
        }
    }
}

/// Prints all rotations that aren't printed yet, where all was printed until now. Where one can't
/// be printed that is logged at once, and nothing more is printed.
pub fn announce_all<R: Log + Wait, W: OctetWrite>(
    rt: &R,
    alloc: Global,
    output: &mut W,
    told: Result<(), ServerFault>,
    rotations: &Rotations,
) -> Result<(), ServerFault>
    ensures tells { (was : Option (List ℕ)) (n : ℕ)
        → TellsRotations was n (W.written output.old) (W.faults output.old) told
        → TellsRotations was n (W.written output.new) (W.faults output.new) result }
    ensures before { OnOk result (told ≡ Ok tt) }
{
    let rotated = rotations.take(rt, alloc);
    told?;
    for Rotation { number, entries } in rotated {
        let printed = print(alloc, output, PrintedLine::Rotated { number, entries });
        if let Err(fault) = &printed {
            error!(rt; target: PART, "{fault}: nothing more is printed, and the server goes on");
            return printed;
        }
    }
    Ok(())
}

/// What connections come by, and are handed on by.
#[derive(Drop)]
pub struct Gate {
    pub lobby: Lobby,
    pub doors: Doors,
    /// After how many connections the account is rotated.
    pub every: Option<NonZeroU64>,
    /// Room in the account, where it is kept.
    pub room: Option<AccountRoom>,
}

/// The thread that holds connections and hands them on, and rotates the account in between.
#[derive(Drop)]
pub struct Porter<'h, 'a, R, E: HouseLedger> {
    spool: &'h HouseSpool<E>,
    hall: &'h Hall<'a, R>,
    seat: HouseSeat<E>,
    gate: Gate,
    // How many connections were handed on.
    handed_on: u64,
}

impl<'h, 'a, R: Clock + Log + Wait, E: HouseLedger> Porter<'h, 'a, R, E> {
    /// A porter that hasn't handed on any connection.
    pub fn new(house: House<'h, 'a, R, E>, seat: HouseSeat<E>, gate: Gate) -> Porter<'h, 'a, R, E> {
        let House { spool, hall } = house;
        Porter {
            spool,
            hall,
            seat,
            gate,
            handed_on: 0,
        }
    }

    /// Nothing more is handed on. The seat.
    pub fn leave(self) -> HouseSeat<E> {
        let Porter { seat, gate, .. } = self;
        drop(gate);
        seat
    }

    /// Nobody is let in any more where the server stops, and those that wait are closed.
    fn look_whether_it_stops(&mut self) {
        if self.hall.ending.stops() {
            self.gate.lobby.close(self.hall.alloc);
        }
        let waiting = self.gate.lobby.waiting();
        self.hall.oversight.note_lobby(waiting);
    }

    /// Whether new jobs are let in.
    fn lets_jobs_in(&mut self) -> bool {
        match &mut self.gate.room {
            Some(room) if self.gate.lobby.has_job() => {
                room.lets_jobs_in(self.hall.rt, self.spool)
            }
            _ => true,
        }
    }

    /// Waits for something to happen, or for a moment where jobs have to wait.
    fn wait(&mut self, lets_jobs_in: bool) {
        let rt = self.hall.rt;
        let limit = if lets_jobs_in { None } else { Some(LOOK_MS) };
        if let Err(error) = self.gate.lobby.round(rt, limit) {
            warn!(rt; target: PART, "connections can't be looked at: {error}");
            thread::sleep(rt, Duration::from_millis(PAUSE_MS));
        }
    }

    /// Where the account has its turn before the next connection, waits until no job is held or a
    /// printer is stopped, and rotates it. It isn't rotated while its segments wait to become files.
    fn take_turn(&mut self) {
        let (hall, rt) = (self.hall, self.hall.rt);
        if has_turn(self.gate.every, self.handed_on) && hall.takes_place() {
            self.spool.idle_wait(rt);
            let rotated = self.spool.rotate(rt, &mut self.seat);
            hall.note_rotated(rotated);
        }
    }

    /// Hands a connection on.
    fn hand_on(&mut self, visit: Visit) {
        let (hall, rt) = (self.hall, self.hall.rt);
        let peer = visit.peer;
        if !self.gate.doors.hand(rt, &hall.desk, visit) {
            warn!(rt; target: PART, "{peer}: memory was refused");
        }
        self.handed_on = self.handed_on.saturating_add(1);
    }

    /// Holds connections and hands each on, until all that are to come have come. Says in lines when the account was rotated, each before the next
    /// connection is handed on.
    ///
    /// Output where such a line couldn't be written, Memory where memory for it was refused: all
    /// have been handed on. Memory too where not all threads were started: then none is.
    pub fn admit<W: OctetWrite>(&mut self, started: bool, output: &mut W) -> Result<(), ServerFault>
        ensures { TellsRotations (W.written output.old) (W.faults output.old)
            (W.written output.new) (W.faults output.new) result }
    {
        let (rt, alloc) = (self.hall.rt, self.hall.alloc);
        if !started {
            return Err(ServerFault::Memory);
        }
        let mut told = Ok(());
        'rounds: for _ in rt.forever() {
            self.look_whether_it_stops();
            let lets_jobs_in = self.lets_jobs_in();
            let visit = self.gate.lobby.next(rt, &self.hall.desk, lets_jobs_in);
            if visit.is_some() {
                self.take_turn();
            }
            told = announce_all(rt, alloc, output, told, &self.hall.rotations);
            match visit {
                Some(visit) => self.hand_on(visit),
                None if self.gate.lobby.is_over() => break,
                None => self.wait(lets_jobs_in),
            }
        }
        told
    }
}
