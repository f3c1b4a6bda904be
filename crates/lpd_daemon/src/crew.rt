//! The threads of a server.
//!
//! Threads beside the sessions keep their seats until the spool is closed: the one that looks for peers that are gone gives its back a
//! quarter of a second after that at most, the others at once. They don't leave at the end of accepting, since sessions go on then: one
//! may wait for a page while its peer is gone, and would do so for ever with nobody to look; another may bring one job more over its
//! connection, for which room is kept. A session's seat comes back where its connection ends and no other is handed on. So all seats are
//! there a second after the close, and `finish` comes.

ghost use Rattle.std.specs.Prelude.{◌≡◌};
ghost use Rattle.std.specs.Thread.{IsSend};
ghost use Rattle.server_house.specs.Lines.{TellsRotations};

use log::Log;
use lpd_commands::OctetWrite;
use printer_devices::OpenedPlace;
use server_board::{Board, Presenter};
use server_care::{Care, Counter};
use server_clients::{Answering, Gate, Porter, announce_all};
use server_commands::Commander;
use server_feeding::Feeding;
use server_house::{
    Host, House, HouseLedger, HouseSeat, PrintingSeat, Roles, Seats, ServerFault, serves_at,
};
use server_printers::Printing;
use server_start::{join_all, keep};
use server_watcher::watch;
use std::alloc::Global;
use std::fs::{File, Files};
use std::net::{Net, TcpListener, TcpStream};
use std::rt::Clock;
use std::sync::Wait;
use std::thread;
use std::thread::{JoinHandle, Scope, Threads};

/// Threads that were started, most of which give their seats back.
#[derive(Drop)]
struct Crew<E: HouseLedger> {
    answering: Vec<JoinHandle<HouseSeat<E>>>,
    looking: Vec<JoinHandle<HouseSeat<E>>>,
    printing: Vec<JoinHandle<PrintingSeat<E>>>,
    steward: Option<JoinHandle<(HouseSeat<E>, Counter)>>,
    // Who needs no seat: the account's keeper, and who shows the status, where it is shown.
    seatless: Vec<JoinHandle<()>>,
    // Who writes the account's segments, where they become files.
    archiving: Vec<JoinHandle<()>>,
    // Who removes the files of kept jobs that have ended, where jobs are kept.
    sweeping: Vec<JoinHandle<()>>,
    // All were started.
    is_whole: bool,
}

/// What comes in and goes out: what single threads of a server own.
#[derive(Drop)]
pub(crate) struct Entrance {
    /// The port that is listened at.
    pub(crate) port: u16,
    pub(crate) gate: Gate,
    /// What the printers print to, by their numbers, from 1.
    pub(crate) places: Vec<OpenedPlace>,
    pub(crate) counter: Counter,
    /// Where the status is asked for, if it is shown.
    pub(crate) board: Option<Box<Board>>,
}

/// What comes back once all threads have ended: the seats, and what waits for the server's end.
#[derive(Drop)]
pub(crate) struct Returned<E: HouseLedger> {
    pub(crate) seats: Seats<E>,
    pub(crate) counter: Option<Counter>,
}

/// Closes the spool once nothing is left to do, or nothing is waited for any more: who looks after it or at it ends.
fn close_spool<R: Files<File = File> + Clock + Log + Wait, E: HouseLedger>(
    house: House<'_, '_, R, E>,
    seat: &mut HouseSeat<E>,
) {
    let House { spool, hall } = house;
    let (feeding, care) = (Feeding { spool, hall }, Care { spool, hall });
    for _ in hall.rt.forever() {
        feeding.await_fed();
        care.wait_until_done();
        // A printer may have given a job back meanwhile.
        if !feeding.has_more() {
            break;
        }
    }
    care.tell_all_lost();
    spool.close(hall.rt, seat);
    hall.ending.close();
    hall.oversight.wake_steward();
    hall.close_shelf();
    Presenter { spool, hall }.end_showing();
}

impl<E: HouseLedger + Send + Sync> Crew<E> {
    /// No thread was started.
    fn new(alloc: Global) -> Crew<E> {
        Crew {
            answering: Vec::new(alloc),
            looking: Vec::new(alloc),
            printing: Vec::new(alloc),
            steward: None,
            seatless: Vec::new(alloc),
            archiving: Vec::new(alloc),
            sweeping: Vec::new(alloc),
            is_whole: true,
        }
    }

    /// Starts a thread for each printer, which has what that prints to. The thread opens connections and, in a folder, files by name:
    /// hence the condition on `R::Dir`, without which the borrow checker doesn't know that files' names may be shared.
    fn start_printers<
        's,
        R: Files<File = File>
            + Net<Listener = TcpListener, Stream = TcpStream>
            + Clock
            + Log
            + Wait
            + Sync,
        N,
    >(
        &mut self,
        scope: &Scope<'s, N>,
        house: House<'s, '_, R, E>,
        seats: Vec<PrintingSeat<E>>,
        places: Vec<OpenedPlace>,
    )
    where
        R::Dir: Send + Sync,
    {
        for (seat, opened) in seats.into_iter().zip(places) {
            let thread = scope.spawn(move || Printing::new(house).print_all(seat, opened));
            self.is_whole &= keep(&mut self.printing, thread);
        }
    }

    /// Starts a thread for each session.
    fn start_sessions<'s, R: Files<File = File> + Clock + Log + Wait + Sync, N>(
        &mut self,
        scope: &Scope<'s, N>,
        house: House<'s, '_, R, E>,
        seats: Vec<HouseSeat<E>>,
    )
    where
        R::Dir: Send + Sync,
    {
        let House { spool, hall } = house;
        for seat in seats {
            let serves = serves_at(seat.number());
            let thread = scope.spawn(move || Answering { spool, hall }.answer_all(seat, serves));
            self.is_whole &= keep(&mut self.answering, thread);
        }
    }

    /// Starts the feeder, the watcher and the account's keeper; where segments become files who writes these, and where jobs are kept who
    /// removes the files of those that have ended.
    fn start_keepers<'s, R: Files<File = File> + Clock + Log + Wait + Sync, N>(
        &mut self,
        scope: &Scope<'s, N>,
        house: House<'s, '_, R, E>,
        feeder: HouseSeat<E>,
        watcher: HouseSeat<E>,
    )
    where
        R::Dir: Send + Sync,
    {
        let House { spool, hall } = house;
        let thread = scope.spawn(move || Feeding { spool, hall }.feed_all(feeder));
        self.is_whole &= keep(&mut self.looking, thread);
        let thread = scope.spawn(move || watch(house, watcher));
        self.is_whole &= keep(&mut self.looking, thread);
        let thread = scope.spawn(move || house.keep_account());
        self.is_whole &= keep(&mut self.seatless, thread);
        if hall.archive.is_some() {
            let thread = scope.spawn(move || hall.archive_all());
            self.is_whole &= keep(&mut self.archiving, thread);
        }
        if hall.begin_sweeping() {
            let thread = scope.spawn(move || hall.sweep_all());
            self.is_whole &= keep(&mut self.sweeping, thread);
        }
    }

    /// Starts the steward, and who shows the status where it is shown.
    fn start_care<'s, R: Files<File = File> + Clock + Log + Wait + Sync, N>(
        &mut self,
        scope: &Scope<'s, N>,
        house: House<'s, '_, R, E>,
        steward: HouseSeat<E>,
        reached: (Counter, Option<Box<Board>>),
    )
    where
        R::Dir: Send + Sync,
    {
        let House { spool, hall } = house;
        let (counter, board) = reached;
        let commands = Commander { spool, hall };
        let thread = scope.spawn(move || Care { spool, hall }.look_after(
            steward, counter, commands,
        ));
        self.steward = thread.ok();
        self.is_whole &= self.steward.is_some();
        if let Some(board) = board {
            let thread = scope.spawn(move || Presenter { spool, hall }.show_all(Box::into_inner(
                board,
            )));
            self.is_whole &= keep(&mut self.seatless, thread);
        }
    }

    /// Joins the threads of sessions that have ended, closes the spool once nothing is left to do, or
    /// nothing is waited for any more, and joins the others: their seats. One is missing where memory
    /// for it is refused.
    fn close<R: Files<File = File> + Clock + Log + Threads + Wait>(
        self,
        house: House<'_, '_, R, E>,
        seat: HouseSeat<E>,
    ) -> Returned<E> {
        let Crew {
            answering,
            looking,
            printing,
            steward,
            seatless,
            archiving,
            sweeping,
            ..
        } = self;
        let hall = house.hall;
        let (rt, alloc) = (hall.rt, hall.alloc);
        let mut seat = seat;
        let (mut sessions, mut printers) = (Vec::new(alloc), Vec::new(alloc));
        join_all(rt, answering, &mut sessions);
        close_spool(house, &mut seat);
        for thread in seatless {
            thread.join(rt);
        }
        join_all(rt, looking, &mut sessions);
        join_all(rt, printing, &mut printers);
        let _ = sessions.push(seat);
        let mut counter = None;
        if let Some(steward) = steward {
            let (seat, given_back) = steward.join(rt);
            let _ = sessions.push(seat);
            counter = Some(given_back);
        }
        // Nobody rotates the account any more.
        hall.end_archiving();
        for thread in archiving {
            thread.join(rt);
        }
        // No job ends any more.
        hall.end_sweeping();
        for thread in sweeping {
            thread.join(rt);
        }
        let seats = Seats { sessions, printers };
        Returned { seats, counter }
    }
}

/// What `work` does, in the scope of its threads.
fn work_in<
    's,
    R: Files<File = File>
        + Net<Listener = TcpListener, Stream = TcpStream>
        + Clock
        + Log
        + Threads
        + Wait
        + Sync,
    E: HouseLedger + Send + Sync,
    N,
    W: OctetWrite,
>(
    house: House<'s, '_, R, E>,
    scope: &Scope<'s, N>,
    roles: Roles<E>,
    entrance: Box<Entrance>,
    output: &mut W,
) -> (Result<(), ServerFault>, Returned<E>)
where
    R::Dir: Send + Sync,
    ensures { TellsRotations (W.written output.old) (W.faults output.old)
        (W.written output.new) (W.faults output.new) result.0 }
{
    let Roles {
        porter,
        watcher,
        steward,
        feeder,
        sessions,
        printers,
    } = roles;
    let Entrance {
        gate,
        places,
        counter,
        board,
        ..
    } = Box::into_inner(entrance);
    let hall = house.hall;
    let mut crew = Crew::new(hall.alloc);
    crew.start_printers(scope, house, printers, places);
    crew.start_sessions(scope, house, sessions);
    crew.start_keepers(scope, house, feeder, watcher);
    crew.start_care(scope, house, steward, (counter, board));
    let mut porter = Porter::new(house, porter, gate);
    let admitted = porter.admit(crew.is_whole, output);
    // However it went, all threads are joined before the seats are looked at.
    let returned = crew.close(house, porter.leave());
    // What was rotated while sessions ended.
    let told = announce_all(hall.rt, hall.alloc, output, admitted, &hall.rotations);
    (told, returned)
}

/// Starts a thread for each role but the porter's, has connections accepted and served, and
/// joins all threads. Answers how that went, and the seats. One is missing where a thread
/// wasn't started, or memory for it was refused.
///
/// Output where a line can't be written; Memory where memory for one is refused.
pub(crate) fn work<R: Host, E: HouseLedger + Send + Sync, W: OctetWrite>(
    house: House<'_, '_, R, E>,
    roles: Roles<E>,
    entrance: Box<Entrance>,
    output: &mut W,
) -> (Result<(), ServerFault>, Returned<E>)
where
    R::Dir: Send + Sync,
    ensures { TellsRotations (W.written output.old) (W.faults output.old)
        (W.written output.new) (W.faults output.new) result.0 }
{
    // The output comes back with the seats, so that it is known what was written.
    let (told, returned, _output) = thread::scope(
        thread::scope_env(),
        house.hall.rt,
        |scope| -> (Result<(), ServerFault>, Returned<E>, &mut W)
            requires { IsSend E.row }
            ensures same { result.2.ghost_name ≡ output.entry.ghost_name }
            ensures tells { TellsRotations (W.written output.entry.now)
                (W.faults output.entry.now) (W.written result.2.now)
                (W.faults result.2.now) result.0 }
        {
            let (told, returned) = work_in(house, scope, roles, entrance, output);
            (told, returned, output)
        },
    );
    (told, returned)
}
