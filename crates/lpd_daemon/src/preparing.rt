//! What a server opens at its start, before its spool is made.

use crate::crew::Entrance;
use config_values::Config;
use connection_lobby::{Doors, Lobby};
use mio::Waker;
use printer_devices::pipes_of;
use program_edge::{Settings, StartFault};
use server_board::{Board, open_board};
use server_care::Counter;
use server_clients::{Gate, listen};
use server_house::{Hall, Host, Oversight, Showing, sessions_of};
use server_start::{Stores, Takers, check_descriptors, keep_room, open_stores};
use std::alloc::{AllocError, Global};
use std::fs::File;
use std::net::SocketAddr;

/// A hall knows of the thread of a board, where there is one.
fn show_at<R>(hall: &mut Hall<'_, R>, board: Option<(Box<Board>, Waker)>) -> Option<Box<Board>> {
    let (board, waker) = board?;
    hall.showing = Some(Showing::new(waker));
    Some(board)
}

/// A value in a box. A large one costs those who hold it less so: letting it go is one call. Memory where that is refused.
fn boxed<T: Drop>(alloc: Global, value: T) -> Result<Box<T>, AllocError> {
    Box::new(alloc, value).map_err(AllocError::from)
}

/// Who looks after a server has these pipes of its printers, and is woken so.
fn oversee(oversight: &mut Oversight, pipes: Vec<Option<File>>, waker: Option<Waker>) {
    oversight.pipes = pipes;
    oversight.waker = waker;
}

/// Where a server listens, and where it is looked at.
#[derive(Drop)]
struct Doorsteps {
    lobby: Lobby,
    port: u16,
    /// Where its status is asked for, if it is shown, and what wakes who answers there.
    board: Option<(Box<Board>, Waker)>,
    /// The pipes of its printers.
    pipes: Vec<Option<File>>,
}

/// Listens, for who asks for the status first. What wakes who lets connections in comes with it.
///
/// Opening where it can't listen, of which the log is told why too; Memory.
fn open_doors<R: Host>(
    rt: &R,
    alloc: Global,
    settings: &mut Settings<'_>,
    pipes: Vec<Option<File>>,
    takers: &mut Takers,
) -> Result<(Box<Doorsteps>, Waker), StartFault> {
    let board = open_board(rt, alloc, settings)?;
    takers.is_shown = board.is_some();
    let (lobby, waker, port) = listen(rt, alloc, settings, takers.kept())?;
    let doorsteps = Doorsteps {
        lobby,
        port,
        board,
        pipes,
    };
    Ok((boxed(alloc, doorsteps)?, waker))
}

/// Puts what was opened into a hall, but for what single threads own.
fn furnish<'a, R: Host>(
    hall: &mut Hall<'a, R>,
    stores: Stores<'a, R>,
    doorsteps: Doorsteps,
    counter: Counter,
    doors: Doors,
    (settings, config): (&Settings<'_>, &Config),
) -> Entrance {
    let Doorsteps {
        lobby,
        port,
        board,
        pipes,
    } = doorsteps;
    let mut counter = counter;
    let places = stores.put_into(hall);
    let board = show_at(hall, board);
    if counter.is_open() || board.is_some() {
        hall.oversight.watch(hall.rt);
    }
    oversee(&mut hall.oversight, pipes, counter.take_waker());
    let room = keep_room(hall, settings, config);
    let gate = Gate {
        lobby,
        doors,
        every: settings.rotate,
        room,
    };
    Entrance {
        port,
        gate,
        places,
        counter,
        board,
    }
}

/// As `prepare`, and the settings stay with who asks.
fn open_and_listen<'a, R: Host>(
    rt: &'a R,
    alloc: Global,
    settings: &mut Settings<'a>,
    config: &Config,
    counter: Counter,
) -> Result<(Box<Hall<'a, R>>, Box<Entrance>), StartFault> {
    // What is large lives in boxes here, since each way out lets all of it go.
    let counter = boxed(alloc, counter)?;
    let stores = open_stores(rt, alloc, settings, config)?;
    let mut takers = Takers {
        printers: config.printer_count(),
        sessions: sessions_of(settings),
        are_kept: stores.kept.is_some(),
        is_archived: stores.archive.is_some(),
        is_watched: counter.is_open(),
        is_shown: false,
    };
    let places = stores.places.as_slice();
    let pipes = pipes_of(alloc, if takers.is_watched { places } else { &[] })?;
    let (doorsteps, waker) = open_doors(rt, alloc, settings, pipes, &mut takers)?;
    let address = SocketAddr::from((settings.bind, doorsteps.port));
    check_descriptors(rt, alloc, address, takers)?;
    let (hall, doors) = Hall::new(rt, alloc, settings, config, waker)?;
    let mut hall = boxed(alloc, hall)?;
    let entrance = furnish(
        &mut *hall,
        Box::into_inner(stores),
        Box::into_inner(doorsteps),
        Box::into_inner(counter),
        doors,
        (settings, config),
    );
    Ok((hall, boxed(alloc, entrance)?))
}

/// Opens all that a server of these settings and this configuration has, and listens: what its threads share beside its spool, and what
/// single ones own. `counter` is what reaches it beside its clients.
///
/// Opening with the first that can't be opened, of which the log is told why too; Memory.
pub(crate) fn prepare<'a, R: Host>(
    rt: &'a R,
    alloc: Global,
    settings: Settings<'a>,
    config: &Config,
    counter: Counter,
) -> Result<(Box<Hall<'a, R>>, Box<Entrance>), StartFault> {
    let mut settings = settings;
    let prepared = open_and_listen(rt, alloc, &mut settings, config, counter);
    settings.let_go();
    prepared
}
