//! Where the status of a server is asked for, and what is known of who shows it.

ghost use Rattle.std.specs.Prelude.{◌≡◌, IfErr};
ghost use Rattle.program_edge.specs.Openings.{IsUnopened};
ghost use Rattle.program_edge.specs.declared.opening.StartPart.{StartPart};
ghost use Rattle.program_edge.specs.declared.opening.StartPart.TheVariants.{Status};

use crate::drawn::Drawn;
use connection_lobby::{Doorway, Listening, Lobby};
use log::Log;
use mio::Waker;
use program_edge::{Settings, StartFault, StartPart, tell_cause};
use server_counts::LastHour;
use std::alloc::{AllocError, Global};
use std::net::{Net, SocketAddr, TcpListener, TcpStream};

/// How many connections may wait until they are taken.
pub(crate) const PLACES: u64 = 64;

/// The name by which a browser on this machine asks.
const LOCALHOST: &str = "localhost";

/// Where the status is asked for, and what is known there alone.
#[derive(Drop)]
pub struct Board {
    pub lobby: Lobby,
    /// The name by which browsers may ask, beside the machine's addresses and `localhost`.
    pub name: String,
    pub hour: LastHour,
    /// From which second on the next look is due.
    pub due: u64,
    /// The milliseconds from the server's start until the clock was last looked at.
    pub now_ms: u64,
    /// What was drawn last while many asked.
    pub(crate) drawn: Option<Drawn>,
}

/// Who may come to the board, where no proxy is believed whom it comes for, and its name. AllocError where memory for them is refused.
fn door_of(alloc: Global, settings: &Settings<'_>) -> Result<(Doorway, String), AllocError> {
    let allowed = Vec::from_slice(alloc, settings.allowed.as_slice())?;
    let name = String::from_str(alloc, settings.status_host.unwrap_or(LOCALHOST))?;
    Ok((Doorway::new(alloc, allowed, Vec::new(alloc)), name))
}

/// A board where the settings have a place for it, and what wakes its thread.
///
/// Opening where the system doesn't give what it takes, of which the log is told why too; Memory.
pub fn open_board<R: Log + Net<Listener = TcpListener, Stream = TcpStream>>(
    rt: &R,
    alloc: Global,
    settings: &Settings<'_>,
) -> Result<Option<(Box<Board>, Waker)>, StartFault>
    ensures { IfErr result (IsUnopened (λ (part : StartPart). part ≡ Status)) }
{
    let Some(place) = settings.status else {
        return Ok(None);
    };
    let Ok((doorway, name)) = door_of(alloc, settings) else {
        return Err(StartFault::Memory);
    };
    let address = SocketAddr::from((place.address, place.port));
    let listening = Listening {
        address,
        places: PLACES,
        connections: u64::MAX,
        awaits_lines: false,
        doorway,
    };
    match Lobby::new(rt, alloc, listening) {
        Ok((lobby, waker, _port)) => {
            let board = Board {
                lobby,
                name,
                hour: LastHour::new(alloc),
                due: 0,
                now_ms: 0,
                drawn: None,
            };
            // It is large: whoever holds it beside what may fail lets it go by one call.
            let Ok(board) = Box::new(alloc, board) else {
                return Err(StartFault::Memory);
            };
            Ok(Some((board, waker)))
        }
        Err(error) => {
            tell_cause(rt, &address, Some(error));
            Err(StartFault::of(alloc, StartPart::Status, &address, &error))
        }
    }
}
