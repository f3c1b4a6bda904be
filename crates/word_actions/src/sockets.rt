//! Whether a server could make its control socket is said.

ghost use Rattle.std.specs.Prelude.{◌≡◌, ◌≢◌, IfErr, IfOk, OnOk, string_bytes};
ghost use Rattle.lpd_commands.specs.Ends.{Writes};
ghost use Rattle.word_actions.specs.Folders.{socket_line};
ghost use Rattle.word_actions.specs.Order.{write_faults};
ghost use Rattle.word_actions.specs.Status.{status_of};

use crate::fault::ActionFault;
use crate::files::print;
use control_socket::{Waiting, connect_unix};
use log::{Log, info};
use lpd_commands::OctetWrite;
use program_edge::tell_cause;
use std::alloc::{AllocError, Global};
use std::fs;
use std::fs::Files;
use std::io::{self, ErrorKind};
use std::net::Net;
use std::os::unix::fs::FileTypeExt;
use std::path::Path;

/// The part of the program that tells the log why, by which a log can choose its lines.
pub(crate) const PART: &str = "lpd_words::sockets";

/// What stands at a path where a server is to make its control socket.
enum Found {
    /// Nothing, or a socket at which nobody answers, which a server takes over.
    Free,
    /// A socket at which a server answers.
    Answered,
    /// A socket at which a process listens, and all places in its backlog are taken.
    Full,
    /// The system says that no socket can be made there.
    Failed(io::Error),
}

/// The folder in which a file of this path stands or would stand.
fn folder_of(path: &str) -> &str {
    match Path::new(path).parent() {
        Some(above) if !above.as_str().is_empty() => above.as_str(),
        _ => ".",
    }
}

/// What stands at this path, of which nothing is made or changed, and for which nothing is waited: a server that answers there sees a
/// connection that ends.
fn look<R: Files, N: Net>(rt: &R, host: &N, path: &str) -> Found {
    let error = match connect_unix(host, path, Waiting::Never) {
        Ok(_) => return Found::Answered,
        Err(error) => error,
    };
    match error.kind() {
        ErrorKind::WouldBlock => Found::Full,
        ErrorKind::NotFound => match rt.open_dir(folder_of(path)) {
            Ok(_) => Found::Free,
            Err(error) => Found::Failed(error),
        },
        ErrorKind::ConnectionRefused => match fs::symlink_metadata(rt, path) {
            Ok(found) if found.file_type().is_socket() => Found::Free,
            _ => Found::Failed(error),
        },
        _ => Found::Failed(error),
    }
}

/// The line that says that a control socket could be made.
fn socket_line(alloc: Global, path: &str) -> Result<String, AllocError>
    ensures { IfOk result (λ line. string_bytes line ≡ socket_line path.now) }
{
    format!(in alloc; "control {path} will be made\n")
}

/// Says that a server could make its control socket at this path. Answers `Socket` where it couldn't, of which the log is
/// told why, `WriteFile`, and `Memory`. The socket is looked for by `host`, since a logger hands no Unix sockets on.
pub(crate) fn check_socket<R: Files + Log, N: Net, W: OctetWrite>(
    alloc: Global,
    rt: &R,
    host: &N,
    path: &str,
    output: &mut W,
) -> Result<(), ActionFault>
    ensures printed { OnOk result
        (Writes (W.written output.old) (W.written output.new) (socket_line path.now)) }
    ensures write_fault { W.faults output.new ≡ write_faults (W.faults output.old) result }
    ensures fault { IfErr result (λ fault. status_of fault ≢ 1) }
{
    match look(rt, host, path) {
        Found::Free => return print(output, socket_line(alloc, path)?.as_bytes()),
        Found::Answered => info!(rt; target: PART, "{path}: a server answers at the path"),
        Found::Full => {
            info!(rt; target: PART, "{path}: a process listens at the path and takes no more connections");
        }
        Found::Failed(error) => tell_cause(rt, &path, Some(error)),
    }
    Err(ActionFault::Socket(String::from_str(alloc, path)?))
}
