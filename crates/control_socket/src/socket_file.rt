//! The file of a socket: who may connect, whether a server answers there, and whose it is.

ghost use Rattle.std.specs.Prelude.{◌≡◌};
ghost use Rattle.control_socket.specs.declared.socket_file.OpenFault.TheVariants.{System};

use crate::reaching::{Waiting, connect_unix};
use std::alloc::{AllocError, Global};
use std::fmt::Display;
use std::fs::{Files, Metadata, Permissions};
use std::io::ErrorKind;
use std::net::Net;
use std::os::fd::{AsFd, AsRawFd};
use std::os::unix::fs::{FileTypeExt, MetadataExt, PermissionsExt};
use std::os::unix::net::{SocketAddr, UnixListener};
use std::{fmt, fs, io};

/// Its owner and its group may connect.
const MODE: u32 = 0o660;

/// How many connections the system keeps that aren't accepted yet.
const BACKLOG: i32 = 128;

/// Why a socket isn't opened.
#[derive(Debug, Drop)]
pub enum OpenFault {
    /// A server answers at the path.
    Answered,
    /// A process listens at the path, and all places in its backlog are taken.
    Full,
    /// The system doesn't give what it takes, or memory is refused.
    System(io::Error),
}

impl Display for OpenFault {
    fn fmt<W: fmt::Write>(&self, f: &mut fmt::Formatter<W>) -> fmt::Result {
        match self {
            OpenFault::Answered => f.write_str("a server answers at the path"),
            OpenFault::Full => {
                f.write_str("a process listens at the path and takes no more connections")
            }
            OpenFault::System(error) => write!(f, "{error}"),
        }
    }
}

impl From<io::Error> for OpenFault {
    ghost from_gives = { λ error fault. fault ≡ System error };

    fn from(error: io::Error) -> OpenFault {
        OpenFault::System(error)
    }
}

impl From<AllocError> for OpenFault {
    fn from(error: AllocError) -> OpenFault {
        OpenFault::System(io::Error::from(error))
    }
}

/// The file of a socket, as it was made.
#[derive(Drop)]
pub struct SocketFile {
    path: String,
    device: u64,
    inode: u64,
}

/// Whether a socket stands at the path, and no link to one.
fn is_socket<R: Files>(rt: &R, path: &str) -> bool {
    fs::symlink_metadata(rt, path).is_ok_and(|found| found.file_type().is_socket())
}

/// Removes the socket at a path at which nobody answers. `Answered` where somebody does, and `Full` where somebody would at another
/// time: neither is waited for. What is no socket stays.
fn remove_stale<R: Files + Net>(rt: &R, path: &str) -> Result<(), OpenFault> {
    match connect_unix(rt, path, Waiting::Never) {
        Ok(_) => Err(OpenFault::Answered),
        Err(error) if error.kind() == ErrorKind::WouldBlock => Err(OpenFault::Full),
        Err(error) if error.kind() == ErrorKind::NotFound => Ok(()),
        Err(error) if error.kind() == ErrorKind::ConnectionRefused => {
            if is_socket(rt, path) {
                fs::remove_file(rt, path)?;
            }
            Ok(())
        }
        Err(error) => Err(OpenFault::System(error)),
    }
}

/// A socket that has the path, at which nobody can connect yet.
fn bind<R: Files + Net>(rt: &R, path: &str) -> io::Result<UnixListener> {
    let socket = rt.unix_socket()?;
    rt.bind_unix(socket.as_fd(), &SocketAddr::from_pathname(path)?)?;
    Ok(UnixListener::from(socket))
}

/// Sets the mode of a socket's file, and then has it take connections, for which nobody waits. Answers what the system tells of
/// the file.
fn listen<R: Files>(rt: &R, path: &str, listener: &UnixListener) -> io::Result<Metadata> {
    fs::set_permissions(rt, path, Permissions::from_mode(MODE))?;
    let made = fs::symlink_metadata(rt, path)?;
    listener.set_nonblocking(true)?;
    if libc::net::listen(listener.as_raw_fd(), BACKLOG) < 0 {
        return Err(io::Error::from_raw_os_error(os::errno()));
    }
    Ok(made)
}

impl SocketFile {
    /// Makes the socket's file with its mode, in the place of one at which nobody answers, and then has it take connections:
    /// before the mode is set nobody can connect. Two that take over the same file at once may both believe that it is theirs.
    pub(crate) fn make<R: Files + Net>(
        rt: &R,
        alloc: Global,
        path: &str,
    ) -> Result<(SocketFile, UnixListener), OpenFault> {
        let kept = path.to_string(alloc)?;
        remove_stale(rt, path)?;
        let listener = bind(rt, path)?;
        match listen(rt, path, &listener) {
            Ok(made) => {
                let file = SocketFile {
                    path: kept,
                    device: made.dev(),
                    inode: made.ino(),
                };
                Ok((file, listener))
            }
            Err(error) => {
                // The fault that is told is that of the socket.
                let _ = fs::remove_file(rt, path);
                Err(OpenFault::System(error))
            }
        }
    }

    /// Whether the file at the path is the one that was made.
    fn is_own<R: Files>(&self, rt: &R) -> bool {
        fs::symlink_metadata(rt, self.path.as_str()).is_ok_and(|found| {
            found.file_type().is_socket() && found.dev() == self.device && found.ino() == self.inode
        })
    }

    /// Removes the file, where it is still the one that was made.
    pub fn remove<R: Files>(&self, rt: &R) {
        if self.is_own(rt) {
            // Nothing is to be done where it was removed in between.
            let _ = fs::remove_file(rt, self.path.as_str());
        }
    }
}
