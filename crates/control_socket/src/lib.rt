//! A socket at which a program is told from its own machine, line by line, and the signals that are pending for it.
#![tactic(auto)]

mod accepting;
mod answer;
mod control;
mod line;
mod partings;
mod reaching;
mod signals;
mod socket_file;
mod stages;
mod talks;

pub use control::{AskedLine, ControlSocket, OpenedSocket};
pub use partings::TalkNumber;
pub use reaching::{Waiting, connect_unix};
pub use signals::{Pending, Signals, is_blocked, is_pending};
pub use socket_file::{OpenFault, SocketFile};
pub use stages::Times;
