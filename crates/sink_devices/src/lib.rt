//! Real devices below the sinks of printers: a printer at an address of the network, and a folder of files.
#![tactic(auto)]

mod causes;
mod connection;
mod errand;
mod file_folder;
mod folder_names;
mod moments;
mod pauses;
mod readiness;
mod tcp_dial;
mod unended;
mod waiting;

pub use causes::Causes;
pub use errand::Errand;
pub use file_folder::{FileFolder, try_folder};
pub use folder_names::{FolderNames, names_of};
pub use pauses::{Pauses, pause_seconds};
pub use tcp_dial::TcpDial;
pub use unended::Unended;
