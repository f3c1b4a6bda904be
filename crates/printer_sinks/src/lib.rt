//! What pages are printed to: a printer on the network, with one connection a job, and a folder, with one file a job.
//!
//! No lock, no thread and no job of a spool is known here: a job is a number and its pages' octets.
#![tactic(auto)]

mod dial;
mod draft;
mod folder;
mod folder_sink;
mod laws;
mod memory_dial;
mod memory_folder;
mod socket;
mod stage;

pub use dial::{ConnectionFault, Dial, Pause};
pub use draft::JobDraft;
pub use folder::{FolderFault, PrinterFolder};
pub use folder_sink::FolderSink;
pub use laws::{no_job_has_two, one_connection_a_job, published_is_whole};
pub use memory_dial::{DialTurn, MemoryConnection, MemoryDial};
pub use memory_folder::{MemoryFile, MemoryPrinterFolder};
pub use socket::SocketSink;
pub use stage::SinkStage;
