//! The server: a spool behind a listener on IPv4 (RFC 1179, section 3.1). One thread holds
//! connections until their first line is there and hands them on to threads that serve them, one
//! thread a printer writes the printer's pages to a file, to the network or into a folder, one looks
//! for peers that are gone and starts queues again, one rotates the account where room is kept in
//! it, and one writes its segments where they become files.
#![tactic(auto)]

mod crew;
mod preparing;
mod serving;

pub use control_socket::{OpenFault, SocketFile};
pub use printer_devices::SHARED_FOLDERS;
pub use printer_worker::{PrintSink, SinkFault};
pub use program_edge::{
    FailedOpening, Limits, LogForm, MOST_SESSIONS, PlacedPrinter, PrinterLimits, PrinterPlace,
    Settings, StartPart, StatusPlace,
};
pub use server_care::Counter;
pub use server_folders::{ACCOUNT_LINES, FOLDER_CAUSES};
pub use server_house::ServerFault;
pub use server_notes::JOB_LINES;
pub use serving::{Plan, serve};
