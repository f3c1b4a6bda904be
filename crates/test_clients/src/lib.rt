//! What clients of a server over sockets do, as rows tell it, and what stands about them: directories of printers' files, a pipe that is full
//! in the place of one, and a terminal that a server writes to. It stands on no server.
//!
//! Whoever calls it looks at what it answers: None where what a line says didn't come to pass, or memory is refused.
#![tactic(auto)]

mod acts;
mod clients;
mod long_jobs;
mod pipe;
mod place;
mod terminal;

pub use acts::{Clients, octets_in};
pub use clients::{
    LIMIT_SECONDS, ask_from, connect, is_answered, is_ended, octets_of, send, send_more, waits,
    write,
};
pub use long_jobs::send_jobs;
pub use pipe::Pipe;
pub use place::{make, path, printed, remove};
pub use terminal::{ENDLESS, Output, Paper, Terminal};
