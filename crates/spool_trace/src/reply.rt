//! What a spool of many sessions replies.

use lpd_values::{Octets, Refusal};
use spool_calls::Progress;
use spool_requests::{Answer, RequestKind};

/// A page that was handed to a printer.
#[derive(Drop)]
pub struct ShownPage {
    /// The number of its job.
    pub job: u64,
    /// Its place in the job's print order, from 0.
    pub place: u64,
    /// The number of its file in the job, in order of beginning, from 0.
    pub file: u64,
    /// Its number in the file, from 0.
    pub number: u64,
    /// The octets on it.
    pub octets: Octets,
}

/// What a printer was given.
#[derive(Drop)]
pub enum Given {
    /// Its next page.
    Page(ShownPage),
    /// There is nothing to print.
    Nothing,
    /// A page failed at it, and its queue wasn't started since.
    Stopped,
    /// It holds a page already.
    Busy,
    /// The spool is closed.
    Closed,
}

/// What a session did in a turn.
#[derive(Drop)]
pub enum Deed {
    /// Nothing: more octets have to arrive.
    Waited,
    /// It made a request of this kind, and was answered so. What it requested is read from the octets that arrived. A
    /// text that it was told was written.
    Asked(RequestKind, Answer),
    /// It wrote the octet 00.
    Acked,
    /// It wrote the octet of this refusal, and is over.
    Refused(Refusal),
    /// It had done all, and is over.
    Ended,
}

/// The reply to a step.
#[derive(Drop)]
pub enum Reply {
    /// The number of the new session.
    Connected(usize),
    /// The octets wait to be read.
    Taken,
    /// What the session did.
    Turned(Deed),
    /// The session is over, and its job in hand was aborted.
    Broken,
    /// What the printer was given.
    Gave(Given),
    /// The printed page came back, and this is said of its job.
    Printed(Progress),
    /// The page came back, its job has ended, and the printer is stopped.
    Failed,
    /// The spool is closed.
    Closed,
    /// The session is over.
    Gone,
    /// No session has this number, or no printer.
    NoSuch,
    /// The printer holds no page.
    NoPage,
    /// Memory was refused, and nothing happened.
    Memory,
}
