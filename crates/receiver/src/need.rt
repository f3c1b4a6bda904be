//! What a receiver needs, and what it is answered.

use control_file::Control;
use lpd_values::{FileName, Octets, Refusal, Words};
use page_pool::{FilledPage, PageTicket};

/// What a receiver needs next. A page that comes with it has to be spent.
pub enum Need {
    /// Nothing is due: all input was consumed, and more octets have to come.
    More,
    /// The octet 00 has to be written.
    Ack,
    /// Asks whether this queue takes jobs. The answer is Yes.
    Queue(Octets),
    /// Asks for a new job for this queue. The answer is Yes.
    Open(Octets),
    /// Asks for a data file of `count` octets, at least one, to begin. The answer is Yes.
    BeginFile {
        name: FileName,
        count: u64,
    },
    /// Asks for an empty page, none of whose octets was consumed yet. The answer is Ticket or Later.
    Page,
    /// Hands out a page of the open file. The answer is Yes.
    Filled(FilledPage),
    /// The open file's last octet was read, and the octet 00 after it. The answer is Stored or Received.
    EndFile,
    /// Hands out the job's control file. The answer is Stored or Received.
    Control(Control),
    /// Asks for the job in hand to be aborted. The answer is Yes.
    Abort,
    /// Asks for the stopped printers of this queue to be started. The answer is Yes, and the session is over.
    Start(Octets),
    /// Asks for the state of a queue. The answer is Yes, and the session is over.
    State {
        queue: Octets,
        list: Words,
        long: bool,
    },
    /// Asks for jobs to be removed. The answer is Yes, and the session is over.
    Remove {
        queue: Octets,
        agent: Octets,
        list: Words,
    },
    /// The octet of this refusal has to be written, and the session is over.
    Fault(Refusal),
    /// The session is over.
    Ended,
}

/// An answer to a need that asks. A ticket that is given is empty.
pub enum Answer {
    Yes,
    Ticket(PageTicket),
    /// No page is lent now: the same question comes again.
    Later,
    /// The file was kept, and the job goes on.
    Stored,
    /// The file was kept, and the job is whole: the next file is one of a new job.
    Received,
    /// The session is over after this refusal.
    Refused(Refusal),
}
