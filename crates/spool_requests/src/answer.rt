//! What a session asks, and what it is answered.

ghost use Rattle.std.specs.Prelude.{◌≡◌, Ok};
ghost use Rattle.spool_requests.specs.Follows.{kept_by};

use lpd_values::{Octets, Refusal};
use spool_calls::{Receipt, ReturnedControl};

/// Which kind of request a session makes.
#[derive(Clone, Copy, Debug, PartialEq, Eq)]
pub enum RequestKind {
    /// Whether a queue takes jobs.
    Queue,
    /// A new job.
    Open,
    /// A data file begins.
    BeginFile,
    /// An empty page.
    Page,
    /// A page of the open file was filled.
    Filled,
    /// The open file has ended.
    EndFile,
    /// The control file came.
    Control,
    /// The job in hand is to be aborted.
    Abort,
    /// The stopped printers of a queue are to be started.
    Start,
    /// The state of a queue.
    State,
    /// Jobs of a queue are to be removed.
    Remove,
}

/// What the spool answers to a request of a session.
#[derive(Drop)]
pub enum Answer {
    /// It was done, or may be done.
    Yes,
    /// The job was accepted, with this number.
    Accepted(u64),
    /// An empty page for so many octets was lent.
    Lent(usize),
    /// No page is lent now: the same request comes again.
    Later,
    /// The file was kept, and something of the job is still missing.
    Stored,
    /// The file was kept, and the job is whole.
    Received,
    /// The text that is written for it.
    Told(Octets),
    /// It is refused, and the session is over.
    Refused(Refusal),
}

/// Yes, or the refusal.
impl From<Result<(), Refusal>> for Answer {
    ghost use Rattle.std.specs.Prelude.{◌≡◌};
    ghost use Rattle.spool_requests.specs.Follows.{done_by};

    ghost from_gives = { λ outcome answer. answer ≡ done_by outcome };

    fn from(outcome: Result<(), Refusal>) -> Answer {
        match outcome {
            Ok(()) => Answer::Yes,
            Err(refusal) => Answer::Refused(refusal),
        }
    }
}

/// Whether the job is whole.
fn kept(receipt: Receipt) -> Answer
    ensures { result ≡ kept_by (Ok receipt) }
{
    match receipt {
        Receipt::Stored => Answer::Stored,
        Receipt::Received => Answer::Received,
    }
}

/// Whether the job is whole, or the refusal.
impl From<Result<Receipt, Refusal>> for Answer {
    ghost use Rattle.std.specs.Prelude.{◌≡◌};
    ghost use Rattle.spool_requests.specs.Follows.{kept_by};

    ghost from_gives = { λ outcome answer. answer ≡ kept_by outcome };

    fn from(outcome: Result<Receipt, Refusal>) -> Answer {
        match outcome {
            Ok(receipt) => kept(receipt),
            Err(refusal) => Answer::Refused(refusal),
        }
    }
}

/// Whether the job is whole, or why its control file was refused.
impl From<Result<Receipt, ReturnedControl>> for Answer {
    ghost use Rattle.std.specs.Prelude.{◌≡◌};
    ghost use Rattle.spool_requests.specs.Follows.{controlled_by};

    ghost from_gives = { λ outcome answer. answer ≡ controlled_by outcome };

    fn from(outcome: Result<Receipt, ReturnedControl>) -> Answer {
        match outcome {
            Ok(receipt) => kept(receipt),
            Err(returned) => Answer::Refused(returned.refusal),
        }
    }
}

/// The text, or the refusal.
impl From<Result<Octets, Refusal>> for Answer {
    ghost use Rattle.std.specs.Prelude.{◌≡◌};
    ghost use Rattle.spool_requests.specs.Follows.{told_by};

    ghost from_gives = { λ outcome answer. answer ≡ told_by outcome };

    fn from(outcome: Result<Octets, Refusal>) -> Answer {
        match outcome {
            Ok(text) => Answer::Told(text),
            Err(refusal) => Answer::Refused(refusal),
        }
    }
}
