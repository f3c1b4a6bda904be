//! What a server may have meant that doesn't take a job or a question, for people: in a line of the log before the fault's.

ghost use Rattle.std.specs.Prelude.{◌≡◌, option_map};
ghost use Rattle.word_actions.specs.Reasons.{reason_of};

use log::{Log, info};
use lpr_client::SendFault;
use std::net::SocketAddr;

/// The part of the program that tells it, as the log names it.
pub(crate) const PART: &str = "lpd_words::reasons";

/// What a server may have meant that refused by an octet in place of an acknowledgement (RFC 1179, section 5), or went without a word. None
/// where the system has said what went wrong.
fn reason_of(fault: &SendFault) -> Option<&'static str>
    ensures { option_map (λ text. text.now) result ≡ reason_of fault.now }
{
    match fault {
        SendFault::Refused(1) => Some(
            "it won't take this: it has no such queue, or the job is larger than the queue's limit",
        ),
        SendFault::Refused(2) => Some("it can't take this now: try again later"),
        SendFault::Refused(_) => Some("it didn't take this, and gave no known reason"),
        SendFault::Cut => Some(
            "it ended the connection without an answer: it may not let this address in",
        ),
        SendFault::ReadFault | SendFault::WriteFault | SendFault::Memory => None,
    }
}

/// Tells what a server may have meant by whose answer this fault came.
pub(crate) fn tell_reason<R: Log>(rt: &R, server: SocketAddr, fault: &SendFault) {
    if let Some(reason) = reason_of(fault) {
        info!(rt; target: PART, "{server}: {reason}");
    }
}
