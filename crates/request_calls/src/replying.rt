//! The answer to a request, given to the session's receiver.

ghost use Rattle.std.specs.Prelude.{◌≡◌, None, if◌then◌else◌};
ghost use Rattle.receiver.specs.Reading.{IsFitting, after_reply};
ghost use Rattle.spool_trace.specs.Sessions.{reply_of};
ghost use Rattle.request_calls.specs.Pages.{IsLentPage, is_lent};

use page_pool::PageTicket;
use receiver::Receiver;
use spool_requests::Answer;

/// Answers the request that waits, and gives back a page that the receiver doesn't take.
pub fn reply(
    receiver: &mut Receiver,
    answer: &Answer,
    page: Option<PageTicket>,
) -> Option<PageTicket>
    requires fits { IsFitting receiver.old.owed (reply_of answer.now) }
    requires lent { IsLentPage answer.now page }
    ensures answered { receiver.new ≡ after_reply receiver.old (reply_of answer.now) }
    ensures page { result ≡ (if is_lent answer.now then None else page) }
{
    match answer {
        Answer::Lent(_) => match page {
            Some(page) => {
                receiver.reply(receiver::Answer::Ticket(page));
                return None;
            }
            None => unreachable!(),
        },
        Answer::Yes | Answer::Accepted(_) | Answer::Told(_) => {
            receiver.reply(receiver::Answer::Yes)
        }
        Answer::Later => receiver.reply(receiver::Answer::Later),
        Answer::Stored => receiver.reply(receiver::Answer::Stored),
        Answer::Received => receiver.reply(receiver::Answer::Received),
        Answer::Refused(refusal) => receiver.reply(receiver::Answer::Refused(*refusal)),
    }
    page
}
