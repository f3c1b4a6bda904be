//! A request, carried out.

ghost use Rattle.std.specs.Prelude.{◌≡◌, ◌∷◌, [], None, true, IsSome};
ghost use Rattle.receiver.specs.Script as script;
ghost use Rattle.receiver.specs.Script.{Request};
ghost use Rattle.receiver.specs.Reading.{IsFitting};
ghost use Rattle.receiver.specs.View.{BeginsSome, asked, outputs};
ghost use Rattle.spool_trace.specs.Sessions.{reply_of};
ghost use Rattle.request_calls.specs.Pages.{IsLentPage, blank, page_with};

use crate::requests::Requests;
use lpd_values::Refusal;
use page_pool::PageTicket;
use receiver::Need;
use spool_calls::{Asked, ReturnedPage};
use spool_requests::Answer;

/// An answer, with the page that comes with it: the one that was lent, or the one that was to be
/// put and was refused.
pub struct Outcome {
    pub answer: Answer,
    pub page: Option<PageTicket>,
}

impl Outcome {
    /// An answer with no page.
    fn of(answer: Answer) -> Outcome
        ensures answer { result.answer ≡ answer }
        ensures page { result.page ≡ None }
    {
        Outcome { answer, page: None }
    }
}

/// Carries out a request of a session, whose host has this number and whose last job has this one.
/// A data file that it begins has octets.
pub fn carry_out<T: Requests>(spool: &mut T, sender: u32, job: u64, request: Need) -> Outcome
    requires asks { IsSome (asked request) }
    requires begins { BeginsSome request }
    ensures carries { (r : Request) → outputs request ≡ script.Asked r ∷ []
        → T.carries spool.old sender job r result.answer spool.new }
    ensures page { (r : Request) → outputs request ≡ script.Asked r ∷ []
        → result.page ≡ blank (page_with r result.answer) }
    ensures lent { IsLentPage result.answer result.page }
    ensures fits { IsFitting (asked request) (reply_of result.answer) }
{
    match request {
        Need::Queue(queue) => Outcome::of(Answer::from(spool.admits(queue.as_slice()))),
        Need::Open(queue) => Outcome::of(match spool.open(sender, queue.as_slice()) {
            Ok(job) => Answer::Accepted(job),
            Err(refusal) => Answer::Refused(refusal),
        }),
        Need::BeginFile { name, count } => {
            Outcome::of(Answer::from(spool.begin_file(job, name, count)))
        }
        Need::Page => match spool.ask(job) {
            Ok(Asked::Page(ticket)) => Outcome {
                answer: Answer::Lent(ticket.page_size()),
                page: Some(ticket),
            },
            Ok(Asked::Later) => Outcome::of(Answer::Later),
            Err(refusal) => Outcome::of(Answer::Refused(refusal)),
        },
        Need::Filled(page) => match spool.put(job, page) {
            Ok(()) => Outcome::of(Answer::Yes),
            Err(ReturnedPage { page }) => Outcome {
                answer: Answer::Refused(Refusal::NotOpen),
                page: Some(page.unseal()),
            },
        },
        Need::EndFile => Outcome::of(Answer::from(spool.end_file(job))),
        Need::Control(control) => Outcome::of(Answer::from(spool.control(job, control))),
        Need::Abort => Outcome::of(match spool.abort(job, None) {
            Ok(()) => Answer::Yes,
            Err(returned) => {
                returned.surrender();
                Answer::Refused(Refusal::NotOpen)
            }
        }),
        Need::Start(queue) => Outcome::of(Answer::from(spool.start(queue.as_slice()))),
        Need::State { queue, list, long } => Outcome::of(Answer::from(spool.state(
            queue.as_slice(),
            list.as_slice(),
            long,
        ))),
        Need::Remove { queue, agent, list } => Outcome::of(Answer::from(spool.remove(
            queue.as_slice(),
            agent.as_slice(),
            list.as_slice(),
        ))),
        Need::More | Need::Ack | Need::Fault(_) | Need::Ended => unreachable!(),
    }
}
