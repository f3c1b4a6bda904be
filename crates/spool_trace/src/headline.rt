//! What holds after every trace whose replies are right.

ghost use Rattle.spool_trace.specs.Headline.{EventsAreLegal, HeadlineHolds, OutlineIsLegal, PagesAddUp};
ghost use Rattle.spool_trace.specs.Headline.{PagesAreAsArrived};

/// The events of a trace are a legal history, and so is their outline, each page by its length and its SHA-256.
pub fn events_are_legal()
    ensures events { EventsAreLegal }
    ensures outline { OutlineIsLegal }
{}

/// The pages of each file of each job are the octets that arrived for it on a session of its sender, cut in pages.
pub fn pages_are_as_arrived()
    ensures { PagesAreAsArrived }
{}

/// Every page place of every job is handed to a printer at most once, in print order, with its octets as they
/// arrived, and exactly once where the job is done; the jobs of one sender in one queue leave in order of acceptance, and
/// what was handed of them is the join of the first places of each, with none of a job that wasn't received; nothing leaves
/// after the end of its job or after the close; and the held jobs have a finishing order that keeps each sender's order.
pub fn headline_holds()
    ensures { HeadlineHolds }
{}

/// Each page of the pool is in the chain of a job, lent to a session, at a printer or free.
pub fn pages_add_up()
    ensures { PagesAddUp }
{}
