//! What holds of every core.

ghost use Rattle.spool_core.specs.Headline.{HeadlineStands};

/// Whatever calls were made of a core, this holds of its history: of each job the first places were handed to a printer,
/// in print order, each once and as it was put, and all of them where the job is done; one sender's jobs in one queue left
/// in order of acceptance, and what was handed of them is the join of the first places of each, with none of a job that
/// wasn't received; nothing left after a job's end or the close; the pages add up, and the held jobs have a finishing order
/// that keeps each sender's order.
///
/// That some legal history leaves a core is told by [`Core::held`](crate::Core::held).
pub fn headline_stands()
    ensures { HeadlineStands }
{}
