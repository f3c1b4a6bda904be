//! How many pages a spool has, and where they are.

ghost use Rattle.spool_laws.specs.Sums.{EachPageHasAPlace, NoKindRunsOver, PagesAddUp};

/// The held jobs never hold more pages than there are, and with the free pages they make up all of them: each page
/// of the pool is in the chain of a job, lent to a session, out at a printer or free. Of no kind, pages or the printers
/// of a queue, is more held than there is.
pub fn pages_add_up<C>()
    ensures all { PagesAddUp C }
    ensures places { EachPageHasAPlace C }
    ensures kinds { NoKindRunsOver C }
{}
