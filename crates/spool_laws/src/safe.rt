//! That a spool stays safe.

ghost use Rattle.spool_laws.specs.Safety.{StaysSafe};

/// After every history in which each event met its conditions, the held jobs have a finishing order (Habermann): an
/// order in which each job can get the pages and the printer that it may still need from what is free and what the
/// jobs before it give back, and in which the jobs of one sender and queue keep theirs. It needs only that each queue's
/// jobs may hold no more pages than there are, and that each queue has a printer.
pub fn stays_safe<C>()
    ensures { StaysSafe C }
{}
