//! What the sessions of a trace have in hand.

ghost use Rattle.spool_trace.specs.Hands.{HeldPagesAreInHand, JobsAreAccepted, JobsDiffer, OtherActsStay};
ghost use Rattle.spool_trace.specs.Hands.{PagesAreLent, PagesAtPrinters};

/// The job that a session has in hand was accepted from its sender, and no other session has it in hand.
pub fn jobs_in_hand()
    ensures accepted { JobsAreAccepted }
    ensures differ { JobsDiffer }
{}

/// A session has a page in hand exactly where one is lent to the job that it has in hand.
pub fn pages_in_hand()
    ensures acts { PagesAreLent }
    ensures held { HeldPagesAreInHand }
{}

/// A page is out at a printer from the reply that gave it to the one with which it came back.
pub fn pages_at_printers()
    ensures { PagesAtPrinters }
{}

/// What is not an act of a job leaves its acts as they were.
pub fn other_acts_stay<C>()
    ensures { OtherActsStay C }
{}
