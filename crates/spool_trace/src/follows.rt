//! That the replies follow from what a core answers: what a world of sessions over one core has to show of each step.

ghost use Rattle.spool_trace.specs.Follows.{AckFollows, AskFollows, BreakFollows, CloseFollows, EndFollows};
ghost use Rattle.spool_trace.specs.Follows.{FailFollows, NextFollows, PrintFollows, RefusalFollows, ShortFollows};
ghost use Rattle.spool_trace.specs.Follows.{WaitFollows};

/// What a session does in a turn is right, and the core's history has grown by what it shows: where the core answered
/// its request, where it was refused memory or a refusal was written, where it had done all, and where nothing was
/// asked.
pub fn turns_follow()
    ensures ask { AskFollows }
    ensures short { ShortFollows }
    ensures refusal { RefusalFollows }
    ensures end { EndFollows }
    ensures wait { WaitFollows }
    ensures ack { AckFollows }
{}

/// The same where the connection of a session breaks.
pub fn break_follows()
    ensures { BreakFollows }
{}

/// The same of a printer that is given what is next for it, and of the page that is out at it and comes back: the
/// core takes it, so it is never a foreign one.
pub fn printers_follow()
    ensures next { NextFollows }
    ensures printed { PrintFollows }
    ensures failed { FailFollows }
{}

/// The same of the close.
pub fn close_follows()
    ensures { CloseFollows }
{}
