//! What a reader of octets needs.

ghost use Rattle.spool_trace.specs.Needs.{AckIsDue, AskIsDue, EndIsDue, MoreIsDue, RefusalIsDue, ShortIsDue};

/// What a reader needs that stands where its session does is what is due to the session, and it stands where the turn
/// leads.
pub fn needs_are_due()
    ensures ask { AskIsDue }
    ensures ack { AckIsDue }
    ensures more { MoreIsDue }
    ensures refusal { RefusalIsDue }
    ensures end { EndIsDue }
    ensures short { ShortIsDue }
{}
