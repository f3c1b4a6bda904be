//! How the sessions of a trace are read.

ghost use Rattle.spool_trace.specs.Reading.{AdvanceFollows, ArrivalFollows, MemoryChangesNothing, OutputsAreReading};
ghost use Rattle.spool_trace.specs.Reading.{ReaderIsAtDue, SessionsAreRead, UnreadIsTheEnd};

/// What each session of a trace did leads to where it is in the reading of what arrived, and where nothing is due to
/// it, it is that reading.
pub fn sessions_are_read()
    ensures so_far { SessionsAreRead }
    ensures whole { OutputsAreReading }
{}

/// A step that was answered Memory changes nothing.
pub fn memory_changes_nothing()
    ensures { MemoryChangesNothing }
{}

/// How a reader of octets stands where its session does: the same is due to both, and it goes on to stand there.
pub fn reader_follows()
    ensures due { ReaderIsAtDue }
    ensures advance { AdvanceFollows }
    ensures arrival { ArrivalFollows }
{}

/// What a session has not read yet is the end of what arrived.
pub fn unread_is_the_end()
    ensures { UnreadIsTheEnd }
{}
