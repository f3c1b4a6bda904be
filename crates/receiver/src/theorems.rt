//! Laws of the session reading. None does anything: each contract is the law.

ghost use Rattle.receiver.specs.Blocks.{OneReading, SomeReading, ShortReading, ReadsFirstLine, ReadsDataBlock, ReadsControlBlock, ReadsAbortBlock, LaterAgain};
ghost use Rattle.receiver.specs.Leads.{LeadsAtStart, LeadsOnArrival, LeadsOnAdvance, LeadsOnReply, LeadsToReading};

/// Where memory is ample, a text and answers have one reading.
pub fn one_reading()
    ensures { OneReading }
{}

/// Where memory is ample, a text and answers have a reading.
pub fn some_reading()
    ensures { SomeReading }
{}

/// Where memory is short, the outputs are that reading, or a beginning of it and then the refusal Memory.
pub fn short_reading()
    ensures { ShortReading }
{}

/// A first line that asks to send jobs, read as a whole.
pub fn first_line()
    ensures { ReadsFirstLine }
{}

/// A data file that is accepted, read as a whole.
pub fn data_block()
    ensures { ReadsDataBlock }
{}

/// A control file that is accepted, read as a whole.
pub fn control_block()
    ensures { ReadsControlBlock }
{}

/// An abort, read as a whole.
pub fn abort_block()
    ensures { ReadsAbortBlock }
{}

/// Later is no answer: the same question comes again.
pub fn later_again()
    ensures { LaterAgain }
{}

/// How a layer above speaks of all that came so far: at the start, and after a piece that arrived, a call of
/// `advance`, a call of `reply`; and what it says where nothing more is due.
pub fn leads()
    ensures at_start { LeadsAtStart }
    ensures arrival { LeadsOnArrival }
    ensures advance { LeadsOnAdvance }
    ensures reply { LeadsOnReply }
    ensures reading { LeadsToReading }
{}
