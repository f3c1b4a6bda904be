//! How pages leave a spool.

ghost use Rattle.spool_laws.specs.Leaving.{AcceptedAlone, AllPlacesOfDone, DoneForTheLastPlace, FirstPlacesInOrder, InOrderOfAcceptance, JobsLeaveJoined, NothingAfterTheClose, NothingAfterTheEnd};

/// Nothing is handed to a printer after the close, whatever a page holds.
pub fn nothing_after_the_close<C>()
    ensures { NothingAfterTheClose C }
{}

/// No page of a job is handed to a printer after the job's end.
pub fn nothing_after_the_end<C>()
    ensures { NothingAfterTheEnd C }
{}

/// When a page was printed, "done" is said exactly for the last place of a job that had not ended, and "ended"
/// exactly where the job had ended.
pub fn done_for_the_last_place<C>()
    ensures { DoneForTheLastPlace C }
{}

/// Of each job the first places are handed, in order, each once and as it was put, and all of them where the job is
/// done. When a page of a job is handed, each earlier job of the same sender and queue is gone.
pub fn leave_in_order<C>()
    ensures places { FirstPlacesInOrder C }
    ensures done { AllPlacesOfDone C }
    ensures by_acceptance { InOrderOfAcceptance C }
{}

/// For each sender and queue, what was handed of their jobs, in the order in which it was handed, is the join, by rising
/// number over the accepted ones, of the first places of each: all of them where the job is done, none where it wasn't
/// received or an earlier one of that sender and queue is held. Nothing is handed but of accepted jobs.
pub fn leave_joined<C>()
    ensures joins { JobsLeaveJoined C }
    ensures accepted { AcceptedAlone C }
{}
