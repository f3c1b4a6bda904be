//! Worked traces, against which the definitions are read.

ghost use Rattle.worked_traces.specs.Rows.{AreWrong, BrokenSession, FileArrived, OneJob, OneJobIsRight, TwoSessions};
ghost use Rattle.worked_traces.specs.Asking.{AbortedJob, Copies, FailedPage, RefusedSessions};
ghost use Rattle.worked_traces.specs.MoreRows.{ClosedSession, RemovedJob};
ghost use Rattle.worked_traces.specs.Waiting.{RightReplies, WaitsForPage};

/// One job that arrives in one piece is printed, and the spool is closed.
pub fn one_job()
    ensures { OneJob }
{}

/// Each reply of that trace is the one that is due.
pub fn one_job_is_right()
    ensures { OneJobIsRight }
{}

/// Replies that a step may not get.
pub fn wrong_replies()
    ensures { AreWrong }
{}

/// Two sessions of one sender send a job each, in three pieces.
pub fn two_sessions()
    ensures { TwoSessions }
{}

/// A connection breaks in the middle of a page.
pub fn broken_session()
    ensures { BrokenSession }
{}

/// The pages of that job's file are the octets that arrived, cut in pages.
pub fn file_arrived()
    ensures { FileArrived }
{}

/// The spool is closed while a page is lent to a job.
pub fn closed_session()
    ensures { ClosedSession }
{}

/// A job is removed while a page of it is printed.
pub fn removed_job()
    ensures { RemovedJob }
{}

/// A job prints its file twice: four places, each page at two of them.
pub fn copies()
    ensures { Copies }
{}

/// Sessions are refused, and jobs in hand are aborted by that.
pub fn refused_sessions()
    ensures { RefusedSessions }
{}

/// A sender aborts its job and sends it again.
pub fn aborted_job()
    ensures { AbortedJob }
{}

/// A page fails, the state is told, and the printer is started.
pub fn failed_page()
    ensures { FailedPage }
{}

/// A page is not lent, because the sender's earlier job has to finish first.
pub fn waits_for_page()
    ensures { WaitsForPage }
{}

/// A refusal and the text of a state that are due, and others that are not.
pub fn right_replies()
    ensures { RightReplies }
{}
