//! Worked histories, against which the definitions are read: what is free, and what a printer gets next.

ghost use Rattle.worked_histories.specs.Rows.{OneJob, OneJobIsLegal};
ghost use Rattle.worked_histories.specs.Bases.{AfterRotation, BasesAreRefused, ClosedBefore, StoppedBefore};
ghost use Rattle.worked_histories.specs.Claims.{ClaimsMeet};
ghost use Rattle.worked_histories.specs.Copies.{CopiesAreRefused, PrintedTwice};
ghost use Rattle.worked_histories.specs.Joined.{AreNoJoins, Joined};
ghost use Rattle.worked_histories.specs.Refused.{AreRefused};
ghost use Rattle.worked_histories.specs.TextRows.{TextsAre};
ghost use Rattle.worked_histories.specs.Waiting.{PagesAreRefused, Waiting};
ghost use Rattle.worked_histories.specs.MoreRows.{TwoJobs, AbortedJob, RemovedJob, FailedPage, ClosedSpool, FilledAccount};

/// One job is received and printed, and the spool is closed.
pub fn one_job()
    ensures { OneJob }
{}

/// Two jobs of one sender leave in order of acceptance.
pub fn two_jobs()
    ensures { TwoJobs }
{}

/// What was handed of one sender's jobs in one queue is the join of the first places of each, by rising number. It isn't in
/// histories in which a page of a job leaves that is still received, a later job leaves first, a place is left out, comes
/// again or has other octets, or a job is done before its last place.
pub fn joined()
    ensures joins { Joined }
    ensures others { AreNoJoins }
{}

/// A job waits for each earlier one of its sender, and until its open file has ended.
pub fn waiting()
    ensures { Waiting }
{}

/// A job that is aborted gives all its pages back.
pub fn aborted_job()
    ensures { AbortedJob }
{}

/// A job that is removed while a page of it is at the printer is not done, and the sender's next job waits for that page.
pub fn removed_job()
    ensures { RemovedJob }
{}

/// A page that fails ends its job and stops its printer.
pub fn failed_page()
    ensures { FailedPage }
{}

/// A spool that is closed hands out nothing more, and takes back the page that is out.
pub fn closed_spool()
    ensures { ClosedSpool }
{}

/// Two jobs of three pages need 1,425 entries of the account: one of 1,424 is full for the second, one of 1,425 is not.
pub fn filled_account()
    ensures { FilledAccount }
{}

/// Of two jobs of three pages over a pool of four, the second finishes first; of one sender the page is not lent.
pub fn claims_meet()
    ensures { ClaimsMeet }
{}

/// The history of one job is legal.
pub fn one_job_is_legal()
    ensures { OneJobIsLegal }
{}

/// Where a control file prints its one data file twice, the pages of that leave twice, the job is done at the last of its
/// four places, and each page is free once its last place came back.
pub fn printed_twice()
    ensures { PrintedTwice }
{}

/// After the first twelve events of one job nothing is held: from the base after them the next job has the number 2, is
/// received and printed, and all pages are free again.
pub fn after_rotation()
    ensures { AfterRotation }
{}

/// From a base with a stopped printer nothing is handed until the queue is started; an account of 714 entries has room
/// for a job of three pages, because one entry is counted for the start.
pub fn stopped_before()
    ensures { StoppedBefore }
{}

/// From a base after a close nothing is handed.
pub fn closed_before()
    ensures { ClosedBefore }
{}

/// Events that may not come are not legal, nor is a page that is shorter or longer than it must be.
pub fn refused()
    ensures events { AreRefused }
    ensures pages { PagesAreRefused }
    ensures copies { CopiesAreRefused }
    ensures bases { BasesAreRefused }
{}

/// The texts for a queue's state and for removals, after a job was received.
pub fn texts()
    ensures { TextsAre }
{}
