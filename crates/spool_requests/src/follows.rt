//! That a core answers what is due.

ghost use Rattle.spool_requests.specs.Follows.{AbortFollows, ControlFollows, EndFollows, FileFollows, OpenFollows};
ghost use Rattle.spool_requests.specs.Follows.{PageFollows, PutFollows, QueueFollows, RemovalFollows};
ghost use Rattle.spool_requests.specs.Follows.{SessionEndFollows, StartFollows, StateFollows};

/// What a call of a core answers to the requests about a job in hand is due, and its history has grown by what they
/// show.
pub fn jobs_follow()
    ensures open { OpenFollows }
    ensures file { FileFollows }
    ensures page { PageFollows }
    ensures put { PutFollows }
    ensures end { EndFollows }
    ensures control { ControlFollows }
    ensures abort { AbortFollows }
{}

/// The same of the requests about a queue.
pub fn queues_follow()
    ensures queue { QueueFollows }
    ensures start { StartFollows }
    ensures state { StateFollows }
    ensures removal { RemovalFollows }
{}

/// The same of the end of a session, which aborts the job in hand with the page in hand.
pub fn session_end_follows()
    ensures { SessionEndFollows }
{}
