//! A worked job, against which the definitions are read.

ghost use Rattle.lone_jobs.specs.Worked.{WorkedJob, WorkedRoom};

/// A spool in which nothing has happened has room for the job of the first worked trace.
pub fn worked_room()
    ensures { WorkedRoom }
{}

/// In that trace, whose replies are right, the job comes alone.
pub fn worked_job()
    ensures { WorkedJob }
{}
