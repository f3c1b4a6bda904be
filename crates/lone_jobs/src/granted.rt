//! A job that comes alone.

ghost use Rattle.lone_jobs.specs.Lone.{LoneJobsAreServed, LoneJobsAreTaken};

/// Where a session comes alone with a job that a spool has room for, none of its requests is refused, and each octet
/// that it writes is 00, at each moment.
pub fn lone_jobs_are_served()
    ensures { LoneJobsAreServed }
{}

/// Once all octets of the job have come and the session waits, the job is whole, and one octet 00 was written for the
/// first line and two for each file.
pub fn lone_jobs_are_taken()
    ensures { LoneJobsAreTaken }
{}
