//! What holds of all jobs.

ghost use Rattle.job_streams.specs.Reads.{StreamsAreRead};

/// The octets that a peer sends of a job that is whole are read back as that job.
pub fn streams_are_read()
    ensures { StreamsAreRead }
{}
