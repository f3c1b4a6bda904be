//! How a printer leaves a job.

/// How a printer leaves a job that it has begun.
#[derive(Clone, Copy, Debug, PartialEq, Eq)]
pub enum Leaving {
    /// All its places were printed.
    Done,
    /// It was removed. Its last page was written.
    Ended,
    /// Its last page wasn't written, which failed it if it hadn't been removed.
    Failed,
    /// The spool was closed amid it, whether or not its last page was written; or the spool didn't take that page back.
    Closed,
}
