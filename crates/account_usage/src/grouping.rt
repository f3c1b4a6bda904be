//! What usage is told by.

/// What usage is told by.
#[derive(Clone, Copy, Debug, PartialEq, Eq)]
pub enum Grouping {
    /// The user that a job's control file tells.
    User,
    /// The host that it tells.
    Host,
    /// The queue, by the name that the configuration gives it.
    Queue,
}
