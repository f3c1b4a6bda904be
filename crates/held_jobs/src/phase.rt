//! How far a job is.

/// How far a held job is.
///
/// ```text
///   Receiving ---> Received ---> Ended
///       |                          ^
///       +--------------------------+
/// ```
///
/// A received job of which a place was handed out is being printed; one of which none was waits. An ended job is held as long
/// as a page of it is out.
#[derive(Clone, Copy, Debug, PartialEq, Eq)]
pub enum Phase {
    /// Its session sends it.
    Receiving,
    /// It is whole, and waits for a printer or is being printed.
    Received,
    /// It has ended, and a page of it is still out.
    Ended,
}
