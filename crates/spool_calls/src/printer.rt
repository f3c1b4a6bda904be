//! A printer.

use account::Sheet;

/// What is known of a printer.
#[derive(Clone, Copy)]
pub struct Printer {
    /// The number of the queue that it serves.
    pub queue: u32,
    /// The page that is out at it.
    pub out: Option<Sheet>,
    /// The job that it began last.
    pub began: Option<u64>,
    /// Whether it is stopped: a page failed at it, and its queue wasn't started since.
    pub stopped: bool,
}
