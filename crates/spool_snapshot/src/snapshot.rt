//! A spool as it was at one moment.

use crate::job::SeenJob;
use claims::Table;
use spool_calls::Printer;

/// The pages of a spool by where they are.
#[derive(Clone, Copy, Debug)]
pub struct Pages {
    /// The pages that are free.
    pub free: usize,
    /// The pages in the chains of the held jobs.
    pub chained: usize,
    /// The pages that are lent to sessions.
    pub lent: usize,
    /// The pages that are out at printers.
    pub out: usize,
}

/// A spool as it was at one moment: of what takes memory copies.
#[derive(Drop)]
pub struct Snapshot {
    /// Where the pages are.
    pub pages: Pages,
    /// The held jobs in order of acceptance.
    pub jobs: Vec<SeenJob>,
    /// What is free, and of each held job what it holds and may still need.
    pub claims: Table,
    /// The printers by their numbers.
    pub printers: Vec<Printer>,
    /// How many jobs were accepted.
    pub accepted: u64,
    /// How many entries of the account are counted for the jobs that were accepted and for the starts that may come.
    pub reserved: u64,
    /// Whether the spool is closed.
    pub closed: bool,
}
