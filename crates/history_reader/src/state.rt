//! Where a history leaves a spool.

use account::{Outline, Sheet};
use control_file::Control;
use lpd_values::FileName;

/// A job that was accepted.
#[derive(Clone, Copy)]
pub struct Opening {
    /// Its number.
    pub job: u64,
    /// Who sent it.
    pub sender: u32,
    /// The number of its queue.
    pub queue: u32,
}

/// A data file of a job.
#[derive(Drop)]
pub struct File {
    /// Its name.
    pub name: FileName,
    /// The octets that it has.
    pub count: u64,
    /// Its pages in order.
    pub pages: Vec<Outline>,
    /// Whether it has ended.
    pub ended: bool,
}

/// A page with the number of its file and its own number in that.
#[derive(Clone, Copy, PartialEq, Eq)]
pub struct Page {
    /// The number of its file in the job, from 0.
    pub file: u64,
    /// Its number in that file, from 0.
    pub number: u64,
    /// What is on it.
    pub page: Outline,
}

/// What is said of a job.
#[derive(Drop)]
pub struct Job {
    /// Its number.
    pub number: u64,
    /// Who sent it.
    pub sender: u32,
    /// The number of its queue.
    pub queue: u32,
    /// How many pages were lent to it so far.
    pub granted: u64,
    /// Whether a page is lent to it.
    pub lent: bool,
    /// Its data files, in order of beginning.
    pub files: Vec<File>,
    /// Its control file.
    pub control: Option<Control>,
    /// How many of its places were handed to a printer.
    pub handed: u64,
    /// How many of them came back.
    pub back: u64,
    /// Whether it has ended.
    pub ended: bool,
}

/// What is said of a printer.
#[derive(Clone, Copy)]
pub struct Printer {
    /// The number of its queue.
    pub queue: u32,
    /// The page that is out at it.
    pub out: Option<Sheet>,
    /// The job that it began last.
    pub began: Option<u64>,
    /// Whether it is stopped.
    pub stopped: bool,
}

/// Where a history leaves a spool.
#[derive(Drop)]
pub struct State {
    /// The held jobs, in order of acceptance.
    pub jobs: Vec<Job>,
    /// The last acceptance number, or 0 before the first.
    pub accepted: u128,
    /// The counted reserve, in entries of the account.
    pub reserved: u128,
    /// The printers, in order of their numbers.
    pub printers: Vec<Printer>,
    /// Whether the spool is closed.
    pub closed: bool,
}

/// What a printer that asks for a page gets.
#[derive(Clone, Copy, PartialEq, Eq)]
pub enum Next {
    /// This page.
    Hands(Sheet),
    /// None, for no job is ready.
    Nothing,
    /// None, for the printer is stopped.
    Stops,
    /// None, for a page is out at it.
    Busy,
    /// None, for the spool is closed.
    Over,
}
