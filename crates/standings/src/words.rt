//! What is said of a job that stands so.

ghost use Rattle.standings.specs.Words.{standing_words};

use crate::job::JobStanding;
use std::fmt;

impl fmt::Display for JobStanding {
    ghost use Rattle.std.specs.Prelude.{Some};

    ghost output = { λ standing. Some (standing_words standing) };

    fn fmt<W: fmt::Write>(&self, f: &mut fmt::Formatter<W>) -> fmt::Result {
        match self {
            JobStanding::Begun => f.write_str("nothing of it came yet"),
            JobStanding::Arriving { came, told } => write!(f, "{came} of {told} pages came"),
            JobStanding::NoPageFree => f.write_str("waits for a page: none is free"),
            JobStanding::PagesKept { job } => {
                write!(f, "waits for a page: those free are kept for job {job}")
            }
            JobStanding::PageWanted => f.write_str("waits for a page"),
            JobStanding::Behind { job } => write!(f, "waits behind job {job} of its sender"),
            JobStanding::PrinterWanted => f.write_str("waits for a printer"),
            JobStanding::QueueHeld => f.write_str("waits: its queue is held"),
            JobStanding::PrintersStopped => {
                f.write_str("waits: the printers of its queue are stopped")
            }
            JobStanding::PrinterUnreached { printer } => {
                write!(f, "waits: printer {printer} isn't reached")
            }
            JobStanding::Printing { printer, page } => {
                write!(f, "page {page} is at printer {printer}")
            }
            JobStanding::NextPageDue => f.write_str("its next page is due"),
            JobStanding::Ending => f.write_str("a page of it is still at a printer"),
            JobStanding::KeptInFolder => f.write_str("waits to be fed"),
            JobStanding::FailedInFolder => f.write_str("has failed"),
        }
    }
}
