//! Rows of texts, of claims, of what a receiver reads and of what a status page shows: what is asked, and what has to be answered, in the files of `data/`.
//!
//! Prints how many rows each group has, and a line for each row that is answered otherwise.
#![tactic(auto)]

mod groups;
mod lines;
mod sessions;
mod status;
mod tables;

use groups::Texts;
use std::io;
use test_kit::run_groups;

fn main(rt: HostRuntime) -> io::Result<()> {
    run_groups(&rt, &Texts::ALL)
}
