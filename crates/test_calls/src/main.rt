//! Rows of calls and scripts: what is asked, and what has to be answered, in the files of `data/`.
//!
//! Prints how many rows each group has, and a line for each row that is answered otherwise.
#![tactic(auto)]

mod calls;
mod cores;
mod desk;
mod entries;
mod groups;
mod pieces;
mod scripts;
mod seated;
mod seats;
mod spool;

use groups::Calls;
use std::io;
use test_kit::run_groups;

fn main(rt: HostRuntime) -> io::Result<()> {
    run_groups(&rt, &Calls::ALL)
}
