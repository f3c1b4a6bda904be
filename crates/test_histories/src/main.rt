//! Rows of histories: what stands in an account, and what the plain reader has to say of it, in the files of `data/`.
//!
//! Prints how many rows each group has, and a line for each row that is answered otherwise.
#![tactic(auto)]

mod entries;
mod groups;
mod histories;
mod joins;

use groups::Histories;
use std::io;
use test_kit::run_groups;

fn main(rt: HostRuntime) -> io::Result<()> {
    run_groups(&rt, &Histories::ALL)
}
