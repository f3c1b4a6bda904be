//! Whether claims are safe: whether all jobs can finish one after another, each sender's jobs of a
//! queue in order of acceptance (Habermann, CACM 12(7), 1969; Dijkstra, EWD623; the sender's order
//! is this project's own).
#![tactic(auto)]

mod carry;
mod follow;
mod kept;
mod laws;
mod order;
mod rows;
mod safety;
mod scan;
mod scratch;
mod trial;

pub use claims::Table;
pub use laws::tests_are_determined;
pub use order::Order;
pub use safety::{PAGES, check_order, find_order, is_safe, safe_after_page};
pub use scratch::{Scratch, Verdict};
