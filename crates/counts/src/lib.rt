//! Amounts of each kind of resource, as Habermann's prevention of deadlocks counts them: one whole
//! number a kind, added and compared kind by kind.
#![tactic(auto)]

mod amounts;

pub use amounts::{Counts, TooLarge};
