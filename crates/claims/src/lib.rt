//! What each job holds and may still need of the resources of a banker: Habermann's claims.
#![tactic(auto)]

mod row;
mod table;

pub use counts::Counts;
pub use row::Row;
pub use table::{OpenError, Table};
