//! The files of one job over the nodes that all jobs share: their pages while the job is being
//! received, then the places in the order of printing, in which a page may come again.
#![tactic(auto)]

mod chain;
mod drain;
mod error;
mod laws;
mod place;
mod prints;
mod run;

pub use chain::Chain;
pub use error::ChainError;
pub use laws::{others_stay, pages_are_counted, places_or_returns, shows_names};
pub use lpd_values::FileName;
pub use page_nodes::Nodes;
pub use page_pool::{FilledPage, Pool};
pub use place::Place;
