//! A held job with its chain of pages.

use held_jobs::Job;
use page_chain::Chain;

/// What is known of a held job, and the chain of its pages.
#[derive(Drop)]
pub(crate) struct Entry {
    pub job: Job,
    pub chain: Chain,
    /// The row of the nodes that has the chain's pages.
    pub row: usize,
}
