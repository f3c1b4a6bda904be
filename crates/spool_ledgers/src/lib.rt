//! The three ledgers of a spool that threads share: entries of the account, the sum of their kind numbers, and pages handed out.
//!
//! Each thread has a share of each; the books under the lock have the totals. When all shares have come back, they add up to
//! the totals.
#![tactic(auto)]

mod blanks;
mod books;
mod shares;
mod spool_ledger;

pub use blanks::Blanks;
pub use books::Books;
pub use shares::Shares;
pub use spool_ledger::SpoolLedger;
