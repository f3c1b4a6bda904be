//! Whether a page may be lent to a job where a spool stands so, for a reader of long accounts: the claims of the held jobs
//! are put into a table, and `ordered_safety` decides about that.
#![tactic(auto)]

mod amounts;
mod asking;
mod kept;
mod needs;
mod rows;
mod safety;
mod table;

pub use asking::may_ask;
pub use safety::{has_free_page, is_safe};
