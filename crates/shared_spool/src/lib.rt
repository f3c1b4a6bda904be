//! A spool that threads share: a core with its account under one lock, and a seat for each session and each printer.
//!
//! Whenever the lock is free, the account is a legal history and the core is where the account leaves it. Each seat counts
//! which entries its calls wrote; when all seats have come back, they add up to the account.
#![tactic(auto)]

mod bells;
mod line;
mod printers;
mod questions;
mod queue_calls;
mod seats;
mod sessions;
mod sight;
mod spool;
mod waiting;

pub use account::{Act, Outline, Sheet, Turn};
pub use control_file::Control;
pub use line::{AbortError, Waiting};
pub use locked_spool::{
    Account, Asked, Base, Config, Entry, Foreign, HandedPage, Kind, Next, Pages, Progress, Receipt,
    Removal, ReturnedControl, ReturnedPage, ReturnedTicket, RotateError, SeenJob, Segment,
    Snapshot, Started, Unopened, Unremoved, Vacancy,
};
pub use lpd_values::{FileName, Octets, Refusal};
pub use page_pool::{FilledPage, PageTicket};
pub use seats::{PrinterSeat, SessionSeat};
pub use sight::Sight;
pub use spool::{Opened, SharedSpool, Unfinished};
pub use spool_ledgers::{Blanks, SpoolLedger};
