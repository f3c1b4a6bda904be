//! The core of a spool: its held jobs, its printers, its pages and its claims, and each call that is one event.
#![tactic(auto)]

mod closing;
mod core_state;
mod due;
mod freeing;
mod kinds;
mod laws;
mod opening;
mod printers;
mod printing;
mod reading;
mod receiving;
mod removing;
mod snapshot;
mod telling;
mod unmade;

pub use closing::Started;
pub use config_values::{Config, Queue};
pub use control_file::Control;
pub use core_state::Core;
pub use laws::headline_stands;
pub use lpd_values::{FileName, Octets, Refusal};
pub use page_pool::{FilledPage, PageTicket};
pub use reading::Vacancy;
pub use receiving::{EndedFile, FilePage};
pub use removing::Unremoved;
pub use spool_calls::{
    Asked, Foreign, HandedPage, Next, Progress, Receipt, ReturnedControl, ReturnedPage,
    ReturnedTicket, Sheet,
};
pub use spool_snapshot::{Pages, SeenJob, Snapshot};
pub use telling::Removal;
pub use unmade::Unmade;
