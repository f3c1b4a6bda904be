//! A folder of the operating system that one server has at a time: how it is made, its locks, and which names are in it.
#![tactic(auto)]

mod fault;
mod listing;
mod lock;
mod looking;
mod making;

pub use fault::{FolderError, FolderUse};
pub use listing::names;
pub use lock::FolderHold;
pub use looking::look;
pub use making::{FILE_MODE, take};
