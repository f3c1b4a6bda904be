//! The watcher of a server: jobs leave its spool again that can't be printed, those whose peers are gone are ended, and queues are started again.
#![tactic(auto)]

mod unloading;
mod watching;

pub use watching::watch;
