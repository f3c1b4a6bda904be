//! The page that shows people how a server stands: its pages, queues, printers, jobs, sessions, and in which order all jobs can finish.
#![tactic(auto)]

mod banker;
mod cards;
mod figures;
mod frame;
mod page;
mod plot;
mod pool;
mod rates;
mod rows;
mod said;
mod sessions;
mod style;
mod tiles;

pub use page::html;
