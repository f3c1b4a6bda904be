//! The connections of whoever asks for the status of a server: one request and one answer each, many at a time, each in bounded time.
#![tactic(auto)]

mod exchange;
mod exchanges;
mod outgoing;
mod stages;

pub use exchanges::{Exchanges, MOST_ANSWERS, MOST_EXCHANGES};
pub use outgoing::Outgoing;
pub use stages::{ExchangeStage, ExchangeStanding, count_at, is_due, longest_halted, most_ms};
