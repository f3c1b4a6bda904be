//! A plain, slow reader of which histories may be: each event meets its conditions on the events before it, by the
//! definitions and nothing else; of what is free and whether all held jobs can finish, by a search over all orders; and
//! whether jobs leave joined.
#![tactic(auto)]

mod doing;
mod joined;
mod legal;
mod orders;
mod queues;
mod safety;
mod turning;

pub use joined::leaves_joined;
pub use legal::{is_legal, may};
pub use safety::{free_pages, is_safe_now};
