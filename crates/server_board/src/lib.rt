//! How all of a server stands, as it is shown to browsers and to what monitors it.
#![tactic(auto)]

mod board;
mod drawn;
mod showing;

pub use board::{Board, open_board};
pub use showing::Presenter;
