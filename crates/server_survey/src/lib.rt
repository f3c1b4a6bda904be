//! How all of a server stands at one moment.
#![tactic(auto)]

mod survey;
mod surveyor;

pub use survey::Survey;
pub use surveyor::Surveyor;
