//! What all threads of a server share: its spool and its hall, which together are its house; and what each asks of them.
#![tactic(auto)]

mod archiving;
mod errand;
mod faults;
mod hall;
mod host;
mod house;
mod ledgers;
mod lines;
mod oversight;
mod pace;
mod posts;
mod restarting;
mod roles;
mod room;
mod rotating;
mod sessions;
mod showing;
mod sweeping;

pub use faults::ServerFault;
pub use hall::Hall;
pub use host::Host;
pub use house::House;
pub use ledgers::{HandedOf, HouseLedger, HouseSeat, HouseSpool, KindsOf, PrintingSeat};
pub use lines::{PrintedLine, print, print_or_tell};
pub use oversight::Oversight;
pub use posts::{Meter, Posts, ServedPeer};
pub use roles::{NO_JOB_SESSIONS, OTHERS, Roles, Seats, serves_at};
pub use room::AccountRoom;
pub use rotating::{has_turn, rotation_of};
pub use sessions::sessions_of;
pub use showing::Showing;
