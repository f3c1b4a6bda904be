//! What holds of every history of a spool in which each event met its conditions.
//!
//! The statements stand in `specs/`; the functions here have empty bodies, and their contracts are the laws.
#![tactic(auto)]

mod entries;
mod leaving;
mod outline;
mod pages;
mod rotating;
mod safe;
mod stepping;
mod waiting;

pub use entries::{held_reserve_is_enough, reserve_is_enough, wider_is_legal};
pub use leaving::{
    done_for_the_last_place, leave_in_order, leave_joined, nothing_after_the_close,
    nothing_after_the_end,
};
pub use outline::outline_is_legal;
pub use pages::pages_add_up;
pub use rotating::rotation_keeps;
pub use safe::stays_safe;
pub use stepping::step_leads;
pub use waiting::{nothing_stays, put_off_stays};
