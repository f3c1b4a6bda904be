//! The configuration of a spool, read from TOML text.
#![tactic(auto)]

mod laws;
mod places;
mod reading;
mod settings;

pub use config_values::Config;
pub use laws::each_text_is_decided;
pub use places::{PLACES, PlacesFault, ToldPlace, read_places};
pub use reading::{is_name, read};
pub use settings::{ConfigFault, Key};
