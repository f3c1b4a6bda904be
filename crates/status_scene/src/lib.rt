//! What a server shows of itself at one moment: its spool, what its edge alone knows, what it counted, and what of that needs somebody.
#![tactic(auto)]

mod concern;
mod refusing;
mod scene;
mod silence;
mod words;

pub use concern::{Concern, concerns};
pub use refusing::{has_full_pool, is_refused_at};
pub use scene::Scene;
pub use silence::{is_silent, silent_sessions};
pub use words::ConcernWords;
