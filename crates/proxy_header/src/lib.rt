//! The PROXY protocol of haproxy, versions 1 and 2: the header by which a proxy tells whom a connection comes from.
//!
//! IPv6 is refused, as it is everywhere in the server. What version 2 has behind the addresses is passed over, and its CRC isn't looked
//! at.
#![tactic(auto)]

mod block;
mod header;
mod laws;
mod line;
mod numbers;

pub use block::MOST_LENGTH;
pub use header::{Header, MOST_LINE, read_header};
pub use laws::{answer_stays, read_is_spelled, spelled_is_read};
