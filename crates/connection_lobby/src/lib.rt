//! The edge of a server: connections that wait for their first line, sessions that are free, and peers that are gone.
#![tactic(auto)]

mod desk;
mod doorway;
mod first_line;
mod guests;
mod headers;
mod limits;
mod lobby;
mod peers;
mod throttle;
mod waiting_room;

pub use desk::{Desk, Doors, Serves};
pub use doorway::Doorway;
pub use first_line::{Purpose, is_whole, purpose_of};
pub use guests::{GuestStage, Guests};
pub use limits::{MOST_GUESTS, places};
pub use lobby::{Listening, Lobby};
pub use peers::{
    Peer, PeerStanding, ask_peer, keep_asking, may_end, send_in_pieces, unread_octets,
};
pub use waiting_room::Visit;
