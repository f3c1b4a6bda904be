//! Who may come in.
//!
//! Who may come is asked where a connection is accepted, before it takes a place: so others neither fill the lobby nor are waited for.
//! They count for `--connections`, which says how many are accepted, and not for `--rotate`, which counts those that are handed on.
//!
//! Who speaks for others is said by networks too, and nobody else's header is believed: a header from elsewhere is a line that no request
//! has. A proxy's own checks (`LOCAL`, `UNKNOWN`) are let in whatever `--allow` says, since it would else count every spool as down.

ghost use Rattle.std.specs.Prelude.{◌≡◌};
ghost use Rattle.std.specs.Net.Socket.{socket_ip};
ghost use Rattle.connection_lobby.specs.Doorway.{is_in_one, may_come, speaks_for_others};

use crate::throttle::{Closing, Throttle};
use program_edge::Network;
use std::alloc::Global;
use std::net::{IpAddr, Ipv4Addr, SocketAddr};

/// Whether an address is in one of these networks.
fn is_in_one(networks: &[Network], address: Ipv4Addr) -> bool
    ensures { result ≡ is_in_one networks.now address }
{
    networks.iter().any(|network| network.has(address))
}

/// Who may come in: the addresses of networks, or where none is named each; and which proxies are believed whom they come for.
#[derive(Drop)]
pub struct Doorway {
    allowed: Vec<Network>,
    proxied: Vec<Network>,
    pub(crate) refused: Throttle,
}

impl Doorway {
    /// The doorway for addresses of these networks. Each connection of a network in `proxied` begins with a proxy's header, which
    /// says whose it is.
    pub fn new(alloc: Global, allowed: Vec<Network>, proxied: Vec<Network>) -> Doorway
        ensures allowed { result.allowed ≡ allowed }
        ensures proxied { result.proxied ≡ proxied }
    {
        Doorway {
            allowed,
            proxied,
            refused: Throttle::new(alloc, Closing::NotLetIn),
        }
    }

    /// Whether a peer may come in.
    pub(crate) fn lets_in(&self, peer: SocketAddr) -> bool
        ensures { result ≡ may_come self.now.allowed.items (socket_ip peer) }
    {
        match peer.ip() {
            IpAddr::V4(address) => {
                self.allowed.is_empty() || is_in_one(self.allowed.as_slice(), address)
            }
            IpAddr::V6(_) => self.allowed.is_empty(),
        }
    }

    /// Whether a peer is a proxy, whose connections begin with a header.
    pub(crate) fn is_proxy(&self, peer: SocketAddr) -> bool
        ensures { result ≡ speaks_for_others self.now.proxied.items (socket_ip peer) }
    {
        match peer.ip() {
            IpAddr::V4(address) => is_in_one(self.proxied.as_slice(), address),
            IpAddr::V6(_) => false,
        }
    }
}
