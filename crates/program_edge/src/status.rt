//! Where a server shows its status.

ghost use Rattle.std.specs.Prelude.{◌≡◌, ◌<◌, ◌^◌, ◌↔◌, ℕ, IfNone, IfSome, IsTrue};
ghost use Rattle.std.specs.List.{list_all};
ghost use Rattle.program_edge.specs.Numerals.{IsPlainNumber};
ghost use Rattle.program_edge.specs.StatusPlaces.{IsHostName, IsStatusText, is_host_octet};

use crate::numerals::plain_number;
use crate::places::socket_of;
use std::net::Ipv4Addr;

/// The most octets that the name of a host has (RFC 1035, section 2.3.4, without the length octets).
const MOST_HOST_NAME: usize = 253;

/// Where a server shows its status.
#[derive(Clone, Copy, Debug, PartialEq, Eq)]
pub struct StatusPlace {
    /// The address to listen on.
    pub address: Ipv4Addr,
    /// The port to listen on.
    pub port: u16,
}

/// The port that a text names, 1 to 65535, in digits alone, with no zero in front. None where it names none.
fn port_of(text: &str) -> Option<u16>
    ensures port { IfSome result (λ port. IsPlainNumber text.now port × (0 < port)) }
    ensures none { IfNone result ((port : ℕ) → IsPlainNumber text.now port → 0 < port
        → port < 2 ^ 16 → ⊥) }
{
    let number = plain_number(text)?;
    if number == 0 {
        return None;
    }
    match u16::try_from(number) {
        Ok(port) => Some(port),
        Err(_) => None,
    }
}

impl StatusPlace {
    ghost use Rattle.program_edge.specs.declared.status.StatusPlace.{StatusPlace};

    /// The place that a text names: a port of 127.0.0.1, or an IPv4 address, a colon and a port; a port is 1 to 65535.
    /// None where it names none.
    pub fn read(text: &str) -> Option<StatusPlace>
        ensures place { IfSome result (IsStatusText text.now) }
        ensures none { IfNone result ((place : StatusPlace) → IsStatusText text.now place → ⊥) }
    {
        if let Some(port) = port_of(text) {
            let address = Ipv4Addr::LOCALHOST;
            return Some(StatusPlace { address, port });
        }
        let socket = socket_of(text)?;
        Some(StatusPlace {
            address: *socket.ip(),
            port: socket.port(),
        })
    }
}

/// Whether an octet may stand in the name of a host: a letter, a digit, `-` or `.`.
fn is_host_octet(octet: u8) -> bool
    ensures { result ≡ is_host_octet octet }
{
    octet.is_ascii_alphanumeric() || octet == b'-' || octet == b'.'
}

fn all_host_octets(octets: &[u8]) -> bool
    ensures { result ≡ list_all is_host_octet octets.now }
{
    octets.iter().all(|octet| is_host_octet(*octet))
}

/// Whether a text is the name of a host: 1 to 253 letters, digits, `-` and `.` (RFC 1035, section 2.3.1).
pub fn is_host_name(text: &str) -> bool
    ensures { IsTrue result ↔ IsHostName text.now }
{
    !text.is_empty() && text.len() <= MOST_HOST_NAME && all_host_octets(text.as_bytes())
}
