//! Networks, by name.

ghost use Rattle.std.specs.List.{before_first};
ghost use Rattle.std.specs.Net.Addr.{ipv4_bits};
ghost use Rattle.std.specs.Prelude.{◌≡◌, ◌↔◌, ◌≤◌, ◌-◌, ◌^◌, ◌%◌, ℕ, IfNone, IfSome, IsTrue};
ghost use Rattle.program_edge.specs.NetworkParts.{IsBits, StandsBehind, is_slash};

use crate::numerals::plain_number;
use std::net::Ipv4Addr;

/// The addresses that begin with the same `bits` bits as this one.
#[derive(Clone, Copy, Debug, PartialEq, Eq)]
pub struct Network {
    /// The first address in it.
    pub address: Ipv4Addr,
    /// How many bits are the same, 0 to 32.
    pub bits: u32,
    ghost few: { bits ≤ 32 },
}

/// The two parts of a network's text: what stands before the first slash, and what stands behind
/// it, if there is one.
fn parts_of(text: &str) -> (&str, Option<&str>)
    ensures address { result.0.now ≡ before_first is_slash text.now }
    ensures bits { StandsBehind text.now result.1 }
{
    match text.split_once('/') {
        Some((address, bits)) => (address, Some(bits)),
        None => (text, None),
    }
}

/// How many bits of a network are the same, as this text says, or without one all. None where it is
/// no number of 0 to 32.
fn bits_of(text: Option<&str>) -> Option<u32>
    ensures bits { IfSome result (IsBits text.entry) }
    ensures none { IfNone result ((bits : ℕ) → IsBits text.entry bits → ⊥) }
{
    let Some(text) = text else {
        return Some(32);
    };
    let bits = plain_number(text)?;
    if bits > 32 {
        return None;
    }
    Some(bits)
}

/// Whether no bit of an address is set behind the first N.
fn ends_there(address: Ipv4Addr, bits: u32) -> bool
    requires { bits ≤ 32 }
    ensures { IsTrue result ↔ (ipv4_bits address % 2 ^ (32 - bits) ≡ 0) }
{
    u64::from(address.to_bits()) % (1u64 << (32 - bits)) == 0
}

impl Network {
    ghost use Rattle.program_edge.specs.Networks.{IsNetworkText, has_in};
    ghost use Rattle.program_edge.specs.declared.networks.Network.{Network};

    /// The network that a text names: an address alone, or the addresses that begin with the same bits as one, as many as are named
    /// behind a slash, 0 to 32; no bit of the address is set behind these, since such a bit may be a slip. None where it names none.
    pub fn read(text: &str) -> Option<Network>
        ensures network { IfSome result (IsNetworkText text.now) }
        ensures none { IfNone result ((network : Network) → IsNetworkText text.now network → ⊥) }
    {
        let (address, bits) = parts_of(text);
        let Some(bits) = bits_of(bits) else {
            return None;
        };
        let Ok(address) = address.parse::<Ipv4Addr>() else {
            return None;
        };
        if !ends_there(address, bits) {
            return None;
        }
        Some(Network { address, bits })
    }

    /// Whether an address is in it.
    pub fn has(&self, address: Ipv4Addr) -> bool
        ensures { result ≡ has_in self.now address }
    {
        let (one, other) = (self.address.to_bits(), address.to_bits());
        let left = 32 - self.bits;
        u64::from(one) >> left == u64::from(other) >> left
    }
}
