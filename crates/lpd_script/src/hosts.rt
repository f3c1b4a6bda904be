//! The numbers that stand for the hosts of a script.
//!
//! They are given by a host's first `connect`, from 0, and a host is known again by its octets alone. With 4,294,967,296 hosts, or after
//! 18,446,744,073,709,551,615 turns in a row, a script stops as for want of memory.

ghost use Rattle.std.specs.Prelude.{◌≡◌, [], IfOk, OnOk};
ghost use Rattle.lpd_script.specs.Hosts.{sender_of, with_host};

use indexmap::IndexSet;
use lpd_values::Octets;
use std::alloc::{AllocError, Global};
use std::marker::Model;

/// The hosts that connected, each once, in order of first connection.
#[derive(Drop)]
pub struct Hosts {
    hosts: IndexSet<Vec<u8>>,
}

impl Model for Hosts {
    ghost use Rattle.std.specs.Prelude.{ℕ, List, map};

    ghost Value = { List (List ℕ) };

    ghost view = { λ h. map (λ host. host.items) h.hosts.keys };
}

impl Hosts {
    /// None that connected.
    pub fn new(alloc: Global) -> Hosts
        ensures { result ≡ [] }
    {
        Hosts {
            hosts: IndexSet::new(alloc),
        }
    }

    /// The number that stands for a host that connects: equal hosts have one number.
    ///
    /// AllocError where memory for its name is refused, or where 4,294,967,296 other hosts connected before.
    pub fn number(&mut self, host: Octets) -> Result<u32, AllocError>
        ensures number { IfOk result (λ number. number ≡ sender_of self.old host) }
        ensures hosts { OnOk result (self.new ≡ with_host self.old host) }
    {
        let Ok((place, _)) = self.hosts.insert_full(host.into_vec()) else {
            return Err(AllocError);
        };
        match u32::try_from(place) {
            Ok(number) => Ok(number),
            Err(_) => Err(AllocError),
        }
    }
}
