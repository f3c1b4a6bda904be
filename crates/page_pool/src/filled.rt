//! A page that may be read.

ghost use Rattle.std.specs.Prelude.{◌≡◌, ◌<◌, ◌≤◌, [], length};
ghost use Rattle.sha2.specs.Sha256.{sha256};

use crate::ticket::PageTicket;
use std::marker::Model;

/// A page with at least one octet and the SHA-256 of its octets. It has to be spent: unsealed.
pub struct FilledPage {
    pub(crate) octets: Vec<u8>,
    pub(crate) page_size: usize,
    pub(crate) digest: [u8; 32],
}

impl Model for FilledPage {
    ghost use Rattle.std.specs.Prelude.{◌≡◌, ◌<◌, ◌≤◌, vec_len, vec_capacity};
    ghost use Rattle.sha2.specs.Sha256.{sha256};
    ghost use Rattle.page_pool.specs.Page.{Page, HoldsPage};

    ghost Value = { Page };

    ghost view = { λ p. record { octets = p.octets.items; page_size = p.page_size } };

    ghost invariant = { λ p. HoldsPage (vec_len p.octets) p.page_size (vec_capacity p.octets)
        × (0 < vec_len p.octets) × (p.digest ≡ sha256 p.octets.items) };
}

impl FilledPage {
    /// The octets on the page.
    pub fn bytes(&self) -> &[u8]
        ensures bytes { result.now ≡ self.now.octets }
        ensures some { 0 < length result.now }
        ensures fits { length result.now ≤ self.now.page_size }
    {
        self.octets.as_slice()
    }

    /// The SHA-256 of the octets (FIPS 180-4).
    pub fn digest(&self) -> [u8; 32]
        ensures { result ≡ sha256 self.now.octets }
    {
        self.digest
    }

    /// How many octets are on the page.
    pub fn len(&self) -> usize
        ensures len { result ≡ length self.now.octets }
        ensures some { 0 < result }
        ensures fits { result ≤ self.now.page_size }
    {
        self.octets.len()
    }

    /// How many octets fit on the page in all.
    pub fn page_size(&self) -> usize
        ensures size { result ≡ self.now.page_size }
        ensures some { 0 < result }
    {
        self.page_size
    }

    /// The page, emptied, to be filled again.
    pub fn unseal(self) -> PageTicket
        ensures { result ≡ record self { octets = [] } }
    {
        let FilledPage {
            octets,
            page_size,
            digest: _,
        } = self;
        PageTicket { octets, page_size }.wiped()
    }
}
