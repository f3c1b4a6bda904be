//! A page that is being filled.

ghost use Rattle.std.specs.Prelude.{◌≡◌, ◌+◌, ◌-◌, ◌<◌, ◌≤◌, ◌++◌, [], length, take, min, IsTrue, ◌↔◌};

use crate::filled::FilledPage;
use sha2::{Digest, Sha256};
use std::marker::Model;

/// A page that is being filled. It has to be spent: put back, sealed or surrendered.
pub struct PageTicket {
    pub(crate) octets: Vec<u8>,
    pub(crate) page_size: usize,
}

impl Model for PageTicket {
    ghost use Rattle.std.specs.Prelude.{vec_len, vec_capacity};
    ghost use Rattle.page_pool.specs.Page.{Page, HoldsPage};

    ghost Value = { Page };

    ghost view = { λ t. record { octets = t.octets.items; page_size = t.page_size } };

    ghost invariant = { λ t. HoldsPage (vec_len t.octets) t.page_size (vec_capacity t.octets) };
}

impl PageTicket {
    /// Appends as many of the octets as fit, and answers how many that are.
    pub fn push(&mut self, octets: &[u8]) -> usize
        ensures count { result
            ≡ min (length octets.now) (self.old.page_size - length self.old.octets) }
        ensures pushed { self.new
            ≡ record self.old { octets = self.old.octets ++ take result octets.now } }
    {
        let room = self.page_size - self.len();
        let fitting = octets.len().min(room);
        self.octets.extend_from_slice(&octets[..fitting]).unwrap();
        fitting
    }

    /// How many octets are on the page.
    pub fn len(&self) -> usize
        ensures len { result ≡ length self.now.octets }
        ensures fits { result ≤ self.now.page_size }
    {
        self.octets.len()
    }

    /// Whether nothing is on the page.
    pub fn is_empty(&self) -> bool
        ensures { IsTrue result ↔ (self.now.octets ≡ []) }
    {
        self.octets.is_empty()
    }

    /// Whether no more octets fit.
    pub fn is_full(&self) -> bool
        ensures { IsTrue result ↔ (length self.now.octets ≡ self.now.page_size) }
    {
        self.len() == self.page_size
    }

    /// How many octets fit on the page in all.
    pub fn page_size(&self) -> usize
        ensures size { result ≡ self.now.page_size }
        ensures some { 0 < result }
    {
        self.page_size
    }

    /// Ends the filling: what is on the page can't change any more.
    pub fn seal(self) -> FilledPage
        requires { 0 < length self.octets }
        ensures { result ≡ self }
    {
        let PageTicket { octets, page_size } = self;
        let digest = Sha256::digest(octets.as_slice());
        FilledPage {
            octets,
            page_size,
            digest,
        }
    }

    /// Spends a page that its pool doesn't take back.
    pub fn surrender(self) {
        let PageTicket {
            octets: _,
            page_size: _,
        } = self;
    }

    /// The same page with nothing on it.
    pub(crate) fn wiped(mut self) -> PageTicket
        ensures { result ≡ record self { octets = [] } }
    {
        self.octets.clear();
        self
    }
}
