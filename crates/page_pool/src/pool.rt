//! The pool.

ghost use Rattle.std.specs.Prelude.{◌≡◌, ◌+◌, ◌-◌, ◌<◌, ◌≤◌, ◌↔◌, [], IfOk, IfSome, IfNone, IsTrue, Err};
ghost use Rattle.page_pool.specs.Page.{IsSize};

use crate::error::PoolError;
use crate::ticket::PageTicket;
use std::alloc::{AllocError, Global};
use std::marker::Model;

/// The most pages of a pool, and the most octets of a page.
const MOST: usize = 65_536;

/// The pages that are lent to nobody. A pool that is dropped spends them.
pub struct Pool {
    tickets: Vec<PageTicket>,
    page_size: usize,
    pages: usize,
}

impl Model for Pool {
    ghost use Rattle.std.specs.Prelude.{◌≤◌, vec_len, vec_capacity};
    ghost use Rattle.page_pool.specs.Page.{Pages, HoldsPages};

    ghost Value = { Pages };

    ghost view = { λ p.
        record { page_size = p.page_size; pages = p.pages; free = vec_len p.tickets } };

    ghost invariant = { λ p. (vec_len p.tickets ≤ p.pages)
        × HoldsPages p.tickets.items p.page_size p.pages (vec_capacity p.tickets) };
}

impl Drop for Pool {
    fn drop(self) {
        let Pool {
            tickets,
            page_size: _,
            pages: _,
        } = self;
        surrender_all(tickets);
    }
}

/// Spends pages.
fn surrender_all(mut tickets: Vec<PageTicket>) {
    while let Some(ticket) = tickets.pop() {
        ticket.surrender();
    }
    tickets.destroy_empty();
}

fn is_size(count: usize) -> bool
    ensures { IsTrue result ↔ IsSize count }
{
    1 <= count && count <= MOST
}

impl Pool {
    /// A pool of `pages` pages of `page_size` octets each, all of them free.
    ///
    /// BadSize where either is 0 or over 65,536, and Memory where memory for the pages is refused.
    pub fn new(alloc: Global, pages: usize, page_size: usize) -> Result<Pool, PoolError>
        ensures made { IfOk result
            (λ p. p ≡ record { page_size = page_size; pages = pages; free = pages }) }
        ensures sizes { IfOk result (λ _. IsSize pages × IsSize page_size) }
        ensures bad_size { (result ≡ Err PoolError.BadSize) ↔ ¬ (IsSize pages × IsSize page_size) }
        ensures memory { result ≡ Err PoolError.Memory → IsSize pages × IsSize page_size }
    {
        if !is_size(pages) || !is_size(page_size) {
            return Err(PoolError::BadSize);
        }
        Pool::filled(alloc, pages, page_size).or(Err(PoolError::Memory))
    }

    fn filled(alloc: Global, pages: usize, page_size: usize) -> Result<Pool, AllocError>
        requires { IsSize page_size }
        ensures { IfOk result
            (λ p. p ≡ record { page_size = page_size; pages = pages; free = pages }) }
    {
        let mut pool = Pool {
            tickets: Vec::with_capacity(alloc, pages)?,
            page_size,
            pages,
        };
        for _ in 0..pages {
            let octets = Vec::with_capacity(alloc, page_size)?;
            pool.put_back(PageTicket { octets, page_size });
        }
        Ok(pool)
    }

    /// Lends an empty page; None exactly where no page is free.
    pub fn take(&mut self) -> Option<PageTicket>
        ensures none { IfNone result ((self.old.free ≡ 0) × (self.new ≡ self.old)) }
        ensures page { IfSome result
            (λ t. t ≡ record { octets = []; page_size = self.old.page_size }) }
        ensures left { IfSome result (λ _. (0 < self.old.free)
            × (self.new ≡ record self.old { free = self.old.free - 1 })) }
    {
        self.tickets.pop()
    }

    /// Takes a page back, and empties it.
    pub fn put_back(&mut self, ticket: PageTicket)
        requires size { ticket.page_size ≡ self.old.page_size }
        requires room { self.old.free < self.old.pages }
        ensures { self.new ≡ record self.old { free = self.old.free + 1 } }
    {
        self.tickets.push_reserved(ticket.wiped());
    }

    /// How many pages are lent to nobody.
    pub fn free(&self) -> usize
        ensures free { result ≡ self.now.free }
        ensures within { result ≤ self.now.pages }
    {
        self.tickets.len()
    }

    /// How many octets fit on a page.
    pub fn page_size(&self) -> usize
        ensures size { result ≡ self.now.page_size }
        ensures in_range { IsSize result }
    {
        self.page_size
    }

    /// How many pages the pool was made with.
    pub fn pages(&self) -> usize
        ensures { result ≡ self.now.pages }
    {
        self.pages
    }
}
