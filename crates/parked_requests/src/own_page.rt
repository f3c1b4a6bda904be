//! The page that a session has for jobs that come beside the spool.

ghost use Rattle.std.specs.Prelude.{◌≡◌, ◌<◌, [], IfSome, IsTrue};
ghost use Rattle.parked_requests.specs.Sizes.{IsEmptyPage, has_size};

use page_pool::{PageTicket, Pool};
use std::alloc::Global;

/// The page that a session has for jobs that come beside the spool. It is made at the first need, and then kept.
#[derive(Drop)]
pub struct OwnPage {
    /// How many octets fit on it.
    page_size: u32,
    /// The pool of this one page.
    pool: Option<Pool>,
    ghost some: { 0 < page_size },
    ghost sized: { IsTrue (has_size pool page_size) },
}

impl OwnPage {
    /// No page yet, of so many octets.
    pub(crate) fn new(page_size: u32) -> OwnPage
        requires { 0 < page_size }
        ensures { result.page_size ≡ page_size }
    {
        OwnPage {
            page_size,
            pool: None,
        }
    }

    /// How many octets fit on it.
    pub(crate) fn page_size(&self) -> u32
        ensures size { result ≡ self.now.page_size }
        ensures some { 0 < result }
    {
        self.page_size
    }

    /// The page, empty. None while it is lent, or where memory for it is refused.
    pub(crate) fn take(&mut self, alloc: Global) -> Option<PageTicket>
        ensures page { IfSome result (IsEmptyPage self.old.page_size) }
        ensures size { self.new.page_size ≡ self.old.page_size }
    {
        if self.pool.is_none() {
            self.pool = Pool::new(alloc, 1, self.page_size as usize).ok();
        }
        match &mut self.pool {
            Some(pool) => pool.take(),
            None => None,
        }
    }

    /// Takes a page back. One that isn't this is spent.
    pub(crate) fn put_back(&mut self, ticket: PageTicket)
        ensures { self.new.page_size ≡ self.old.page_size }
    {
        match &mut self.pool {
            Some(pool) if pool.free() < pool.pages() && pool.page_size() == ticket.page_size() => {
                pool.put_back(ticket)
            }
            _ => ticket.surrender(),
        }
    }
}
