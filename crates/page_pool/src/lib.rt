//! A fixed pool of equal pages.
//!
//! A page is lent as a [`PageTicket`], which can't be copied and has to be spent: it is sealed, put back or
//! surrendered. A sealed page is a [`FilledPage`] with the SHA-256 (FIPS 180-4) of its octets, which has to be spent too.
#![tactic(auto)]

mod error;
mod filled;
mod pool;
mod ticket;

pub use error::PoolError;
pub use filled::FilledPage;
pub use pool::Pool;
pub use ticket::PageTicket;
