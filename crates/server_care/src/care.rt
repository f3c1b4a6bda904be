//! Who looks after a server.

use server_house::{Hall, HouseLedger, HouseSpool};

/// Who looks after a server: what is done there for whoever runs it.
#[derive(Drop)]
pub struct Care<'h, 'a, R, E: HouseLedger> {
    pub spool: &'h HouseSpool<E>,
    pub hall: &'h Hall<'a, R>,
}
