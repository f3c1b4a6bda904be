//! Who looks at how a server stands.

use server_house::{Hall, HouseLedger, HouseSpool};

/// Who looks at how a server stands, and shows it to whoever asks.
#[derive(Drop)]
pub struct Surveyor<'h, 'a, R, E: HouseLedger> {
    pub spool: &'h HouseSpool<E>,
    pub hall: &'h Hall<'a, R>,
}
