//! Where the octets wait that a session has read.

ghost use Rattle.std.specs.Prelude.{◌≡◌, length};
ghost use Rattle.request_session.specs.declared.input.TheConstants.{BUFFER_SIZE};

use bytes::BytesMut;
use std::alloc::{AllocError, Global};

/// How many octets are read at once, at most.
pub const BUFFER_SIZE: usize = 65_536;

/// Where octets wait that a session has read and not used yet: room for `BUFFER_SIZE` of them.
/// Made once, it serves any number of sessions, one after another.
#[derive(Drop)]
pub struct Input {
    pub(crate) octets: BytesMut,
    ghost room: { length octets.items ≡ BUFFER_SIZE },
}

impl Input {
    /// Room for `BUFFER_SIZE` octets. Fails where memory is refused.
    pub fn new(alloc: Global) -> Result<Input, AllocError> {
        let octets = BytesMut::zeroed(alloc, BUFFER_SIZE)?;
        Ok(Input { octets })
    }
}
