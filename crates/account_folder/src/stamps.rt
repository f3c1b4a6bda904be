//! Times as they stand in a segment's head.

use jiff::Timestamp;
use lpd_values::Octets;
use std::alloc::{AllocError, Global};
use std::time::SystemTime;

/// How many octets such a time has.
const OCTETS: usize = 20;

/// What stands where a time can't be written so: the year has more than four digits.
const NONE: &[u8] = b"1970-01-01T00:00:00Z";

/// The text of a time: RFC 3339 in UTC, cut to the second. AllocError where memory is refused.
pub(crate) fn stamp(alloc: Global, time: SystemTime) -> Result<Octets, AllocError> {
    let Ok(time) = Timestamp::try_from(time) else {
        return Octets::copy_of(alloc, NONE);
    };
    let text = format!(in alloc; "{time:.0}")?;
    if text.len() == OCTETS {
        Octets::copy_of(alloc, text.as_bytes())
    } else {
        Octets::copy_of(alloc, NONE)
    }
}
