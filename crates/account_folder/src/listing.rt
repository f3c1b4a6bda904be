//! Which files a folder has.

use crate::names::SegmentName;
use std::alloc::{AllocError, Global};
use std::fs::Files;
use std::io;

/// The files of a folder that are segments, or were to become ones.
#[derive(Drop)]
pub(crate) struct Listing {
    /// How many segments there are.
    pub(crate) segments: u64,
    /// The one of the greatest number, if there is one.
    pub(crate) greatest: Option<SegmentName>,
    /// Which temporary files a server has left.
    pub(crate) left: Vec<SegmentName>,
}

/// The later one of a segment and another, if there is another.
fn later(name: SegmentName, other: Option<SegmentName>) -> SegmentName {
    match other {
        Some(other) if name.number < other.number => other,
        _ => name,
    }
}

impl Listing {
    /// The segments among these names, each of which ends at an octet 00. Any other name is passed over.
    pub(crate) fn of(alloc: Global, octets: &[u8]) -> Result<Listing, AllocError> {
        let mut listing = Listing {
            segments: 0,
            greatest: None,
            left: Vec::new(alloc),
        };
        for octets in octets.split(|octet| *octet == 0) {
            if let Some(name) = SegmentName::parse(octets) {
                listing.segments = listing.segments.saturating_add(1);
                listing.greatest = Some(later(name, listing.greatest));
            } else if let Some(octets) = octets.strip_suffix(b".tmp") {
                if let Some(name) = SegmentName::parse(octets) {
                    listing.left.push(name)?;
                }
            }
        }
        Ok(listing)
    }
}

/// The segments in the folder at this path. An error where it can't be read, or memory is refused.
pub(crate) fn list<R: Files>(rt: &R, alloc: Global, path: &str) -> io::Result<Listing> {
    let octets = server_folder::names(rt, alloc, path)?;
    Ok(Listing::of(alloc, octets.as_slice())?)
}
