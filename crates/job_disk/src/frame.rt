//! What stands around a job in its file: a line before it and a line behind it.
//!
//! ```text
//!   hurgwaye 2 00010000      the header: how many octets a page has, in hexadecimal digits
//!   hurgwaye 1 7f000001      the job: what a file of version 1 has, and nothing else
//!   ..
//!   sealed 5891b5b5..be03    the trailer: the digest of all that stands before it
//! ```
//!
//! The digest is a SHA-256 (FIPS 180-4) of the header and of the job's octets, in which each page of a data file stands by its own SHA-256: the
//! session that received it has made that already, so a large job takes no second one.

ghost use Rattle.std.specs.Prelude.{◌≡◌, ◌++◌, List, ℕ, IfOk, IfSome, string_bytes};
ghost use Rattle.sha2.specs.Sha256.{sha256};
ghost use Rattle.job_disk.specs.Frame.{HasTaken, header, trailer};

use sha2::{Digest, Sha256};
use std::alloc::{AllocError, Global};

/// How many octets a header has.
pub(crate) const HEADER_LENGTH: usize = 20;

/// How many octets a trailer has.
pub(crate) const TRAILER_LENGTH: usize = 72;

/// What each header begins with.
const HEADER_MARK: &[u8; 11] = b"hurgwaye 2 ";

/// What each trailer begins with.
const TRAILER_MARK: &[u8; 7] = b"sealed ";

/// The header of a file whose pages have this many octets.
pub(crate) fn write_header(page_size: u32) -> [u8; HEADER_LENGTH]
    ensures { result ≡ header page_size }
{
    let mut octets = *b"hurgwaye 2 00000000\n";
    let _all_fits = hex::encode_to_slice(page_size.to_be_bytes(), &mut octets[11..19]);
    octets
}

/// How many octets a page has, as this header says. None where it is none.
pub(crate) fn read_header(octets: &[u8; HEADER_LENGTH]) -> Option<u32>
    ensures { IfSome result (λ page_size. octets.now ≡ header page_size) }
{
    if !octets.starts_with(HEADER_MARK) {
        return None;
    }
    let mut page_size = [0; 4];
    if hex::decode_to_slice(&octets[11..19], &mut page_size).is_err() {
        return None;
    }
    let page_size = u32::from_be_bytes(page_size);
    if write_header(page_size) != *octets {
        return None;
    }
    Some(page_size)
}

/// Whether these octets may be a trailer: nothing is said of its digits.
pub(crate) fn may_be_trailer(octets: &[u8; TRAILER_LENGTH]) -> bool {
    octets.starts_with(TRAILER_MARK) && octets.ends_with(b"\n")
}

/// The digest of what a file has so far, from its header on.
#[derive(Drop)]
pub(crate) struct FileDigest {
    hash: Sha256,
}

impl FileDigest {
    /// Of a file that has this header.
    pub(crate) fn new(page_size: u32) -> FileDigest
        ensures { HasTaken result (header page_size) }
    {
        let mut hash = Sha256::new();
        hash.update(write_header(page_size));
        FileDigest { hash }
    }

    /// More of the job comes: octets of it, or the SHA-256 of a page.
    pub(crate) fn take(&mut self, octets: &[u8])
        ensures { (taken : List ℕ) → HasTaken self.old taken
            → HasTaken self.new (taken ++ octets.now) }
    {
        self.hash.update(octets);
    }

    /// The trailer of a file that has no more. AllocError where memory is refused.
    pub(crate) fn trailer(self, alloc: Global) -> Result<String, AllocError>
        ensures { IfOk result (λ text. (taken : List ℕ) → HasTaken self taken
            → string_bytes text ≡ trailer (sha256 taken)) }
    {
        let FileDigest { hash } = self;
        let digits = hex::encode(alloc, hash.finalize())?;
        format!(in alloc; "sealed {digits}\n")
    }
}
