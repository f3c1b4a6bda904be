//! One page.
//!
//! A printer's octets are compared page by page, by length and SHA-256, since that is what the account has. So a fault names the octet at
//! which the page begins, or that at which the file ends.

ghost use Rattle.std.specs.Prelude.{◌≡◌, ◌<◌, ◌+◌, ◌^◌, ◌↔◌, IsTrue, MatchResult, length};
ghost use Rattle.printed_pages.specs.Pages.{DiffersAt, Matches};

use account::{Outline, Sheet};
use sha2::{Digest, Sha256};

/// Where what is read differs from what the account says was printed.
#[derive(Clone, Copy, Debug, PartialEq, Eq)]
pub struct Differs {
    /// The printer.
    pub printer: u32,
    /// The job.
    pub job: u64,
    /// The page's place in the job's print order, from 0.
    pub place: u64,
    /// The octet at which: where the page begins, since a digest doesn't tell which octet of it is another; or where the octets end,
    /// if they end inside the page; or where they go on behind the last page of a job's file. From 0 in the file.
    pub octet: u64,
}

/// Whether these octets are a page: so many, with its digest.
pub fn page_matches(octets: &[u8], page: &Outline) -> bool
    ensures { IsTrue result ↔ Matches octets.now page.now }
{
    octets.len() == page.length as usize
        && Sha256::digest(octets).as_slice() == page.digest.as_slice()
}

/// Judges the octets that were read of a page, which begins at the octet `at` of a printer's file: Ok exactly where they are the page.
pub fn judge(printer: u32, sheet: &Sheet, at: u64, octets: &[u8]) -> Result<(), Differs>
    requires { at + length octets.now < 2 ^ 64 }
    ensures { MatchResult result (λ _. Matches octets.now sheet.now.page) (λ d.
        (Matches octets.now sheet.now.page → ⊥) × (d.printer ≡ printer) × (d.job ≡ sheet.now.job)
        × (d.place ≡ sheet.now.place) × DiffersAt at octets.now sheet.now.page d.octet) }
{
    if page_matches(octets, &sheet.page) {
        return Ok(());
    }
    let is_cut = octets.len() < sheet.page.length as usize;
    Err(Differs {
        printer,
        job: sheet.job,
        place: sheet.place,
        octet: if is_cut { at + octets.len() as u64 } else { at },
    })
}
