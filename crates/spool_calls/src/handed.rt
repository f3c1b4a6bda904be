//! A page at a printer.

ghost use Rattle.std.specs.Prelude.{◌≡◌, ◌<◌, ◌^◌, [], length};
ghost use Rattle.sha2.specs.Sha256.{sha256};
ghost use Rattle.spool_calls.specs.Looks as looks;
ghost use Rattle.spool_calls.specs.Kept.{sheet_out};

use account::{Outline, Sheet};
use page_pool::{FilledPage, PageTicket};

/// The length and the digest of a page.
pub fn outline_of(page: &FilledPage) -> Outline
    requires { page.now.page_size < 2 ^ 32 }
    ensures { result ≡ looks.outline_of page.now.octets }
{
    Outline {
        length: page.len() as u32,
        digest: page.digest(),
    }
}

/// A page that was handed to a printer. It has to be spent: given back by `printed` or `failed`, or surrendered.
pub struct HandedPage {
    /// The number of its job.
    pub job: u64,
    /// Its place in the job's print order, from 0.
    pub place: u64,
    /// The number of its file in the job, in order of beginning, from 0.
    pub file: u64,
    /// Its number in the file, from 0.
    pub number: u64,
    /// What is on it.
    pub page: FilledPage,
}

impl HandedPage {
    /// Its octets.
    pub fn bytes(&self) -> &[u8]
        ensures { result.now ≡ self.now.page.octets }
    {
        self.page.bytes()
    }

    /// The SHA-256 of its octets (FIPS 180-4).
    pub fn digest(&self) -> [u8; 32]
        ensures { result ≡ sha256 self.now.page.octets }
    {
        self.page.digest()
    }

    /// What an account says of it.
    pub fn sheet(&self) -> Sheet
        requires { self.now.page.page_size < 2 ^ 32 }
        ensures { result ≡ sheet_out self.now }
    {
        Sheet {
            job: self.job,
            place: self.place,
            file: self.file,
            number: self.number,
            page: outline_of(&self.page),
        }
    }

    /// The page that it is.
    pub fn into_page(self) -> FilledPage
        ensures { result ≡ self.page }
    {
        let HandedPage {
            job: _,
            place: _,
            file: _,
            number: _,
            page,
        } = self;
        page
    }

    /// The page with nothing on it.
    pub fn into_ticket(self) -> PageTicket
        ensures { result ≡ record self.page { octets = [] } }
    {
        self.into_page().unseal()
    }

    /// Spends a page that its spool doesn't take back.
    pub fn surrender(self) {
        self.into_ticket().surrender();
    }
}
