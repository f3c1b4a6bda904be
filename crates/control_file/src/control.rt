//! Control files.

ghost use Rattle.std.specs.Prelude.{◌≡◌, ◌≤◌, IsTrue, IfOk, length};
ghost use Rattle.lpd_values.specs.Kept.{is_operand, is_operand_len, is_print_list};
ghost use Rattle.control_file.specs.Text.{control_of, control_with, first_host, first_user, prints_of};

use crate::lines::{Field, check_prints, first_operand, read_prints};
use lpd_values::{FileName, FileNames, MAX_CONTROL_TEXT, MAX_OPERAND, Octets, Refusal};
use std::alloc::{AllocError, Global};

/// What a control file says: the host and the user that sent the job, the job's number and the names of the data files
/// to print, in order.
#[derive(Debug, Drop)]
pub struct Control {
    /// The host, 1 to 255 octets without LF.
    pub host: Octets,
    /// The user, 1 to 255 octets without LF.
    pub user: Octets,
    /// The job's number, 0 to 999.
    pub number: u16,
    /// The names of 1 to `MAX_PRINTS` data files. A name that stands again prints its file again.
    pub prints: FileNames,
    ghost number_fits: { number ≤ 999 },
    ghost host_fits: { IsTrue (is_operand host) },
    ghost user_fits: { IsTrue (is_operand user) },
    ghost prints_fit: { IsTrue (is_print_list prints) },
}

/// Whether the host or the user has 1 to 255 octets.
fn has_operand_len(operand: &[u8]) -> bool
    ensures { result ≡ is_operand_len (length operand.now) }
{
    1 <= operand.len() && operand.len() <= MAX_OPERAND
}

impl Control {
    ghost use Rattle.control_file.specs.View.{contents, GivesControl};
    ghost use Rattle.control_file.specs.Laws.{AnswersControl};

    /// Reads the text of the control file of this name, of which the first line for a host and for a user and all lines
    /// that print a file count (RFC 1179, section 7). A name that is printed again stands again. Answers the first refusal
    /// that fits: `BadLength` for a text that isn't 1 to 8,192 octets long, `NoHost`, `NoUser`, `BadLength` for a host and
    /// then for a user that isn't 1 to 255 octets long, `NoPrintLine`, `TooManyPrints` for over `MAX_PRINTS` lines that print,
    /// `BadName` where one doesn't name a data file, and then `Memory`.
    pub fn parse(alloc: Global, name: &FileName, text: &[u8]) -> Result<Control, Refusal>
        ensures value { GivesControl result (control_of name.now text.now) }
        ensures layout { AnswersControl name.now text.now result }
    {
        if text.is_empty() || text.len() > MAX_CONTROL_TEXT {
            return Err(Refusal::BadLength);
        }
        Self::parse_lines(alloc, name.number(), text)
    }

    /// Reads the lines of a text whose length is fit.
    fn parse_lines(alloc: Global, number: u16, text: &[u8]) -> Result<Control, Refusal>
        requires { number ≤ 999 }
        ensures { GivesControl result
            (control_with number (first_host text.now) (first_user text.now) (prints_of text.now)) }
    {
        let host = first_operand(Field::Host, text).ok_or(Refusal::NoHost)?;
        let user = first_operand(Field::User, text).ok_or(Refusal::NoUser)?;
        if !has_operand_len(host) || !has_operand_len(user) {
            return Err(Refusal::BadLength);
        }
        check_prints(text)?;
        Ok(Control {
            host: Octets::copy_of(alloc, host)?,
            user: Octets::copy_of(alloc, user)?,
            number,
            prints: read_prints(alloc, text)?,
        })
    }

    /// A control file that says the same.
    pub fn copy(&self, alloc: Global) -> Result<Control, AllocError>
        ensures { IfOk result (λ c. contents c ≡ contents self.now) }
    {
        Ok(Control {
            host: Octets::copy_of(alloc, self.host.as_slice())?,
            user: Octets::copy_of(alloc, self.user.as_slice())?,
            number: self.number,
            prints: self.prints.copy(alloc)?,
        })
    }
}
