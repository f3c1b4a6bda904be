//! Control files in a line.

ghost use Rattle.std.specs.Prelude.{◌≡◌, ◌⊎◌, true, Some, None, IsTrue, MatchOption, MatchResult, length};
ghost use Rattle.std.specs.List.{list_all};
ghost use Rattle.lpd_values.specs.Kept.{is_print_list};
ghost use Rattle.lpd_values.specs.Name.{is_data_name};
ghost use Rattle.control_file.specs.View.{contents};
ghost use Rattle.account_text.specs.Reading as R;

use crate::fault::LineFault;
use crate::values::{job_number, operand};
use crate::words::next_word;
use control_file::Control;
use lpd_values::{FileName, FileNames, MAX_PRINTS};
use std::alloc::Global;

/// How many words a text has.
fn count_words(text: &[u8]) -> usize
    ensures { result ≡ length (R.words_of text.now) }
{
    let mut count = 0;
    let mut rest = text;
    while let Some((_, after)) = next_word(rest) {
        count += 1;
        rest = after;
    }
    count
}

/// Whether all words of a text name data files.
fn all_data_names(text: &[u8]) -> bool
    ensures { result ≡ list_all is_data_name (R.words_of text.now) }
{
    let mut rest = text;
    while let Some((word, after)) = next_word(rest) {
        match FileName::read(word) {
            Ok(name) if !name.is_control() => rest = after,
            _ => return false,
        }
    }
    true
}

/// Whether the words of a text can be the names of a control file.
fn is_print_text(text: &[u8]) -> bool
    ensures { result ≡ is_print_list (R.words_of text.now) }
{
    let count = count_words(text);
    1 <= count && count <= MAX_PRINTS && all_data_names(text)
}

/// The names that the words of a text are.
fn read_names(alloc: Global, text: &[u8]) -> Result<FileNames, LineFault>
    requires { list_all is_data_name (R.words_of text.now) ≡ true }
    ensures { MatchResult result (λ names. names ≡ R.words_of text.now)
        (λ f. f ≡ LineFault.Memory) }
{
    let mut names = FileNames::new(alloc);
    let mut rest = text;
    while let Some((word, after)) = next_word(rest) {
        let Ok(name) = FileName::read(word) else {
            return Err(LineFault::Memory);
        };
        names.push(name)?;
        rest = after;
    }
    Ok(names)
}

/// The names of the data files that a control file prints.
fn prints(alloc: Global, text: &[u8]) -> Result<FileNames, LineFault>
    ensures { MatchResult result
        (λ names. (R.prints_of (R.words_of text.now) ≡ Some names) × IsTrue (is_print_list names))
        (λ f. (f ≡ LineFault.Memory)
        ⊎ ((f ≡ LineFault.Bad) × (R.prints_of (R.words_of text.now) ≡ None))) }
{
    if !is_print_text(text) {
        return Err(LineFault::Bad);
    }
    read_names(alloc, text)
}

/// A control file.
pub(crate) fn control(alloc: Global, text: &[u8]) -> Result<Control, LineFault>
    ensures { MatchResult result (λ c. R.control_in (R.words_of text.now) ≡ Some (contents c))
        (λ f. (f ≡ LineFault.Memory)
        ⊎ ((f ≡ LineFault.Bad) × (R.control_in (R.words_of text.now) ≡ None))) }
{
    let (number, rest) = next_word(text).ok_or(LineFault::Bad)?;
    let (host, rest) = next_word(rest).ok_or(LineFault::Bad)?;
    let (user, rest) = next_word(rest).ok_or(LineFault::Bad)?;
    let number = job_number(number).ok_or(LineFault::Bad)?;
    let host = operand(alloc, host)?;
    let user = operand(alloc, user)?;
    let prints = prints(alloc, rest)?;
    Ok(Control {
        host,
        user,
        number,
        prints,
    })
}
