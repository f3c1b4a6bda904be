//! Subcommand lines.

ghost use Rattle.std.specs.Prelude.{◌≡◌, ◌⊎◌, [], ◌∷◌, MatchOption, MatchResult, true, false, if◌then◌else◌};
ghost use Rattle.lpd_commands.specs.Layout.{MeansSub, RefusesSub};
ghost use Rattle.lpd_values.specs.Digits.{is_count, count_of};
ghost use Rattle.lpd_commands.specs.Line.{words_of, file_of, sub_at, sub_of};

use crate::words::{is_worded, next_word};
use lpd_values::{FileName, MAX_COUNT_DIGITS, MAX_LINE, Refusal, all_spaces, is_digit};

/// What a connection that receives jobs asks for (RFC 1179, section 6).
#[derive(Clone, Copy, Debug)]
pub enum Sub {
    /// Aborts the job in hand.
    Abort,
    /// A control file of `count` octets follows.
    ControlFile { count: u64, name: FileName },
    /// A data file of `count` octets follows.
    DataFile { count: u64, name: FileName },
}

/// The number that 1 to 19 decimal digits are.
fn read_count(digits: &[u8]) -> Option<u64>
    ensures { MatchOption result (is_count digits.now ≡ false)
        (λ n. (is_count digits.now ≡ true) × (n ≡ count_of digits.now)) }
{
    if digits.is_empty() || digits.len() > MAX_COUNT_DIGITS {
        return None;
    }
    let mut count = 0;
    for digit in digits {
        if !is_digit(*digit) {
            return None;
        }
        count = 10 * count + u64::from(*digit - b'0');
    }
    Some(count)
}

/// The file subcommand of this code, 2 or 3, and a text of a count and a name.
fn parse_file(code: u8, text: &[u8]) -> Result<Sub, Refusal>
    requires { (code ≡ 2) ⊎ (code ≡ 3) }
    ensures { result ≡ file_of code (words_of text.now) }
{
    let (count, rest) = next_word(text).ok_or(Refusal::BadLine)?;
    let (name, rest) = next_word(rest).ok_or(Refusal::BadLine)?;
    if next_word(rest).is_some() {
        return Err(Refusal::BadLine);
    }
    let count = read_count(count).ok_or(Refusal::BadCount)?;
    if code == 3 && count == 0 {
        return Err(Refusal::BadCount);
    }
    let name = FileName::read(name)?;
    match (code, name.is_control()) {
        (2, true) => Ok(Sub::ControlFile { count, name }),
        (3, false) => Ok(Sub::DataFile { count, name }),
        _ => Err(Refusal::BadName),
    }
}

/// The subcommand of a line that isn't too long.
fn parse_short(line: &[u8]) -> Result<Sub, Refusal>
    ensures { result ≡ sub_at line.now }
{
    let (code, rest) = line.split_first().ok_or(Refusal::BadCode)?;
    match *code {
        1 if all_spaces(rest) => Ok(Sub::Abort),
        1 => Err(Refusal::BadLine),
        2 | 3 if is_worded(rest) => parse_file(*code, rest),
        2 | 3 => Err(Refusal::BadLine),
        _ => Err(Refusal::BadCode),
    }
}

/// The subcommand of a line without its LF, or the first refusal that fits: `LineTooLong`, `BadCode`, `BadLine`,
/// `BadCount`, `BadName` (RFC 1179, section 6).
pub fn parse_sub(line: &[u8]) -> Result<Sub, Refusal>
    ensures value { result ≡ sub_of line.now }
    ensures layout { MatchResult result (MeansSub line.now) (RefusesSub line.now) }
{
    if line.len() > MAX_LINE {
        return Err(Refusal::LineTooLong);
    }
    parse_short(line)
}
