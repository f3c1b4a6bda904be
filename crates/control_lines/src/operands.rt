//! What follows the first word of a command.

ghost use Rattle.std.specs.Prelude.{◌≡◌, ◌<◌, ◌++◌, ◌^◌, ℕ, MatchOption, IsUtf8};
ghost use Rattle.std.specs.List.{list_all};
ghost use Rattle.std.specs.Fmt.{decimal};
ghost use Rattle.lpd_values.specs.Kept.{is_line_feed};
ghost use Rattle.lpd_values.specs.Kinds.{is_word_octet};
ghost use Rattle.lpd_values.specs.Pieces.{is_kept};
ghost use Rattle.control_lines.specs.Operands.{is_queue_name, is_whom, HasNoSpace, IsCut, Lacks};

use decimals::read_decimal;
use lpd_values::{MAX_LINE, MAX_OPERAND};
use std::str;

/// The octets that the name of a queue may have: what a command line of the protocol has room for after its code.
pub const MAX_QUEUE_NAME: usize = MAX_LINE - 1;

/// The most octets of a command's line without its LF, which the longest removal has: `remove`, the queue and whom, with a space
/// before each.
pub const MOST_LINE: usize = 6 + 1 + MAX_QUEUE_NAME + 1 + MAX_OPERAND;

/// Whether all octets may stand in a word.
fn all_word_octets(octets: &[u8]) -> bool
    ensures { result ≡ list_all is_word_octet octets.now }
{
    octets.iter().all(|b| 33 <= *b && *b <= 126 || 128 <= *b)
}

/// Whether these octets may name a queue.
pub(crate) fn is_queue_name(octets: &[u8]) -> bool
    ensures { result ≡ is_queue_name octets.now }
{
    !octets.is_empty() && octets.len() <= MAX_QUEUE_NAME && all_word_octets(octets)
}

/// Whether no octet is a line feed.
fn is_one_line(octets: &[u8]) -> bool
    ensures { result ≡ list_all (is_kept is_line_feed) octets.now }
{
    octets.iter().all(|b| *b != b'\n')
}

/// Whether these octets may say whose jobs, or which job, are removed.
pub(crate) fn is_whom(octets: &[u8]) -> bool
    ensures { result ≡ is_whom octets.now }
{
    let begins = octets.first().is_some_and(|first| *first != b' ');
    begins && octets.len() <= MAX_OPERAND && is_one_line(octets)
}

/// The octets as text, where they are that.
pub(crate) fn text_of(octets: &[u8]) -> Option<&str>
    ensures { MatchOption result (IsUtf8 octets.now → ⊥)
        (λ text. (text.now ≡ octets.now) × IsUtf8 octets.now) }
{
    str::from_utf8(octets).ok()
}

/// The seconds, below 2^32, of which these octets are what is written.
pub(crate) fn read_seconds(digits: &[u8]) -> Option<u32>
    ensures { MatchOption result ((n : ℕ) → n < 2 ^ 32 → digits.now ≡ decimal n → ⊥)
        (λ n. digits.now ≡ decimal n) }
{
    let number = read_decimal(digits)?;
    match u32::try_from(number) {
        Ok(seconds) => Some(seconds),
        Err(_) => None,
    }
}

/// What follows these octets at the head of a text.
pub(crate) fn after<'a>(text: &'a [u8], head: &[u8]) -> Option<&'a [u8]>
    ensures { MatchOption result (Lacks head.now text.now)
        (λ rest. text.now ≡ head.now ++ rest.now) }
{
    text.strip_prefix(head)
}

/// What stands before the first space, and what stands after it.
pub(crate) fn cut(text: &[u8]) -> Option<(&[u8], &[u8])>
    ensures { MatchOption result (HasNoSpace text.now)
        (λ parts. IsCut text.now parts.0.now parts.1.now) }
{
    for (i, octet) in text.iter().enumerate() {
        if *octet == b' ' {
            return Some((&text[..i], &text[i + 1..]));
        }
    }
    None
}
