//! What a word of a list says.

ghost use Rattle.std.specs.Prelude.{◌≡◌, ◌≤◌, ◌-◌, length};
ghost use Rattle.lpd_values.specs.Digits.{count_of};
ghost use Rattle.lpd_values.specs.Choice as C;

use lpd_values::is_digit;

/// Whether a word is of digits alone.
pub(crate) fn is_number_word(word: &[u8]) -> bool
    ensures { result ≡ C.is_number_word word.now }
{
    word.iter().all(|octet| is_digit(*octet))
}

/// What is left of a word once its leading zeros are dropped.
fn without_zeros(word: &[u8]) -> &[u8]
    ensures { result.now ≡ C.without_zeros word.now }
{
    let Some((first, rest)) = word.split_first() else {
        return word;
    };
    if *first == b'0' {
        return without_zeros(rest);
    }
    word
}

/// What a digit stands for.
fn digit_value(octet: u8) -> u32
    ensures value { result ≡ octet - 48 }
    ensures within { result ≤ 255 }
{
    u32::from(octet.saturating_sub(b'0'))
}

/// The number that at most three digits spell.
fn short_count(digits: &[u8]) -> u32
    requires { length digits.now ≤ 3 }
    ensures { result ≡ count_of digits.now }
{
    match digits {
        [hundreds, tens, ones] => {
            100 * digit_value(*hundreds) + 10 * digit_value(*tens) + digit_value(*ones)
        }
        [tens, ones] => 10 * digit_value(*tens) + digit_value(*ones),
        [ones] => digit_value(*ones),
        _ => 0,
    }
}

/// Whether a word names this job number: at most three digits are left once leading zeros are dropped.
pub(crate) fn names_number(word: &[u8], number: u16) -> bool
    ensures { result ≡ C.names_number word.now number }
{
    let digits = without_zeros(word);
    is_number_word(word) && digits.len() <= 3 && short_count(digits) == u32::from(number)
}

/// Whether an agent is root.
pub(crate) fn is_root(agent: &[u8]) -> bool
    ensures { result ≡ C.is_root agent.now }
{
    agent == b"root".as_slice()
}
