//! Kinds of octets.

ghost use Rattle.std.specs.Prelude.{◌≡◌};
ghost use Rattle.std.specs.List.{list_all};
ghost use Rattle.lpd_values.specs.Kinds.{is_space, is_word_octet, is_text_octet, is_digit};

/// Space, horizontal tab, vertical tab and form feed.
pub fn is_space(octet: u8) -> bool
    ensures { result ≡ is_space octet }
{
    octet == b' ' || octet == 9 || octet == 11 || octet == 12
}

/// A printable octet, or one of the upper half.
pub(crate) fn is_word_octet(octet: u8) -> bool
    ensures { result ≡ is_word_octet octet }
{
    33 <= octet && octet <= 126 || 128 <= octet
}

pub fn is_digit(octet: u8) -> bool
    ensures { result ≡ is_digit octet }
{
    octet.is_ascii_digit()
}

pub fn all_spaces(octets: &[u8]) -> bool
    ensures { result ≡ list_all is_space octets.now }
{
    octets.iter().all(|b| is_space(*b))
}

pub(crate) fn all_digits(octets: &[u8]) -> bool
    ensures { result ≡ list_all is_digit octets.now }
{
    octets.iter().all(|b| is_digit(*b))
}

pub(crate) fn all_word_octets(octets: &[u8]) -> bool
    ensures { result ≡ list_all is_word_octet octets.now }
{
    octets.iter().all(|b| is_word_octet(*b))
}

/// Whether there are word octets and white space alone.
pub fn all_text(octets: &[u8]) -> bool
    ensures { result ≡ list_all is_text_octet octets.now }
{
    octets.iter().all(|b| is_word_octet(*b) || is_space(*b))
}
