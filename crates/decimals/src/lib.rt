//! Numbers in the one spelling that a number is written in: decimal digits, of which the first is 0 only where it is alone.
#![tactic(auto)]

ghost use Rattle.std.specs.Prelude.{◌≡◌, ◌<◌, ◌^◌, ℕ, IsUtf8, MatchOption};
ghost use Rattle.std.specs.Fmt.{decimal};
ghost use Rattle.decimals.specs.Canonical.{is_canonical};

use std::str;

#[cfg(test)]
mod tests;

/// The octets as text, where they are that.
fn text_of(octets: &[u8]) -> Option<&str>
    ensures { MatchOption result (IsUtf8 octets.now → ⊥)
        (λ text. (text.now ≡ octets.now) × IsUtf8 octets.now) }
{
    str::from_utf8(octets).ok()
}

/// Whether these octets, where they write a number, begin with no `+`, and with `0` only where that is all.
fn is_canonical(digits: &[u8]) -> bool
    ensures { result ≡ is_canonical digits.now }
{
    match digits {
        [b'+', ..] | [b'0', _, ..] => false,
        _ => true,
    }
}

/// The number below 2^64 of which these octets are what is written. None where they are that of no such number.
pub fn read_decimal(digits: &[u8]) -> Option<u64>
    ensures { MatchOption result ((n : ℕ) → n < 2 ^ 64 → digits.now ≡ decimal n → ⊥)
        (λ n. digits.now ≡ decimal n) }
{
    if !is_canonical(digits) {
        return None;
    }
    let text = text_of(digits)?;
    match text.parse() {
        Ok(number) => Some(number),
        Err(_) => None,
    }
}
