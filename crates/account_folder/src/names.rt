//! How the files of a folder are named.

ghost use Rattle.std.specs.Prelude.{◌≡◌, ◌<◌, ◌≤◌, ◌+◌, ◌++◌, ℕ, List, MatchOption, codes};
ghost use Rattle.account_folder.specs.Names.{AreOfNone, IsNoName, IsNumber, ten_digits, without_zeros, written};

use decimals::read_decimal;
use std::fmt;
use std::fmt::{Display, Formatter, Write};

/// How many digits a number has in a name.
const DIGITS: usize = 10;

/// The greatest number that has so many.
const GREATEST: u64 = 9_999_999_999;

/// The name of a segment's file: `segment-NNNNNNNNNN`, with the folder's own number in ten digits.
#[derive(Clone, Copy, Debug, PartialEq, Eq)]
pub struct SegmentName {
    /// The number, from 1 to 9,999,999,999.
    pub number: u64,
}

impl Display for SegmentName {
    ghost use Rattle.std.specs.Prelude.{Some};

    ghost output = { λ name. Some (written name.number) };

    fn fmt<W: Write>(&self, f: &mut Formatter<W>) -> fmt::Result {
        write!(f, "segment-{:010}", self.number)
    }
}

/// What stands behind the word that each name begins with.
fn behind_word(octets: &[u8]) -> Option<&[u8]>
    ensures { MatchOption result ((rest : List ℕ) → octets.now ≡ codes "segment-" ++ rest → ⊥)
        (λ rest. octets.now ≡ codes "segment-" ++ rest.now) }
{
    octets.strip_prefix(b"segment-")
}

/// Digits without the zeros that they begin with.
fn without_zeros(digits: &[u8]) -> &[u8]
    ensures { result.now ≡ without_zeros digits.now }
{
    match digits {
        [b'0', rest @ ..] => without_zeros(rest),
        _ => digits,
    }
}

/// The number that ten digits write. None where they are those of none that a file may have.
fn number_in(digits: &[u8]) -> Option<u64>
    ensures { MatchOption result (AreOfNone digits.now) (λ n.
        (digits.now ≡ ten_digits n) × IsNumber n) }
{
    if digits.len() != DIGITS {
        return None;
    }
    read_decimal(without_zeros(digits))
}

impl SegmentName {
    /// The name that these octets are. None where they are that of no segment's file.
    pub fn parse(octets: &[u8]) -> Option<SegmentName>
        ensures { MatchOption result (IsNoName octets.now) (λ name.
            (octets.now ≡ written name.number) × IsNumber name.number) }
    {
        let digits = behind_word(octets)?;
        let number = number_in(digits)?;
        Some(SegmentName { number })
    }

    /// The name of the first file.
    pub fn first() -> SegmentName
        ensures { result.number ≡ 1 }
    {
        SegmentName { number: 1 }
    }

    /// The name of the file behind this one. None behind the last that there may be.
    pub fn next(self) -> Option<SegmentName>
        ensures { MatchOption result (9999999999 ≤ self.number) (λ name.
            (name.number ≡ self.number + 1) × (self.number < 9999999999)) }
    {
        if self.number >= GREATEST {
            return None;
        }
        let number = self.number + 1;
        Some(SegmentName { number })
    }
}
