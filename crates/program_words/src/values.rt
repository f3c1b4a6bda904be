//! What the text of a word is worth, by what `clap` reads of it.

ghost use Rattle.std.specs.Prelude.{◌≡◌, IfOk, IfErr, MatchOption, None, Some, map, option_map, unwrap_or};
ghost use Rattle.std.specs.Int.NonZero.{non_zero_u64_get};
ghost use Rattle.clap.specs.Words.{all_of, first_of, found_of, rows_of};
ghost use Rattle.program_words.specs.Refused.{HasNoAddress, HasNoCount, HasNoLimit};
ghost use Rattle.program_words.specs.Values.{HasNoNumber, IsAddress, IsFlag, IsGiven, IsLimit, IsNumber};
ghost use Rattle.program_words.specs.declared.word_fault.WordFault.TheVariants.{Missing};

use crate::word_fault::WordFault;
use clap::ArgMatches;
use std::net::Ipv4Addr;
use std::num::NonZeroU64;

/// The address that is meant where the words don't say it: this machine's own.
const LOCAL: &str = "127.0.0.1";

/// The text of a word, which has to be there.
pub(crate) fn text_of<'a>(matches: &ArgMatches<'a>, id: &str) -> Result<&'a str, WordFault>
    ensures text { IfOk result (λ text.
        first_of id.now (rows_of (found_of matches.now)) ≡ Some text.now) }
    ensures fault { IfErr result (λ fault. (fault ≡ Missing)
        × (first_of id.now (rows_of (found_of matches.now)) ≡ None)) }
{
    matches.get_str(id).ok_or(WordFault::Missing)
}

/// The text of an option, if it is there.
pub(crate) fn text_if<'a>(matches: &ArgMatches<'a>, id: &str) -> Option<&'a str>
    ensures { option_map (λ text. text.now) result
        ≡ first_of id.now (rows_of (found_of matches.now)) }
{
    matches.get_str(id)
}

/// The texts of a word that may stand several times, and has to be there.
pub(crate) fn texts_of<'a, 'm>(
    matches: &'m ArgMatches<'a>,
    id: &str,
) -> Result<&'m [&'a str], WordFault>
    ensures texts { IfOk result (λ texts.
        all_of id.now (rows_of (found_of matches.now)) ≡ Some (map (λ text. text.now) texts.now)) }
    ensures fault { IfErr result (λ fault. (fault ≡ Missing)
        × (all_of id.now (rows_of (found_of matches.now)) ≡ None)) }
{
    matches.get_strs(id).ok_or(WordFault::Missing)
}

/// The number that a word is, which has to be there.
pub(crate) fn number_of(matches: &ArgMatches, id: &str) -> Result<u16, WordFault>
    ensures number { IfOk result (IsNumber (rows_of (found_of matches.now)) id.now) }
    ensures fault { IfErr result (λ fault. (fault ≡ Missing)
        × HasNoNumber (rows_of (found_of matches.now)) id.now) }
{
    matches.get_one::<u16>(id).ok_or(WordFault::Missing)
}

/// Whether an option without a value is there.
pub(crate) fn flag_of(matches: &ArgMatches, id: &str) -> bool
    ensures { IsFlag (rows_of (found_of matches.now)) id.now result }
{
    matches.get_flag(id)
}

/// The text of an option, or this one where it isn't there.
pub(crate) fn text_or<'a>(matches: &ArgMatches<'a>, id: &str, other: &'a str) -> &'a str
    ensures { result.now ≡ unwrap_or (first_of id.now (rows_of (found_of matches.now))) other.now }
{
    matches.get_str(id).unwrap_or(other)
}

/// The address that an option names, 127.0.0.1 where it isn't there. None where its text is no address.
pub(crate) fn address_of(matches: &ArgMatches, id: &str) -> Option<Ipv4Addr>
    ensures { MatchOption result (HasNoAddress id.now (rows_of (found_of matches.now)))
        (IsAddress id.now (rows_of (found_of matches.now))) }
{
    match text_or(matches, id, LOCAL).parse() {
        Ok(address) => Some(address),
        Err(_) => None,
    }
}

/// The number that an option is, if it is there. `Missing` where it is no number.
pub(crate) fn count_of(matches: &ArgMatches, id: &str) -> Result<Option<u64>, WordFault>
    ensures count { IfOk result (IsGiven 64 (rows_of (found_of matches.now)) id.now) }
    ensures fault { IfErr result (λ fault. (fault ≡ Missing)
        × HasNoCount (rows_of (found_of matches.now)) id.now) }
{
    match matches.try_get_one::<u64>(id) {
        Ok(count) => Ok(count),
        Err(_) => Err(WordFault::Missing),
    }
}

/// The number above 0 that an option is, if it is there. `Missing` where it is no such number.
pub(crate) fn limit_of(matches: &ArgMatches, id: &str) -> Result<Option<NonZeroU64>, WordFault>
    ensures limit { IfOk result (λ limit.
        IsLimit (rows_of (found_of matches.now)) id.now (option_map non_zero_u64_get limit)) }
    ensures fault { IfErr result (λ fault. (fault ≡ Missing)
        × HasNoLimit (rows_of (found_of matches.now)) id.now) }
{
    match count_of(matches, id) {
        Ok(None) => Ok(None),
        Ok(Some(0)) => Err(WordFault::Missing),
        Ok(Some(limit)) => Ok(NonZeroU64::new(limit)),
        Err(fault) => Err(fault),
    }
}
