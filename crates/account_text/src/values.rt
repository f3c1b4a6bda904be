//! What single words of a line say.

ghost use Rattle.std.specs.Prelude.{◌≡◌, ◌<◌, ◌⊎◌, true, Some, None, IfOk, MatchOption, MatchResult, length};
ghost use Rattle.std.specs.List.{list_all};
ghost use Rattle.lpd_values.specs.Kept.{is_line_feed, is_operand, is_operand_len};
ghost use Rattle.lpd_values.specs.Pieces.{is_kept};
ghost use Rattle.account.specs.Seen.{progress_seen};
ghost use Rattle.account_text.specs.Reading as R;

use crate::fault::LineFault;
use account::{Kind, Progress};
use decimals::read_decimal;
use hex::FromHex;
use lpd_values::{FileName, MAX_OPERAND, Octets};
use percent_encoding::percent_decode;
use std::alloc::{AllocError, Global};

/// A number of 64 bits.
pub fn number(word: &[u8]) -> Option<u64>
    ensures { MatchOption result (R.number_of word.now ≡ None)
        (λ n. R.number_of word.now ≡ Some n) }
{
    let number = read_decimal(word)?;
    Some(number)
}

/// A number of 32 bits.
pub fn short(word: &[u8]) -> Option<u32>
    ensures { MatchOption result (R.short_of word.now ≡ None)
        (λ n. R.short_of word.now ≡ Some n) }
{
    let number = number(word)?;
    match u32::try_from(number) {
        Ok(number) => Some(number),
        Err(_) => None,
    }
}

/// A job's number on its control file: below 1,000.
pub(crate) fn job_number(word: &[u8]) -> Option<u16>
    ensures { MatchOption result (R.job_number_of word.now ≡ None)
        (λ n. (R.job_number_of word.now ≡ Some n) × (n < 1000)) }
{
    let number = number(word)?;
    if number < 1000 {
        Some(number as u16)
    } else {
        None
    }
}

/// The name of a file.
pub(crate) fn name(word: &[u8]) -> Option<FileName>
    ensures { MatchOption result (R.name_of word.now ≡ None)
        (λ n. R.name_of word.now ≡ Some n) }
{
    match FileName::read(word) {
        Ok(name) => Some(name),
        Err(_) => None,
    }
}

/// A digest of 32 octets.
pub fn digest(word: &[u8]) -> Option<[u8; 32]>
    ensures { MatchOption result (R.digest_of word.now ≡ None)
        (λ d. R.digest_of word.now ≡ Some d) }
{
    match <[u8; 32] as FromHex>::from_hex(word) {
        Ok(digest) => Some(digest),
        Err(_) => None,
    }
}

/// Whether a job is whole.
pub(crate) fn wholly(word: &[u8]) -> Option<bool>
    ensures { MatchOption result (R.wholly_of word.now ≡ None)
        (λ b. R.wholly_of word.now ≡ Some b) }
{
    if word == b"whole".as_slice() {
        Some(true)
    } else if word == b"part".as_slice() {
        Some(false)
    } else {
        None
    }
}

/// What was said of a job when a page was printed.
pub(crate) fn progress(word: &[u8]) -> Option<Progress>
    ensures { MatchOption result (R.progress_of word.now ≡ None)
        (λ p. R.progress_of word.now ≡ Some (progress_seen p)) }
{
    if word == b"going".as_slice() {
        Some(Progress::Going)
    } else if word == b"done".as_slice() {
        Some(Progress::Done)
    } else if word == b"ended".as_slice() {
        Some(Progress::Ended)
    } else {
        None
    }
}

/// The kind of an entry whose line begins with a word.
pub(crate) fn kind(word: &[u8]) -> Option<Kind>
    ensures { MatchOption result (R.kind_of word.now ≡ None) (λ k. R.kind_of word.now ≡ Some k) }
{
    if word == b"opened".as_slice() {
        Some(Kind::Opened)
    } else if word == b"granted".as_slice() {
        Some(Kind::Granted)
    } else if word == b"began".as_slice() {
        Some(Kind::Began)
    } else if word == b"put".as_slice() {
        Some(Kind::Put)
    } else if word == b"ended".as_slice() {
        Some(Kind::FileEnded)
    } else if word == b"controlled".as_slice() {
        Some(Kind::Controlled)
    } else if word == b"aborted".as_slice() {
        Some(Kind::Aborted)
    } else if word == b"handed".as_slice() {
        Some(Kind::Handed)
    } else if word == b"printed".as_slice() {
        Some(Kind::Printed)
    } else if word == b"failed".as_slice() {
        Some(Kind::Failed)
    } else if word == b"started".as_slice() {
        Some(Kind::Started)
    } else if word == b"removed".as_slice() {
        Some(Kind::Removed)
    } else if word == b"closed".as_slice() {
        Some(Kind::Closed)
    } else {
        None
    }
}

/// Whether there are 1 to 255 octets.
fn has_operand_len(octets: &[u8]) -> bool
    ensures { result ≡ is_operand_len (length octets.now) }
{
    1 <= octets.len() && octets.len() <= MAX_OPERAND
}

/// Whether no octet is an LF.
fn has_no_feed(octets: &[u8]) -> bool
    ensures { result ≡ list_all (is_kept is_line_feed) octets.now }
{
    octets.iter().all(|octet| *octet != b'\n')
}

/// Whether octets can be those of a host or a user.
fn is_operand(octets: &[u8]) -> bool
    ensures { result ≡ is_operand octets.now }
{
    has_operand_len(octets) && has_no_feed(octets)
}

/// The octets that a word shows.
///
/// AllocError where memory is refused.
pub fn hidden(alloc: Global, word: &[u8]) -> Result<Octets, AllocError>
    ensures { IfOk result (λ o. o ≡ R.hidden_of word.now) }
{
    let mut octets = Vec::new(alloc);
    percent_decode(word).append_to(&mut octets)?;
    Ok(Octets::from_vec(octets))
}

/// A host or a user.
pub(crate) fn operand(alloc: Global, word: &[u8]) -> Result<Octets, LineFault>
    ensures { MatchResult result
        (λ o. (R.operand_of word.now ≡ Some o) × (is_operand o ≡ true))
        (λ f. (f ≡ LineFault.Memory) ⊎ ((f ≡ LineFault.Bad) × (R.operand_of word.now ≡ None))) }
{
    let octets = hidden(alloc, word)?;
    if is_operand(octets.as_slice()) {
        Ok(octets)
    } else {
        Err(LineFault::Bad)
    }
}
