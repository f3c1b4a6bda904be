//! Times as they stand in a line.

ghost use Rattle.std.specs.Prelude.{◌≡◌, ◌<◌, ◌^◌, ◌⊎◌, Some, None, MatchResult};
ghost use Rattle.segment_text.specs.Reading as R;
ghost use Rattle.segment_text.specs.Times as T;

use account_text::LineFault;
use lpd_values::{Octets, is_digit};
use std::alloc::Global;

/// Whether octets have a shape: a digit where that has 0, and the same octet elsewhere.
fn fits_shape(octets: &[u8], shape: &[u8]) -> bool
    ensures { result ≡ R.fits_shape octets.now shape.now }
{
    match (octets.split_first(), shape.split_first()) {
        (None, None) => true,
        (Some((octet, octets)), Some((form, shape))) => {
            let fits = if *form == b'0' {
                is_digit(*octet)
            } else {
                octet == form
            };
            fits && fits_shape(octets, shape)
        }
        _ => false,
    }
}

/// The number that the two digits at a place of a text are.
fn two_at(text: &[u8], at: usize) -> u32
    requires { at < 2 ^ 32 }
    ensures { result ≡ T.two_at text.now at }
{
    let tens = text.get(at).copied().unwrap_or(b'0');
    let ones = text.get(at + 1).copied().unwrap_or(b'0');
    u32::from(tens.saturating_sub(b'0')) * 10 + u32::from(ones.saturating_sub(b'0'))
}

/// Whether a year of four digits has a 29 February (of the Gregorian calendar).
fn is_leap(year: u32) -> bool
    ensures { result ≡ T.is_leap year }
{
    year % 4 == 0 && (year % 100 != 0 || year % 400 == 0)
}

/// How many days a month has.
fn days_in(is_leap: bool, month: u32) -> u32
    ensures { result ≡ T.days_in is_leap month }
{
    if month == 2 {
        if is_leap { 29 } else { 28 }
    } else if month == 4 || month == 6 || month == 9 || month == 11 {
        30
    } else {
        31
    }
}

/// Whether the day that stands in a text of the shape of a time is one that there is.
fn is_day(text: &[u8]) -> bool
    ensures { result ≡ T.is_day text.now }
{
    let year = two_at(text, 0) * 100 + two_at(text, 2);
    let (month, day) = (two_at(text, 5), two_at(text, 8));
    1 <= month && month <= 12 && 1 <= day && day <= days_in(is_leap(year), month)
}

/// Whether the moment that stands in such a text is one of a day, and no leap second.
fn is_moment(text: &[u8]) -> bool
    ensures { result ≡ T.is_moment text.now }
{
    let (hour, minute, second) = (two_at(text, 11), two_at(text, 14), two_at(text, 17));
    hour <= 23 && minute <= 59 && second <= 59
}

/// Whether octets are a time as it stands in a line: `2026-11-26T22:00:00Z`, of a day that there is (RFC 3339, without leap seconds).
pub fn is_time(text: &[u8]) -> bool
    ensures { result ≡ R.is_time text.now }
{
    fits_shape(text, b"0000-00-00T00:00:00Z") && is_day(text) && is_moment(text)
}

/// Whether octets come before others: octet by octet, and a beginning before what goes on. So does one time before another, as they
/// stand in a line.
pub fn is_before(some: &[u8], others: &[u8]) -> bool
    ensures { result ≡ T.is_before some.now others.now }
{
    match (some.split_first(), others.split_first()) {
        (None, Some(_)) => true,
        (Some((one, some)), Some((other, others))) => {
            one < other || (one == other && is_before(some, others))
        }
        _ => false,
    }
}

/// A time.
pub(crate) fn stamp(alloc: Global, word: &[u8]) -> Result<Octets, LineFault>
    ensures { MatchResult result (λ o. R.stamp_of word.now ≡ Some o)
        (λ f. (f ≡ LineFault.Memory) ⊎ ((f ≡ LineFault.Bad) × (R.stamp_of word.now ≡ None))) }
{
    if !is_time(word) {
        return Err(LineFault::Bad);
    }
    let octets = Octets::copy_of(alloc, word)?;
    Ok(octets)
}
