//! Histograms.

ghost use Rattle.std.specs.Prelude.{◌≡◌, ◌<◌, ◌+◌, ◌^◌, ◌++◌, OnOk, string_bytes, take};
ghost use Rattle.status_lines.specs.Status.{placed};
ghost use Rattle.status_metrics.specs.Lines.{bound_word, bucket_text, histogram_text, seconds_word, total_of, totals_text};

use crate::family::push_family;
use crate::kind::SampleKind;
use server_counts::{BOUNDS, Histogram};
use std::alloc::AllocError;
use std::fmt;

/// The bound of a bucket, in milliseconds, as seconds.
#[derive(Clone, Copy)]
struct Bound(u64);

impl fmt::Display for Bound {
    ghost use Rattle.std.specs.Prelude.{Some};

    ghost output = { λ bound. Some (bound_word bound.0) };

    fn fmt<W: fmt::Write>(&self, f: &mut fmt::Formatter<W>) -> fmt::Result {
        let (whole, tenth) = (self.0 / 1_000, self.0 / 100 % 10);
        if self.0 % 1_000 == 0 {
            write!(f, "{whole}")
        } else {
            write!(f, "{whole}.{tenth}")
        }
    }
}

/// So many milliseconds as seconds.
#[derive(Clone, Copy)]
struct Seconds(u64);

impl fmt::Display for Seconds {
    ghost use Rattle.std.specs.Prelude.{Some};

    ghost output = { λ seconds. Some (seconds_word seconds.0) };

    fn fmt<W: fmt::Write>(&self, f: &mut fmt::Formatter<W>) -> fmt::Result {
        let n = self.0;
        let (whole, tenths) = (n / 1_000, n / 100 % 10);
        write!(f, "{whole}.{tenths}{}{}", n / 10 % 10, n % 10)
    }
}

/// The sum of these numbers; 2 to the 64th less 1 where it is more.
fn total_of(numbers: &[u64]) -> u64
    ensures { result ≡ total_of numbers.now }
{
    let Some((first, rest)) = numbers.split_first() else {
        return 0;
    };
    first.saturating_add(total_of(rest))
}

/// The numbers up to the one at a place.
fn up_to(numbers: &[u64], at: usize) -> &[u64]
    requires { at < 2 ^ 63 }
    ensures { result.now ≡ take (at + 1) numbers.now }
{
    numbers.get(..at + 1).unwrap_or(numbers)
}

/// Puts at the end how many times were no longer than the bound at a place.
#[tactic(auto, unfolding(crate::specs::Lines::bucket_text))]
fn push_bucket(
    text: &mut String,
    name: &str,
    buckets: &[u64],
    at: usize,
    bound: u64,
) -> Result<(), AllocError>
    requires { at < 2 ^ 63 }
    ensures { OnOk result (string_bytes text.new ≡ string_bytes text.old
        ++ bucket_text name.now buckets.now at bound) }
{
    let (count, bound) = (total_of(up_to(buckets, at)), Bound(bound));
    write!(text, "{name}_bucket{{le=\"{bound}\"}} {count}\n")?;
    Ok(())
}

/// Puts at the end how many times were no longer than each bound.
fn push_buckets(text: &mut String, name: &str, buckets: &[u64]) -> Result<(), AllocError>
    ensures { OnOk result (string_bytes text.new ≡ string_bytes text.old
        ++ placed (bucket_text name.now buckets.now) 0 BOUNDS) }
{
    for (i, bound) in BOUNDS.iter().enumerate() {
        push_bucket(text, name, buckets, i, *bound)?;
    }
    Ok(())
}

/// Puts at the end how many times there were, and their sum.
#[tactic(auto, unfolding(crate::specs::Lines::totals_text))]
fn push_totals(text: &mut String, name: &str, times: &Histogram) -> Result<(), AllocError>
    ensures { OnOk result
        (string_bytes text.new ≡ string_bytes text.old ++ totals_text name.now times.now) }
{
    let count = total_of(times.buckets.as_slice());
    let sum = Seconds(times.milliseconds);
    write!(text, "{name}_bucket{{le=\"+Inf\"}} {count}\n")?;
    write!(text, "{name}_sum {sum}\n")?;
    write!(text, "{name}_count {count}\n")?;
    Ok(())
}

/// Puts a histogram at the end.
#[tactic(auto, unfolding(crate::specs::Lines::histogram_text))]
pub(crate) fn push_histogram(
    text: &mut String,
    name: &str,
    help: &str,
    times: &Histogram,
) -> Result<(), AllocError>
    ensures { OnOk result
        (string_bytes text.new ≡ string_bytes text.old ++ histogram_text name.now help.now times.now) }
{
    push_family(text, name, help, SampleKind::Histogram)?;
    push_buckets(text, name, times.buckets.as_slice())?;
    push_totals(text, name, times)
}
