//! How often which times were taken.

ghost use Rattle.std.specs.Prelude.{◌≡◌, ◌≤◌};
ghost use Rattle.server_counts.specs.Histogram.{bucket_of, no_times, noted};

/// The greatest time of each bucket but the last, in milliseconds: 0.1, 0.5, 1, 5, 15, 60, 300, 900 and 3,600 seconds. The last
/// bucket has what took longer.
pub const BOUNDS: [u64; 9] = [
    100, 500, 1_000, 5_000, 15_000, 60_000, 300_000, 900_000, 3_600_000,
];

/// How many times were taken, by the bucket that each falls into, and their sum. Each number stays at 2 to the 64th less 1 once it is
/// there.
#[derive(Clone, Copy, Debug, PartialEq, Eq)]
pub struct Histogram {
    /// How many times fell into each bucket: over the bound before its own, and not over that.
    pub buckets: [u64; 10],
    /// Their sum in milliseconds.
    pub milliseconds: u64,
}

/// The place of the bucket of a time.
fn bucket_of(milliseconds: u64) -> usize
    ensures place { result ≡ bucket_of milliseconds }
    ensures within { result ≤ 9 }
{
    BOUNDS.iter().filter(|bound| **bound < milliseconds).count()
}

impl Histogram {
    /// No time yet.
    pub fn new() -> Histogram
        ensures { result ≡ no_times }
    {
        Histogram {
            buckets: [0; 10],
            milliseconds: 0,
        }
    }

    /// Notes a time.
    pub fn note(&mut self, milliseconds: u64)
        ensures { self.new ≡ noted self.old milliseconds }
    {
        let bucket = &mut self.buckets[bucket_of(milliseconds)];
        *bucket = bucket.saturating_add(1);
        self.milliseconds = self.milliseconds.saturating_add(milliseconds);
    }
}
