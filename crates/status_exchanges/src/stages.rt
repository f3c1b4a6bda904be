//! How far exchanges have come, for how long one may be there, and which gives way where there are too many.

ghost use Rattle.std.specs.Prelude.{◌≡◌, ◌≤◌, ◌-◌, ◌↔◌, IfNone, IfSome, IsTrue, Some, count_by, length};
ghost use Rattle.status_exchanges.specs.Stages.{IsLongestAt, IsNobodyAt, counts_as, most_ms};

/// How far an exchange has come.
#[derive(Clone, Copy, Debug, PartialEq, Eq)]
pub enum ExchangeStage {
    /// The rest of its request is awaited.
    Asking,
    /// Its answer goes.
    Answering,
    /// Its answer has gone, and what still comes is passed over.
    Leaving,
}

/// What is known of an exchange. Moments are in milliseconds from one that is the same for all.
#[derive(Clone, Copy, Debug, PartialEq, Eq)]
pub struct ExchangeStanding {
    pub stage: ExchangeStage,
    /// When it came so far.
    pub since_ms: u64,
    /// When an octet of it last came or went, or else when it began.
    pub moved_ms: u64,
}

/// For how many milliseconds an exchange may be in a stage: for the rest of a head two seconds, for an answer five.
pub fn most_ms(stage: ExchangeStage) -> u64
    ensures { result ≡ most_ms stage }
{
    match stage {
        ExchangeStage::Asking => 2_000,
        ExchangeStage::Answering => 5_000,
        ExchangeStage::Leaving => 800,
    }
}

/// Whether the time of an exchange's stage is up.
pub fn is_due(standing: &ExchangeStanding, now_ms: u64) -> bool
    ensures { IsTrue result ↔ most_ms standing.now.stage ≤ now_ms - standing.now.since_ms }
{
    now_ms.saturating_sub(standing.since_ms) >= most_ms(standing.stage)
}

/// Whether an exchange is in this stage, or any where none is named.
fn counts_as(stage: Option<ExchangeStage>, standing: &ExchangeStanding) -> bool
    ensures { result ≡ counts_as stage standing.now }
{
    match stage {
        Some(stage) => standing.stage == stage,
        None => true,
    }
}

/// The place of the exchange that has halted longest, of those in this stage, or of all where none is named. None where there is none.
pub fn longest_halted(standings: &[ExchangeStanding], stage: Option<ExchangeStage>) -> Option<usize>
    ensures longest { IfSome result (λ at. IsLongestAt stage standings.now at) }
    ensures none { IfNone result (IsNobodyAt stage standings.now (length standings.now)) }
{
    let mut longest: Option<(usize, u64)> = None;
    for at in 0..standings.len() {
        let standing = standings[at];
        if counts_as(stage, &standing) {
            let is_longer = match longest {
                Some((_, moved_ms)) => standing.moved_ms < moved_ms,
                None => true,
            };
            if is_longer {
                longest = Some((at, standing.moved_ms));
            }
        }
    }
    match longest {
        Some((at, _)) => Some(at),
        None => None,
    }
}

/// How many exchanges are in this stage.
pub fn count_at(standings: &[ExchangeStanding], stage: ExchangeStage) -> usize
    ensures { result ≡ count_by (counts_as (Some stage)) standings.now }
{
    let mut count = 0;
    for standing in standings {
        if counts_as(Some(stage), standing) {
            count += 1;
        }
    }
    count
}
