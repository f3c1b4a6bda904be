//! How many sessions there are, and how many of them one host may have.

ghost use Rattle.std.specs.Int.NonZero.{non_zero_u64_get};
ghost use Rattle.std.specs.Prelude.{◌≡◌, ◌≤◌, ◌-◌, ◌^◌, ℕ, None, Some, min, option_map};

use crate::roles::NO_JOB_SESSIONS;
use program_edge::{MOST_SESSIONS, Settings};
use std::num::NonZeroU64;

/// How many sessions one host may have: without a number as many as there are.
pub(crate) fn most_of(per_host: Option<NonZeroU64>) -> u32
    ensures any { per_host ≡ None → result ≡ 2 ^ 32 - 1 }
    ensures most { (most : ℕ) → option_map non_zero_u64_get per_host ≡ Some most
        → result ≡ min most (2 ^ 32 - 1) }
{
    match per_host {
        None => u32::MAX,
        Some(most) => u32::try_from(most.get()).unwrap_or(u32::MAX),
    }
}

/// How many threads serve connections by these settings.
pub fn sessions_of(settings: &Settings<'_>) -> u32
    ensures { result ≤ 66 }
{
    settings.sessions.clamp(1, MOST_SESSIONS) + NO_JOB_SESSIONS
}
