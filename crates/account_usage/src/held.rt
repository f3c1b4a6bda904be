//! Jobs that haven't ended.

ghost use Rattle.std.specs.Prelude.{◌≡◌, ◌<◌, ◌+◌, ◌^◌, IfSome, length};
ghost use Rattle.account_usage.specs.Rows.{held_printed, held_sent};

use lpd_values::Octets;

/// A job that hasn't ended.
#[derive(Drop)]
pub(crate) struct HeldJob {
    /// Its number.
    pub(crate) number: u64,
    /// The name of the row that it counts in.
    pub(crate) name: Octets,
    /// The octets of the pages that were put into its files, up to 2^64 - 1.
    pub(crate) sent: u64,
    /// The octets of its pages that were printed, up to 2^64 - 1.
    pub(crate) printed: u64,
    /// How many of its pages are at printers.
    pub(crate) out: u64,
    /// Whether nothing comes of it any more but these.
    pub(crate) is_over: bool,
}

/// At which place the job of a number stands, if it does.
pub(crate) fn place_of(held: &[HeldJob], number: u64) -> Option<usize>
    ensures { IfSome result (λ at. at < length held.now) }
{
    held.iter().position(|job| job.number == number)
}

/// So many pages of the job at a place are at printers, and nothing else comes of it, or something may.
pub(crate) fn set_out(held: &mut [HeldJob], at: usize, out: u64, is_over: bool)
    requires { at < length held.old }
    ensures sent { held_sent held.new ≡ held_sent held.old }
    ensures printed { held_printed held.new ≡ held_printed held.old }
{
    let job = &mut held[at];
    job.out = out;
    job.is_over = is_over;
}

/// Adds octets to the job at a place.
pub(crate) fn add_octets(held: &mut [HeldJob], at: usize, sent: u64, printed: u64)
    requires { at < length held.old }
    ensures sent { held_sent held.old + sent < 2 ^ 64
        → held_sent held.new ≡ held_sent held.old + sent }
    ensures printed { held_printed held.old + printed < 2 ^ 64
        → held_printed held.new
        ≡ held_printed held.old + printed }
{
    let job = &mut held[at];
    job.sent = job.sent.saturating_add(sent);
    job.printed = job.printed.saturating_add(printed);
}
