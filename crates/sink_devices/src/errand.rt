//! Whom a device asks while it waits, and tells what it waits for.

use std::io::Error;
use std::time::Instant;

/// What a device asks while it waits for its printer.
pub trait Errand {
    /// Whether this job is still to be printed: it hasn't ended, and the server goes on.
    fn is_wanted(&self, job: u64) -> bool;

    /// Whether nothing is waited for any more, not even the end of a connection.
    fn is_cut_off(&self) -> bool;

    /// The printer of this number hasn't been reached for this many seconds, and this job waits for it: the server tells that.
    fn tell_unreached(&self, printer: u32, job: u64, seconds: u64);

    /// The printer of this number isn't reached, for this cause: the server notes since when.
    fn note_unreached(&self, printer: u32, cause: Error);

    /// The printer of this number takes nothing now: the server notes since when, and tells it where that is long.
    fn note_halt(&self, printer: u32);

    /// The printer of this number has taken octets again.
    fn note_taken(&self, printer: u32);

    /// A job has ended at the printer of this number: this one, of which it isn't known whether its last octets came, or one without a doubt.
    fn note_end(&self, printer: u32, doubtful: Option<u64>);

    /// When this job was tried first at the printer of this number, also before it was put back. None where that isn't known.
    fn first_try(&self, printer: u32, job: u64) -> Option<Instant>;

    /// No octet of this job has gone to the printer of this number, which has been tried for this many milliseconds, and none goes until
    /// `withdraw` is called: until then the server may put the job back.
    fn offer(&self, printer: u32, job: u64, tried_ms: u64);

    /// The printer of this number goes on with its job, which isn't offered any more. Whether the server has put it back before.
    fn withdraw(&self, printer: u32) -> bool;
}
