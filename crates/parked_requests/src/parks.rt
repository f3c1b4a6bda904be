//! Requests some of whose jobs go beside the spool.

use request_calls::Requests;

/// What carries out a session's requests where a job may go beside the spool, into a folder alone.
pub trait Parks: Requests {
    ghost use Rattle.std.specs.Prelude.{◌≡◌, Bool};

    /// Whether the job that the session opened last goes beside the spool.
    ghost beside: { Self → Bool };

    /// Whether the job that the session opened last goes beside the spool.
    fn is_beside(&self) -> bool
        ensures { result ≡ beside self.now };
}
