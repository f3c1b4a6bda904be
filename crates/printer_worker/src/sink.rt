//! What prints pages.

ghost use Rattle.std.specs.Prelude.{◌≡◌, ℕ, OnErr, OnOk};
ghost use Rattle.lpd_commands.specs.Ends.{one_more};

use crate::leaving::Leaving;
use shared_spool::HandedPage;

/// A page wasn't written, or a job wasn't finished as it should be.
#[derive(Clone, Copy, Debug, PartialEq, Eq)]
pub struct SinkFault;

/// What pages are written to.
pub trait PrintSink {
    /// How many pages were written, up to the last value of a `u64`.
    ghost oks: { Self → ℕ };

    /// How many were not, up to the last value of a `u64`.
    ghost errs: { Self → ℕ };

    /// Writes a page.
    fn write_page(&mut self, page: &HandedPage) -> Result<(), SinkFault>
        ensures ok { OnOk result
            ((oks self.new ≡ one_more (oks self.old)) × (errs self.new ≡ errs self.old)) }
        ensures err { OnErr result
            ((oks self.new ≡ oks self.old) × (errs self.new ≡ one_more (errs self.old))) };

    /// Leaves the job whose pages were written last: none of them comes any more. Where it fails, what was told of its pages
    /// stays told.
    fn leave_job(&mut self, leaving: Leaving) -> Result<(), SinkFault>
        ensures oks { oks self.new ≡ oks self.old }
        ensures errs { errs self.new ≡ errs self.old }
    {
        let _ = leaving;
        Ok(())
    }
}
