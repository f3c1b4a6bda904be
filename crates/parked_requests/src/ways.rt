//! Which way each job goes.

ghost use Rattle.std.specs.Prelude.{◌≡◌, ◌↔◌, ℕ, List, Option, None, IsTrue};
ghost use Rattle.parked_requests.specs.Ways.{IsFull};

use lpd_values::{Octets, Refusal};
use request_calls::Requests;

/// A job that was opened.
#[derive(Clone, Copy, Debug, PartialEq, Eq)]
pub struct OpenedJob {
    /// Its number of acceptance where it goes through the spool; None where it goes beside it.
    pub job: Option<u64>,
    /// How many pages it may have.
    pub limit: u32,
}

/// Whether a spool that refuses a job so has no room for it now.
pub fn is_full(refusal: Refusal) -> bool
    ensures { IsTrue result ↔ IsFull refusal }
{
    matches!(refusal, Refusal::TableFull | Refusal::AccountFull)
}

/// Chooses which way each job goes, and is told what becomes of it.
pub trait JobWays {
    ghost use Rattle.parked_requests.specs.Told.{Fate, Kept, Gone, and_told};
    ghost use Rattle.parked_requests.specs.Ways.{AddsTo, Opens};

    /// What it has been told of the jobs so far, the last first; None where that isn't known.
    ghost told: { Self → Option (List Fate) } = { λ _. None };

    /// A job of this sender for a queue is opened: its way is chosen, and where it is to go through the spool that is asked to
    /// accept it. Where the spool has no room for it now (TableFull, AccountFull) it goes beside. Any other refusal of the
    /// spool's is handed on.
    fn open<Q: Requests>(
        &mut self,
        spool: &mut Q,
        sender: u32,
        queue: &[u8],
    ) -> Result<OpenedJob, Refusal>
        ensures opens { (job : ℕ)
            → Opens Q.carries spool.old sender job queue.now result spool.new }
        ensures told { told self.new ≡ told self.old };

    /// Whether the job in hand, which comes through the spool, goes on beside it from now on.
    fn turns_aside(&mut self) -> bool
        ensures { told self.new ≡ told self.old };

    /// The job in hand is whole, and has this many octets and pages: the spool has it, or it waits beside it.
    fn kept(&mut self, octets: u64, pages: u32)
        ensures { told self.new ≡ and_told (Kept octets pages) (told self.old) };

    /// The job in hand doesn't come to its end.
    fn gone(&mut self)
        ensures { told self.new ≡ and_told Gone (told self.old) };

    /// What the spool has answered to a question for this queue's state, with what is told of the jobs that wait beside it.
    fn with_parked(&mut self, queue: &[u8], list: &[Octets], long: bool, text: Octets) -> Octets
        ensures adds { AddsTo text result }
        ensures told { told self.new ≡ told self.old };

    /// What the spool has answered to a removal, with what is told of the jobs that waited beside it and are removed too.
    fn remove_parked(&mut self, queue: &[u8], agent: &[u8], list: &[Octets], text: Octets) -> Octets
        ensures adds { AddsTo text result }
        ensures told { told self.new ≡ told self.old };
}
