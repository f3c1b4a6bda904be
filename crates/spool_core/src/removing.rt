//! The removal of jobs by their numbers of acceptance.

ghost use Rattle.std.specs.Prelude.{◌≡◌, IfOk, MatchBool, MatchOption, length};
ghost use Rattle.spool_calls.specs.Calls.{IsRight};
ghost use Rattle.spool_core.specs.Halves.{MayRemove};
ghost use Rattle.spool_core.specs.Removal.{FindsJobs, GoesIn, RemovesThese, RunsTo, StaysIn, StopsAt};

use crate::core_state::Core;
use held_jobs::Phase;
use lpd_values::Refusal;
use queues::Book;

/// Why jobs aren't removed by their numbers. Nothing has changed then.
#[derive(Clone, Copy, Debug, PartialEq, Eq)]
pub enum Unremoved {
    /// Closed; UnknownQueue; or Memory, where the account's copy of the numbers is refused.
    Refused(Refusal),
    /// This number is the first that isn't above the one before it, or that no received job of the queue has which hasn't ended.
    Stays(u64),
}

impl From<Refusal> for Unremoved {
    ghost use Rattle.std.specs.Prelude.{◌≡◌};
    ghost use Rattle.spool_core.specs.declared.removing.Unremoved.TheVariants.{Refused};

    ghost from_gives = { λ refusal e. e ≡ Refused refusal };

    fn from(refusal: Refusal) -> Unremoved {
        Unremoved::Refused(refusal)
    }
}

/// Whether the job of a number is received, of this queue, and hasn't ended.
fn goes(book: &Book, queue: u32, number: u64) -> bool
    ensures { MatchBool result (GoesIn book.now queue number) (StaysIn book.now queue number) }
{
    let Some(i) = book.find(number) else {
        return false;
    };
    let job = book.job(i);
    job.queue() == queue && job.phase() == Phase::Received
}

/// The first of these numbers that isn't above the one before it, or whose job can't be removed from the queue.
fn first_left(book: &Book, queue: u32, numbers: &[u64]) -> Option<u64>
    ensures { MatchOption result
        (RunsTo (GoesIn book.now queue) numbers.now (length numbers.now))
        (λ number. StopsAt book.now queue numbers.now number) }
{
    for at in 0..numbers.len() {
        let number = numbers[at];
        if at > 0 && number <= numbers[at - 1] {
            return Some(number);
        }
        if !goes(book, queue, number) {
            return Some(number);
        }
    }
    None
}

impl Core {
    /// The number of the queue of a name, where all jobs of these numbers may be removed from it: each is received and hasn't ended,
    /// and each number is above the one before it.
    ///
    /// Refused with Closed or UnknownQueue; else Stays with the first number of which that isn't so.
    pub fn removable(&self, queue: &[u8], numbers: &[u64]) -> Result<u32, Unremoved>
        ensures answer { IsRight self.now (λ d b h.
            FindsJobs d b h self.now queue.now numbers.now result) }
        ensures takes { IfOk result (λ q. IsRight self.now (λ d b h.
            MayRemove d b h self.now q numbers.now)) }
    {
        let number = self.open_queue(queue)?;
        match first_left(&self.book, number, numbers) {
            Some(left) => Err(Unremoved::Stays(left)),
            None => Ok(number),
        }
    }

    /// Removes these jobs of a queue, all or none, and answers the number of the queue. No agent is asked: who calls it has the
    /// right. Where there are none nothing changes.
    ///
    /// Refused as `removable` is.
    pub fn remove_jobs(&mut self, queue: &[u8], numbers: &[u64]) -> Result<u32, Unremoved>
        ensures config { self.new.config ≡ self.old.config }
        ensures answer { IsRight self.old (λ d b h.
            RemovesThese d b h self.old queue.now numbers.now self.new result) }
    {
        let number = self.removable(queue, numbers)?;
        self.remove_chosen(number, numbers);
        Ok(number)
    }
}
