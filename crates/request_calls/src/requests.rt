//! What carries out the requests of sessions.

ghost use Rattle.std.specs.Prelude.{◌≡◌, ◌<◌, ℕ, Option, None, IfErr, IfOk};
ghost use Rattle.control_file.specs.View.{contents};
ghost use Rattle.receiver.specs.Script as script;
ghost use Rattle.spool_requests.specs.Follows.{aborted_by, asked_by, controlled_by, done_by};
ghost use Rattle.spool_requests.specs.Follows.{kept_by, opened_by, put_by, told_by};
ghost use Rattle.request_calls.specs.Pages.{IsBlank};

use control_file::Control;
use lpd_values::{FileName, Octets, Refusal};
use page_pool::{FilledPage, PageTicket};
use spool_calls::{Asked, Receipt, ReturnedControl, ReturnedPage, ReturnedTicket};

/// What carries out the requests of sessions. Contracts tell the answer to each by a relation that
/// whoever carries it out states.
pub trait Requests {
    ghost use Rattle.page_pool.specs.Page.{Page};
    ghost use Rattle.receiver.specs.Script.{Request};
    ghost use Rattle.spool_requests.specs.declared.answer.Answer.{Answer};

    /// What the answer to a request may be, and what it leaves: the session is of this sender, and
    /// opened this job last.
    ghost carries: { Self → (sender job : ℕ) → Request → Answer → Self → Type 0 };

    /// What the end of a session leaves that has this job in hand, and this page, if it has one.
    ghost ends: { Self → (job : ℕ) → Option Page → Self → Type 0 };

    /// Whether a session may send jobs to the queue of a name.
    fn admits(&mut self, queue: &[u8]) -> Result<(), Refusal>
        ensures { (sender job : ℕ)
            → carries self.old sender job (script.Queue queue.now) (done_by result) self.new };

    /// Accepts a job from a sender for a queue, and answers its number.
    fn open(&mut self, sender: u32, queue: &[u8]) -> Result<u64, Refusal>
        ensures { (job : ℕ)
            → carries self.old sender job (script.Open queue.now) (opened_by result) self.new };

    /// Begins a data file of so many octets, at least one.
    fn begin_file(&mut self, job: u64, name: FileName, count: u64) -> Result<(), Refusal>
        requires some { 0 < count }
        ensures { (sender : ℕ)
            → carries self.old sender job (script.BeginFile name count) (done_by result)
            self.new };

    /// Lends a page to a job, or answers Later.
    fn ask(&mut self, job: u64) -> Result<Asked, Refusal>
        ensures blank { IfOk result IsBlank }
        ensures carries { (sender : ℕ)
            → carries self.old sender job script.AskPage (asked_by result) self.new };

    /// Puts the next page of a job's open file. One that is refused comes back.
    fn put(&mut self, job: u64, page: FilledPage) -> Result<(), ReturnedPage>
        ensures back { IfErr result (λ e. e.page ≡ page) }
        ensures carries { (sender : ℕ)
            → carries self.old sender job (script.Filled page) (put_by result) self.new };

    /// Ends the open file of a job, and says whether the job is whole by that.
    fn end_file(&mut self, job: u64) -> Result<Receipt, Refusal>
        ensures { (sender : ℕ)
            → carries self.old sender job script.EndFile (kept_by result) self.new };

    /// Takes the control file of a job, and says whether the job is whole by that. One that is
    /// refused comes back.
    fn control(&mut self, job: u64, control: Control) -> Result<Receipt, ReturnedControl>
        ensures back { IfErr result (λ e. e.control ≡ control) }
        ensures carries { (sender : ℕ)
            → carries self.old sender job (script.Control (contents control))
            (controlled_by result) self.new };

    /// Ends a job that is being received, or takes back the page that was lent to one that has
    /// ended. A ticket that is refused comes back.
    fn abort(&mut self, job: u64, ticket: Option<PageTicket>) -> Result<(), ReturnedTicket>
        ensures back { IfErr result (λ e. e.ticket ≡ ticket) }
        ensures carries { (sender : ℕ) → ticket ≡ None
            → carries self.old sender job script.AbortJob (aborted_by result) self.new }
        ensures ends { ends self.old job ticket self.new };

    /// Starts the stopped printers of a queue.
    fn start(&mut self, queue: &[u8]) -> Result<(), Refusal>
        ensures { (sender job : ℕ)
            → carries self.old sender job (script.StartPrinters queue.now) (done_by result)
            self.new };

    /// The text that answers a question for the state of a queue.
    fn state(&mut self, queue: &[u8], list: &[Octets], long: bool) -> Result<Octets, Refusal>
        ensures { (sender job : ℕ)
            → carries self.old sender job (script.QueueState queue.now list.now long)
            (told_by result) self.new };

    /// Removes jobs of a queue, and answers the text that tells of them.
    fn remove(&mut self, queue: &[u8], agent: &[u8], list: &[Octets]) -> Result<Octets, Refusal>
        ensures { (sender job : ℕ)
            → carries self.old sender job (script.RemoveJobs queue.now agent.now list.now)
            (told_by result) self.new };
}
