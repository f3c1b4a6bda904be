//! The calls for a job that is being received.

ghost use Rattle.std.specs.Prelude.{◌≡◌, ◌<◌, IfErr, IfOk};
ghost use Rattle.account.specs.declared.kind.Kind.TheVariants as kind;
ghost use Rattle.config_values.specs.Config.{queue_named};
ghost use Rattle.control_file.specs.View.{contents};
ghost use Rattle.spool_calls.specs.Calls.{IsRight, Aborts, Admits, Asks, Begins, Ends, Opens, Puts};
ghost use Rattle.spool_core.specs.Tickets.{IsBlank};
ghost use Rattle.locked_spool.specs.Entries.{Controls, WritesAborted, WritesBegan, WritesControlled, WritesFileEnded, WritesGranted, WritesOpened, WritesPut};
ghost use Rattle.locked_spool.specs.Shares.{when_done, when_lent};
ghost use Rattle.locked_spool.specs.Telling.{job_of};

use crate::locked::{Locked, write};
use account::{Act, Entry};
use control_file::Control;
use lpd_values::{FileName, Refusal};
use page_pool::{FilledPage, PageTicket};
use spool_calls::outline_of;
use spool_core::{
    Asked, EndedFile, FilePage, Receipt, ReturnedControl, ReturnedPage, ReturnedTicket,
};
use spool_ledgers::{Shares, SpoolLedger};
use std::sync::ledger::Ledger;

/// A job that was accepted.
#[derive(Clone, Copy, Debug, PartialEq, Eq)]
pub struct Accepted {
    /// The number of the job.
    pub job: u64,
    /// The number of its queue.
    pub queue: u32,
}

impl<E: SpoolLedger, K: Ledger, H: Ledger> Locked<E, K, H> {
    /// Whether a session may send jobs to the queue of a name.
    ///
    /// Closed once the spool is closed; UnknownQueue where no queue has this name.
    pub fn admits(&self, queue: &[u8]) -> Result<(), Refusal>
        ensures { IsRight self.now.core (λ d b h. Admits d b h self.now.core queue.now result) }
    {
        self.core.admits(queue)
    }

    /// Accepts a job from a sender for a queue, and answers its number, 1, 2, 3 and so on over all queues, and that of the queue.
    ///
    /// Closed; UnknownQueue; TableFull where as many jobs are held as may be; AccountFull where the account has no room for all
    /// entries of one more job, or no number is left; Memory where memory for the job or for its entries is refused.
    pub fn open_telling(
        &mut self,
        mine: &mut Shares<E, K, H>,
        sender: u32,
        queue: &[u8],
    ) -> Result<Accepted, Refusal>
        requires { 0 < mine.old.parts }
        ensures named { IfOk result (λ a. queue_named self.old.core.config queue.now ≡ a.queue) }
        ensures answer { IsRight self.old.core (λ d b h.
            Opens d b h self.old.core sender queue.now self.new.core (job_of result)) }
        ensures account { WritesOpened self.old self.new sender queue.now (job_of result) }
        ensures shares { mine.new ≡ when_done kind.Opened (job_of result) mine.old }
    {
        let number = self.core.admission(queue)?;
        let reserve = self.core.config().reserve_of(number);
        // No entry that is to come may be refused for want of memory.
        let counted = self.core.counted_reserve() - self.freed;
        self.account.reserve(counted + reserve + 1)?;
        let job = self.core.accept(sender, number)?;
        let entry = Entry::Opened {
            job,
            sender,
            queue: number,
        };
        write(&mut self.account, &mut self.books, mine, entry);
        Ok(Accepted { job, queue: number })
    }

    /// Lends a page to a job, which has to come back by `put` or `abort`; or answers Later, where no page is free or the state
    /// would not be safe.
    ///
    /// NotOpen where the job isn't being received, no file of it is open or a page is lent to it; OverClaim where it holds as
    /// many pages as its queue allows.
    pub fn ask(&mut self, mine: &mut Shares<E, K, H>, job: u64) -> Result<Asked, Refusal>
        requires { 0 < mine.old.parts }
        ensures answer { IsRight self.old.core (λ d b h.
            Asks d b h self.old.core job self.new.core result) }
        ensures page { IfOk result (IsBlank E.config.page_size) }
        ensures account { WritesGranted self.old self.new job result }
        ensures shares { mine.new ≡ when_lent result mine.old }
    {
        match self.core.ask(job)? {
            Asked::Page(ticket) => {
                let entry = Entry::OfJob(job, Act::Granted);
                write(&mut self.account, &mut self.books, mine, entry);
                Ok(Asked::Page(ticket))
            }
            Asked::Later => Ok(Asked::Later),
        }
    }

    /// Begins a data file of so many octets.
    ///
    /// NotOpen where the job isn't being received; FileOpen; NameTaken; FilesFull; OverClaim where the file's pages pass what its
    /// queue allows.
    pub fn begin_file(
        &mut self,
        mine: &mut Shares<E, K, H>,
        job: u64,
        name: FileName,
        count: u64,
    ) -> Result<(), Refusal>
        requires part { 0 < mine.old.parts }
        requires some { 0 < count }
        ensures answer { IsRight self.old.core (λ d b h.
            Begins d b h self.old.core job name count self.new.core result) }
        ensures account { WritesBegan self.old self.new job name count result }
        ensures shares { mine.new ≡ when_done kind.Began result mine.old }
    {
        self.core.begin_file(job, name, count)?;
        let entry = Entry::OfJob(job, Act::Began { name, count });
        write(&mut self.account, &mut self.books, mine, entry);
        Ok(())
    }

    /// Puts the next page of a job's open file.
    ///
    /// Refused, with the page, where the job doesn't await it.
    pub fn put(
        &mut self,
        mine: &mut Shares<E, K, H>,
        job: u64,
        page: FilledPage,
    ) -> Result<(), ReturnedPage>
        requires { 0 < mine.old.parts }
        ensures answer { IsRight self.old.core (λ d b h.
            Puts d b h self.old.core job page self.new.core result) }
        ensures back { IfErr result (λ e. e.page ≡ page) }
        ensures account { WritesPut self.old self.new job page result }
        ensures shares { mine.new ≡ when_done kind.Put result mine.old }
    {
        // An entry has room for lengths below 2^32; `put_sized` doesn't test the size again.
        if page.page_size() != self.core.config().page_size() as usize {
            return Err(ReturnedPage { page });
        }
        let outline = outline_of(&page);
        let FilePage { file, number } = self.core.put_sized(job, page)?;
        let put = Act::Put {
            file,
            number,
            page: outline,
        };
        let entry = Entry::OfJob(job, put);
        write(&mut self.account, &mut self.books, mine, entry);
        Ok(())
    }

    /// Ends the open file of a job, and says whether the job is whole by that.
    ///
    /// NotOpen where the job isn't being received, no file of it is open, a page is lent to it, or the file lacks pages.
    pub fn end_file(&mut self, mine: &mut Shares<E, K, H>, job: u64) -> Result<Receipt, Refusal>
        requires { 0 < mine.old.parts }
        ensures answer { IsRight self.old.core (λ d b h.
            Ends d b h self.old.core job self.new.core result) }
        ensures account { WritesFileEnded self.old self.new job result }
        ensures shares { mine.new ≡ when_done kind.FileEnded result mine.old }
    {
        let EndedFile { file, receipt } = self.core.end_last(job)?;
        let is_whole = receipt == Receipt::Received;
        let entry = Entry::OfJob(job, Act::FileEnded { file, is_whole });
        write(&mut self.account, &mut self.books, mine, entry);
        Ok(receipt)
    }

    /// Takes the control file of a job, and says whether the job is whole by that.
    ///
    /// Refused, with the control file: NotOpen where the job isn't being received; ControlTwice where it has one; Memory where
    /// memory for the account's copy is refused.
    pub fn control(
        &mut self,
        mine: &mut Shares<E, K, H>,
        job: u64,
        control: Control,
    ) -> Result<Receipt, ReturnedControl>
        requires { 0 < mine.old.parts }
        ensures answer { Controls self.old.core job (contents control) self.new.core result }
        ensures back { IfErr result (λ e. e.control ≡ control) }
        ensures account { WritesControlled self.old self.new job (contents control) result }
        ensures shares { mine.new ≡ when_done kind.Controlled result mine.old }
    {
        if let Some(refusal) = self.core.control_refusal(job) {
            return Err(ReturnedControl { control, refusal });
        }
        // The account's copy is made behind all other refusals, and before the core takes the file: whatever is refused comes back.
        let Ok(copy) = control.copy(self.alloc) else {
            let refusal = Refusal::Memory;
            return Err(ReturnedControl { control, refusal });
        };
        let receipt = self.core.control(job, control)?;
        let is_whole = receipt == Receipt::Received;
        let controlled = Act::Controlled {
            control: copy,
            is_whole,
        };
        let entry = Entry::OfJob(job, controlled);
        write(&mut self.account, &mut self.books, mine, entry);
        Ok(receipt)
    }

    /// Ends a job that is being received, or takes back the page that was lent to one that has ended.
    ///
    /// Refused, with the page, where the job is neither, or where a page is given though none is lent, none though one is, or
    /// one of another size.
    pub fn abort(
        &mut self,
        mine: &mut Shares<E, K, H>,
        job: u64,
        ticket: Option<PageTicket>,
    ) -> Result<(), ReturnedTicket>
        requires { 0 < mine.old.parts }
        ensures answer { IsRight self.old.core (λ d b h.
            Aborts d b h self.old.core job ticket self.new.core result) }
        ensures back { IfErr result (λ e. e.ticket ≡ ticket) }
        ensures account { WritesAborted self.old self.new job result }
        ensures shares { mine.new ≡ when_done kind.Aborted result mine.old }
    {
        self.core.abort(job, ticket)?;
        let entry = Entry::OfJob(job, Act::Aborted);
        write(&mut self.account, &mut self.books, mine, entry);
        Ok(())
    }
}
