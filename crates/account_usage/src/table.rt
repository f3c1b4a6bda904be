//! A table of usage.

ghost use Rattle.std.specs.Prelude.{◌≡◌, ◌<◌, ◌+◌, ◌^◌, [], IfOk, OnOk};
ghost use Rattle.account.specs.Seen.{event_seen, sheet_seen, turn_seen};
ghost use Rattle.control_file.specs.View.{contents};
ghost use Rattle.segment_text.specs.Items.{item_seen};
ghost use Rattle.account_usage.specs.Sums as S;
ghost use Rattle.account_usage.specs.Tables.{HasPrinted, HasSent, Keeps, counted, counts_after, name_by};

use crate::grouping::Grouping;
use crate::held::{HeldJob, add_octets, place_of, set_out};
use crate::rows::{Rows, Totals, add_to_row, settle};
use account::{Act, Control, Entry, Progress, Sheet, Turn};
use config_values::Config;
use indexmap::IndexMap;
use indexmap::map::Iter;
use lpd_values::Octets;
use segment_text::{Begin, SegmentLine};
use std::alloc::{AllocError, Global};
use std::hash::RandomState;

/// The name of the row of what no other counts.
const NO_NAME: &[u8] = b"-";

/// How much was sent and printed by each user, from each host or in each queue.
#[derive(Drop)]
pub struct UsageTable {
    grouping: Grouping,
    /// The names of the queues of the segment that is read, in the order of their numbers.
    queues: Vec<Octets>,
    /// Jobs that haven't ended.
    held: Vec<HeldJob>,
    rows: Rows,
    /// Whether the segment counts whose head was read last.
    counts: bool,
}

/// The names of a configuration's queues.
fn queue_names(alloc: Global, config: &Config) -> Result<Vec<Octets>, AllocError> {
    let mut names = Vec::new(alloc);
    for queue in config.queues() {
        names.push(Octets::copy_of(alloc, queue.name())?)?;
    }
    Ok(names)
}

/// The name of the row that a job of this control file counts in, where it has a name without it.
fn named(
    alloc: Global,
    grouping: Grouping,
    control: &Control,
    name: &[u8],
) -> Result<Octets, AllocError>
    ensures { IfOk result (λ o. o ≡ name_by grouping (contents control.now) name.now) }
{
    match grouping {
        Grouping::User => Octets::copy_of(alloc, control.user.as_slice()),
        Grouping::Host => Octets::copy_of(alloc, control.host.as_slice()),
        Grouping::Queue => Octets::copy_of(alloc, name),
    }
}

impl UsageTable {
    /// A table of nothing, in which usage is told by this. Names are found by a hash with random keys, since clients pick them.
    pub fn new(alloc: Global, random: RandomState, grouping: Grouping) -> UsageTable
        ensures rows { result.rows.entries ≡ [] }
        ensures held { result.held.items ≡ [] }
        ensures grouping { result.grouping ≡ grouping }
    {
        UsageTable {
            grouping,
            queues: Vec::new(alloc),
            held: Vec::new(alloc),
            rows: IndexMap::with_hasher(alloc, random),
            counts: false,
        }
    }

    /// The name of the row that a job of a queue counts in, before its control file comes.
    fn first_name(&self, alloc: Global, queue: u32) -> Result<Octets, AllocError> {
        if self.grouping != Grouping::Queue || queue == 0 {
            return Octets::copy_of(alloc, NO_NAME);
        }
        match self.queues.get(queue as usize - 1) {
            Some(name) => Octets::copy_of(alloc, name.as_slice()),
            None => Octets::copy_of(alloc, NO_NAME),
        }
    }

    /// A job was accepted.
    fn open(&mut self, alloc: Global, number: u64, queue: u32) -> Result<(), AllocError>
        ensures sent { OnOk result (HasSent 0 self.old self.new) }
        ensures printed { OnOk result (HasPrinted 0 self.old self.new) }
        ensures kept { OnOk result (Keeps self.old self.new) }
    {
        let name = self.first_name(alloc, queue)?;
        self.held.push(HeldJob {
            number,
            name,
            sent: 0,
            printed: 0,
            out: 0,
            is_over: false,
        })?;
        Ok(())
    }

    /// The control file of a job came.
    fn name(&mut self, alloc: Global, number: u64, control: &Control) -> Result<(), AllocError>
        ensures sent { OnOk result (HasSent 0 self.old self.new) }
        ensures printed { OnOk result (HasPrinted 0 self.old self.new) }
        ensures kept { OnOk result (Keeps self.old self.new) }
    {
        let Some(at) = place_of(self.held.as_slice(), number) else {
            return Ok(());
        };
        let name = named(alloc, self.grouping, control, self.held[at].name.as_slice())?;
        self.held[at].name = name;
        Ok(())
    }

    /// So many octets of a job were sent, and so many printed.
    fn count(
        &mut self,
        alloc: Global,
        number: u64,
        sent: u64,
        printed: u64,
    ) -> Result<(), AllocError>
        ensures sent { OnOk result (HasSent sent self.old self.new) }
        ensures printed { OnOk result (HasPrinted printed self.old self.new) }
        ensures kept { OnOk result (Keeps self.old self.new) }
    {
        match place_of(self.held.as_slice(), number) {
            Some(at) => add_octets(self.held.as_mut_slice(), at, sent, printed),
            None => {
                let more = Totals {
                    jobs: 0,
                    sent,
                    printed,
                };
                add_to_row(&mut self.rows, alloc, NO_NAME, more)?;
            }
        }
        Ok(())
    }

    /// A job has ended, in a segment that counts or not.
    fn end(&mut self, alloc: Global, number: u64, counts: bool) -> Result<(), AllocError>
        ensures sent { OnOk result (HasSent 0 self.old self.new) }
        ensures printed { OnOk result (HasPrinted 0 self.old self.new) }
        ensures kept { OnOk result (Keeps self.old self.new) }
    {
        let Some(at) = place_of(self.held.as_slice(), number) else {
            return Ok(());
        };
        let job = self.held.remove(at);
        let more = Totals {
            jobs: u64::from(counts),
            sent: job.sent,
            printed: job.printed,
        };
        add_to_row(&mut self.rows, alloc, job.name.as_slice(), more)
    }

    /// So many pages of a job go to printers, so many come back, and it may be that nothing else comes of it. Once nothing does and no
    /// page of it is out it has ended.
    fn turn(
        &mut self,
        alloc: Global,
        number: u64,
        pages: (u64, u64),
        is_over: bool,
        counts: bool,
    ) -> Result<(), AllocError>
        ensures sent { OnOk result (HasSent 0 self.old self.new) }
        ensures printed { OnOk result (HasPrinted 0 self.old self.new) }
        ensures kept { OnOk result (Keeps self.old self.new) }
    {
        let Some(at) = place_of(self.held.as_slice(), number) else {
            return Ok(());
        };
        let (goes, comes) = pages;
        let job = &self.held[at];
        let out = job.out.saturating_add(goes).saturating_sub(comes);
        let is_over = is_over || job.is_over;
        set_out(self.held.as_mut_slice(), at, out, is_over);
        if is_over && out == 0 {
            self.end(alloc, number, counts)?;
        }
        Ok(())
    }

    /// These jobs were removed.
    fn remove(&mut self, alloc: Global, jobs: &[u64], counts: bool) -> Result<(), AllocError>
        ensures sent { OnOk result (HasSent 0 self.old self.new) }
        ensures printed { OnOk result (HasPrinted 0 self.old self.new) }
        ensures kept { OnOk result (Keeps self.old self.new) }
    {
        for number in jobs {
            self.turn(alloc, *number, (0, 0), true, counts)?;
        }
        Ok(())
    }

    /// All jobs have ended: the run begins anew, or nothing more is read.
    fn end_all(&mut self, alloc: Global) -> Result<(), AllocError>
        ensures sent { OnOk result (HasSent 0 self.old self.new) }
        ensures printed { OnOk result (HasPrinted 0 self.old self.new) }
        ensures kept { OnOk result (Keeps self.old self.new) }
        ensures ended { OnOk result (self.new.held.items ≡ []) }
    {
        let jobs = u64::from(self.counts);
        settle(&mut self.rows, alloc, self.held.as_slice(), jobs)?;
        self.held.clear();
        Ok(())
    }

    /// A page is at a printer, or comes back from it.
    fn print(
        &mut self,
        alloc: Global,
        sheet: &Sheet,
        turn: Turn,
        counts: bool,
    ) -> Result<(), AllocError>
        ensures sent { OnOk result (HasSent 0 self.old self.new) }
        ensures printed { OnOk result
            (HasPrinted (counted counts (S.printed_at (sheet_seen sheet.now) (turn_seen turn))) self.old self.new) }
        ensures kept { OnOk result (Keeps self.old self.new) }
    {
        match turn {
            Turn::Handed => self.turn(alloc, sheet.job, (1, 0), false, counts),
            Turn::Printed(progress) => {
                let printed = if counts {
                    u64::from(sheet.page.length)
                } else {
                    0
                };
                self.count(alloc, sheet.job, 0, printed)?;
                let is_over = progress == Progress::Done;
                self.turn(alloc, sheet.job, (0, 1), is_over, counts)
            }
            Turn::Failed => self.turn(alloc, sheet.job, (0, 1), true, counts),
        }
    }

    /// Reads an entry of a segment that counts or not.
    fn enter(&mut self, alloc: Global, entry: &Entry, counts: bool) -> Result<(), AllocError>
        ensures sent { OnOk result
            (HasSent (counted counts (S.sent_by (event_seen entry.now))) self.old self.new) }
        ensures printed { OnOk result
            (HasPrinted (counted counts (S.printed_by (event_seen entry.now))) self.old self.new) }
        ensures kept { OnOk result (Keeps self.old self.new) }
    {
        match entry {
            Entry::Opened { job, queue, .. } => self.open(alloc, *job, *queue),
            Entry::OfJob(job, Act::Put { page, .. }) => {
                let sent = if counts { u64::from(page.length) } else { 0 };
                self.count(alloc, *job, sent, 0)
            }
            Entry::OfJob(job, Act::Controlled { control, .. }) => self.name(alloc, *job, control),
            Entry::OfJob(job, Act::Aborted) => self.turn(alloc, *job, (0, 0), true, counts),
            Entry::AtPrinter(_, sheet, turn) => self.print(alloc, sheet, *turn, counts),
            Entry::Removed(_, jobs) => self.remove(alloc, jobs.as_slice(), counts),
            _ => Ok(()),
        }
    }

    /// Takes a line that an audit or a reader has taken, in order of writing, of a segment that counts or not. A job counts once it has
    /// ended: by its last page, by an abort, by a removal once no page of it is out, or at the latest where its run begins anew from a
    /// base or nothing more is read (`finish`). Of a segment that doesn't count nothing is added: its jobs are followed, so that what
    /// comes of them in one that does has their names.
    ///
    /// AllocError where memory is refused; then the line may be counted in part.
    pub fn read(
        &mut self,
        alloc: Global,
        line: &SegmentLine,
        counts: bool,
    ) -> Result<(), AllocError>
        ensures sent { OnOk result
            (HasSent (counted counts (S.sent_in (item_seen line.now))) self.old self.new) }
        ensures printed { OnOk result
            (HasPrinted (counted counts (S.printed_in (item_seen line.now))) self.old self.new) }
        ensures grouping { OnOk result (self.new.grouping ≡ self.old.grouping) }
        ensures counts { OnOk result
            (self.new.counts ≡ counts_after (item_seen line.now) counts self.old.counts) }
    {
        match line {
            SegmentLine::Config(config) => {
                self.queues = queue_names(alloc, config)?;
                Ok(())
            }
            SegmentLine::Start(start) => {
                if let Begin::Base(_) = &start.begin {
                    self.end_all(alloc)?;
                }
                self.counts = counts;
                Ok(())
            }
            SegmentLine::Entry(entry) => self.enter(alloc, entry, counts),
            _ => Ok(()),
        }
    }

    /// Nothing more is read: all jobs have ended.
    ///
    /// AllocError where memory is refused.
    pub fn finish(&mut self, alloc: Global) -> Result<(), AllocError>
        ensures sent { OnOk result (HasSent 0 self.old self.new) }
        ensures printed { OnOk result (HasPrinted 0 self.old self.new) }
        ensures kept { OnOk result (Keeps self.old self.new) }
        ensures ended { OnOk result (self.new.held.items ≡ []) }
    {
        self.end_all(alloc)
    }

    /// The names and what is told of each, in the order in which the first job of each ended. One in which nothing counts may be among
    /// them. Jobs whose control file didn't come are told under `-`, where users or hosts are.
    pub fn rows(&self) -> Iter<'_, Vec<u8>, Totals>
        ensures { result ≡ self.now.rows.entries }
    {
        self.rows.iter()
    }
}
