//! How far a job is that is sent is told to the log.

ghost use Rattle.std.specs.Prelude.{◌≡◌, ◌<◌, ◌+◌, ◌-◌, ◌%◌, ◌^◌, ◌↔◌, IsTrue, codes, false, min};
ghost use Rattle.word_actions.specs.Progress.{step_of};

use log::{Log, info};
use lpd_commands::{OctetFault, OctetWrite};

/// The part of the program that tells it where that is asked for, by which a log can choose its lines.
pub const PROGRESS: &str = "lpd_words::progress";

/// The part of the program that tells it where nobody has asked for that.
const UNASKED: &str = "lpd_words";

/// The fewest octets between two lines.
const LEAST_STEP: usize = 65_536;

/// How many octets lie between two lines, of a job of this many: a tenth of them, and `LEAST_STEP` at the least.
fn step_of(all: usize) -> usize
    ensures { result ≡ step_of all }
{
    all.div_ceil(10).max(LEAST_STEP)
}

/// How far a job is that is sent.
#[derive(Clone, Copy, Debug)]
pub(crate) struct SendProgress {
    all: usize,
    sent: usize,
    step: usize,
    ghost steps: { step ≡ step_of all },
}

impl SendProgress {
    /// Nothing is sent yet of a job of this many octets.
    fn new(all: usize) -> SendProgress
        ensures { (result.all ≡ all) × (result.sent ≡ 0) }
    {
        let step = step_of(all);
        SendProgress { all, sent: 0, step }
    }

    /// How many octets are left up to the next line.
    fn left(&self) -> usize
        ensures rest { result ≡ self.now.step - self.now.sent % self.now.step }
        ensures some { 0 < result }
    {
        self.step - self.sent % self.step
    }

    /// This many octets more are sent. Whether it is time for a line.
    fn advance(&mut self, octets: usize) -> bool
        ensures sent { self.new.sent ≡ min (self.old.sent + octets) (2 ^ 64 - 1) }
        ensures all { self.new.all ≡ self.old.all }
        ensures line { IsTrue result ↔ ((0 < octets) × (self.new.sent % self.new.step ≡ 0)) }
    {
        self.sent = self.sent.saturating_add(octets);
        octets > 0 && self.sent % self.step == 0
    }
}

/// The part of the program that tells how far a job is.
fn teller(is_asked: bool) -> &'static str
    ensures asked { IsTrue is_asked → result.now ≡ codes "lpd_words::progress" }
    ensures unasked { is_asked ≡ false → result.now ≡ codes "lpd_words" }
{
    if is_asked { PROGRESS } else { UNASKED }
}

/// A writer of a job's octets that tells the log how many of them it has written: a line after each tenth of them, but
/// after no fewer than 65,536 octets.
#[derive(Drop)]
pub(crate) struct ProgressWriter<'a, R: Log, W: OctetWrite + Drop> {
    rt: &'a R,
    teller: &'static str,
    writer: W,
    progress: SendProgress,
}

impl<'a, R: Log, W: OctetWrite + Drop> ProgressWriter<'a, R, W> {
    /// A writer by this one, of a job of this many octets; and whether it is asked to tell how far that is.
    pub(crate) fn new(rt: &'a R, writer: W, all: usize, is_asked: bool) -> ProgressWriter<'a, R, W>
        ensures { result.writer ≡ writer }
    {
        ProgressWriter {
            rt,
            teller: teller(is_asked),
            writer,
            progress: SendProgress::new(all),
        }
    }

    /// The writer that it writes by.
    pub(crate) fn writer(&self) -> &W
        ensures { result.now ≡ self.now.writer }
    {
        &self.writer
    }

    /// This many octets more were written.
    fn tell(&mut self, octets: usize)
        ensures { self.new.writer ≡ self.old.writer }
    {
        if self.progress.advance(octets) {
            let SendProgress { sent, all, .. } = self.progress;
            info!(self.rt; target: self.teller, "sent {sent} of {all} octets");
        }
    }
}

impl<R: Log, W: OctetWrite + Drop> OctetWrite for ProgressWriter<'_, R, W> {
    ghost written = { λ it. W.written it.writer };

    ghost faults = { λ it. W.faults it.writer };

    fn write(&mut self, octets: &[u8]) -> Result<usize, OctetFault> {
        let most = octets.len().min(self.progress.left());
        let count = self.writer.write(&octets[..most])?;
        self.tell(count);
        Ok(count)
    }
}
