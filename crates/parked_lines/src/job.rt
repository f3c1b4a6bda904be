//! What is known of a job that is kept.

ghost use Rattle.std.specs.Prelude.{◌≡◌, ◌+◌, ◌-◌, ◌/◌, ◌<◌, ◌^◌, min};
ghost use Rattle.parked_lines.specs.Line.{is_earlier, job_at, job_kept, job_moved};
ghost use Rattle.parked_lines.specs.Parts.{pages_in_state, pages_of};

use crate::state::{JobMove, ParkState};

/// How long a job is.
#[derive(Clone, Copy, Debug, PartialEq, Eq)]
pub struct JobSize {
    /// The octets of all its files.
    pub octets: u64,
    /// The pages that its files have together.
    pub pages: u32,
}

impl JobSize {
    /// Of a job with no file.
    pub const NOTHING: JobSize = JobSize {
        octets: 0,
        pages: 0,
    };

    /// With one more file of this many octets: its last page is a page of its own. What is beyond the types' ranges is told as
    /// their greatest numbers.
    pub fn with_file(self, octets: u64, page_size: u32) -> JobSize
        requires { 0 < page_size }
        ensures octets { result.octets ≡ min (self.octets + octets) (2 ^ 64 - 1) }
        ensures pages { result.pages ≡ min (self.pages + pages_of octets page_size) (2 ^ 32 - 1) }
    {
        let pages = u64::from(self.pages).saturating_add(pages_in(octets, page_size));
        JobSize {
            octets: self.octets.saturating_add(octets),
            pages: pages.min(u64::from(u32::MAX)) as u32,
        }
    }
}

/// The pages that a file of this many octets has, the last one of which may be part full.
pub fn pages_in(octets: u64, page_size: u32) -> u64
    requires { 0 < page_size }
    ensures { result ≡ pages_of octets page_size }
{
    octets.div_ceil(u64::from(page_size))
}

/// A job that is opened.
#[derive(Clone, Copy, Debug, PartialEq, Eq)]
pub struct NewJob {
    /// The number of its file.
    pub number: u64,
    /// Who sends it.
    pub sender: u32,
    /// Whose it is: a number that the caller gives each user.
    pub owner: u32,
}

impl NewJob {
    /// The job in this state, of this size.
    pub(crate) fn at(self, state: ParkState, size: JobSize) -> ParkedJob
        ensures { result ≡ job_at self state size }
    {
        ParkedJob {
            number: self.number,
            octets: size.octets,
            pages: size.pages,
            sender: self.sender,
            owner: self.owner,
            state,
        }
    }
}

/// A job whose file has a number: 32 octets.
#[derive(Clone, Copy, Debug, PartialEq, Eq)]
pub struct ParkedJob {
    /// The number of its file.
    pub number: u64,
    /// The octets of all its files, once it is kept.
    pub octets: u64,
    /// The pages of all its files, once it is kept.
    pub pages: u32,
    /// Who sent it.
    pub sender: u32,
    /// Whose it is: a number that the caller gives each user.
    pub owner: u32,
    /// Where it is.
    pub state: ParkState,
}

impl ParkedJob {
    /// The job in this state.
    pub(crate) fn in_state(self, state: ParkState) -> ParkedJob
        ensures { result ≡ record self { state = state } }
    {
        ParkedJob { state, ..self }
    }

    /// The job once it is kept and has this size, or None where it was kept before.
    pub fn kept(self, size: JobSize) -> Option<ParkedJob>
        ensures { result ≡ job_kept self size }
    {
        let state = self.state.kept()?;
        Some(ParkedJob {
            octets: size.octets,
            pages: size.pages,
            state,
            ..self
        })
    }

    /// The job after this, or None where it doesn't happen to a job in its state.
    pub fn moved(self, change: JobMove) -> Option<ParkedJob>
        ensures { result ≡ job_moved change self }
    {
        let state = self.state.moved(change)?;
        Some(self.in_state(state))
    }

    /// Whether it is of this sender, has a smaller number than this, and isn't the spool's.
    pub(crate) fn is_earlier(&self, sender: u32, number: u64) -> bool
        ensures { result ≡ is_earlier sender number self.now }
    {
        self.number < number && self.state.is_outside() && self.sender == sender
    }

    /// The pages of the pool that it has: all that it may come to, which is this limit, while it comes through the spool.
    pub(crate) fn pages_used(&self, limit: u32) -> u32
        ensures { result ≡ pages_in_state limit self.now.pages self.now.state }
    {
        match self.state {
            ParkState::Coming => limit,
            ParkState::Fed | ParkState::Whole => self.pages,
            ParkState::Beside | ParkState::Waiting => 0,
        }
    }
}
