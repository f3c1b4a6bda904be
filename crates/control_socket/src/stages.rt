//! How far a connection has come, and until when it may stay there.
//!
//! ```text
//!   accepted           line whole           handed out            answered             written
//!  ----------> asking ------------> ready ------------> asked ------------> answering ---------> closed
//!                |                                       |                    |
//!                +--- late, too long, its peer ended,    +--- its peer        +--- late, or its peer
//!                     or for another one                      is gone              is gone
//! ```

ghost use Rattle.std.specs.Prelude.{◌≡◌, Some, true};
ghost use Rattle.control_socket.specs.Stages.{until_of, after, begun, heard, IsNewAnswer, earlier_of, is_late, is_asking, is_ready, is_asked};

use crate::answer::AnswerRest;
use crate::line::PartialLine;
use std::alloc::Global;

/// How long what may last, in milliseconds.
#[derive(Clone, Copy, Debug, PartialEq, Eq)]
pub struct Times {
    /// From the moment a connection is accepted until its line is whole.
    pub line_ms: u64,
    /// For an answer to be written.
    pub answer_ms: u64,
    /// For all answers to be written, once the socket ends.
    pub end_ms: u64,
}

impl Default for Times {
    /// Two seconds for a line, five for an answer, two for the end.
    fn default() -> Times
        ensures line { result.line_ms ≡ 2_000 }
        ensures answer { result.answer_ms ≡ 5_000 }
        ensures end { result.end_ms ≡ 2_000 }
    {
        Times {
            line_ms: 2_000,
            answer_ms: 5_000,
            end_ms: 2_000,
        }
    }
}

/// How far a connection has come.
#[derive(Drop)]
pub(crate) enum TalkStage {
    /// Its line is coming, until this millisecond at the latest.
    Asking {
        line: PartialLine,
        until: u64,
    },
    /// Its line is whole, and is handed out next. Its peer may be gone: it has asked all the same.
    Ready {
        line: PartialLine,
        is_gone: bool,
    },
    /// Its line was handed out, and is answered whenever that comes.
    Asked,
    /// Its answer is being written, until this millisecond at the latest. None until a round has begun since it was given.
    Answering {
        answer: AnswerRest,
        until: Option<u64>,
    },
}

impl TalkStage {
    /// A connection that was just accepted.
    pub(crate) fn accepted(alloc: Global, most_line: usize, now: u64, times: &Times) -> TalkStage
        ensures asking { is_asking result ≡ true }
        ensures until { until_of result ≡ Some (after now times.now.line_ms) }
    {
        TalkStage::Asking {
            line: PartialLine::new(alloc, most_line),
            until: now.saturating_add(times.line_ms),
        }
    }

    /// Where its line was coming: that is whole. All else stays as it is.
    pub(crate) fn heard(self, is_gone: bool) -> TalkStage
        ensures { result ≡ heard self is_gone }
    {
        match self {
            TalkStage::Asking { line, .. } => TalkStage::Ready { line, is_gone },
            other => other,
        }
    }

    /// An answer of which nothing is written.
    pub(crate) fn answered(octets: Vec<u8>) -> TalkStage
        ensures { IsNewAnswer octets result }
    {
        TalkStage::Answering {
            answer: AnswerRest::new(octets),
            until: None,
        }
    }

    /// The millisecond at which it is over; None where it has no limit.
    pub(crate) fn until(&self) -> Option<u64>
        ensures { result ≡ until_of self.now }
    {
        match self {
            TalkStage::Asking { until, .. } => Some(*until),
            TalkStage::Ready { .. } | TalkStage::Asked => None,
            TalkStage::Answering { until, .. } => *until,
        }
    }

    /// Whether its time is over.
    pub(crate) fn is_late(&self, now: u64) -> bool
        ensures { result ≡ is_late now self.now }
    {
        self.until().is_some_and(|until| until <= now)
    }

    /// An answer that was given since the last round has its time from now on.
    pub(crate) fn begin(&mut self, now: u64, times: &Times)
        ensures { self.new ≡ begun self.old now times.now.answer_ms }
    {
        if let TalkStage::Answering { until, .. } = self {
            if until.is_none() {
                *until = Some(now.saturating_add(times.answer_ms));
            }
        }
    }

    /// Whether its line is coming.
    pub(crate) fn is_asking(&self) -> bool
        ensures { result ≡ is_asking self.now }
    {
        matches!(self, TalkStage::Asking { .. })
    }

    /// Whether its line waits to be handed out.
    pub(crate) fn is_ready(&self) -> bool
        ensures { result ≡ is_ready self.now }
    {
        matches!(self, TalkStage::Ready { .. })
    }

    /// Whether its line was handed out and not answered.
    pub(crate) fn is_asked(&self) -> bool
        ensures { result ≡ is_asked self.now }
    {
        matches!(self, TalkStage::Asked)
    }
}

/// The earlier one of two moments, of which each may be none.
pub(crate) fn earlier(first: Option<u64>, second: Option<u64>) -> Option<u64>
    ensures { result ≡ earlier_of first second }
{
    match (first, second) {
        (Some(first), Some(second)) => Some(first.min(second)),
        (first, None) => first,
        (None, second) => second,
    }
}
