//! What stands before a line of the log.
//!
//! It stands before every line, a fault's too: whoever asks for times asks for them everywhere. Scripts that read faults don't ask for
//! it.

ghost use Rattle.std.specs.Prelude.{◌≡◌};
ghost use Rattle.log_lines.specs.Grades.{grade_of};

use jiff::Timestamp;
use log::Level;
use program_edge::LogForm;
use std::fmt;
use std::time::{Clock, SystemTime};

/// What stands before a line.
#[derive(Clone, Copy)]
pub(crate) enum LineHead {
    /// Nothing.
    Nothing,
    /// When it was logged.
    Time(Timestamp),
    /// How grave it is, as systemd's journal counts.
    Grade(u8),
}

/// How grave a line of this level is for systemd's journal, which counts as `syslog` does (RFC 5424, section 6.2.1).
fn grade_of(level: Level) -> u8
    ensures { result ≡ grade_of level }
{
    match level {
        Level::Error => 3,
        Level::Warn => 4,
        Level::Info => 6,
        Level::Debug | Level::Trace => 7,
    }
}

/// The time of day in UTC. None where the clock can't be read.
fn time_of<R: Clock>(rt: &R) -> Option<Timestamp> {
    let time = SystemTime::now(rt).ok()?;
    Timestamp::try_from(time).ok()
}

impl LineHead {
    /// The head of a line of this level that is logged now. Nothing stands in the place of a time that can't be read.
    pub(crate) fn new<R: Clock>(rt: &R, form: LogForm, level: Level) -> LineHead {
        match form {
            LogForm::Plain => LineHead::Nothing,
            LogForm::Time => time_of(rt).map_or(LineHead::Nothing, |time| LineHead::Time(time)),
            LogForm::Journal => LineHead::Grade(grade_of(level)),
        }
    }
}

impl fmt::Display for LineHead {
    fn fmt<W: fmt::Write>(&self, f: &mut fmt::Formatter<W>) -> fmt::Result {
        match self {
            LineHead::Nothing => Ok(()),
            // RFC 3339, in UTC, to the millisecond.
            LineHead::Time(time) => write!(f, "{time:.3} "),
            LineHead::Grade(grade) => write!(f, "<{grade}>"),
        }
    }
}
