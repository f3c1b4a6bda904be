//! A logger whose lines wait in a queue.

ghost use Rattle.std.specs.Prelude.{Some, true, [], ◌≡◌};

use crate::head::LineHead;
use crate::queue::LineQueue;
use log::kv::Source;
use log::span::Spans;
use log::{Level, Line, Log, Metadata, Record};
use program_edge::LogForm;
use std::alloc::Global;
use std::fmt::Display;
use std::sync::Wait;
use std::time::Clock;

/// A logger into a queue.
#[derive(Drop)]
pub struct LineLog<'a, R: Clock + Wait> {
    rt: &'a R,
    alloc: Global,
    queue: &'a LineQueue,
    /// Of what is logged for information, only what these parts of the program give is told; where there are none, all is.
    informing: Option<&'static [&'static str]>,
}

impl<'a, R: Clock + Wait> LineLog<'a, R> {
    /// A logger into this queue.
    pub fn new(rt: &'a R, alloc: Global, queue: &'a LineQueue) -> LineLog<'a, R> {
        LineLog {
            rt,
            alloc,
            queue,
            informing: None,
        }
    }

    /// The same, which tells of what is logged for information only what these parts of the program give.
    pub fn informed_by(self, targets: &'static [&'static str]) -> LineLog<'a, R> {
        LineLog {
            informing: Some(targets),
            ..self
        }
    }

    /// Whether a record is to be told.
    fn is_told<D: Display, K: Source, S: Spans>(&self, record: &Record<'_, D, K, S>) -> bool {
        match (record.level(), self.informing) {
            (Level::Info, Some(targets)) => {
                targets.iter().any(|target| record.target() == *target)
            }
            (Level::Warn, _) if self.queue.form() != LogForm::Plain => {
                match format!(in self.alloc; "{}", record.args()) {
                    Ok(text) => self.queue.is_new(self.rt, self.alloc, text.as_str()),
                    Err(_) => true,
                }
            }
            _ => true,
        }
    }
}

impl<'a, R: Clock + Wait> Log for LineLog<'a, R> {
    ghost enables = { λ _ _ _. Some true };

    ghost target_of = { λ _. Some [] };

    fn enabled(&self, _metadata: &Metadata<'_>) -> bool {
        true
    }

    fn log<D: Display, K: Source, S: Spans>(&self, record: &Record<'_, D, K, S>) {
        if !self.is_told(record) {
            return;
        }
        let head = LineHead::new(self.rt, self.queue.form(), record.level());
        // What the server ends by, or goes on in spite of, is a line of its own as all faults are.
        let line = if record.level() == Level::Error {
            format!(in self.alloc; "{head}{}\n", record.args())
        } else {
            format!(in self.alloc; "{head}{}\n", Line::new(record))
        };
        self.queue.put(self.rt, line.ok());
    }

    fn flush(&self) {}

    fn target(&self) -> &str {
        ""
    }
}
