//! The lines of an answer at the control socket.

ghost use Rattle.std.specs.Prelude.{◌≡◌, ◌++◌, ◌∷◌, [], IfOk, IsErr, OnErr, false, string_bytes, true};
ghost use Rattle.control_lines.specs.Answers.{end_words};

use control_lines::AnswerEnd;
use std::alloc::{AllocError, Global};
use std::fmt::Display;

/// The lines of an answer, each behind the others. That memory was refused for one is kept until its end.
#[derive(Drop)]
pub struct AnswerLines {
    alloc: Global,
    text: String,
    is_lost: bool,
}

impl AnswerLines {
    /// No line.
    pub fn new(alloc: Global) -> AnswerLines
        ensures text { string_bytes result.text ≡ [] }
        ensures whole { result.is_lost ≡ false }
    {
        AnswerLines::of_lines(alloc, String::new(alloc))
    }

    /// These lines.
    pub fn of_lines(alloc: Global, text: String) -> AnswerLines
        ensures text { result.text ≡ text }
        ensures whole { result.is_lost ≡ false }
    {
        AnswerLines {
            alloc,
            text,
            is_lost: false,
        }
    }

    /// This line, behind the others.
    pub fn words(&mut self, line: &str)
        ensures told { self.new.is_lost ≡ false
            → string_bytes self.new.text ≡ string_bytes self.old.text ++ (line.now ++ 10 ∷ []) }
        ensures lost { self.old.is_lost ≡ true → self.new.is_lost ≡ true }
    {
        let is_told = self.text.push_str(line).is_ok() && self.text.push_str("\n").is_ok();
        if !is_told {
            self.is_lost = true;
        }
    }

    /// A line that was made, behind the others, unless memory was refused for it.
    pub fn line(&mut self, line: Result<String, AllocError>)
        ensures told { IfOk line (λ text. self.new.is_lost ≡ false → string_bytes self.new.text
            ≡ string_bytes self.old.text ++ (string_bytes text ++ 10 ∷ [])) }
        ensures refused { OnErr line (self.new.is_lost ≡ true) }
        ensures lost { self.old.is_lost ≡ true → self.new.is_lost ≡ true }
    {
        match line {
            Ok(line) => self.words(line.as_str()),
            Err(AllocError) => self.is_lost = true,
        }
    }

    /// The octets of the answer, which ends so. An error where memory is refused, or was for one of its lines.
    pub fn end(self, end: AnswerEnd<'_>) -> Result<Vec<u8>, AllocError>
        ensures text { IfOk result (λ octets. octets.items
            ≡ string_bytes self.text ++ (end_words end.entry ++ 10 ∷ [])) }
        ensures lost { self.is_lost ≡ true → IsErr result }
    {
        let end = format!(in self.alloc; "{end}")?;
        let mut answer = self;
        answer.words(end.as_str());
        let AnswerLines { text, is_lost, .. } = answer;
        if is_lost {
            return Err(AllocError);
        }
        Ok(text.into_bytes())
    }

    /// The octets of the answer: nothing more where this was done, else why it wasn't. An error where memory is refused.
    pub fn end_by<W: Display + Drop>(self, refused: Option<W>) -> Result<Vec<u8>, AllocError> {
        match refused {
            None => self.end(AnswerEnd::Done),
            Some(refusal) => {
                let why = format!(in self.alloc; "{refusal}")?;
                self.end(AnswerEnd::Refused { text: why.as_str() })
            }
        }
    }
}
