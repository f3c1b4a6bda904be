//! How an answer ends.

ghost use Rattle.std.specs.Prelude.{◌≡◌, ◌≤◌, ◌++◌, ◌∷◌, [], ℕ, List, Some, MatchOption, IsUtf8, codes, length};
ghost use Rattle.control_lines.specs.Answers.{end_words, HasNoEnd, IsEnded, IsEndLine, IsLastLineAt, IsOneLine};

use crate::operands::{after, text_of};
use std::fmt;

/// How a server ends its answer to a command: what the last line of the answer says.
#[derive(Clone, Copy, Debug)]
pub enum AnswerEnd<'a> {
    /// The command was carried out.
    Done,
    /// The command was refused for this, which is one line.
    Refused { text: &'a str },
    /// The line was no command.
    Unknown,
}

/// Writes the line without its LF.
impl fmt::Display for AnswerEnd<'_> {
    ghost output = { λ end. Some (end_words end) };

    fn fmt<W: fmt::Write>(&self, f: &mut fmt::Formatter<W>) -> fmt::Result {
        match self {
            AnswerEnd::Done => f.write_str("end done"),
            AnswerEnd::Refused { text } => write!(f, "end refused {text}"),
            AnswerEnd::Unknown => f.write_str("end unknown"),
        }
    }
}

impl<'a> AnswerEnd<'a> {
    /// The end that a line (without its LF) says.
    fn read(line: &'a [u8]) -> Option<AnswerEnd<'a>>
        requires { IsOneLine line.now }
        ensures { MatchOption result (IsEndLine line.now → ⊥)
            (λ end. (line.now ≡ end_words end) × IsEndLine line.now) }
    {
        let words = after(line, b"end ")?;
        if words == b"done".as_slice() {
            return Some(AnswerEnd::Done);
        }
        if words == b"unknown".as_slice() {
            return Some(AnswerEnd::Unknown);
        }
        let text = refusal(words)?;
        Some(AnswerEnd::Refused { text })
    }
}

/// The text of `refused TEXT`.
fn refusal(words: &[u8]) -> Option<&str>
    ensures { MatchOption result
        ((text : List ℕ) → words.now ≡ codes "refused " ++ text → IsUtf8 text → ⊥)
        (λ text. (words.now ≡ codes "refused " ++ text.now) × IsUtf8 text.now) }
{
    text_of(after(words, b"refused ")?)
}

/// Where the last line of these octets begins.
fn last_line(octets: &[u8]) -> usize
    ensures within { result ≤ length octets.now }
    ensures last { IsLastLineAt octets.now result }
{
    let mut start = 0;
    for (i, octet) in octets.iter().enumerate() {
        if *octet == b'\n' {
            start = i + 1;
        }
    }
    start
}

/// The octets before a line feed that ends them.
fn without_feed(octets: &[u8]) -> Option<&[u8]>
    ensures { MatchOption result ((front : List ℕ) → octets.now ≡ front ++ 10 ∷ [] → ⊥)
        (λ front. octets.now ≡ front.now ++ 10 ∷ []) }
{
    octets.strip_suffix(b"\n")
}

/// What the last line of an answer says, behind the octets that come before it; none where the answer was cut off, or its last
/// line is no end.
pub fn read_answer(answer: &[u8]) -> Option<(&[u8], AnswerEnd<'_>)>
    ensures { MatchOption result (HasNoEnd answer.now)
        (λ parts. IsEnded answer.now parts.0.now (end_words parts.1)) }
{
    let lines = without_feed(answer)?;
    let (before, last) = lines.split_at(last_line(lines));
    let end = AnswerEnd::read(last)?;
    Some((before, end))
}
