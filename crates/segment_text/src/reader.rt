//! A reader of a segment, line by line.

ghost use Rattle.std.specs.Prelude.{◌≡◌, ◌↔◌, ◌≤◌, ◌⊎◌, ◌+◌, ◌∷◌, [], ℕ, IfOk, IsTrue, List, MatchResult, OnErr};
ghost use Rattle.sha2.specs.Sha256.{sha256};
ghost use Rattle.segment_text.specs.Items as I;
ghost use Rattle.segment_text.specs.Items.{item_line, item_seen, IsItem, Item};
ghost use Rattle.segment_text.specs.Streams.{CanRead, HasRead, HasReadAtMost};

use crate::head::Last;
use crate::items::{SegmentLine, Stage, parse_line};
use account_text::LineFault;
use sha2::{Digest, Sha256};
use std::alloc::{AllocError, Global};

/// Reads a segment line by line, in memory that doesn't grow with it: it keeps which line comes next, how many entries there
/// were, and the SHA-256 of all lines so far.
#[derive(Drop)]
pub struct SegmentReader {
    hash: Sha256,
    entries: u64,
    stage: Stage,
}

/// The stage behind a line that comes next at one.
fn behind(stage: Stage, got: &SegmentLine) -> Stage
    requires { I.Suits stage (item_seen got.now) }
    ensures { result ≡ I.stage_after stage (item_seen got.now) }
{
    match got {
        SegmentLine::Origin(_) => Stage::Config,
        SegmentLine::Config(config) => Stage::Printers(config.printer_count()),
        SegmentLine::Printer(_) => match stage {
            Stage::Printers(left) => Stage::Printers(left - 1),
            _ => stage,
        },
        SegmentLine::Start(_) | SegmentLine::Entry(_) => Stage::Entries,
        SegmentLine::Last(_) => Stage::Over,
    }
}

/// How many entries a line tells.
fn entries_in(got: &SegmentLine) -> u64
    ensures value { result ≡ I.entries_in (item_seen got.now) }
    ensures within { result ≤ 1 }
{
    match got {
        SegmentLine::Entry(_) => 1,
        _ => 0,
    }
}

impl SegmentReader {
    /// One that has read no line.
    pub fn begin() -> SegmentReader
        ensures read { HasRead result [] }
        ensures few { HasReadAtMost result 0 }
    {
        SegmentReader {
            hash: Sha256::new(),
            entries: 0,
            stage: Stage::Origin,
        }
    }

    /// Whether a last line tells how many entries were read, and the SHA-256 of all lines so far.
    ///
    /// AllocError where memory is refused.
    fn ends(&self, last: &Last) -> Result<bool, AllocError>
        ensures { IfOk result (λ b. (is : List Item) → HasRead self.now is → (IsTrue b
            ↔ ((last.now.entries ≡ I.entries_of is)
            × (last.now.digest ≡ sha256 (I.text_of is))))) }
    {
        let digest = self.hash.clone()?.finalize();
        Ok(last.entries == self.entries && last.digest.as_slice() == digest.as_slice())
    }

    /// Puts a line that was read behind those before.
    fn take(&mut self, line: &[u8], got: &SegmentLine)
        requires room { CanRead self.old }
        requires suits { I.Suits self.old.stage (item_seen got.now) }
        requires line { line.now ≡ item_line (item_seen got.now) }
        ensures read { (is : List Item) → HasRead self.old is
            → HasRead self.new (item_seen got.now ∷ is) }
        ensures few { (n : ℕ) → HasReadAtMost self.old n → HasReadAtMost self.new (n + 1) }
    {
        self.stage = behind(self.stage, got);
        self.entries += entries_in(got);
        self.hash.update(line);
        self.hash.update(b"\n");
    }

    /// Reads a line without its LF.
    ///
    /// `Bad` exactly where it is the line of nothing that can be told and may stand here, behind the lines that were read; `Memory`
    /// where memory is refused. Where it fails nothing was read.
    pub fn read(&mut self, alloc: Global, line: &[u8]) -> Result<SegmentLine, LineFault>
        requires { CanRead self.old }
        ensures read { (is : List Item) → HasRead self.old is → MatchResult result
            (λ got. (line.now ≡ item_line (item_seen got))
            × I.MayStand is (item_seen got)
            × HasRead self.new (item_seen got ∷ is))
            (λ f. (f ≡ LineFault.Memory) ⊎ ((f ≡ LineFault.Bad)
            × ((i : Item) → IsItem i → I.MayStand is i → line.now ≡ item_line i → ⊥))) }
        ensures few { (n : ℕ) → HasReadAtMost self.old n → HasReadAtMost self.new (n + 1) }
        ensures err { OnErr result (self.new ≡ self.old) }
    {
        let got = parse_line(alloc, self.stage, line)?;
        if let SegmentLine::Last(last) = &got {
            if !self.ends(last)? {
                return Err(LineFault::Bad);
            }
        }
        self.take(line, &got);
        Ok(got)
    }

    /// Whether the last line was read.
    pub fn is_over(&self) -> bool
        ensures { (is : List Item) → HasRead self.now is → (IsTrue result
            ↔ (I.stage_of is ≡ Stage.Over)) }
    {
        self.stage == Stage::Over
    }
}
