//! An audit of segments.

ghost use Rattle.std.specs.Prelude.{◌≡◌, ◌≤◌, ◌<◌, ◌+◌, ◌^◌, ◌↔◌, ◌⊎◌, ◌∷◌, [], ℕ, IfOk, IsTrue, List, MatchOption, MatchResult, None, Option, Some};
ghost use Rattle.segment_text.specs.Items.{item_line, item_seen, IsItem, Item, MayStand};
ghost use Rattle.segment_text.specs.Streams.{HasRead, HasReadAtMost};
ghost use Rattle.segment_audit.specs.Audited as A;
ghost use Rattle.segment_audit.specs.Read.{entries_in};
ghost use Rattle.segment_audit.specs.Told.{IsAtMost};

use crate::fault::AuditFault;
use crate::part::{Part, config_before, digest_before};
use crate::tally::Tally;
use account_text::LineFault;
use config_values::Config;
use segment_text::{SegmentLine, SegmentReader};
use std::alloc::Global;

/// How many lines an audit reads at most.
const MAX_LINES: u64 = 1 << 62;

/// An audit of segments, whose lines it reads in order, in memory that grows with the held jobs and not with the lines.
#[derive(Drop)]
pub struct SegmentAudit {
    after: Option<[u8; 32]>,
    part: Part,
    reader: SegmentReader,
    lines: u64,
    tally: Tally,
    ghost few: { (lines ≤ 2 ^ 62) × HasReadAtMost reader lines × (entries_in part ≤ lines)
        × IsAtMost lines tally },
}

/// Reads a line without its LF, behind so many lines.
///
/// `Line` exactly where it is the line of nothing that can be told and may stand behind those that were read, or these are 2^62;
/// `Memory` where memory is refused.
fn read_line(
    reader: &mut SegmentReader,
    lines: u64,
    alloc: Global,
    line: &[u8],
) -> Result<SegmentLine, AuditFault>
    requires { HasReadAtMost reader.old lines }
    ensures read { (is : List Item) → HasRead reader.old is → MatchResult result
        (λ got. (line.now ≡ item_line (item_seen got)) × MayStand is (item_seen got)
        × HasRead reader.new (item_seen got ∷ is))
        (λ f. (f ≡ AuditFault.Memory) ⊎ ((f ≡ AuditFault.Line) × (lines < 2 ^ 62
        → (i : Item) → IsItem i → MayStand is i → line.now ≡ item_line i → ⊥))) }
    ensures room { IfOk result (λ _. lines < 2 ^ 62) }
    ensures few { HasReadAtMost reader.new (lines + 1) }
{
    if lines >= MAX_LINES {
        return Err(AuditFault::Line);
    }
    match reader.read(alloc, line) {
        Ok(got) => Ok(got),
        Err(LineFault::Bad) => Err(AuditFault::Line),
        Err(LineFault::Memory) => Err(AuditFault::Memory),
    }
}

/// The reader of what comes behind a line.
fn reader_behind(reader: SegmentReader, got: &SegmentLine) -> SegmentReader
    ensures read { (is : List Item) → HasRead reader (item_seen got.now ∷ A.present is)
        → HasRead result (A.present (item_seen got.now ∷ is)) }
    ensures few { (n : ℕ) → HasReadAtMost reader n → HasReadAtMost result n }
{
    match got {
        SegmentLine::Last(_) => SegmentReader::begin(),
        _ => reader,
    }
}

impl SegmentAudit {
    ghost use Rattle.segment_audit.specs.Streams.{HasAudited, IsRefused};
    ghost use Rattle.segment_audit.specs.Told.{IsTallyOf};

    /// An audit that has read no line. The first segment begins from a base, and has to name the digest `after`, if there is one.
    pub fn begin(after: Option<[u8; 32]>) -> SegmentAudit
        ensures { HasAudited result after [] }
    {
        SegmentAudit {
            after,
            part: Part::begin(),
            reader: SegmentReader::begin(),
            lines: 0,
            tally: Tally::none(),
        }
    }

    /// Reads one line, without its LF, of the segments in order. What is read of it goes to the caller beside the audit. An audit
    /// that has refused a line is gone.
    ///
    /// `Line` where it is no line that can be told and may stand behind those of its segment, or 2^62 lines were read; `Entry` where
    /// it is an entry that may not come in a legal account, or by version 1 a last line where a job is held; `Follow` where it is the
    /// last line of a head (`base ..` or `part ..`) that doesn't follow on the segment before, or isn't the one that is asked for, or
    /// is of no segment that can be the first; `Memory` where memory is refused.
    #[tactic(auto, using(crate::proofs::Steps::refused, crate::proofs::Steps::unread))]
    pub fn read(self, alloc: Global, line: &[u8]) -> Result<(SegmentAudit, SegmentLine), AuditFault>
        ensures { (after : Option (List ℕ)) (is : List Item) → HasAudited self after is
            → MatchResult result
            (λ got. (line.now ≡ item_line (item_seen got.1))
            × A.MayCome after is (item_seen got.1)
            × HasAudited got.0 after (item_seen got.1 ∷ is))
            (λ f. IsRefused f after is line.now) }
    {
        let SegmentAudit {
            after,
            part,
            mut reader,
            lines,
            tally,
        } = self;
        let got = read_line(&mut reader, lines, alloc, line)?;
        let part = part.read(&after, alloc, &got)?;
        let tally = tally.with(&got, lines);
        let audit = SegmentAudit {
            after,
            part,
            reader: reader_behind(reader, &got),
            lines: lines + 1,
            tally,
        };
        Ok((audit, got))
    }

    /// Whether no segment has begun that isn't over: a file may end here.
    pub fn is_between(&self) -> bool
        ensures { (after : Option (List ℕ)) (is : List Item) → HasAudited self.now after is
            → (IsTrue result ↔ (A.present is ≡ [])) }
    {
        matches!(self.part, Part::Between(_))
    }

    /// The digest that the last segment ends in that is over. None before one is.
    pub fn digest(&self) -> Option<[u8; 32]>
        ensures { (after : Option (List ℕ)) (is : List Item) → HasAudited self.now after is
            → result ≡ A.last_digest is }
    {
        match &self.part {
            Part::Between(before) => digest_before(before),
            Part::Begun(before, _) => digest_before(before),
            Part::Headed(before, _, _, _) => digest_before(before),
            Part::Entries(digest, _, _) => *digest,
        }
    }

    /// What the lines that were read say, in numbers.
    pub fn tally(&self) -> Tally
        ensures { (after : Option (List ℕ)) (is : List Item) → HasAudited self.now after is
            → IsTallyOf result is }
    {
        self.tally
    }

    /// The configuration of the segment that is read, or before its line that of the one that was over last.
    pub fn config(&self) -> Option<&Config>
        ensures { (after : Option (List ℕ)) (is : List Item) → HasAudited self.now after is
            → MatchOption result (A.last_config is ≡ None)
            (λ c. A.last_config is ≡ Some c.now) }
    {
        match &self.part {
            Part::Headed(_, _, config, _) => Some(config),
            Part::Entries(_, head, _) => Some(&head.config),
            Part::Between(before) => config_before(before),
            Part::Begun(before, _) => config_before(before),
        }
    }
}
