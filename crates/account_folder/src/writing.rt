//! Writing the text of a segment, in memory that doesn't grow with it.

ghost use Rattle.std.specs.Prelude.{◌≡◌, ◌∷◌, ◌++◌, Option, ℕ, IfOk, List, OnOk, map};
ghost use Rattle.account.specs.Seen.{event_seen};
ghost use Rattle.account_text.specs.Lines.{event_line};
ghost use Rattle.lpd_commands.specs.Ends.{Writes};
ghost use Rattle.segment_text.specs.Items as I;
ghost use Rattle.segment_text.specs.Items.{Item, with_feed};
ghost use Rattle.segment_text.specs.Seen.{head_seen};
ghost use Rattle.segment_text.specs.Streams.{HasWritten, HasWrittenAtMost};
ghost use Rattle.account_folder.specs.Texts.{IsOnItsWay};

use account::Entry;
use lpd_commands::{OctetFault, OctetWrite, write_all};
use segment_text::{Head, SegmentWriter};
use std::alloc::{AllocError, Global};

/// How many octets of the text are written at once, or somewhat more.
const PIECE: usize = 65_536;

/// The most entries that are written.
const MOST_ENTRIES: u64 = 1 << 62;

/// Why a text isn't written.
#[derive(Clone, Copy)]
pub(crate) enum TextFault {
    /// Memory was refused.
    Memory,
    /// The output can't be written.
    Output,
}

impl From<AllocError> for TextFault {
    fn from(_error: AllocError) -> TextFault {
        TextFault::Memory
    }
}

impl From<OctetFault> for TextFault {
    fn from(_fault: OctetFault) -> TextFault {
        TextFault::Output
    }
}

/// A segment as far as it is written.
#[derive(Drop)]
struct SegmentDraft {
    writer: SegmentWriter,
    entries: u64,
    ghost few: { HasWrittenAtMost writer entries },
}

impl SegmentDraft {
    /// Its head, at the end of the text.
    fn begin(alloc: Global, head: &Head, text: &mut Vec<u8>) -> Result<SegmentDraft, AllocError>
        ensures written { IfOk result
            (λ d. HasWritten d.writer (I.head_items (head_seen head.now))) }
        ensures text { OnOk result (text.new.items
            ≡ text.old.items ++ I.text_of (I.head_items (head_seen head.now))) }
    {
        let writer = SegmentWriter::begin(alloc, head, text)?;
        Ok(SegmentDraft { writer, entries: 0 })
    }

    /// One entry more, at the end of the text.
    fn with(
        self,
        alloc: Global,
        entry: &Entry,
        text: &mut Vec<u8>,
    ) -> Result<SegmentDraft, AllocError>
        ensures written { IfOk result (λ d. (is : List Item) → HasWritten self.writer is
            → HasWritten d.writer (I.Item.OfEvent (event_seen entry.now) ∷ is)) }
        ensures text { OnOk result (text.new.items
            ≡ text.old.items ++ with_feed (event_line (event_seen entry.now))) }
    {
        let SegmentDraft {
            mut writer,
            entries,
        } = self;
        if entries >= MOST_ENTRIES {
            return Err(AllocError);
        }
        writer.add(alloc, entry, text)?;
        Ok(SegmentDraft {
            writer,
            entries: entries + 1,
        })
    }
}

/// Writes a text of so many octets, or more, and empties it.
fn pass_on<W: OctetWrite>(
    text: &mut Vec<u8>,
    least: usize,
    output: &mut W,
) -> Result<(), OctetFault>
    ensures { OnOk result ((was : Option (List ℕ)) (all : List ℕ)
        → IsOnItsWay was (W.written output.old) text.old.items all
        → IsOnItsWay was (W.written output.new) text.new.items all) }
{
    if text.len() < least {
        return Ok(());
    }
    write_all(output, text.as_slice())?;
    text.clear();
    Ok(())
}

/// Writes the lines of a segment of this head and these entries. Answers the digest that it ends in.
pub(crate) fn write_segment<W: OctetWrite>(
    alloc: Global,
    head: &Head,
    entries: &[Entry],
    output: &mut W,
) -> Result<[u8; 32], TextFault>
    ensures written { OnOk result (Writes (W.written output.old) (W.written output.new)
        (I.text_of (I.segment_items (head_seen head.now) (map event_seen entries.now)))) }
    ensures digest { IfOk result (λ digest.
        digest ≡ I.digest_of (head_seen head.now) (map event_seen entries.now)) }
{
    let mut text = Vec::new(alloc);
    let mut draft = SegmentDraft::begin(alloc, head, &mut text)?;
    for entry in entries {
        draft = draft.with(alloc, entry, &mut text)?;
        pass_on(&mut text, PIECE, output)?;
    }
    let digest = draft.writer.end(alloc, &mut text)?;
    write_all(output, text.as_slice())?;
    Ok(digest)
}
