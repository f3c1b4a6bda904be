//! A writer of a segment, line by line.

ghost use Rattle.std.specs.Prelude.{◌≡◌, ◌+◌, ◌∷◌, ◌++◌, ℕ, IfOk, List, OnErr, OnOk, map};
ghost use Rattle.sha2.specs.Sha256.{sha256};
ghost use Rattle.account.specs.Seen.{event_seen};
ghost use Rattle.account_text.specs.Lines.{event_line};
ghost use Rattle.segment_text.specs.Heads as H;
ghost use Rattle.segment_text.specs.Items as I;
ghost use Rattle.segment_text.specs.Items.{Item, with_feed};
ghost use Rattle.segment_text.specs.Seen.{head_seen, printer_seen};
ghost use Rattle.segment_text.specs.Streams.{CanWrite, HasWritten, HasWrittenAtMost};

use crate::head::{Head, HeadPrinter, Last};
use crate::write::{write_config, write_last, write_origin, write_printer, write_start};
use account::Entry;
use account_text::write_entry;
use sha2::{Digest, Sha256};
use std::alloc::{AllocError, Global};

/// Writes a segment line by line, in memory that doesn't grow with it: each call puts its lines at the end of a text of the
/// caller's, who passes them on. It keeps how many entries there were, and the SHA-256 of all lines so far.
#[derive(Drop)]
pub struct SegmentWriter {
    hash: Sha256,
    entries: u64,
}

/// Puts a line with its LF at the end of a text. Where memory is refused the text stays as it was.
fn put_line(text: &mut Vec<u8>, mut line: Vec<u8>) -> Result<(), AllocError>
    ensures ok { OnOk result (text.new.items ≡ text.old.items ++ with_feed line.items) }
    ensures err { OnErr result (text.new.items ≡ text.old.items) }
{
    line.push(b'\n')?;
    text.extend_from_slice(line.as_slice())
}

/// Puts the lines of printers.
fn put_printers(
    text: &mut Vec<u8>,
    alloc: Global,
    printers: &[HeadPrinter],
) -> Result<(), AllocError>
    ensures { OnOk result ((is : List Item) → text.old.items ≡ I.text_of is
        → text.new.items ≡ I.text_of (I.with_printers is (map printer_seen printers.now))) }
{
    let Some((first, rest)) = printers.split_first() else {
        return Ok(());
    };
    put_line(text, write_printer(alloc, first)?)?;
    put_printers(text, alloc, rest)
}

/// The lines of a head.
fn write_head(alloc: Global, head: &Head) -> Result<Vec<u8>, AllocError>
    ensures { IfOk result (λ text. text.items ≡ I.text_of (I.head_items (head_seen head.now))) }
{
    let mut text = Vec::new(alloc);
    put_line(&mut text, write_origin(alloc, &head.origin)?)?;
    put_line(&mut text, write_config(alloc, &head.config)?)?;
    put_printers(&mut text, alloc, head.printers.as_slice())?;
    put_line(&mut text, write_start(alloc, &head.start)?)?;
    Ok(text)
}

impl SegmentWriter {
    /// One that has written the lines of a head, at the end of the text.
    ///
    /// AllocError where memory is refused.
    pub fn begin(
        alloc: Global,
        head: &Head,
        text: &mut Vec<u8>,
    ) -> Result<SegmentWriter, AllocError>
        ensures written { IfOk result (λ w. HasWritten w (I.head_items (head_seen head.now))) }
        ensures few { IfOk result (λ w. HasWrittenAtMost w 0) }
        ensures text { OnOk result (text.new.items
            ≡ text.old.items ++ I.text_of (I.head_items (head_seen head.now))) }
    {
        let lines = write_head(alloc, head)?;
        text.extend_from_slice(lines.as_slice())?;
        let mut hash = Sha256::new();
        hash.update(lines.as_slice());
        Ok(SegmentWriter { hash, entries: 0 })
    }

    /// Writes an entry.
    ///
    /// AllocError where memory is refused; then nothing was written.
    pub fn add(
        &mut self,
        alloc: Global,
        entry: &Entry,
        text: &mut Vec<u8>,
    ) -> Result<(), AllocError>
        requires { CanWrite self.old }
        ensures written { OnOk result ((is : List Item) → HasWritten self.old is
            → HasWritten self.new (I.Item.OfEvent (event_seen entry.now) ∷ is)) }
        ensures few { OnOk result ((n : ℕ) → HasWrittenAtMost self.old n
            → HasWrittenAtMost self.new (n + 1)) }
        ensures text { OnOk result (text.new.items
            ≡ text.old.items ++ with_feed (event_line (event_seen entry.now))) }
        ensures err { OnErr result ((self.new ≡ self.old) × (text.new.items ≡ text.old.items)) }
    {
        let mut line = write_entry(alloc, entry)?;
        line.push(b'\n')?;
        text.extend_from_slice(line.as_slice())?;
        self.hash.update(line.as_slice());
        self.entries += 1;
        Ok(())
    }

    /// Writes the last line, and answers the digest that the segment ends in: the SHA-256 of all lines before that one.
    ///
    /// AllocError where memory is refused.
    pub fn end(self, alloc: Global, text: &mut Vec<u8>) -> Result<[u8; 32], AllocError>
        ensures digest { IfOk result (λ digest. (is : List Item) → HasWritten self is
            → digest ≡ sha256 (I.text_of is)) }
        ensures text { OnOk result ((is : List Item) → HasWritten self is
            → text.new.items ≡ text.old.items ++ with_feed (H.last_line (record {
              entries = I.entries_of is;
              digest = sha256 (I.text_of is);
            }))) }
    {
        let SegmentWriter { hash, entries } = self;
        let digest = hash.finalize();
        put_line(text, write_last(alloc, &Last { entries, digest })?)?;
        Ok(digest)
    }
}
