//! Lines of a stream, one after the other, in bounded memory.

ghost use Rattle.std.specs.Prelude.{◌≤◌, ◌<◌, ◌+◌, IfOk, IfSome, length};

use lpd_commands::{OctetFault, OctetRead};
use std::alloc::{AllocError, Global};

/// How many octets a line has at most, its LF too. No line of a segment that a server writes has half of them.
const MOST_LINE: usize = 262_144;

/// Why there is no line more.
#[derive(Clone, Copy, Debug, PartialEq, Eq)]
pub(crate) enum StreamFault {
    /// It is too long.
    TooLong,
    /// The stream ends without an LF.
    CutOff,
    /// The stream can't be read.
    Unread,
}

/// Reads lines, each of which ends in LF.
#[derive(Drop)]
pub(crate) struct LineReader<R: OctetRead + Drop> {
    reader: R,
    /// What was read stands in it from `start` to `end`, and room behind that.
    buffer: Vec<u8>,
    start: usize,
    end: usize,
    ghost within: { (start ≤ end) × (end ≤ length buffer.items) },
}

impl<R: OctetRead + Drop> LineReader<R> {
    /// A reader of the lines of a stream.
    ///
    /// AllocError where memory for one line is refused.
    pub(crate) fn new(alloc: Global, reader: R) -> Result<LineReader<R>, AllocError> {
        Ok(LineReader {
            reader,
            buffer: vec![in alloc; 0; MOST_LINE]?,
            start: 0,
            end: 0,
        })
    }

    /// The stream.
    pub(crate) fn reader(&self) -> &R {
        &self.reader
    }

    /// At which octet behind `start` the first LF stands, of those from the octet `from` behind it on.
    fn feed_from(&self, from: usize) -> Option<usize>
        ensures { IfSome result (λ at. self.now.start + at < self.now.end) }
    {
        let unread = &self.buffer[self.start..self.end];
        let at = unread
            .get(from..)?
            .iter()
            .position(|octet| *octet == b'\n')?;
        Some(from + at)
    }

    /// Reads some octets more. `false` at the end of the stream.
    fn fill(&mut self) -> Result<bool, StreamFault> {
        let (start, end) = (self.start, self.end);
        if start != 0 {
            self.buffer.as_mut_slice().copy_within(start..end, 0);
            self.start = 0;
            self.end = end - start;
        }
        if self.end == self.buffer.len() {
            return Err(StreamFault::TooLong);
        }
        let end = self.end;
        match self.reader.read(&mut self.buffer[end..]) {
            Ok(0) => Ok(false),
            Ok(count) => {
                self.end = end + count;
                Ok(true)
            }
            Err(OctetFault) => Err(StreamFault::Unread),
        }
    }

    /// Goes on to behind the next LF, and tells from where to where the line before it stands. None at the end of the stream.
    fn next_range(&mut self) -> Result<Option<(usize, usize)>, StreamFault>
        ensures { IfOk result (λ r. IfSome r (λ range.
            (range.0 ≤ range.1) × (range.1 < length self.new.buffer.items))) }
    {
        let mut searched = 0;
        for _ in 0..u64::MAX {
            if let Some(at) = self.feed_from(searched) {
                let from = self.start;
                self.start = from + at + 1;
                return Ok(Some((from, from + at)));
            }
            searched = self.end - self.start;
            if !self.fill()? {
                break;
            }
        }
        if self.start == self.end {
            return Ok(None);
        }
        Err(StreamFault::CutOff)
    }

    /// The next line, without its LF. None at the end of the stream.
    ///
    /// `TooLong` where it has `MOST_LINE` octets or more, `CutOff` where the stream ends before its LF, `Unread` where it can't be read.
    pub(crate) fn next_line(&mut self) -> Result<Option<&[u8]>, StreamFault> {
        match self.next_range()? {
            Some((from, to)) => Ok(Some(&self.buffer[from..to])),
            None => Ok(None),
        }
    }
}
