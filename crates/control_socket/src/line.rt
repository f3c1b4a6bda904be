//! A line whose octets come in pieces.

ghost use Rattle.std.specs.Prelude.{◌≡◌, ◌≢◌, ◌++◌, ◌≤◌, ◌<◌, [], false, IfOk, IfSome, OnErr, length, vec_len};
ghost use Rattle.std.specs.List.{list_any, position};
ghost use Rattle.control_socket.specs.Line.{is_line_feed, progress_of, octets_before_line_feed};
ghost use Rattle.control_socket.specs.declared.line.LineProgress.TheVariants.{TooLong};

use std::alloc::{AllocError, Global};

/// How far a line has come.
#[derive(Clone, Copy, PartialEq, Eq)]
pub(crate) enum LineProgress {
    /// It has no line feed yet.
    More,
    /// It has its line feed.
    Whole,
    /// It is longer than a line may be.
    TooLong,
}

/// Where the first line feed stands; None where there is none.
fn line_feed_in(octets: &[u8]) -> Option<usize>
    ensures first { result ≡ position is_line_feed octets.now }
    ensures within { IfSome result (λ end. end < length octets.now) }
{
    octets.iter().position(|octet| *octet == b'\n')
}

/// What came of a line, without its line feed.
#[derive(Drop)]
pub(crate) struct PartialLine {
    octets: Vec<u8>,
    most: usize,
    ghost fits: { vec_len octets ≤ most },
    ghost unended: { list_any is_line_feed octets.items ≡ false },
}

impl PartialLine {
    /// Nothing, of a line of this many octets at most.
    pub(crate) fn new(alloc: Global, most: usize) -> PartialLine
        ensures octets { result.octets.items ≡ [] }
        ensures most { result.most ≡ most }
    {
        PartialLine {
            octets: Vec::new(alloc),
            most,
        }
    }

    /// Adds the next octets that came. What stands behind a line feed is passed over. An error where memory is refused; nothing is
    /// added then.
    pub(crate) fn add(&mut self, piece: &[u8]) -> Result<LineProgress, AllocError>
        ensures progress { IfOk result (λ progress. progress
            ≡ progress_of self.old.most (self.old.octets.items ++ piece.now)) }
        ensures octets { IfOk result (λ progress. progress ≢ TooLong → self.new.octets.items
            ≡ octets_before_line_feed (self.old.octets.items ++ piece.now)) }
        ensures most { self.new.most ≡ self.old.most }
        ensures err { OnErr result (self.new.octets.items ≡ self.old.octets.items) }
    {
        let end = line_feed_in(piece);
        let part = &piece[..end.unwrap_or(piece.len())];
        if part.len() > self.most - self.octets.len() {
            return Ok(LineProgress::TooLong);
        }
        self.octets.extend_from_slice(part)?;
        Ok(match end {
            Some(_) => LineProgress::Whole,
            None => LineProgress::More,
        })
    }

    /// The octets that came, without the line feed.
    pub(crate) fn into_octets(self) -> Vec<u8>
        ensures { result ≡ self.octets }
    {
        self.octets
    }
}
