//! What is left of an answer.

ghost use Rattle.std.specs.Prelude.{◌≡◌, ◌≤◌, ◌+◌, drop, vec_len};

/// What is left of an answer: its octets from `written` on.
#[derive(Drop)]
pub(crate) struct AnswerRest {
    octets: Vec<u8>,
    written: usize,
    ghost within: { written ≤ vec_len octets },
}

impl AnswerRest {
    /// An answer of which nothing is written.
    pub(crate) fn new(octets: Vec<u8>) -> AnswerRest
        ensures octets { result.octets ≡ octets }
        ensures written { result.written ≡ 0 }
    {
        AnswerRest { octets, written: 0 }
    }

    /// The octets that are to be written yet.
    pub(crate) fn rest(&self) -> &[u8]
        ensures { result.now ≡ drop self.now.written self.now.octets.items }
    {
        &self.octets.as_slice()[self.written..]
    }

    /// So many octets more were written.
    pub(crate) fn advance(&mut self, count: usize)
        requires { count + self.old.written ≤ vec_len self.old.octets }
        ensures octets { self.new.octets ≡ self.old.octets }
        ensures written { self.new.written ≡ self.old.written + count }
    {
        self.written += count;
    }
}
