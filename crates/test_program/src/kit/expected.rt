//! What a test expects.

use std::process::Abort;

/// The answer has to be the one that is wanted.
pub fn expect(rt: &impl Abort, asked: &[u8], answer: &[u8], wanted: &[u8]) {
    assert!(rt;
        answer == wanted,
        "{} gives {} and not {}",
        asked.escape_ascii(),
        answer.escape_ascii(),
        wanted.escape_ascii()
    );
}
