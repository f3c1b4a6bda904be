//! The words of a line.

ghost use Rattle.std.specs.Prelude.{◌≡◌, ◌<◌, ◌≤◌, ◌⊎◌, [], ◌∷◌, true, IfOk, MatchOption, length};
ghost use Rattle.std.specs.List.{prefix_len};
ghost use Rattle.lpd_values.specs.Kinds.{is_space};
ghost use Rattle.lpd_values.specs.Pieces.{is_kept};
ghost use Rattle.lpd_commands.specs.Line.{begins_word, is_worded, words_of};

use lpd_values::{Octets, Words, all_text, is_space};
use std::alloc::{AllocError, Global};

fn space_len(text: &[u8]) -> usize
    ensures value { result ≡ prefix_len is_space text.now }
    ensures within { result ≤ length text.now }
{
    text.iter().take_while(|b| is_space(**b)).count()
}

fn word_len(text: &[u8]) -> usize
    ensures value { result ≡ prefix_len (is_kept is_space) text.now }
    ensures within { result ≤ length text.now }
{
    text.iter().take_while(|b| !is_space(**b)).count()
}

/// Whether the text begins with a word and has words and white space alone.
pub(crate) fn is_worded(text: &[u8]) -> bool
    ensures { result ≡ is_worded text.now }
{
    text.first().is_some_and(|first| !is_space(*first)) && all_text(text)
}

/// The first word of a text and what follows it, or none where there is no word.
pub(crate) fn next_word(text: &[u8]) -> Option<(&[u8], &[u8])>
    ensures { MatchOption result (words_of text.now ≡ [])
        (λ p. (words_of text.now ≡ p.0.now ∷ words_of p.1.now)
        × (length p.1.now < length text.now)) }
{
    let text = &text[space_len(text)..];
    if text.is_empty() {
        return None;
    }
    Some(text.split_at(word_len(text)))
}

/// The words of a text, copied.
pub(crate) fn words_in(alloc: Global, text: &[u8]) -> Result<Words, AllocError>
    ensures { IfOk result (λ ws. ws ≡ words_of text.now) }
{
    let mut words = Words::new(alloc);
    let mut rest = text;
    while let Some((word, after)) = next_word(rest) {
        words.push(Octets::copy_of(alloc, word)?)?;
        rest = after;
    }
    Ok(words)
}
