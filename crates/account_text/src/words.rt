//! The words of a line.

ghost use Rattle.std.specs.Prelude.{◌≡◌, ◌<◌, ◌≤◌, [], ◌∷◌, MatchOption, length};
ghost use Rattle.std.specs.List.{prefix_len};
ghost use Rattle.lpd_values.specs.Pieces.{is_kept};
ghost use Rattle.account_text.specs.Reading.{is_gap, words_of};

fn gap_len(text: &[u8]) -> usize
    ensures value { result ≡ prefix_len is_gap text.now }
    ensures within { result ≤ length text.now }
{
    text.iter().take_while(|octet| **octet == b' ').count()
}

fn word_len(text: &[u8]) -> usize
    ensures value { result ≡ prefix_len (is_kept is_gap) text.now }
    ensures within { result ≤ length text.now }
{
    text.iter().take_while(|octet| **octet != b' ').count()
}

/// The first word of a text and what follows it, or none where there is no word.
pub fn next_word(text: &[u8]) -> Option<(&[u8], &[u8])>
    ensures { MatchOption result (words_of text.now ≡ [])
        (λ p. (words_of text.now ≡ p.0.now ∷ words_of p.1.now)
        × (length p.1.now < length text.now)) }
{
    let text = &text[gap_len(text)..];
    if text.is_empty() {
        return None;
    }
    Some(text.split_at(word_len(text)))
}
