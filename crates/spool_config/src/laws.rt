//! What holds of all texts of configurations. The function's contract is a law, and its body is empty.
//!
//! What a document tells and which faults it has are defined apart, and the law joins them: a definition of the one by the other would let a
//! mistake stand in both.

ghost use Rattle.spool_config.specs.Laws.{IsDecided};

/// A text without a fault gives one configuration, and one with a fault gives none.
pub fn each_text_is_decided(_text: &[u8])
    ensures { IsDecided _text.now }
{}
