//! What holds of all texts. Each function's contract is a law, and its body is empty.

ghost use Rattle.std.specs.Prelude.{ℕ, List};
ghost use Rattle.html_text.specs.Laws.{BringsNoMarkup, LabelIsReadBack};

/// A text that is written in HTML is characters and entities alone, none of them markup.
pub fn html_brings_no_markup()
    ensures { (cs : List ℕ) → BringsNoMarkup cs }
{}

/// What is written as the value of a label is read back as it went in.
pub fn label_is_read_back()
    ensures { (cs : List ℕ) → LabelIsReadBack cs }
{}
