//! What holds of all texts. The function's contract is a law, and its body is empty.

ghost use Rattle.control_lines.specs.Answers.{IsOneLine};
ghost use Rattle.status_lines.specs.Pieces.{one_line};

/// What `one_line` makes of a text has no line feed.
pub fn one_line_has_no_line_feed(_text: &str)
    ensures { IsOneLine (one_line _text.now) }
{}
