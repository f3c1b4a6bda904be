//! What holds of all control texts. Each function's contract is a law, and its body is empty.

ghost use Rattle.control_file.specs.Laws.{ControlIsExact, ControlIsDecided, ControlIsReadBack};

use crate::control::Control;
use lpd_values::FileName;

/// The meaning and the refusals of a text are exactly those of its layout.
pub fn control_is_exact(_name: &FileName, _text: &[u8])
    ensures { ControlIsExact _name.now _text.now }
{}

/// A text has one meaning or one refusal, and not both.
pub fn control_is_decided(_name: &FileName, _text: &[u8])
    ensures { ControlIsDecided _name.now _text.now }
{}

/// A control file is read back from its text, under a name with its number, where the text has at most 8,192 octets.
pub fn control_is_read_back(_control: &Control, _name: &FileName)
    ensures { ControlIsReadBack _control.now _name.now }
{}
