//! What holds of all lines, answers and shown octets. Each function's contract is a law, and its body is empty.

ghost use Rattle.control_lines.specs.Laws.{HasNoEndYet, HasOneMeaning, HidesOthers, MostIsReached, IsOneWord, IsReadBack, IsShort};
ghost use Rattle.control_lines.specs.Escapes.{escaped};

use crate::command::ControlCommand;

/// A line has one meaning at most. So what is written of a command that can be said is read back as that command.
pub fn line_has_one_meaning(_line: &[u8])
    ensures { HasOneMeaning _line.now }
{}

/// The line of a command that can be said has at most `MOST_LINE` octets without its LF.
pub fn line_is_short(_command: &ControlCommand)
    ensures { IsShort _command.now }
{}

/// Some command that can be said has a line of `MOST_LINE` octets.
pub fn most_is_reached()
    ensures { MostIsReached }
{}

/// An answer that was cut off has no end: where none of its other lines ends an answer, no part from its head but the whole does.
pub fn cut_answer_has_no_end(_front: &[u8], _rest: &[u8])
    ensures { HasNoEndYet _front.now _rest.now }
{}

/// Shown octets are read back as they were. So no two texts are shown alike.
pub fn escaped_is_read_back(_octets: &[u8])
    ensures { IsReadBack _octets.now }
{}

/// What is shown of octets is one word of octets 21 to 7E (hexadecimal): it has no space, no line feed and no control octet.
pub fn escaped_is_one_word(_octets: &[u8])
    ensures { IsOneWord (escaped _octets.now) }
{}

/// Each octet that isn't plain is shown by its digits, and each plain one as it is.
pub fn others_are_hidden(_octet: u8)
    ensures { HidesOthers _octet }
{}
