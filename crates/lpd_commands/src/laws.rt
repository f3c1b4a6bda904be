//! What holds of all lines. Each function's contract is a law, and its body is empty.

ghost use Rattle.lpd_commands.specs.Laws.{CommandIsExact, CommandIsDecided, CommandIsReadBack, SubIsExact, SubIsDecided, SubIsReadBack};

use crate::command::Command;
use crate::sub::Sub;

/// The meaning and the refusals of a command line are exactly those of its layout.
pub fn command_is_exact(_line: &[u8])
    ensures { CommandIsExact _line.now }
{}

/// A command line has one meaning or one refusal, and not both.
pub fn command_is_decided(_line: &[u8])
    ensures { CommandIsDecided _line.now }
{}

/// A command that has a line is read back from it.
pub fn command_is_read_back(_command: &Command)
    ensures { CommandIsReadBack _command.now }
{}

/// The meaning and the refusals of a subcommand line are exactly those of its layout.
pub fn sub_is_exact(_line: &[u8])
    ensures { SubIsExact _line.now }
{}

/// A subcommand line has one meaning or one refusal, and not both.
pub fn sub_is_decided(_line: &[u8])
    ensures { SubIsDecided _line.now }
{}

/// A subcommand that has a line is read back from it.
pub fn sub_is_read_back(_sub: &Sub)
    ensures { SubIsReadBack _sub.now }
{}
