//! The lines of a script: what each asks for, and the lines that it prints.
#![tactic(auto)]

mod script;
mod texts;

pub use script::{LineFault, ScriptLine, line_has_one_meaning, parse_line};
pub use spool_trace::{Given, Progress, ShownPage};
pub use texts::{
    Stop, free_line, given_line, printer_line, progress_line, session_line, session_told,
    turns_line,
};
