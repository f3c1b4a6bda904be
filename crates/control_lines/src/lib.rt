//! What is said over a control socket of a server: a command, which is one line, and the answer, whose last line says how it ended.
#![tactic(auto)]

mod answer;
mod command;
mod escaped;
mod laws;
mod operands;
mod verb;

pub use answer::{AnswerEnd, read_answer};
pub use command::{CommandFault, ControlCommand};
pub use escaped::{Escaped, HIDDEN};
pub use laws::{
    cut_answer_has_no_end, escaped_is_one_word, escaped_is_read_back, line_has_one_meaning,
    line_is_short, most_is_reached, others_are_hidden,
};
pub use lpd_values::Octets;
pub use operands::{MAX_QUEUE_NAME, MOST_LINE};
