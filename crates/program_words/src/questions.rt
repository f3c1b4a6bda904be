//! The words of `state`, `remove` and `start`, and those that say which server `send` is for: as `clap` is told them, and what they say.

ghost use Rattle.std.specs.Prelude.{IfErr, IfOk};
ghost use Rattle.clap.specs.Words.{found_of, rows_of};
ghost use Rattle.program_words.specs.Questions.{IsList, IsQuery, IsQuestion, IsServer};
ghost use Rattle.program_words.specs.Refused.{LacksQuery, LacksQuestion, LacksServer};

use crate::queue_question::{QueueQuestion, Server};
use crate::values::{address_of, flag_of, number_of, text_of, texts_of};
use crate::word_fault::WordFault;
use clap::ArgMatches;
use command_tables::{CommandTable, Shape, Word};
use lpd_commands::{Command, Octets, Words};
use lpr_client::has_line;
use std::alloc::{AllocError, Global};

/// The word for a queue.
pub(crate) const QUEUE: Word = Word {
    id: "queue",
    shape: Shape::Word("QUEUE"),
    help: "The name of a queue: 1 to 1022 octets, no white space",
};

/// The words for a list of jobs.
const LIST: Word = Word {
    id: "list",
    shape: Shape::OptionalWords("LIST", 510),
    help: "A job's number or a user's name, no white space: 0 to 510, in a line of 1023 octets at most",
};

/// The word that has to be there, the port of a server.
pub(crate) const SERVER_PORT: Word = Word {
    id: "port",
    shape: Shape::Number("PORT", 1, 65_535),
    help: "The port of the server: 1 to 65535",
};

/// The option that says where a server is.
pub(crate) const SERVER: Word = Word {
    id: "server",
    shape: Shape::Option("A.B.C.D"),
    help: "The IPv4 address of the server [default: 127.0.0.1]",
};

const MORE_OF_STATE: &str = "\
Prints what the server answers, as it comes: of all jobs of the queue, or of those only that a LIST names. A word that
begins with - stands behind a word --.

Examples:
  lpd_server state 515 lp
  lpd_server state 515 lp ann 17 --long --server 10.0.0.5";

const MORE_OF_REMOVE: &str = "\
Has the server remove the jobs that a LIST names, and without one the active job, as far as AGENT may; root may remove
all. Prints what the server answers, as it comes. A word that begins with - stands behind a word --.

Examples:
  lpd_server remove 515 lp ann 17
  lpd_server remove 515 lp root bob 3 --server 10.0.0.5";

const MORE_OF_START: &str = "\
Starts the printers of the queue that stand still, and prints `started` once the server has ended the connection.

Example:
  lpd_server start 515 lp";

/// The command that asks for a queue's state.
pub(crate) const STATE: CommandTable = CommandTable {
    name: "state",
    about: "Prints the state of a queue and its jobs",
    more: MORE_OF_STATE,
    words: &[
        SERVER_PORT,
        QUEUE,
        LIST,
        Word {
            id: "long",
            shape: Shape::Flag,
            help: "Asks for the long form, with a line for each file",
        },
        SERVER,
    ],
};

/// The command that asks for a removal.
pub(crate) const REMOVE: CommandTable = CommandTable {
    name: "remove",
    about: "Removes jobs from a queue",
    more: MORE_OF_REMOVE,
    words: &[
        SERVER_PORT,
        QUEUE,
        Word {
            id: "agent",
            shape: Shape::Word("AGENT"),
            help: "The user who removes them, no white space",
        },
        LIST,
        SERVER,
    ],
};

/// The command that asks to start printers.
pub(crate) const START: CommandTable = CommandTable {
    name: "start",
    about: "Starts the printers of a queue that stand still",
    more: MORE_OF_START,
    words: &[SERVER_PORT, QUEUE, SERVER],
};

/// The server that words name. `Missing` where its port isn't there, `Server` where its address is none.
pub(crate) fn server_of(matches: &ArgMatches) -> Result<Server, WordFault>
    ensures server { IfOk result (IsServer (rows_of (found_of matches.now))) }
    ensures fault { IfErr result (LacksServer (rows_of (found_of matches.now))) }
{
    let port = number_of(matches, "port")?;
    match address_of(matches, "server") {
        Some(address) => Ok(Server { address, port }),
        None => Err(WordFault::Server),
    }
}

/// The words of a list, none where it isn't there.
fn list_of(alloc: Global, matches: &ArgMatches) -> Result<Words, AllocError>
    ensures { IfOk result (IsList (rows_of (found_of matches.now))) }
{
    let mut list = Words::new(alloc);
    let Ok(texts) = texts_of(matches, "list") else {
        return Ok(list);
    };
    for text in texts {
        list.push(Octets::copy_of(alloc, text.as_bytes())?)?;
    }
    Ok(list)
}

/// What the command of this name asks a server for. `Missing` where a word isn't there or this is no such command, and
/// `Memory`.
fn query_of(alloc: Global, name: &str, matches: &ArgMatches) -> Result<Command, WordFault>
    ensures query { IfOk result (IsQuery name.now (rows_of (found_of matches.now))) }
    ensures fault { IfErr result (LacksQuery name.now (rows_of (found_of matches.now))) }
{
    let text = text_of(matches, "queue")?;
    let queue = Octets::copy_of(alloc, text.as_bytes())?;
    match name {
        "start" => Ok(Command::PrintWaiting { queue }),
        "state" => {
            let list = list_of(alloc, matches)?;
            let long = flag_of(matches, "long");
            Ok(Command::State { queue, list, long })
        }
        "remove" => {
            let agent = text_of(matches, "agent")?;
            let agent = Octets::copy_of(alloc, agent.as_bytes())?;
            let list = list_of(alloc, matches)?;
            Ok(Command::Remove { queue, agent, list })
        }
        _ => Err(WordFault::Missing),
    }
}

/// What the words of the command of this name ask a server for. `Line` where that has no line.
pub(crate) fn question_of(
    alloc: Global,
    name: &str,
    matches: &ArgMatches,
) -> Result<QueueQuestion, WordFault>
    ensures question { IfOk result (IsQuestion name.now (rows_of (found_of matches.now))) }
    ensures fault { IfErr result (LacksQuestion name.now (rows_of (found_of matches.now))) }
{
    let command = query_of(alloc, name, matches)?;
    if !has_line(alloc, &command)? {
        return Err(WordFault::Line);
    }
    let server = server_of(matches)?;
    Ok(QueueQuestion { server, command })
}
