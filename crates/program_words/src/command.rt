//! The command line, as `clap` reads it.
//!
//! `help` is no word, only `--help` and `-h` are. Both print the same text but for `clap`'s own lines.

ghost use Rattle.std.specs.Prelude.{◌≡◌, IfOk, map};
ghost use Rattle.clap.specs.Words.{app_of};
ghost use Rattle.program_words.specs.CommandLine.{command_line, program_app};
ghost use Rattle.command_tables.specs.Rules.{table_app, with_commands};

use crate::auditing::{AUDIT, USAGE};
use crate::checking::CHECK;
use crate::questions::{QUEUE, REMOVE, SERVER, SERVER_PORT, START, STATE};
use crate::serving::SERVE;
use clap::Command;
use command_tables::{CommandTable, Shape, Word, command_of, plain};
use std::alloc::{AllocError, Global};

/// The word for a configuration's file.
pub(crate) const CONFIG: Word = Word {
    id: "config",
    shape: Shape::Word("CONFIG"),
    help: "The file of the configuration, in TOML",
};

/// What `--help` says at its end.
const MORE: &str = "\
Without a command the standard input is read to its end: a configuration, a line %%, and a script.

Examples:
  lpd_server check spool.toml
  lpd_server replay spool.toml day.script
  lpd_server send 515 lp 1 myhost ann letter.txt
  lpd_server state 515 lp
  lpd_server remove 515 lp ann 1
  lpd_server serve spool.toml --port 515
  lpd_server control spool.control status
  lpd_server audit account/segment-*
  lpd_server usage account/segment-*
  lpd_server < both

Exit status:
  0  done
  1  the words can't be read, or name a printer that isn't there
  2  the configuration can't be used (faults 50 to 55)
  3  the script can't be run (fault 70)
  4  memory, a file or the network failed (faults 12, 71, 72 and 73)
  5  a job or a question wasn't taken (faults 60 to 63), or a command for a server was refused (fault 60)
  6  an account isn't as it has to be (faults 80 to 83)

A fault is one line on standard error: `fault`, its number, its name and what it is about.
The keys of a configuration and all faults: docs/OPERATING.md; a configuration with remarks: docs/example.toml.";

const MORE_OF_REPLAY: &str = "\
Both files are read before anything is done. The lines of a script: docs/OPERATING.md.

Example:
  lpd_server replay spool.toml day.script";

const MORE_OF_SEND: &str = "\
Files are sent in the order given, each as it is. When the server has taken them all, prints `sent` and the
number in three digits. A word that begins with - stands behind a word --.
With --progress a line on standard error after each tenth of the job, but after no fewer than 65536 octets, as:
[INFO  lpd_words::progress] sent 104867 of 1048664 octets
Where standard error is a terminal the same lines stand there without it.

Examples:
  lpd_server send 515 lp 1 myhost ann letter.txt
  lpd_server send 515 lp 2 myhost ann letter.txt --server 10.0.0.5";

const MORE_OF_CONTROL: &str = "\
The socket is the one that the server has made: `serve --control PATH`. Prints what the server answers. The words
behind PATH are one command:

  status                how the spool, its sessions, printers and jobs stand
  start QUEUE           starts the queue's printers that stand still
  hold QUEUE            has no job of the queue begin from now on
  release QUEUE         ends that
  remove QUEUE NUMBER   removes the job of this number, which its client gave it
  remove QUEUE USER     removes the user's jobs
  cancel job NUMBER     removes one received job, by the number that `status` tells, and says whose it was
  cancel file NUMBER    removes one kept job, by the number of its file, where jobs are kept
  resend NUMBER         prints the job of the file NUMBER.failed, where jobs are kept, and says whose it is
  resend all [QUEUE]    the same for each job that failed, or each of the queue
  rotate                rotates the account
  stop                  stops the server once its jobs are printed, and waits for that
  stop SECONDS          the same, at the latest after so many seconds
  stop now              stops the server at once

A server that takes no connection or says nothing for 10 seconds doesn't answer, but a stop is waited for. A word that begins with - stands
behind a word --.

Examples:
  lpd_server control spool.control status
  lpd_server control spool.control remove lp ann
  lpd_server control spool.control cancel job 5
  lpd_server control spool.control stop 60";

/// The command that runs a script.
const REPLAY: CommandTable = CommandTable {
    name: "replay",
    about: "Runs the script of a file on the spool of a configuration",
    more: MORE_OF_REPLAY,
    words: &[
        CONFIG,
        Word {
            id: "script",
            shape: Shape::Word("SCRIPT"),
            help: "The file of the script",
        },
    ],
};

/// The command that sends a job.
const SEND: CommandTable = CommandTable {
    name: "send",
    about: "Sends a job to a server",
    more: MORE_OF_SEND,
    words: &[
        SERVER_PORT,
        QUEUE,
        Word {
            id: "number",
            shape: Shape::Number("NUMBER", 0, 999),
            help: "The number of the job: 0 to 999",
        },
        Word {
            id: "host",
            shape: Shape::Word("HOST"),
            help: "The host that sends the job: 1 to 120 octets, no white space",
        },
        Word {
            id: "user",
            shape: Shape::Word("USER"),
            help: "The user that sends the job: 1 to 255 octets in one line",
        },
        Word {
            id: "file",
            shape: Shape::Words("FILE", 52),
            help: "The files to print: 1 to 52, none of them empty",
        },
        SERVER,
        Word {
            id: "progress",
            shape: Shape::Flag,
            help: "Tells on standard error how far the job is, where that is no terminal too",
        },
    ],
};

/// The command that sends a command to a server.
const CONTROL: CommandTable = CommandTable {
    name: "control",
    about: "Looks after a server, by a command to its control socket",
    more: MORE_OF_CONTROL,
    words: &[
        Word {
            id: "path",
            shape: Shape::Word("PATH"),
            help: "The path of the server's control socket: 1 to 107 octets",
        },
        Word {
            id: "word",
            shape: Shape::Words("WORD", 52),
            help: "The command, as status or remove lp ann: 1 to 52 words",
        },
    ],
};

/// The commands, in the order in which `--help` names them.
const COMMANDS: [CommandTable; 10] = [
    CHECK, REPLAY, SEND, STATE, REMOVE, START, SERVE, CONTROL, AUDIT, USAGE,
];

/// The program without its commands.
fn program<'a>(alloc: Global) -> Command<'a>
    ensures { app_of result ≡ program_app }
{
    let about = "A print spooler for the Line Printer Daemon Protocol (RFC 1179)";
    plain(alloc, "lpd_server", about, MORE)
        .version("0.1.0")
        .disable_help_subcommand(true)
}

/// A program with the commands of these tables more, in order.
fn with_commands<'a>(
    alloc: Global,
    program: Command<'a>,
    tables: &[CommandTable],
) -> Result<Command<'a>, AllocError>
    ensures { IfOk result (λ r.
        app_of r ≡ with_commands (app_of program.entry) (map table_app tables.now)) }
{
    let mut program = program;
    for table in tables {
        program = program.subcommand(command_of(alloc, table)?)?;
    }
    Ok(program)
}

/// The command line.
pub(crate) fn command<'a>(alloc: Global) -> Result<Command<'a>, AllocError>
    ensures { IfOk result (λ command. app_of command ≡ command_line) }
{
    with_commands(alloc, program(alloc), &COMMANDS)
}
