//! Calls of a spool, one in a line, and what they answer.
//!
//! Behind a first line `# ..` a block may have a line `spool pages 4 size 8 jobs 8 account 100000 queue lp 3 1` of its
//! configuration, with `queue NAME LIMIT PRINTERS` once for each queue; that line's is the one of a block without. Then each
//! line is `CALL => ANSWER`. Jobs and printers are named by their numbers; a page that was lent to a job is kept for it until
//! it is put or given back by an abort, and a page that was handed to a printer until it is printed or failed.
//!
//! | Call | Answers |
//! |---|---|
//! | `open SENDER QUEUE` | `job J` |
//! | `begin J NAME COUNT`, `ask J`, `put J TEXT`, `end J` | `yes`; `page`, `later`; `yes`, `no ticket`; `stored`, `received` |
//! | `send J NAME TEXT`: a whole file, by these four | `stored`, `received`, `later` |
//! | `control J NNN TEXT`, under the name `cfANNNh1` | `stored`, `received` |
//! | `abort J`, `admits QUEUE`, `start QUEUE`, `close` | `yes` |
//! | `next P` | `job J place K file F page N TEXT`, `nothing`, `stopped`, `busy`, `closed` |
//! | `printed P`, `failed P` | `going`, `done`, `ended`; `foreign`; `no page` |
//! | `print P`: the next page, printed at once | both answers, with a comma |
//! | `swap P Q`, `switch J K`: the kept pages of two printers or jobs | `yes` |
//! | `cancel QUEUE J..`: a removal of jobs by their numbers | `queue Q`, `stays J` |
//! | `free`, `held`, `pages`, `vacancy` | the numbers |
//! | `state QUEUE WORD..`, `long QUEUE WORD..`, `remove QUEUE AGENT WORD..` | the text, with escapes |
//!
//! Each may be `refused N`. A call that a spool may not be asked is a `bad row`.

ghost use Rattle.std.specs.Prelude.{IfOk, IfSome, IsSome};
ghost use Rattle.receiver.specs.View.{BeginsSome, asked};

use config_values::Config;
use control_file::Control;
use lpd_commands::{FileName, Refusal};
use lpd_values::Octets;
use receiver::Need;
use request_calls::Answer;
use std::alloc::{AllocError, Global};
use test_kit::rows::{number, octets, value, word, words};

/// The configuration of a block that has none of its own.
pub const SPOOL: &str = "pages 4 size 8 jobs 8 account 100000 queue lp 3 1";

/// What is answered to a call that a spool may not be asked.
pub const BAD_ROW: &str = "bad row";

/// Appends the configuration that these words tell.
fn push_config(text: &mut String, told: &str) -> Result<(), AllocError> {
    let (sizes, queues) = told.split_once(" queue ").unwrap_or((told, ""));
    let mut rest = sizes;
    for key in ["pages", "page_size", "max_jobs", "account"] {
        let (size, others) = value(rest);
        writeln!(text, "{key} = {size}")?;
        rest = others;
    }
    for queue in queues.split(" queue ") {
        let (name, rest) = word(queue);
        let (limit, printers) = word(rest);
        writeln!(text, "[[queue]]\nname = \"{name}\"\nlimit = {limit}")?;
        writeln!(text, "printers = {printers}")?;
    }
    Ok(())
}

/// The configuration that these words tell, or None where they tell none.
pub fn config_of(alloc: Global, told: &str) -> Result<Option<Config>, AllocError> {
    let mut text = String::new(alloc);
    push_config(&mut text, told)?;
    Ok(spool_config::read(alloc, text.as_bytes()).ok())
}

/// The octets of a word.
fn name(alloc: Global, word: &str) -> Result<Octets, AllocError> {
    Octets::copy_of(alloc, word.as_bytes())
}

/// The control file of a number and a text.
fn control(alloc: Global, number: &str, text: &str) -> Result<Control, Refusal> {
    let name = format!(in alloc; "cfA{number}h1")?;
    let name = FileName::read(name.as_bytes())?;
    Control::parse(alloc, &name, octets(alloc, text)?.as_slice())
}

/// The request that a call makes of a session, or None where it makes none.
pub fn request(alloc: Global, call: &str, rest: &str) -> Result<Option<Need>, Refusal>
    ensures asks { IfOk result (λ need. IfSome need (λ need. IsSome (asked need))) }
    ensures begins { IfOk result (λ need. IfSome need BeginsSome) }
{
    let (first, others) = word(rest);
    let (second, third) = word(others);
    let count = number(third);
    Ok(Some(match call {
        "admits" => Need::Queue(name(alloc, first)?),
        "open" => Need::Open(name(alloc, second)?),
        "begin" if count > 0 => Need::BeginFile {
            name: FileName::read(second.as_bytes())?,
            count,
        },
        "end" => Need::EndFile,
        "control" => Need::Control(control(alloc, second, third)?),
        "start" => Need::Start(name(alloc, first)?),
        "state" | "long" => Need::State {
            queue: name(alloc, first)?,
            list: words(alloc, others)?,
            long: call == "long",
        },
        "remove" => Need::Remove {
            queue: name(alloc, first)?,
            agent: name(alloc, second)?,
            list: words(alloc, third)?,
        },
        _ => return Ok(None),
    }))
}

/// Appends what is answered to a request.
pub fn push_answer(told: &mut String, answer: &Answer) -> Result<(), AllocError> {
    told.push_str(match answer {
        Answer::Yes => "yes",
        Answer::Accepted(job) => return write!(told, "job {job}"),
        Answer::Lent(_) => "page",
        Answer::Later => "later",
        Answer::Stored => "stored",
        Answer::Received => "received",
        Answer::Told(text) => return write!(told, "{}", text.as_slice().escape_ascii()),
        Answer::Refused(refusal) => return write!(told, "refused {}", refusal.number()),
    })
}
