//! What a client asks about the jobs of a queue.
//!
//! Its lines have no condition: they are written as they are given, and a server reads back those whose words are words and which aren't too long.

ghost use Rattle.std.specs.Prelude.{◌≡◌, ◌++◌, ◌∷◌, [], IfOk};
ghost use Rattle.lpd_commands.specs.declared.command.Command.TheVariants.{Remove, State};
ghost use Rattle.lpd_commands.specs.Written.{command_has_line, command_line, has_words, is_word};
ghost use Rattle.std.specs.List.{list_all};

use crate::sendable::all_word_octets;
use lpd_commands::{Command, Octets, Words, write_command};
use lpd_values::MAX_LINE;
use std::alloc::{AllocError, Global};

/// The same words.
fn copied(alloc: Global, list: &Words) -> Result<Words, AllocError>
    ensures { IfOk result (λ words. words ≡ list.now) }
{
    let mut words = Words::new(alloc);
    for word in list.as_slice() {
        words.push(Octets::copy_of(alloc, word.as_slice())?)?;
    }
    Ok(words)
}

/// The line that asks for the state of a queue, short or long, with its LF: of all jobs, or of those that a word of the
/// list names (RFC 1179, sections 5.3 and 5.4). A server reads it back where its words are words and it has at most
/// 1,023 octets without its LF. AllocError where memory for it is refused.
pub fn state_bytes(
    alloc: Global,
    queue: &Octets,
    list: &Words,
    long: bool,
) -> Result<Octets, AllocError>
    ensures { IfOk result
        (λ octets. octets ≡ command_line (State queue.now list.now long) ++ 10 ∷ []) }
{
    let queue = Octets::copy_of(alloc, queue.as_slice())?;
    let list = copied(alloc, list)?;
    write_command(alloc, &Command::State { queue, list, long })
}

/// The line that asks to remove jobs of a queue for an agent, with its LF: the active job, or those that a word of the
/// list names (RFC 1179, section 5.5). A server reads it back where its words are words and it has at most 1,023 octets
/// without its LF. AllocError where memory for it is refused.
pub fn remove_bytes(
    alloc: Global,
    queue: &Octets,
    agent: &Octets,
    list: &Words,
) -> Result<Octets, AllocError>
    ensures { IfOk result
        (λ octets. octets ≡ command_line (Remove queue.now agent.now list.now) ++ 10 ∷ []) }
{
    let queue = Octets::copy_of(alloc, queue.as_slice())?;
    let agent = Octets::copy_of(alloc, agent.as_slice())?;
    let list = copied(alloc, list)?;
    write_command(alloc, &Command::Remove { queue, agent, list })
}

/// Whether octets are a word: one or more, none of them white space or a control octet.
fn is_word(octets: &Octets) -> bool
    ensures { result ≡ is_word octets.now }
{
    !octets.as_slice().is_empty() && all_word_octets(octets.as_slice())
}

fn are_words(list: &Words) -> bool
    ensures { result ≡ list_all is_word list.now }
{
    list.as_slice().iter().all(|word| is_word(word))
}

/// Whether all that stands in the line of a command is a word.
fn has_words(command: &Command) -> bool
    ensures { result ≡ has_words command.now }
{
    match command {
        Command::PrintWaiting { queue } | Command::Receive { queue } => is_word(queue),
        Command::State { queue, list, .. } => is_word(queue) && are_words(list),
        Command::Remove { queue, agent, list } => {
            is_word(queue) && (is_word(agent) && are_words(list))
        }
    }
}

/// Whether a command has a line that a server reads back (RFC 1179, section 5): its queue, its agent and all of its list
/// are words, and the line has at most 1,023 octets without its LF. AllocError where memory for the line is refused.
pub fn has_line(alloc: Global, command: &Command) -> Result<bool, AllocError>
    ensures { IfOk result (λ has. has ≡ command_has_line command.now) }
{
    let line = write_command(alloc, command)?;
    Ok(has_words(command) && line.as_slice().len() <= MAX_LINE + 1)
}
