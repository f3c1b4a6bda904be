//! Lines as they are sent.

ghost use Rattle.std.specs.Prelude.{◌≡◌, [], ◌∷◌, ◌++◌, IfOk, OnOk};
ghost use Rattle.std.specs.Fmt.{decimal};
ghost use Rattle.lpd_commands.specs.Written.{command_line, spaced, sub_line};

use crate::command::Command;
use crate::sub::Sub;
use lpd_values::{FileName, Octets, Words};
use std::alloc::{AllocError, Global};

/// Puts a space and the word at the end of the line.
fn put_word(line: &mut Vec<u8>, word: &[u8]) -> Result<(), AllocError>
    ensures { OnOk result (line.new.items ≡ line.old.items ++ 32 ∷ word.now) }
{
    line.push(b' ')?;
    line.extend_from_slice(word)
}

/// Puts each word after a space at the end of the line.
fn put_words(line: &mut Vec<u8>, words: &Words) -> Result<(), AllocError>
    ensures { OnOk result (line.new.items ≡ line.old.items ++ spaced words.now) }
{
    for word in words.as_slice() {
        put_word(line, word.as_slice())?;
    }
    Ok(())
}

/// Puts the code and the queue at the end of the line.
fn put_head(line: &mut Vec<u8>, code: u8, queue: &Octets) -> Result<(), AllocError>
    ensures { OnOk result (line.new.items ≡ line.old.items ++ code ∷ queue.now) }
{
    line.push(code)?;
    line.extend_from_slice(queue.as_slice())
}

fn put_command(line: &mut Vec<u8>, command: &Command) -> Result<(), AllocError>
    ensures { OnOk result (line.new.items ≡ line.old.items ++ command_line command.now) }
{
    match command {
        Command::PrintWaiting { queue } => put_head(line, 1, queue),
        Command::Receive { queue } => put_head(line, 2, queue),
        Command::State { queue, list, long } => {
            put_head(line, if *long { 4 } else { 3 }, queue)?;
            put_words(line, list)
        }
        Command::Remove { queue, agent, list } => {
            put_head(line, 5, queue)?;
            put_word(line, agent.as_slice())?;
            put_words(line, list)
        }
    }
}

/// The octets of a command's line with its LF (RFC 1179, section 5), with one space before each operand. What is written
/// is read back as the same command where its words are one or more word octets each, and the line has at most 1,023
/// octets without its LF.
pub fn write_command(alloc: Global, command: &Command) -> Result<Octets, AllocError>
    ensures { IfOk result (λ octets. octets ≡ command_line command.now ++ 10 ∷ []) }
{
    let mut line = Vec::new(alloc);
    put_command(&mut line, command)?;
    line.push(b'\n')?;
    Ok(Octets::from_vec(line))
}

fn put_file(
    alloc: Global,
    line: &mut Vec<u8>,
    code: u8,
    count: u64,
    name: &FileName,
) -> Result<(), AllocError>
    ensures { OnOk result
        (line.new.items ≡ line.old.items ++ code ∷ (decimal count ++ spaced (name.now ∷ []))) }
{
    let count = count.to_string(alloc)?;
    line.push(code)?;
    line.extend_from_slice(count.as_bytes())?;
    put_word(line, name.octets())
}

fn put_sub(alloc: Global, line: &mut Vec<u8>, sub: &Sub) -> Result<(), AllocError>
    ensures { OnOk result (line.new.items ≡ line.old.items ++ sub_line sub.now) }
{
    match sub {
        Sub::Abort => Ok(line.push(1)?),
        Sub::ControlFile { count, name } => put_file(alloc, line, 2, *count, name),
        Sub::DataFile { count, name } => put_file(alloc, line, 3, *count, name),
    }
}

/// The octets of a subcommand's line with its LF (RFC 1179, section 6). What is written is read back as the same
/// subcommand where its count has at most 19 digits and isn't 0 for a data file, and its name is of its kind.
pub fn write_sub(alloc: Global, sub: &Sub) -> Result<Octets, AllocError>
    ensures { IfOk result (λ octets. octets ≡ sub_line sub.now ++ 10 ∷ []) }
{
    let mut line = Vec::new(alloc);
    put_sub(alloc, &mut line, sub)?;
    line.push(b'\n')?;
    Ok(Octets::from_vec(line))
}
