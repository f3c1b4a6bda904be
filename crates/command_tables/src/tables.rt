//! The words of a command line, as `clap` is told them.

ghost use Rattle.std.specs.Prelude.{IfOk};
ghost use Rattle.clap.specs.Words.{new_app};
ghost use Rattle.command_tables.specs.Rules.{IsCommand, IsWord, count, flag, number, number_option, option};
ghost use Rattle.command_tables.specs.Rules.{optional_words, table_app, word, word_rule, words};

use clap::builder::ValueParser;
use clap::{Arg, ArgAction, Command};
use std::alloc::{AllocError, Global};

/// How a word may stand, each with the name of its value in `--help`.
#[derive(Clone, Copy)]
pub enum Shape {
    /// A word that has to be there.
    Word(&'static str),
    /// One word or more, up to so many, that have to be there.
    Words(&'static str, usize),
    /// Up to so many words, which don't have to be there.
    OptionalWords(&'static str, usize),
    /// A word that has to be there, a number from this one to that.
    Number(&'static str, i64, i64),
    /// An option without a value, `--ID`.
    Flag,
    /// An option with one value, `--ID NAME`.
    Option(&'static str),
    /// An option with one value that may stand several times.
    Repeated(&'static str),
    /// An option whose value is a number from this one to that.
    NumberOption(&'static str, i64, i64),
    /// The same, which has to be there.
    RequiredOption(&'static str, i64, i64),
    /// An option whose value counts something.
    Count(&'static str),
    /// The same, that may stand several times.
    Counts(&'static str),
}

/// A word of a command.
#[derive(Clone, Copy)]
pub struct Word {
    /// What it is asked for by; of an option also how it is written.
    pub id: &'static str,
    /// How it may stand.
    pub shape: Shape,
    /// What `--help` says of it.
    pub help: &'static str,
}

/// A command and its words.
#[derive(Clone, Copy)]
pub struct CommandTable {
    /// How it is written.
    pub name: &'static str,
    /// What it does, in a line.
    pub about: &'static str,
    /// What `--help` says at its end.
    pub more: &'static str,
    /// Its words, in order.
    pub words: &'static [Word],
}

/// A word that has to be there.
fn required<'a>(alloc: Global, id: &'a str, name: &'a str, help: &'a str) -> Arg<'a>
    ensures { IsWord result (word id.now) }
{
    Arg::new(alloc, id)
        .value_name(name)
        .help(help)
        .required(true)
}

/// One word or more, up to so many, that have to be there.
fn words<'a>(alloc: Global, id: &'a str, name: &'a str, help: &'a str, most: usize) -> Arg<'a>
    ensures { IsWord result (words id.now most) }
{
    required(alloc, id, name, help).num_args(1..=most)
}

/// Up to so many words, which don't have to be there.
fn optional_words<'a>(
    alloc: Global,
    id: &'a str,
    name: &'a str,
    help: &'a str,
    most: usize,
) -> Arg<'a>
    ensures { IsWord result (optional_words id.now most) }
{
    Arg::new(alloc, id)
        .value_name(name)
        .help(help)
        .num_args(1..=most)
}

/// A word that has to be there, a number of a range.
fn number<'a>(
    alloc: Global,
    id: &'a str,
    name: &'a str,
    help: &'a str,
    range: ValueParser<'a>,
) -> Arg<'a>
    ensures { IsWord result (number id.now range.entry) }
{
    required(alloc, id, name, help).value_parser(range)
}

/// An option without a value, `--ID`.
fn flag<'a>(alloc: Global, id: &'a str, help: &'a str) -> Arg<'a>
    ensures { IsWord result (flag id.now) }
{
    Arg::new(alloc, id)
        .long(id)
        .help(help)
        .action(ArgAction::SetTrue)
}

/// An option with one value, `--ID NAME`.
fn option<'a>(alloc: Global, id: &'a str, name: &'a str, help: &'a str) -> Arg<'a>
    ensures { IsWord result (option id.now) }
{
    Arg::new(alloc, id).value_name(name).help(help).long(id)
}

/// An option whose value is a number of a range.
fn number_option<'a>(
    alloc: Global,
    id: &'a str,
    name: &'a str,
    help: &'a str,
    range: ValueParser<'a>,
) -> Arg<'a>
    ensures { IsWord result (number_option id.now range.entry) }
{
    option(alloc, id, name, help).value_parser(range)
}

/// An option whose value counts something.
fn count<'a>(alloc: Global, id: &'a str, name: &'a str, help: &'a str) -> Arg<'a>
    ensures { IsWord result (count id.now) }
{
    number_option(alloc, id, name, help, ValueParser::signed(1, 4_294_967_295))
}

/// A word, as `clap` is told it.
fn arg_of<'a>(alloc: Global, word: &Word) -> Arg<'a>
    ensures { IsWord result (word_rule word.now) }
{
    let (id, help) = (word.id, word.help);
    match word.shape {
        Shape::Word(name) => required(alloc, id, name, help),
        Shape::Words(name, most) => words(alloc, id, name, help, most),
        Shape::OptionalWords(name, most) => optional_words(alloc, id, name, help, most),
        Shape::Number(name, least, most) => {
            number(alloc, id, name, help, ValueParser::signed(least, most))
        }
        Shape::Flag => flag(alloc, id, help),
        Shape::Option(name) => option(alloc, id, name, help),
        Shape::Repeated(name) => option(alloc, id, name, help).action(ArgAction::Append),
        Shape::NumberOption(name, least, most) => {
            number_option(alloc, id, name, help, ValueParser::signed(least, most))
        }
        Shape::RequiredOption(name, least, most) => {
            let range = ValueParser::signed(least, most);
            number_option(alloc, id, name, help, range).required(true)
        }
        Shape::Count(name) => count(alloc, id, name, help),
        Shape::Counts(name) => count(alloc, id, name, help).action(ArgAction::Append),
    }
}

/// A command of this name without words.
pub fn plain<'a>(alloc: Global, name: &'a str, about: &'a str, more: &'a str) -> Command<'a>
    ensures { IsCommand result (new_app name.now) }
{
    Command::new(alloc, name).about(about).after_help(more)
}

/// The command of a table, with its words in order.
pub fn command_of<'a>(alloc: Global, table: &CommandTable) -> Result<Command<'a>, AllocError>
    ensures { IfOk result (λ command. IsCommand command (table_app table.now)) }
{
    let mut command = plain(alloc, table.name, table.about, table.more);
    for word in table.words {
        command = command.arg(arg_of(alloc, word))?;
    }
    Ok(command)
}
