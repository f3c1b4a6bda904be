//! A program over rows of data: each row says what is asked, and what has to be answered.

use crate::rows;
use std::alloc::AllocError;
use std::rt::Files;
use std::sync::Wait;
use std::{fs, io};

/// How the rows of a group are written.
#[derive(Clone, Copy)]
pub enum Form {
    /// A line each, `asked => wanted`; a line that begins with `# ` is a comment.
    Line,
    /// The same, where what is wanted is octets with escapes.
    Octets,
    /// What is asked, a line `----`, and what is wanted, octets with escapes. Between two rows stands a line `====`.
    Script,
    /// Lines that are to be answered by themselves as they stand. Between two rows stands a line `====`.
    Block,
}

/// A group of rows that are asked of the same function.
pub trait Group {
    /// Its name, and how its rows are written. They stand in the file of this name and the ending `.rows`.
    fn file(&self) -> (&'static str, Form);

    /// Appends what is answered. Where octets are wanted, those that are no printed text are told as escapes.
    fn answer<R: AllocGlobal + Wait>(
        &self,
        rt: &R,
        told: &mut String,
        asked: &str,
    ) -> Result<(), AllocError>;
}

/// What is answered to a row and what is wanted, where these differ. None where it is no row.
fn difference<R: AllocGlobal + Wait, G: Group>(
    rt: &R,
    group: &G,
    row: &str,
) -> Result<Option<String>, AllocError> {
    let alloc = rt.alloc();
    let (_, form) = group.file();
    let (asked, side) = match form {
        _ if row.is_empty() => return Ok(None),
        Form::Line | Form::Octets if row.starts_with("# ") => return Ok(None),
        Form::Line | Form::Octets => rows::sides(row),
        Form::Script => row.split_once("----\n").unwrap_or((row, "")),
        Form::Block => (row, row),
    };
    let mut told = String::new(alloc);
    group.answer(rt, &mut told, asked)?;
    let wanted = match form {
        Form::Line | Form::Block => String::from_str(alloc, side)?,
        Form::Octets | Form::Script => {
            format!(in alloc; "{}", rows::octets(alloc, side)?.as_slice().escape_ascii())?
        }
    };
    if told.as_str() == wanted.as_str() {
        return Ok(Some(String::new(alloc)));
    }
    Ok(Some(format!(in alloc; ": {asked} gives {told} and not {wanted}")?))
}

/// Reads the rows of these groups, and answers them one after another: prints how many there are in each, and a line for each that is
/// answered otherwise.
pub fn run_groups<R: Files + AllocGlobal + Print + Wait, G: Group>(
    rt: &R,
    groups: &[G],
) -> io::Result<()> {
    for group in groups {
        let (name, form) = group.file();
        let file = format!(in rt.alloc(); "{name}.rows")?;
        let text = fs::read_to_string(rt, file.as_str())?;
        let between = match form {
            Form::Line | Form::Octets => "\n",
            Form::Script | Form::Block => "====\n",
        };
        let mut count = 0u64;
        for row in text.split(between) {
            if let Some(told) = difference(rt, group, row)? {
                count = count.saturating_add(1);
                if !told.is_empty() {
                    println!(rt; "{name}, row {count}{told}")?;
                }
            }
        }
        println!(rt; "{name}: {count} rows")?;
    }
    Ok(())
}
