//! What is wrong with a configuration that has a fault, and where.

use crate::layout::{Home, line_behind, line_of_key, line_of_queue};
use control_lines::Escaped;
use log::{Log, info};
use program_edge::{CAUSES, PrinterPlace};
use spool_config::{ConfigFault, Key, PLACES, PlacesFault, is_name};
use std::alloc::{AllocError, Global};
use std::{fmt, str};
use toml::de::Error;
use toml::{Table, Value};

/// What is wrong with a key.
#[derive(Clone, Copy, Debug, PartialEq, Eq)]
enum Wrong {
    /// It isn't there.
    Missing,
    /// It is of another type, or out of its range.
    Unfit,
}

/// What has to stand at a key.
#[derive(Clone, Copy)]
struct Expected(Key);

impl fmt::Display for Expected {
    fn fmt<W: fmt::Write>(&self, f: &mut fmt::Formatter<W>) -> fmt::Result {
        match self.0 {
            Key::Queue => write!(
                f,
                "1 to {} tables, each of which begins with [[queue]]",
                Key::Queue.most()
            ),
            Key::Name => write!(
                f,
                "a text of 1 to {} octets from 21 to 7E (hexadecimal), so without a space",
                Key::Name.most()
            ),
            key => write!(f, "a whole number, 1 to {}", key.most()),
        }
    }
}

/// A value, as far as it is short.
#[derive(Clone, Copy)]
struct Shown<'a>(&'a Value);

impl fmt::Display for Shown<'_> {
    fn fmt<W: fmt::Write>(&self, f: &mut fmt::Formatter<W>) -> fmt::Result {
        if let Some(number) = self.0.as_integer() {
            return write!(f, "{number}");
        }
        match self.0.as_str() {
            Some(text) => write!(f, "\"{}\"", Escaped(text.as_bytes())),
            None => write!(f, "of type {}", self.0.type_str()),
        }
    }
}

/// Whether a value may stand at a key.
fn is_fit(key: Key, value: &Value) -> bool {
    match key {
        Key::Name => match value.as_str() {
            Some(name) => is_name(name),
            None => false,
        },
        Key::Queue => false,
        _ => value
            .as_integer()
            .is_some_and(|number| 1 <= number && number <= i64::from(key.most())),
    }
}

/// A configuration's text, and the document that it is.
#[derive(Clone, Copy)]
struct Document<'t> {
    text: &'t str,
    table: &'t Table,
}

impl Document<'_> {
    /// The tables of the queues, as far as these are an array.
    fn rows(&self) -> &[Value] {
        match self.table.get(Key::Queue.word()) {
            Some(value) => match value.as_array() {
                Some(rows) => rows.as_slice(),
                None => &[],
            },
            None => &[],
        }
    }

    /// The number of the first queue of which that is wrong, from 1, and its table.
    fn first_queue(&self, key: Key, wrong: Wrong) -> Option<(u32, &Table)> {
        let mut queue = 0u32;
        for row in self.rows() {
            queue = queue.saturating_add(1);
            let table = row.as_table()?;
            let is_wrong = match table.get(key.word()) {
                None => wrong == Wrong::Missing,
                Some(value) => wrong == Wrong::Unfit && !is_fit(key, value),
            };
            if is_wrong {
                return Some((queue, table));
            }
        }
        None
    }

    /// What is said of where a key stands that isn't there: the queue, and the line where its table begins.
    fn heading(
        &self,
        alloc: Global,
        queue: u32,
        table: &Table,
        line: Option<usize>,
    ) -> Result<String, AllocError> {
        let name = match table.get(Key::Name.word()) {
            Some(value) => value.as_str(),
            None => None,
        };
        let called = match name {
            Some(name) => format!(in alloc; "queue {}", Escaped(name.as_bytes()))?,
            None => format!(in alloc; "queue number {queue}")?,
        };
        match line.or(line_of_queue(self.text, queue)) {
            Some(line) => format!(in alloc; "line {line}, {called}: "),
            None => format!(in alloc; "{called}: "),
        }
    }

    /// What is said of a key of a queue's table.
    fn of_queue(
        &self,
        alloc: Global,
        key: Key,
        wrong: Wrong,
    ) -> Result<Option<String>, AllocError> {
        let Some((queue, table)) = self.first_queue(key, wrong) else {
            return Ok(None);
        };
        let word = key.word();
        let line = line_of_key(self.text, Home::Queue(queue), word);
        let head = self.heading(alloc, queue, table, line)?;
        let said = match table.get(word) {
            None => format!(in alloc; "{head}{word} isn't there: {}", Expected(key))?,
            Some(value) => {
                format!(in alloc;
                    "{head}{word} is {}, and has to be {}",
                    Shown(value),
                    Expected(key)
                )?
            }
        };
        Ok(Some(said))
    }

    /// What is said of a key of the document.
    fn of_document(&self, alloc: Global, key: Key) -> Result<Option<String>, AllocError> {
        let (word, expected) = (key.word(), Expected(key));
        let Some(value) = self.table.get(word) else {
            return Ok(Some(format!(in alloc; "{word} isn't there: {expected}")?));
        };
        let shown = Shown(value);
        let said = match (key, line_of_key(self.text, Home::Document, word)) {
            (Key::Queue, _) => {
                format!(in alloc;
                    "queue has to be {expected}: {} are there",
                    self.rows().len()
                )?
            }
            (_, Some(line)) => {
                format!(in alloc; "line {line}: {word} is {shown}, and has to be {expected}")?
            }
            (_, None) => format!(in alloc; "{word} is {shown}, and has to be {expected}")?,
        };
        Ok(Some(said))
    }

    /// What is said of a key.
    fn of_key(&self, alloc: Global, key: Key, wrong: Wrong) -> Result<Option<String>, AllocError> {
        match key {
            Key::Name | Key::Limit | Key::Printers => self.of_queue(alloc, key, wrong),
            _ => self.of_document(alloc, key),
        }
    }

    /// The name of a queue.
    fn name_at(&self, at: usize) -> Option<&str> {
        self.rows()
            .get(at)?
            .as_table()?
            .get(Key::Name.word())?
            .as_str()
    }

    /// What is said of two queues of one name.
    fn of_same_name(&self, alloc: Global) -> Result<Option<String>, AllocError> {
        for at in 0..self.rows().len() {
            for earlier in 0..at {
                let (Some(name), Some(other)) = (self.name_at(at), self.name_at(earlier)) else {
                    continue;
                };
                if name == other {
                    let shown = Escaped(name.as_bytes());
                    let (first, second) = (earlier as u64 + 1, at as u64 + 1);
                    return Ok(Some(format!(in alloc;
                        "queues number {first} and {second} are both named {shown}"
                    )?));
                }
            }
        }
        Ok(None)
    }

    /// What is said of a limit over the pages of the pool.
    fn of_limit(&self, alloc: Global) -> Result<Option<String>, AllocError> {
        let pages = match self.table.get(Key::Pages.word()) {
            Some(value) => value.as_integer().unwrap_or(0),
            None => 0,
        };
        let mut queue = 0u32;
        for row in self.rows() {
            queue = queue.saturating_add(1);
            let (Some(table), Some(limit)) = (row.as_table(), limit_of(row)) else {
                continue;
            };
            if limit > pages {
                let line = line_of_key(self.text, Home::Queue(queue), Key::Limit.word());
                let head = self.heading(alloc, queue, table, line)?;
                return Ok(Some(format!(in alloc;
                    "{head}limit is {limit}, and the pool has {pages} pages"
                )?));
            }
        }
        Ok(None)
    }

    /// What is said of the first queue whose `places` can't be meant.
    fn of_places(&self, alloc: Global) -> Result<Option<String>, AllocError> {
        let mut queue = 0u32;
        for row in self.rows() {
            queue = queue.saturating_add(1);
            let Some(table) = row.as_table() else {
                continue;
            };
            let Some(value) = table.get(PLACES) else {
                continue;
            };
            if let Some(fault) = why_unplaced(row, value) {
                let line = line_of_key(self.text, Home::Queue(queue), PLACES);
                let head = self.heading(alloc, queue, table, line)?;
                return Ok(Some(format!(in alloc; "{head}{fault}")?));
            }
        }
        Ok(None)
    }
}

/// The limit in the table of a queue.
fn limit_of(row: &Value) -> Option<i64> {
    row.as_table()?.get(Key::Limit.word())?.as_integer()
}

/// How many printers the table of a queue says.
fn printers_of(row: &Value) -> Option<i64> {
    row.as_table()?.get(Key::Printers.word())?.as_integer()
}

/// Why `places` can't be meant.
#[derive(Clone, Copy)]
enum Unplaced<'a> {
    /// It is no array of texts.
    NoTexts,
    /// It has more texts than the queue has printers.
    TooMany(usize),
    /// This text says nothing that a printer may print to.
    NoPlace(&'a str),
}

impl fmt::Display for Unplaced<'_> {
    fn fmt<W: fmt::Write>(&self, f: &mut fmt::Formatter<W>) -> fmt::Result {
        match self {
            Unplaced::NoTexts => {
                f.write_str(
                    "places has to be an array of texts, as places = [\"socket://10.0.0.9\"]",
                )
            }
            Unplaced::TooMany(count) => {
                write!(
                    f,
                    "places has {count} texts, more than the queue has printers"
                )
            }
            Unplaced::NoPlace(text) => write!(
                f,
                "\"{}\" is no place: file:PATH, folder:PATH and socket://ADDRESS[:PORT] are",
                Escaped(text.as_bytes())
            ),
        }
    }
}

/// Why what stands at `places` in the table of a queue can't be meant, if it can't.
fn why_unplaced<'a>(row: &Value, value: &'a Value) -> Option<Unplaced<'a>> {
    let Some(texts) = value.as_array() else {
        return Some(Unplaced::NoTexts);
    };
    let texts = texts.as_slice();
    for text in texts {
        let Some(text) = text.as_str() else {
            return Some(Unplaced::NoTexts);
        };
        if PrinterPlace::read(text).is_none() {
            return Some(Unplaced::NoPlace(text));
        }
    }
    let printers = printers_of(row).unwrap_or(0);
    if i64::try_from(texts.len()).is_ok_and(|count| count > printers) {
        return Some(Unplaced::TooMany(texts.len()));
    }
    None
}

/// What is said of a text that is no TOML.
fn of_no_toml(alloc: Global, text: &[u8], error: &Error) -> Result<Option<String>, AllocError> {
    let Some(span) = error.span() else {
        return Ok(None);
    };
    let line = line_behind(text.get(..span.start).unwrap_or(text));
    Ok(Some(format!(in alloc; "line {line}: {}", error.message())?))
}

/// What is said of a document with this fault.
fn of_fault(
    alloc: Global,
    document: &Document<'_>,
    fault: ConfigFault,
) -> Result<Option<String>, AllocError> {
    match fault {
        ConfigFault::NotToml | ConfigFault::Memory => Ok(None),
        ConfigFault::Missing(key) => document.of_key(alloc, key, Wrong::Missing),
        ConfigFault::WrongType(key) | ConfigFault::OutOfRange(key) => {
            document.of_key(alloc, key, Wrong::Unfit)
        }
        ConfigFault::SameName => document.of_same_name(alloc),
        ConfigFault::LimitOverPool => document.of_limit(alloc),
    }
}

/// What is said of a text with this fault.
fn of_text(alloc: Global, text: &[u8], fault: ConfigFault) -> Result<Option<String>, AllocError> {
    let table = match toml::table_from_slice(alloc, text) {
        Ok(table) => table,
        Err(error) => return of_no_toml(alloc, text, &error),
    };
    let document = Document {
        text: str::from_utf8(text).unwrap_or(""),
        table: &table,
    };
    of_fault(alloc, &document, fault)
}

/// What is said of a text that has a fault of what its printers print to.
fn of_places_text(alloc: Global, text: &[u8]) -> Result<Option<String>, AllocError> {
    let Ok(table) = toml::table_from_slice(alloc, text) else {
        return Ok(None);
    };
    let document = Document {
        text: str::from_utf8(text).unwrap_or(""),
        table: &table,
    };
    document.of_places(alloc)
}

/// Tells the log at INFO what is said of the configuration at this path, where anything is.
fn tell<R: Log>(rt: &R, path: &str, said: Result<Option<String>, AllocError>) {
    if let Ok(Some(said)) = said {
        info!(rt; target: CAUSES, "{path}: {said}");
    }
}

/// Tells the log at INFO where a fault of the configuration with this text stands, which is read from this path, and what is wrong there. The
/// fault's own line comes after it. Nothing is told where memory is refused.
pub fn tell_fault<R: Log>(rt: &R, alloc: Global, path: &str, text: &[u8], fault: ConfigFault) {
    tell(rt, path, of_text(alloc, text, fault));
}

/// Tells the log at INFO, as `tell_fault` does, which queue of a configuration says of its printers what can't be meant.
pub fn tell_places_fault<R: Log>(
    rt: &R,
    alloc: Global,
    path: &str,
    text: &[u8],
    fault: PlacesFault,
) {
    match fault {
        PlacesFault::WrongType | PlacesFault::OutOfRange => {
            tell(rt, path, of_places_text(alloc, text));
        }
        PlacesFault::NotToml | PlacesFault::Memory => {}
    }
}
