//! Keys that a configuration has and that aren't any: whoever reads it passes them over, so they are told.

use crate::layout::{Home, line_of_key};
use control_lines::Escaped;
use log::{Log, warn};
use spool_config::{Key, PLACES};
use std::alloc::Global;
use std::str;
use toml::Table;

/// The part of the program that tells of them, as the log names it.
const PART: &str = "config_remarks::keys";

/// How many of them are told at most.
const MOST_TOLD: u32 = 16;

/// The keys of the document.
const DOCUMENT_KEYS: [Key; 5] = [
    Key::Pages,
    Key::PageSize,
    Key::MaxJobs,
    Key::Account,
    Key::Queue,
];

/// The keys of a queue's table, beside `places`.
const QUEUE_KEYS: [Key; 3] = [Key::Name, Key::Limit, Key::Printers];

/// Whether a table that stands there has such a key.
fn has_key(home: Home, name: &str) -> bool {
    match home {
        Home::Document => DOCUMENT_KEYS.iter().any(|key| name == key.word()),
        Home::Queue(_) => name == PLACES || QUEUE_KEYS.iter().any(|key| name == key.word()),
    }
}

/// Who tells of the keys of one text.
#[derive(Drop)]
struct KeyTeller<'r, R> {
    rt: &'r R,
    path: &'r str,
    text: &'r str,
    /// How many may still be told.
    left: u32,
}

impl<R: Log> KeyTeller<'_, R> {
    /// Tells of a key that isn't any.
    fn tell(&mut self, home: Home, name: &str) {
        if self.left == 0 {
            return;
        }
        self.left -= 1;
        let (path, shown) = (self.path, Escaped(name.as_bytes()));
        let of = match home {
            Home::Document => "no key",
            Home::Queue(_) => "no key of a queue",
        };
        match line_of_key(self.text, home, name) {
            Some(line) => {
                warn!(self.rt; target: PART, "{path}: line {line}: {shown} is {of}, and is passed over");
            }
            None => warn!(self.rt; target: PART, "{path}: {shown} is {of}, and is passed over"),
        }
    }

    /// Tells of the keys of a table that aren't any.
    fn tell_of(&mut self, home: Home, table: &Table) {
        for (name, _value) in table.iter() {
            if !has_key(home, name.as_str()) {
                self.tell(home, name.as_str());
            }
        }
    }
}

/// Warns of each key of a configuration, which is read from this path, that isn't any; of 16 at most. Nothing is told of a text that is no TOML, or where memory
/// is refused.
pub fn warn_of_keys<R: Log>(rt: &R, alloc: Global, path: &str, text: &[u8]) {
    let (Ok(document), Ok(text)) = (toml::table_from_slice(alloc, text), str::from_utf8(text))
    else {
        return;
    };
    let mut teller = KeyTeller {
        rt,
        path,
        text,
        left: MOST_TOLD,
    };
    teller.tell_of(Home::Document, &document);
    let Some(rows) = document.get(Key::Queue.word()) else {
        return;
    };
    let Some(rows) = rows.as_array() else {
        return;
    };
    let mut queue = 0u32;
    for row in rows.as_slice() {
        queue = queue.saturating_add(1);
        if let Some(table) = row.as_table() {
            teller.tell_of(Home::Queue(queue), table);
        }
    }
}
