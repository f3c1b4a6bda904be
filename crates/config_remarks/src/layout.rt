//! On which line of a configuration's text something stands.
//!
//! The text is looked at line by line, as it is written by nearly everybody. What is written otherwise, as a queue in an array between
//! brackets or a key between quotes, isn't found here: then no line is told.

ghost use Rattle.std.specs.Prelude.{◌≡◌};
ghost use Rattle.config_remarks.specs.Layout.{line_behind};

/// Where a key stands: in the document itself, or in the table of the queue of this number, from 1.
#[derive(Clone, Copy, Debug, PartialEq, Eq)]
pub(crate) enum Home {
    Document,
    Queue(u32),
}

/// What a line of a text is.
#[derive(Clone, Copy, Debug, PartialEq, Eq)]
enum LineKind<'a> {
    /// `[[queue]]`: the keys below it are of one more queue.
    Queue,
    /// The head of another table.
    OtherTable,
    /// A key, and what it is said to be.
    Key(&'a str),
    /// A remark, or what goes on from an earlier line.
    Other,
}

/// What a line is.
fn kind_of(line: &str) -> LineKind<'_> {
    let line = line.trim();
    if let Some(head) = line.strip_prefix("[[") {
        return match head.split_once("]]") {
            Some((name, _)) if name.trim() == "queue" => LineKind::Queue,
            _ => LineKind::OtherTable,
        };
    }
    if line.starts_with('[') {
        return LineKind::OtherTable;
    }
    match line.split_once('=') {
        Some((key, _)) if !line.starts_with('#') => LineKind::Key(key.trim()),
        _ => LineKind::Other,
    }
}

/// The line, from 1, at which the table of a queue begins.
pub(crate) fn line_of_queue(text: &str, queue: u32) -> Option<usize> {
    let (mut number, mut queues) = (0usize, 0u32);
    for line in text.lines() {
        number = number.saturating_add(1);
        if kind_of(line) == LineKind::Queue {
            queues = queues.saturating_add(1);
            if queues == queue {
                return Some(number);
            }
        }
    }
    None
}

/// The line, from 1, at which a key stands.
pub(crate) fn line_of_key(text: &str, home: Home, key: &str) -> Option<usize> {
    let (mut number, mut queues) = (0usize, 0u32);
    // None in a table that is neither the document nor a queue's.
    let mut here = Some(Home::Document);
    for line in text.lines() {
        number = number.saturating_add(1);
        match kind_of(line) {
            LineKind::Queue => {
                queues = queues.saturating_add(1);
                here = Some(Home::Queue(queues));
            }
            LineKind::OtherTable => here = None,
            LineKind::Key(found) if found == key && here == Some(home) => return Some(number),
            LineKind::Key(_) | LineKind::Other => {}
        }
    }
    None
}

/// The line, from 1, of what stands behind these octets.
pub(crate) fn line_behind(before: &[u8]) -> usize
    ensures { result ≡ line_behind before.now }
{
    before.iter().filter(|octet| **octet == b'\n').count() + 1
}
