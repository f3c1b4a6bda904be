//! Histories, legal or not, and whether what is handed of each sender's jobs in each queue is joined job by job.
//!
//! A history is a line for each entry, as `src/entries.rt` tells it, and behind the bar what the plain reader says of the
//! entries up to this one: `joined` or `not joined`. No entry is refused, and the history needs no configuration.

use crate::entries::entry;
use history_legality::leaves_joined;
use std::alloc::{AllocError, Global};

/// Appends the lines of a history, each with what the reader says once its entry came.
pub fn joins(told: &mut String, alloc: Global, rows: &str) -> Result<(), AllocError> {
    // The newest entry stands first.
    let mut entries = Vec::new(alloc);
    for row in rows.lines() {
        let Some((asked, _)) = row.split_once("| ") else {
            writeln!(told, "{row}")?;
            continue;
        };
        let said = match entry(alloc, asked)? {
            None => "no entry",
            Some(entry) => {
                entries.insert(0, entry)?;
                if leaves_joined(alloc, entries.as_slice())? {
                    "joined"
                } else {
                    "not joined"
                }
            }
        };
        writeln!(told, "{asked}| {said}")?;
    }
    Ok(())
}
