//! Which jobs a history opened.

ghost use Rattle.std.specs.Prelude.{◌≡◌, IfOk, map};
ghost use Rattle.spool_history.specs.Said.{openings};
ghost use Rattle.account.specs.Seen.{history};
ghost use Rattle.history_reader.specs.Seen.{opening_seen};

use crate::state::Opening;
use account::Entry;
use std::alloc::{AllocError, Global};

/// The accepted jobs, in order of acceptance.
pub fn openings(alloc: Global, entries: &[Entry]) -> Result<Vec<Opening>, AllocError>
    ensures { IfOk result (λ v. map opening_seen v.items ≡ openings (history entries.now)) }
{
    let Some((entry, before)) = entries.split_first() else {
        return Ok(Vec::new(alloc));
    };
    let mut found = openings(alloc, before)?;
    if let Entry::Opened { job, sender, queue } = entry {
        found.push(Opening {
            job: *job,
            sender: *sender,
            queue: *queue,
        })?;
    }
    Ok(found)
}
