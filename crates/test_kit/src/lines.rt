//! What a log has.

use log_lines::LineQueue;
use std::alloc::Global;
use std::sync::Wait;
use std::time::{Clock, Duration};

/// All lines that wait in a queue, to which no more come. None where memory for them is refused.
pub fn all_lines<R: Clock + Wait>(rt: &R, alloc: Global, queue: &LineQueue) -> Option<String> {
    queue.end(rt, Duration::from_millis(1));
    let mut written = Vec::new(alloc);
    queue.write_all(rt, alloc, &mut written);
    let text = str::from_utf8(written.as_slice()).ok()?;
    String::from_str(alloc, text).ok()
}
