//! A log that nobody has read yet: the lines that wait in its queue, and its end.

use log::{Level, Logged, error, warn};
use log_lines::{LineLog, LineQueue, LogForm};
use std::io::Write;
use std::sync::atomic::{AtomicBool, Ordering};
use std::time::Duration;
use std::{io, thread};

/// Where two lines may wait to be written, the first two are, in order: a fault as a line of its
/// own, and a warning behind the part that gives it. How many were dropped is told.
#[test]
fn two_lines_wait(rt: HostRuntime) {
    let alloc = rt.alloc();
    let queue = LineQueue::new(alloc, 2, LogForm::Plain);
    let logged = Logged::new(rt, Level::Info, LineLog::new(&rt, alloc, &queue));
    error!(logged; "fault 72 Network");
    for number in 1..4 {
        warn!(logged; "line {number}");
    }
    let (written, is_all) = thread::join(
        &rt,
        || {
            let mut written = Vec::new(alloc);
            queue.write_all(&rt, alloc, &mut written);
            written
        },
        || queue.end(&rt, Duration::from_secs(10)),
    );
    assert!(rt; is_all);
    assert_eq!(rt;
        str::from_utf8(written.as_slice()),
        Ok(
            "fault 72 Network\n[WARN  test_values::log_queue] line 1\n[WARN ] 2 lines were dropped\n",
        )
    );
}

/// An end that takes each line slowly.
#[derive(Drop)]
struct Slow<'a> {
    rt: &'a HostRuntime,
    is_written: &'a AtomicBool,
}

impl Write for Slow<'_> {
    fn write(&mut self, octets: &[u8]) -> io::Result<usize> {
        thread::sleep(self.rt, Duration::from_millis(300));
        self.is_written.store(true, Ordering::SeqCst);
        Ok(octets.len())
    }

    fn flush(&mut self) -> io::Result<()> {
        Ok(())
    }
}

/// The end waits for the line that is being written.
#[test]
fn the_last_line_is_waited_for(rt: HostRuntime) {
    let alloc = rt.alloc();
    let queue = LineQueue::new(alloc, 2, LogForm::Plain);
    let line = String::from_str(alloc, "line\n").expect(&rt, "memory");
    queue.put(&rt, Some(line));
    let is_written = AtomicBool::new(false);
    let (_, was_written) = thread::join(
        &rt,
        || {
            let mut slow = Slow {
                rt: &rt,
                is_written: &is_written,
            };
            queue.write_all(&rt, alloc, &mut slow);
        },
        || {
            thread::sleep(&rt, Duration::from_millis(100));
            let is_all = queue.end(&rt, Duration::from_secs(10));
            is_all && is_written.load(Ordering::SeqCst)
        },
    );
    assert!(rt; was_written);
}

/// A line that comes after the end is dropped, which is told.
#[test]
fn a_line_after_the_end_is_dropped(rt: HostRuntime) {
    let alloc = rt.alloc();
    let queue = LineQueue::new(alloc, 2, LogForm::Plain);
    assert!(rt; queue.end(&rt, Duration::from_secs(10)));
    let line = String::from_str(alloc, "line\n").expect(&rt, "memory");
    queue.put(&rt, Some(line));
    let mut written = Vec::new(alloc);
    queue.write_all(&rt, alloc, &mut written);
    assert_eq!(rt;
        written.as_slice(),
        b"[WARN ] 1 lines were dropped\n".as_slice()
    );
}

/// The end waits until it is told how many were dropped.
#[test]
fn what_was_dropped_is_waited_for(rt: HostRuntime) {
    let queue = LineQueue::new(rt.alloc(), 0, LogForm::Plain);
    queue.put(&rt, None);
    assert!(rt; !queue.end(&rt, Duration::from_millis(50)));
}
