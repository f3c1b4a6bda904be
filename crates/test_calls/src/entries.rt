//! Entries of an account, a line each: `WHO NUMBER VERB` and then up to five times `NAME VALUE`.
//!
//! A page is told by its length alone. A control file is told by the letter A and its number.

use account::{Act, Entry, Progress, Sheet, Turn};
use control_file::Control;
use std::alloc::AllocError;
use test_kit::rows::push_numbers;

/// Appends that a control file came: its name, the files that it prints, and whether the job is whole by that.
fn push_control(line: &mut String, control: &Control, whole: bool) -> Result<(), AllocError> {
    write!(line, "controlled by cfA{:03} of ", control.number)?;
    let mut before = "";
    for name in control.prints.as_slice() {
        write!(line, "{before}{}", name.octets().escape_ascii())?;
        before = ",";
    }
    write!(line, " whole {}", u8::from(whole))
}

/// Appends what the session of a job did.
fn push_act(line: &mut String, act: &Act) -> Result<(), AllocError> {
    match act {
        Act::Granted => line.push_str("granted"),
        Act::Began { name, count } => {
            write!(
                line,
                "began file {} of {count}",
                name.octets().escape_ascii()
            )
        }
        Act::Put { file, number, page } => {
            let length = u64::from(page.length);
            push_numbers(
                line,
                &[("put file", *file), ("page", *number), ("of", length)],
            )
        }
        Act::FileEnded { file, is_whole } => {
            let whole = u64::from(*is_whole);
            push_numbers(line, &[("ended file", *file), ("whole", whole)])
        }
        Act::Controlled { control, is_whole } => push_control(line, control, *is_whole),
        Act::Aborted => line.push_str("aborted"),
    }
}

/// Appends what became of a page at a printer, and the page.
fn push_turn(line: &mut String, sheet: &Sheet, turn: Turn) -> Result<(), AllocError> {
    line.push_str(match turn {
        Turn::Handed => "handed ",
        Turn::Printed(Progress::Going) => "going ",
        Turn::Printed(Progress::Done) => "done ",
        Turn::Printed(Progress::Ended) => "ended ",
        Turn::Failed => "failed ",
    })?;
    let numbers = [
        ("job", sheet.job),
        ("place", sheet.place),
        ("of", u64::from(sheet.page.length)),
        ("file", sheet.file),
        ("page", sheet.number),
    ];
    push_numbers(line, &numbers)
}

/// Appends the numbers of jobs, with a comma between two, and 0 where there is none.
fn push_jobs(line: &mut String, jobs: &[u64]) -> Result<(), AllocError> {
    if jobs.is_empty() {
        return line.push_str("0");
    }
    let mut before = "";
    for job in jobs {
        write!(line, "{before}{job}")?;
        before = ",";
    }
    Ok(())
}

/// Appends the line that tells an entry.
pub fn push_entry(line: &mut String, entry: &Entry) -> Result<(), AllocError> {
    match entry {
        Entry::Opened { job, sender, queue } => {
            write!(line, "job {job} opened by {sender} in {queue}")
        }
        Entry::OfJob(job, act) => {
            write!(line, "job {job} ")?;
            push_act(line, act)
        }
        Entry::AtPrinter(printer, sheet, turn) => {
            write!(line, "printer {printer} ")?;
            push_turn(line, sheet, *turn)
        }
        Entry::Removed(queue, jobs) => {
            write!(line, "queue {queue} removed job ")?;
            push_jobs(line, jobs.as_slice())
        }
        Entry::Started(queue) => write!(line, "queue {queue} started"),
        Entry::Closed => line.push_str("spool is closed"),
    }
}
