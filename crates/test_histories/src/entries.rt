//! Entries of an account, a line each: `WHO NUMBER VERB` and then up to five times `NAME VALUE`.
//!
//! A page is told by its length alone. A control file is told by its number.

use account::{Act, Entry, Outline, Progress, Sheet, Turn};
use control_file::Control;
use lpd_values::FileName;
use std::alloc::{AllocError, Global};
use test_kit::rows::{number, short_number, value, word};

/// A page of so many octets.
fn page(length: &str) -> Outline {
    let length = short_number(length);
    Outline {
        length,
        digest: [(length & 0xff) as u8; 32],
    }
}

/// A control file of this name that prints these files, with a comma between two.
fn control(alloc: Global, name: &str, prints: &str) -> Result<Option<Control>, AllocError> {
    let Ok(name) = FileName::read(name.as_bytes()) else {
        return Ok(None);
    };
    let mut text = String::from_str(alloc, "Hh1\nPann\n")?;
    for print in prints.split(',') {
        writeln!(text, "f{print}")?;
    }
    Ok(Control::parse(alloc, &name, text.as_bytes()).ok())
}

/// What the session of a job did.
fn act(alloc: Global, verb: &str, values: [&str; 5]) -> Result<Option<Act>, AllocError> {
    let [first, second, third, _, _] = values;
    Ok(match verb {
        "began" => match FileName::read(first.as_bytes()) {
            Ok(name) => Some(Act::Began {
                name,
                count: number(second),
            }),
            Err(_) => None,
        },
        "granted" => Some(Act::Granted),
        "put" => Some(Act::Put {
            file: number(first),
            number: number(second),
            page: page(third),
        }),
        "ended" => Some(Act::FileEnded {
            file: number(first),
            is_whole: number(second) == 1,
        }),
        "controlled" => match control(alloc, first, second)? {
            Some(control) => Some(Act::Controlled {
                control,
                is_whole: number(third) == 1,
            }),
            None => None,
        },
        "aborted" => Some(Act::Aborted),
        _ => None,
    })
}

/// What became of a page at a printer, of this job and place, of so many octets: it was handed to it, failed, or was printed
/// and this is said of its job. Where no file and page number stand behind these, it is the page of its place's number in the
/// first file.
fn at_printer(printer: u32, verb: &str, values: [&str; 5]) -> Option<Entry> {
    let turn = match verb {
        "handed" => Turn::Handed,
        "going" => Turn::Printed(Progress::Going),
        "done" => Turn::Printed(Progress::Done),
        "ended" => Turn::Printed(Progress::Ended),
        "failed" => Turn::Failed,
        _ => return None,
    };
    let [job, place, length, file, of_file] = values;
    let sheet = Sheet {
        job: number(job),
        place: number(place),
        file: number(file),
        number: number(if of_file.is_empty() { place } else { of_file }),
        page: page(length),
    };
    Some(Entry::AtPrinter(printer, sheet, turn))
}

/// Jobs of a queue were removed: their numbers with a comma between two, and none where that is 0.
fn removed(alloc: Global, queue: u32, numbers: &str) -> Result<Entry, AllocError> {
    let mut jobs = Vec::new(alloc);
    for job in numbers.split(',') {
        if number(job) != 0 {
            jobs.push(number(job))?;
        }
    }
    Ok(Entry::Removed(queue, jobs))
}

/// The entry that a line tells, or None where it tells none.
pub fn entry(alloc: Global, line: &str) -> Result<Option<Entry>, AllocError> {
    let (who, rest) = word(line);
    let (which, rest) = word(rest);
    let (verb, mut rest) = word(rest);
    let mut values = [""; 5];
    for i in 0..values.len() {
        let (told, others) = value(rest);
        values[i] = told;
        rest = others;
    }
    Ok(match (who, verb) {
        ("job", "opened") => {
            Some(Entry::Opened {
                job: number(which),
                sender: short_number(values[0]),
                queue: short_number(values[1]),
            })
        }
        ("job", _) => match act(alloc, verb, values)? {
            Some(act) => Some(Entry::OfJob(number(which), act)),
            None => None,
        },
        ("printer", _) => at_printer(short_number(which), verb, values),
        ("queue", "removed") => Some(removed(alloc, short_number(which), values[0])?),
        ("queue", "started") => Some(Entry::Started(short_number(which))),
        ("spool", "closed") => Some(Entry::Closed),
        _ => None,
    })
}
