//! A printer that prints to a folder: each job that is printed to its last page becomes a file.

ghost use Rattle.std.specs.Prelude.{◌≡◌, ℕ, [], IfErr, IfOk, List, MatchOption, None, OnErr, OnOk, Some, sum_by};
ghost use Rattle.account.specs.declared.entry.Sheet.{Sheet};
ghost use Rattle.printed_pages.specs.Folders as F;
ghost use Rattle.printed_pages.specs.Sources.{IsJob};
ghost use Rattle.printed_pages.specs.Trails.{IsOfOne};

use crate::page::Differs;
use crate::source::{PrintedOctets, TrailFault, read_at};
use crate::trail::find;
use account::{Entry, Progress, Sheet, Turn};
use std::alloc::{AllocError, Global};
use std::mem;

/// The trail of a printer that prints to a folder, where a job becomes a file once its last place is printed: which pages it has.
#[derive(Drop)]
pub struct FolderTrail {
    /// The number of the printer.
    printer: u32,
    /// The pages of the job that is being printed, as far as they were.
    sheets: Vec<Sheet>,
}

impl FolderTrail {
    /// The trail of the printer of this number, before any job.
    pub fn new(alloc: Global, printer: u32) -> FolderTrail
        ensures printer { result.printer ≡ printer }
        ensures none { result.sheets.items ≡ [] }
    {
        FolderTrail {
            printer,
            sheets: Vec::new(alloc),
        }
    }

    /// Reads one entry more, in order of writing. Where it says that the last place of a job was printed here, these are the pages of
    /// the next file of the folder.
    ///
    /// AllocError where memory for a page more is refused; then nothing has changed.
    pub fn take(&mut self, alloc: Global, entry: &Entry) -> Result<Option<Vec<Sheet>>, AllocError>
        ensures printer { self.new.printer ≡ self.old.printer }
        ensures pages { OnOk result (self.new.sheets.items
            ≡ F.pages_by self.old.printer entry.now self.old.sheets.items) }
        ensures job { IfOk result (λ job. MatchOption job
            (F.job_by self.old.printer entry.now self.old.sheets.items ≡ None)
            (λ sheets. F.job_by self.old.printer entry.now self.old.sheets.items
            ≡ Some sheets.items)) }
        ensures unchanged { OnErr result (self.new.sheets.items ≡ self.old.sheets.items) }
    {
        let Entry::AtPrinter(printer, sheet, turn) = entry else {
            return Ok(None);
        };
        if *printer != self.printer {
            return Ok(None);
        }
        match turn {
            Turn::Handed => {
                if sheet.place == 0 {
                    self.sheets.clear();
                }
            }
            Turn::Printed(Progress::Going) => self.sheets.push(*sheet)?,
            Turn::Printed(Progress::Done) => {
                self.sheets.push(*sheet)?;
                let job = mem::replace(&mut self.sheets, Vec::new(alloc));
                return Ok(Some(job));
            }
            Turn::Printed(Progress::Ended) | Turn::Failed => self.sheets.clear(),
        }
        Ok(None)
    }
}

/// Judges the file of a job: whether it is exactly these pages, one after the other. Tells how many octets it has, up to 2^64 - 1.
///
/// `Differs` where what is read isn't a page of these, or goes on behind the last, `Unread` where it can't be read, `Memory` where memory
/// for a page is refused.
pub fn judge_job<P: PrintedOctets>(
    printer: u32,
    alloc: Global,
    source: &mut P,
    sheets: &[Sheet],
) -> Result<u64, TrailFault>
    ensures sum { IfOk result (λ n. n ≡ sum_by (λ (s : Sheet). s.page.length) sheets.now) }
    ensures there { OnOk result (IsJob (P.octets source.old) sheets.now) }
    ensures fault { IfErr result (IsOfOne printer 0 sheets.now) }
{
    let Some(last) = sheets.last() else {
        return Ok(0);
    };
    let mut at = 0;
    for sheet in sheets {
        at = find(printer, alloc, source, at, sheet)?;
    }
    let mut behind = [0; 1];
    match read_at(source, at, &mut behind) {
        None => Err(TrailFault::Unread),
        Some(0) => Ok(at),
        Some(_) => Err(TrailFault::Differs(Differs {
            printer,
            job: last.job,
            place: last.place,
            octet: at,
        })),
    }
}
