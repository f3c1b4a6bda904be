//! What printers wrote, read again beside their account.

ghost use Rattle.std.specs.Prelude.{◌<◌, IfSome, length};
ghost use Rattle.program_edge.specs.Places.{IsPlaceText};

use crate::fault::{Lacks, ReportFault};
use crate::folders::{FolderReread, JobFile};
use crate::notes::{Told, put_elsewhere, put_note};
use crate::places::{asked_printer, is_asked, path_at, path_of};
use crate::printers::{PrintedFile, job_numbers};
use account::Entry;
use lpd_commands::OctetWrite;
use lpd_values::Octets;
use printed_pages::{PrinterTrail, RunBegins, TrailFault};
use program_edge::PrinterPlace;
use segment_audit::SegmentLine;
use segment_text::HeadPrinter;
use std::alloc::{AllocError, Global};
use std::fs::{File, Files};
use std::{mem, str};

/// A printer whose file is read again.
#[derive(Drop)]
struct FileReread {
    trail: PrinterTrail,
    octets: PrintedFile,
    path: String,
}

/// How a printer is read again.
#[derive(Drop)]
enum Reread {
    /// It isn't.
    Nowhere,
    File(FileReread),
    Folder(FolderReread),
}

/// A job's file that has other octets, in a folder from which somebody takes files away: it may be that of a later run's job.
#[derive(Drop)]
struct Doubt<'r> {
    printer: u32,
    place: Octets,
    job: u64,
    file: JobFile,
    fault: ReportFault<'r>,
}

/// A printer at one of its places.
#[derive(Drop)]
struct Printed {
    /// The place, as the heads tell it.
    place: Octets,
    reread: Reread,
}

/// One at a place that the run which is read doesn't print to.
#[derive(Drop)]
struct Resting {
    /// At which place in the heads the printer stands.
    at: usize,
    printed: Printed,
}

/// The printers of an account, of which some are read again.
#[derive(Drop)]
pub(crate) struct Rereading<'r> {
    /// Each a directory, or a printer's number, an equals sign and a path, with or without a place between.
    places: Vec<&'r str>,
    /// The numbers of the printers from whose folders somebody takes files away.
    taken: Vec<&'r str>,
    /// The first job that a printer finished and of which no file is there, where nobody is said to take any away.
    lacks: Option<ReportFault<'r>>,
    /// Those of which it is known at the end alone whether they are the files of later jobs.
    doubts: Vec<Doubt<'r>>,
    /// By the printers' numbers, from 1.
    rereads: Vec<Printed>,
    /// Those at the places of other runs.
    resting: Vec<Resting>,
    /// How many lines of printers the head had until now.
    heads: usize,
    run: u64,
    begins_run: bool,
}

/// What a printer prints to, as the head of a segment tells it. None where that is nothing that a server writes.
fn place_of(printer: &HeadPrinter) -> Option<PrinterPlace<'_>>
    ensures { IfSome result (IsPlaceText printer.now.place) }
{
    PrinterPlace::read(str::from_utf8(printer.place.as_slice()).ok()?)
}

impl Reread {
    /// How the printer of a number and a place is read again, from this path.
    fn open<R: Files<File = File>>(
        rt: &R,
        alloc: Global,
        printer: u32,
        place: &HeadPrinter,
        path: String,
    ) -> Result<Reread, AllocError> {
        match place_of(place) {
            Some(PrinterPlace::Folder(_)) => match job_numbers(rt, alloc, path.as_str()) {
                Ok(numbers) => {
                    let folder = FolderReread::new(alloc, printer, path, numbers);
                    Ok(Reread::Folder(folder))
                }
                Err(_) => Ok(Reread::Nowhere),
            },
            Some(PrinterPlace::File(_)) if place.begins.is_some() => {
                match PrintedFile::open(rt, path.as_str()) {
                    Ok(octets) => Ok(Reread::File(FileReread {
                        trail: PrinterTrail::new(printer),
                        octets,
                        path,
                    })),
                    Err(_) => Ok(Reread::Nowhere),
                }
            }
            // What went over the network can't be read again, nor what isn't a regular file.
            Some(PrinterPlace::File(_) | PrinterPlace::Socket(_)) | None => Ok(Reread::Nowhere),
        }
    }

    /// A run begins, in which what is printed begins there. What lies before in a file is told.
    fn begin_run<'a, O: OctetWrite>(
        &mut self,
        alloc: Global,
        output: &mut O,
        printer: u32,
        begins: Option<u64>,
    ) -> Result<(), ReportFault<'a>> {
        match self {
            Reread::Nowhere => Ok(()),
            Reread::Folder(folder) => {
                folder.begin_run(begins)?;
                Ok(())
            }
            Reread::File(file) => match file.trail.begin_run(begins) {
                RunBegins::There => Ok(()),
                RunBegins::Behind(octets) => put_note(
                    alloc,
                    output,
                    printer,
                    Told::Between(octets),
                ),
                RunBegins::Shorter(octets) => put_note(alloc, output, printer, Told::Lost(octets)),
            },
        }
    }

    /// Reads one entry more. Which file is read is told beside a fault.
    fn take<R: Files<File = File>>(
        &mut self,
        rt: &R,
        alloc: Global,
        entry: &Entry,
    ) -> Result<(), TrailFault> {
        match self {
            Reread::Nowhere => Ok(()),
            Reread::File(file) => file.trail.take(alloc, &mut file.octets, entry),
            Reread::Folder(folder) => folder.take(rt, alloc, entry),
        }
    }

    /// Which file the last job became, where it is a folder and that is told.
    fn last_file(&self) -> Option<JobFile> {
        match self {
            Reread::Folder(folder) => folder.last_file(),
            Reread::Nowhere | Reread::File(_) => None,
        }
    }

    /// Which file was judged last; the folder where it isn't known which of its files is the job's. AllocError where memory is refused.
    fn judged_path(&self, alloc: Global) -> Result<String, AllocError> {
        match self {
            Reread::Nowhere => Ok(String::new(alloc)),
            Reread::File(file) => String::from_str(alloc, file.path.as_str()),
            Reread::Folder(folder) => folder.wanted(alloc),
        }
    }

    /// The account has ended: what was judged is told, and what wasn't.
    fn end<'a, O: OctetWrite>(
        &mut self,
        alloc: Global,
        output: &mut O,
        printer: u32,
    ) -> Result<(), ReportFault<'a>> {
        match self {
            Reread::Nowhere => Ok(()),
            Reread::Folder(folder) => {
                put_note(alloc, output, printer, Told::Judged(folder.octets()))?;
                for number in &folder.strays(alloc)? {
                    put_note(alloc, output, printer, Told::Stray(*number))?;
                }
                Ok(())
            }
            Reread::File(file) => {
                put_note(alloc, output, printer, Told::Judged(file.trail.judged()))?;
                let unplaced = file.trail.unjudged();
                if unplaced != 0 {
                    put_note(alloc, output, printer, Told::Unplaced(unplaced))?;
                }
                let tail = file
                    .octets
                    .length()
                    .and_then(|length| file.trail.end(length));
                match tail {
                    Some(octets) if octets != 0 => {
                        put_note(alloc, output, printer, Told::Tail(octets))
                    }
                    _ => Ok(()),
                }
            }
        }
    }
}

/// Which of these is the printer at this place in the heads, at a place of it, if one is.
fn resting_at(resting: &[Resting], at: usize, place: &[u8]) -> Option<usize>
    ensures { IfSome result (λ index. index < length resting.now) }
{
    resting
        .iter()
        .position(|it| it.at == at && it.printed.place.as_slice() == place)
}

impl<'r> Rereading<'r> {
    /// The printers at these places: each a directory, or a printer's number, an equals sign and a path; and those from whose folders
    /// somebody takes files away, by their numbers.
    ///
    /// AllocError where memory is refused.
    pub(crate) fn new(
        alloc: Global,
        places: &[&'r str],
        taken: &[&'r str],
    ) -> Result<Rereading<'r>, AllocError> {
        Ok(Rereading {
            places: Vec::from_slice(alloc, places)?,
            taken: Vec::from_slice(alloc, taken)?,
            lacks: None,
            doubts: Vec::new(alloc),
            rereads: Vec::new(alloc),
            resting: Vec::new(alloc),
            run: 0,
            heads: 0,
            begins_run: false,
        })
    }

    /// The printer of a number at a place, where it is read again from this path.
    fn open<'a, R: Files<File = File>, O: OctetWrite>(
        rt: &R,
        alloc: Global,
        output: &mut O,
        printer: u32,
        place: &HeadPrinter,
        path: Option<String>,
    ) -> Result<Printed, ReportFault<'a>> {
        let reread = match path {
            None => Reread::Nowhere,
            Some(path) => {
                let reread = Reread::open(rt, alloc, printer, place, path)?;
                if let Reread::Nowhere = reread {
                    put_note(alloc, output, printer, Told::Unread)?;
                }
                reread
            }
        };
        let place = Octets::copy_of(alloc, place.place.as_slice())?;
        Ok(Printed { place, reread })
    }

    /// The printer at this place in the heads at the place that a run tells: one that was read before, or another.
    fn move_to<'a, R: Files<File = File>, O: OctetWrite>(
        &mut self,
        rt: &R,
        alloc: Global,
        output: &mut O,
        at: usize,
        place: &HeadPrinter,
    ) -> Result<(), ReportFault<'a>> {
        let printer = u32::try_from(at).unwrap_or(u32::MAX).saturating_add(1);
        let known = resting_at(self.resting.as_slice(), at, place.place.as_slice());
        let next = match known {
            Some(index) => self.resting.remove(index).printed,
            None => {
                let path = path_at(
                    alloc,
                    self.places.as_slice(),
                    printer,
                    place.place.as_slice(),
                )?;
                if path.is_none() && is_asked(self.places.as_slice(), printer) {
                    put_elsewhere(alloc, output, printer, self.run, place.place.as_slice())?;
                }
                Rereading::open(rt, alloc, output, printer, place, path)?
            }
        };
        if let Some(current) = self.rereads.get_mut(at) {
            let printed = mem::replace(current, next);
            self.resting.push(Resting { at, printed })?;
        }
        Ok(())
    }

    /// Whether the printer at this place in the heads was at another place until now.
    fn has_moved(&self, at: usize, place: &HeadPrinter) -> bool {
        match self.rereads.get(at) {
            Some(printed) => printed.place.as_slice() != place.place.as_slice(),
            None => false,
        }
    }

    /// Reads the line of a head that tells a printer's place.
    fn take_head<'a, R: Files<File = File>, O: OctetWrite>(
        &mut self,
        rt: &R,
        alloc: Global,
        output: &mut O,
        place: &HeadPrinter,
    ) -> Result<(), ReportFault<'a>> {
        let at = self.heads;
        self.heads = at.saturating_add(1);
        let printer = u32::try_from(self.heads).unwrap_or(u32::MAX);
        if at >= self.rereads.len() {
            let path = path_of(
                alloc,
                self.places.as_slice(),
                printer,
                place.place.as_slice(),
            )?;
            if path.is_none() && is_asked(self.places.as_slice(), printer) {
                put_elsewhere(alloc, output, printer, self.run, place.place.as_slice())?;
            }
            let printed = Rereading::open(rt, alloc, output, printer, place, path)?;
            self.rereads.push(printed)?;
        } else if self.begins_run && self.has_moved(at, place) {
            self.move_to(rt, alloc, output, at, place)?;
        }
        match self.rereads.get_mut(at) {
            Some(printed) if self.begins_run => {
                let reread = &mut printed.reread;
                reread.begin_run(alloc, output, printer, place.begins)
            }
            _ => Ok(()),
        }
    }

    /// Reads an entry, in the line of this number of the file at a path.
    fn take_entry<R: Files<File = File>, O: OctetWrite>(
        &mut self,
        rt: &R,
        alloc: Global,
        output: &mut O,
        entry: &Entry,
        path: &'r str,
        line: u64,
    ) -> Result<(), ReportFault<'r>> {
        let Entry::AtPrinter(printer, sheet, _) = entry else {
            return Ok(());
        };
        let Some(at) = printer.checked_sub(1) else {
            return Ok(());
        };
        let Some(printed) = self.rereads.get_mut(at as usize) else {
            return Ok(());
        };
        let reread = &mut printed.reread;
        match reread.take(rt, alloc, entry) {
            Ok(()) => Ok(()),
            Err(TrailFault::Memory) => Err(ReportFault::Memory),
            Err(TrailFault::Differs(differs)) => {
                let text = reread.judged_path(alloc)?;
                let told = (differs.job, reread.last_file());
                let place = Octets::copy_of(alloc, printed.place.as_slice())?;
                let fault = ReportFault::Printed(path, line, differs, text);
                self.doubt(*printer, place, told, fault)
            }
            Err(TrailFault::Unread) => {
                if let Reread::Folder(folder) = reread {
                    let file = folder.wanted(alloc)?;
                    put_note(alloc, output, *printer, Told::Missing(sheet.job))?;
                    let (printer, job) = (*printer, sheet.job);
                    return self.miss(path, line, Lacks { printer, job, file });
                }
                *reread = Reread::Nowhere;
                put_note(alloc, output, *printer, Told::Unread)
            }
        }
    }

    /// A job's file has other octets: that is a fault, or where somebody takes files away from that folder it may be another job's.
    fn doubt(
        &mut self,
        printer: u32,
        place: Octets,
        told: (u64, Option<JobFile>),
        fault: ReportFault<'r>,
    ) -> Result<(), ReportFault<'r>> {
        let (job, Some(file)) = told else {
            return Err(fault);
        };
        if !self.is_taken(printer) {
            return Err(fault);
        }
        self.doubts.push(Doubt {
            printer,
            place,
            job,
            file,
            fault,
        })?;
        Ok(())
    }

    /// Whether it is said that somebody takes files away from this printer's folder.
    fn is_taken(&self, printer: u32) -> bool {
        self.taken.iter().any(|taken| taken.parse() == Ok(printer))
    }

    /// The printer of a number at a place, if it is read again there.
    fn printed_at(&self, printer: u32, place: &[u8]) -> Option<&Printed> {
        let at = printer.checked_sub(1)? as usize;
        match self.rereads.get(at) {
            Some(printed) if printed.place.as_slice() == place => return Some(printed),
            _ => {}
        }
        let index = resting_at(self.resting.as_slice(), at, place)?;
        Some(&self.resting[index].printed)
    }

    /// Whether a later job of a printer became the same file.
    fn is_later(&self, printer: u32, place: &[u8], file: JobFile) -> bool {
        match self.printed_at(printer, place) {
            Some(printed) => match &printed.reread {
                Reread::Folder(folder) => folder.is_later(file),
                Reread::Nowhere | Reread::File(_) => false,
            },
            None => false,
        }
    }

    /// Settles the files of which nothing was known before the end: each is a later job's, which is told, or else that is a fault.
    fn settle_doubts<O: OctetWrite>(
        &mut self,
        alloc: Global,
        output: &mut O,
    ) -> Result<(), ReportFault<'r>> {
        let doubts = mem::replace(&mut self.doubts, Vec::new(alloc));
        for doubt in doubts {
            if !self.is_later(doubt.printer, doubt.place.as_slice(), doubt.file) {
                return Err(doubt.fault);
            }
            put_note(alloc, output, doubt.printer, Told::Missing(doubt.job))?;
        }
        Ok(())
    }

    /// A job has no file. Where nobody is said to take files away from that folder that is a fault, which is told at the end.
    fn miss(&mut self, path: &'r str, line: u64, lacks: Lacks) -> Result<(), ReportFault<'r>> {
        if !self.is_taken(lacks.printer) && self.lacks.is_none() {
            self.lacks = Some(ReportFault::Missing(path, line, lacks));
        }
        Ok(())
    }

    /// Reads a line that an audit has taken, of this number of the file at a path. What isn't judged is told.
    ///
    /// `Printed` where what was printed isn't what the account says, `WriteFile` where a line can't be written, `Memory`.
    pub(crate) fn take<R: Files<File = File>, O: OctetWrite>(
        &mut self,
        rt: &R,
        alloc: Global,
        output: &mut O,
        got: &SegmentLine,
        path: &'r str,
        line: u64,
    ) -> Result<(), ReportFault<'r>> {
        if self.places.is_empty() {
            return Ok(());
        }
        match got {
            SegmentLine::Origin(origin) => {
                self.begins_run = origin.segment == 1;
                self.run = origin.run;
                self.heads = 0;
                Ok(())
            }
            SegmentLine::Printer(place) => self.take_head(rt, alloc, output, place),
            SegmentLine::Entry(entry) => self.take_entry(rt, alloc, output, entry, path, line),
            SegmentLine::Config(_) | SegmentLine::Start(_) | SegmentLine::Last(_) => Ok(()),
        }
    }

    /// Tells of each printer whose place was said, and that the account doesn't have.
    fn tell_unknown<O: OctetWrite>(
        &self,
        alloc: Global,
        output: &mut O,
    ) -> Result<(), ReportFault<'r>> {
        for text in self.places.iter() {
            match asked_printer(text) {
                Some(printer) if printer == 0 || printer as usize > self.rereads.len() => {
                    put_note(alloc, output, printer, Told::Unknown)?;
                }
                _ => {}
            }
        }
        Ok(())
    }

    /// The account has ended: for each printer that was read again is told what was judged, and what wasn't.
    ///
    /// `Missing` with the first job of which no file is there, once all that is told.
    pub(crate) fn end<O: OctetWrite>(
        &mut self,
        alloc: Global,
        output: &mut O,
    ) -> Result<(), ReportFault<'r>> {
        let mut printer = 0;
        for printed in self.rereads.iter_mut() {
            printer = u32::saturating_add(printer, 1);
            printed.reread.end(alloc, output, printer)?;
        }
        for resting in self.resting.iter_mut() {
            let printer = u32::try_from(resting.at).unwrap_or(u32::MAX);
            let reread = &mut resting.printed.reread;
            reread.end(alloc, output, printer.saturating_add(1))?;
        }
        self.tell_unknown(alloc, output)?;
        self.settle_doubts(alloc, output)?;
        match self.lacks.take() {
            Some(lacks) => Err(lacks),
            None => Ok(()),
        }
    }
}
