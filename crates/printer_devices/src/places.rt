//! What printers print to, as it is found at a server's start.

ghost use Rattle.std.specs.Prelude.{◌≡◌, ◌==◌, IfErr, option_map};
ghost use Rattle.std.specs.List.{find};
ghost use Rattle.program_edge.specs.Openings.{IsPrinter, IsUnopened};
ghost use Rattle.program_edge.specs.declared.places.PlacedPrinter.{PlacedPrinter};

use crate::outlet::Outlet;
use crate::sharing::shared_folder;
use log::{Log, warn};
use program_edge::{DefaultFile, PrinterPlace, Settings, StartFault, StartPart, tell_cause};
use sink_devices::{names_of, try_folder};
use std::alloc::{AllocError, Global};
use std::fs::{File, Files};
use std::io;
use std::net::SocketAddrV4;

/// What a printer prints to, as it was found.
#[derive(Drop)]
pub enum OpenedPlace {
    /// A file, a device or a pipe, open at its end.
    File(Outlet),
    /// A printer on the network, to which no connection was opened yet.
    Socket(SocketAddrV4),
    /// A folder, and a number behind the greatest of the files there.
    Folder { path: String, next: u64 },
}

impl OpenedPlace {
    /// The pipe, where it is one: whether its reader has taken what was written can be asked.
    pub fn pipe(&self) -> Option<File> {
        match self {
            OpenedPlace::File(outlet) => outlet.pipe(),
            OpenedPlace::Socket(_) | OpenedPlace::Folder { .. } => None,
        }
    }

    /// Where what is printed begins: of a file of a disk how many octets it has, of a folder the number of the file that the first job
    /// becomes.
    pub fn begins(&self) -> Option<u64> {
        match self {
            OpenedPlace::File(outlet) => outlet.length(),
            OpenedPlace::Folder { next, .. } => Some(*next),
            OpenedPlace::Socket(_) => None,
        }
    }
}

/// Looks into a folder, in which a file has to be made for that: that none can shows here, and not at the first job. What a server that was
/// killed has left there is told.
fn open_folder<R: Files<File = File> + Log>(
    rt: &R,
    alloc: Global,
    path: String,
) -> io::Result<OpenedPlace> {
    try_folder(rt, alloc, path.as_str())?;
    let names = names_of(rt, path.as_str())?;
    if names.left > 0 {
        let left = names.left;
        warn!(rt; "{path}: {left} hidden files of jobs were left there, which were not printed to their ends");
    }
    let next = names.next;
    Ok(OpenedPlace::Folder { path, next })
}

/// Opens the file of a printer. That another one appends to it too is told: what both print is mixed up there.
fn open_file<R: Files<File = File> + Log>(
    rt: &R,
    printer: u32,
    path: &str,
) -> io::Result<OpenedPlace> {
    let outlet = Outlet::open(rt, path)?;
    if outlet.is_shared() {
        warn!(rt; "printer {printer}: {path}: another server or printer writes to it too, and what both print is mixed up there");
    }
    Ok(OpenedPlace::File(outlet))
}

/// Opens what the printer of a number prints to. A socket isn't dialled yet.
///
/// Opening where it can't be opened, of which the log is told why too; Memory.
fn open_at<R: Files<File = File> + Log>(
    rt: &R,
    alloc: Global,
    printer: u32,
    place: PrinterPlace<'_>,
) -> Result<OpenedPlace, StartFault>
    ensures { IfErr result (IsUnopened IsPrinter) }
{
    let (path, opened) = match place {
        PrinterPlace::Socket(address) => return Ok(OpenedPlace::Socket(address)),
        PrinterPlace::File(path) => (path, open_file(rt, printer, path)),
        PrinterPlace::Folder(path) => {
            (path, open_folder(rt, alloc, String::from_str(alloc, path)?))
        }
    };
    match opened {
        Ok(opened) => Ok(opened),
        Err(error) => {
            tell_cause(rt, &path, Some(error));
            let what = StartPart::Printer(printer);
            Err(StartFault::of(alloc, what, &path, &error))
        }
    }
}

/// What settings say that a printer prints to, if they say it.
pub fn place_of<'a>(settings: &Settings<'a>, printer: u32) -> Option<PrinterPlace<'a>>
    ensures { result ≡ option_map (λ (said : PlacedPrinter). said.place)
        (find (λ (said : PlacedPrinter). said.printer == printer) settings.now.printers.items) }
{
    let said = settings
        .printers
        .iter()
        .find(|said| said.printer == printer)?;
    Some(said.place)
}

/// The file of a printer of which the settings say nothing.
pub fn default_file<'a>(settings: &Settings<'a>, printer: u32) -> DefaultFile<'a>
    ensures directory { result.directory.now ≡ settings.now.out.now }
    ensures printer { result.printer ≡ printer }
{
    DefaultFile {
        directory: settings.out,
        printer,
    }
}

/// Opens what N printers print to: what the settings say of each, or else the file `printer-K` in their directory, at its end.
///
/// Opening of the printer whose folder another one has too, or of the first that can't be opened, of which the log is told why too; Memory.
pub fn open_places<R: Files<File = File> + Log>(
    rt: &R,
    alloc: Global,
    settings: &Settings<'_>,
    printers: u32,
) -> Result<Vec<OpenedPlace>, StartFault>
    ensures { IfErr result (IsUnopened IsPrinter) }
{
    if let Some(shared) = shared_folder(rt, settings.printers.as_slice()) {
        let what = StartPart::Printer(shared.second);
        return Err(StartFault::of(alloc, what, &shared.path, &shared));
    }
    let mut places = Vec::new(alloc);
    for at in 0..printers {
        let printer = at + 1;
        let opened = match place_of(settings, printer) {
            Some(place) => open_at(rt, alloc, printer, place)?,
            None => {
                let path = default_file(settings, printer).to_string(alloc)?;
                open_at(rt, alloc, printer, PrinterPlace::File(path.as_str()))?
            }
        };
        places.push(opened)?;
    }
    Ok(places)
}

/// The pipes among these, by the printers' numbers, from 1.
pub fn pipes_of(alloc: Global, places: &[OpenedPlace]) -> Result<Vec<Option<File>>, AllocError> {
    let mut pipes = Vec::new(alloc);
    for opened in places {
        pipes.push(opened.pipe())?;
    }
    Ok(pipes)
}
