//! What the pages of a printer are written to: a file, a printer on the network, or a folder.
//!
//! A job of which each page was written is printed. What a printer on the network does with its connection then, how late it ends it or
//! that it resets it, leaves a doubt, which is told where it is seen; it makes no printed job a failed one. A folder and a disk can still
//! lack it.

ghost use Rattle.std.specs.Prelude.{◌≡◌, IsOk, true};
ghost use Rattle.printer_devices.specs.declared.device.Device.TheVariants as device;

use crate::faults::DeviceFault;
use crate::outlet::{Outlet, PatientFile};
use printer_sinks::{Dial, FolderSink, Pause, PrinterFolder, SocketSink};
use sink_devices::{Causes, Errand};
use std::fs::File;
use std::io::{Error, Write};

/// A file that the pages of a printer are written to.
#[derive(Drop)]
pub struct PrinterFile<'a, Q: Errand> {
    file: PatientFile<'a, Q>,
    /// Why a page wasn't written last.
    cause: Option<Error>,
    /// The same file, where a job that is done has to be on the disk before it is let go.
    synced: Option<File>,
    /// Why the last job that was done may not be on the disk.
    unsynced: Option<Error>,
}

impl<'a, Q: Errand> PrinterFile<'a, Q> {
    /// The pages of the printer of this number are written to this, which asks that while it waits. Where `is_synced` a job that is done
    /// has to be on the disk, if the file is one of a disk.
    pub fn new(printer: u32, outlet: Outlet, errand: &'a Q, is_synced: bool) -> PrinterFile<'a, Q> {
        PrinterFile {
            synced: if is_synced { outlet.twin() } else { None },
            file: PatientFile::new(printer, outlet.file, errand),
            cause: None,
            unsynced: None,
        }
    }

    /// Writes a page of a job.
    fn write(&mut self, job: u64, octets: &[u8]) -> Result<(), DeviceFault> {
        self.file.come_to(job);
        self.file.write_all(octets).map_err(|cause| {
            self.cause = Some(cause);
            DeviceFault
        })
    }

    /// Has what was printed on the disk, where that is asked.
    fn sync(&mut self) -> Result<(), DeviceFault> {
        self.unsynced = match &self.synced {
            Some(file) => file.sync_data().err(),
            None => None,
        };
        match self.unsynced {
            None => Ok(()),
            Some(_) => Err(DeviceFault),
        }
    }
}

/// What the pages of a printer are written to.
#[derive(Drop)]
pub enum Device<'a, Q: Errand, D: Dial + Drop, P: Pause + Drop, F: PrinterFolder + Drop> {
    File(PrinterFile<'a, Q>),
    Socket(SocketSink<D, P>),
    Folder(FolderSink<F>),
}

impl<Q: Errand, D: Dial + Causes + Drop, P: Pause + Drop, F: PrinterFolder + Causes + Drop> Device<
    '_,
    Q,
    D,
    P,
    F,
> {
    /// Writes a page of a job.
    pub fn write(&mut self, job: u64, octets: &[u8]) -> Result<(), DeviceFault> {
        match self {
            Device::File(file) => file.write(job, octets),
            Device::Socket(socket) => socket.print(job, octets).or(Err(DeviceFault)),
            Device::Folder(folder) => folder.print(job, octets).or(Err(DeviceFault)),
        }
    }

    /// Leaves the job that it is at: where that is done, it has to be where it should be, in a folder or on the disk.
    pub fn leave(&mut self, is_done: bool) -> Result<(), DeviceFault>
        ensures network { (sink : _) → self.old ≡ device.Socket sink → IsOk result }
    {
        match self {
            Device::File(file) if is_done => file.sync(),
            Device::File(_) => Ok(()),
            Device::Socket(socket) => {
                socket.leave();
                Ok(())
            }
            Device::Folder(folder) => folder.leave(is_done).or(Err(DeviceFault)),
        }
    }

    /// Why a job that was left isn't where it should be, where nobody was told that yet.
    pub fn untold(&self) -> Option<Error> {
        match self {
            Device::Folder(folder) => folder.folder().cause(),
            Device::File(file) => file.unsynced,
            Device::Socket(_) => None,
        }
    }

    /// Whether it is a printer on the network. Each job has a connection of its own there, so what came of one says nothing of the next.
    pub fn is_network(&self) -> bool
        ensures { (sink : _) → self.now ≡ device.Socket sink → result ≡ true }
    {
        matches!(self, Device::Socket(_))
    }

    /// Why a page wasn't written last.
    pub fn cause(&self) -> Option<Error> {
        match self {
            Device::File(file) => file.cause,
            Device::Socket(socket) => socket.dial().cause(),
            Device::Folder(folder) => folder.folder().cause(),
        }
    }
}
