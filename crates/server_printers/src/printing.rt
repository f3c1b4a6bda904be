//! The pages of a printer, each written to what the printer prints to.

use crate::device_sink::DeviceSink;
use log::Log;
use printer_devices::{Device, OpenedPlace, PrinterFile};
use printer_sinks::{Dial, FolderSink, Pause, PrinterFolder, SocketSink};
use printer_worker::{PrintSink, work};
use server_house::{Hall, House, HouseLedger, HouseSpool, PrintingSeat};
use server_pages::{Explains, Watched};
use sink_devices::{Causes, Errand, FileFolder, Pauses, TcpDial};
use std::fs::{File, Files};
use std::io::Error;
use std::net::{Net, TcpListener, TcpStream};
use std::rt::Clock;
use std::sync::Wait;
use std::time::Instant;

/// Who has pages of a house printed. What the printer prints to asks it while it waits.
#[derive(Drop)]
pub struct Printing<'h, 'a, R, E: HouseLedger> {
    // What a house is, in references of its own: so each type that names this one knows how long they live.
    spool: &'h HouseSpool<E>,
    hall: &'h Hall<'a, R>,
    rt: &'a R,
}

impl<'h, 'a, R, E: HouseLedger> Printing<'h, 'a, R, E> {
    /// Who has pages of this house printed.
    pub fn new(house: House<'h, 'a, R, E>) -> Printing<'h, 'a, R, E> {
        let House { spool, hall } = house;
        Printing {
            spool,
            hall,
            rt: hall.rt,
        }
    }

    /// The house.
    fn house(&self) -> House<'h, 'a, R, E> {
        House {
            spool: self.spool,
            hall: self.hall,
        }
    }
}

impl<R: Files<File = File> + Clock + Log + Wait, E: HouseLedger> Errand for Printing<'_, '_, R, E> {
    fn is_wanted(&self, job: u64) -> bool {
        self.house().is_wanted(job)
    }

    fn is_cut_off(&self) -> bool {
        self.house().is_cut_off()
    }

    fn tell_unreached(&self, printer: u32, job: u64, seconds: u64) {
        self.house().tell_unreached(printer, job, seconds);
    }

    fn note_unreached(&self, printer: u32, cause: Error) {
        self.house().note_unreached(printer, cause);
    }

    fn note_halt(&self, printer: u32) {
        self.house().note_halt(printer);
    }

    fn note_taken(&self, printer: u32) {
        self.house().note_taken(printer);
    }

    fn note_end(&self, printer: u32, doubtful: Option<u64>) {
        self.house().note_end(printer, doubtful);
    }

    fn first_try(&self, printer: u32, job: u64) -> Option<Instant> {
        self.house().first_try(printer, job)
    }

    fn offer(&self, printer: u32, job: u64, tried_ms: u64) {
        self.house().offer(printer, job, tried_ms);
    }

    fn withdraw(&self, printer: u32) -> bool {
        self.house().withdraw(printer)
    }
}

/// What a printer of a house prints to, by which the house is asked while it waits.
type PrintingDevice<'p, 'h, 'a, R, E> = Device<
    'p,
    Printing<'h, 'a, R, E>,
    TcpDial<'p, R, Printing<'h, 'a, R, E>>,
    Pauses<'p, R, Printing<'h, 'a, R, E>>,
    FileFolder<'p, R>,
>;

impl<
    'h,
    'a,
    R: Files<File = File> + Net<Listener = TcpListener, Stream = TcpStream> + Clock + Log + Wait,
    E: HouseLedger,
> Printing<'h, 'a, R, E> {
    /// Has a printer's pages written to a sink, of which each page is noted, until the spool is closed. Answers the seat.
    fn print_noted<S: PrintSink + Explains + Drop>(
        &self,
        seat: PrintingSeat<E>,
        sink: S,
    ) -> PrintingSeat<E> {
        let mut sink = Watched::new(self.house(), seat.printer(), sink);
        let (seat, _report) = work(self.rt, self.spool, seat, &mut sink);
        seat
    }

    /// The same, to this device.
    fn print_to<D: Dial + Causes + Drop, P: Pause + Drop, F: PrinterFolder + Causes + Drop>(
        &self,
        seat: PrintingSeat<E>,
        device: Device<'_, Printing<'_, '_, R, E>, D, P, F>,
    ) -> PrintingSeat<E> {
        self.print_noted(seat, DeviceSink::new(device))
    }

    /// What the printer of this number prints to, as a device.
    fn device_of(&self, printer: u32, opened: OpenedPlace) -> PrintingDevice<'_, 'h, 'a, R, E> {
        let (hall, limits) = (self.hall, self.hall.printer_limits);
        match opened {
            OpenedPlace::File(outlet) => {
                Device::File(PrinterFile::new(printer, outlet, self, hall.kept.is_some()))
            }
            OpenedPlace::Socket(address) => {
                let silence = limits.silence_seconds;
                let dial = TcpDial::new(hall.rt, printer, address.into(), silence, self);
                let pauses = Pauses::new(hall.rt, printer, limits.patience_minutes, self);
                Device::Socket(SocketSink::new(dial, pauses, u64::MAX))
            }
            OpenedPlace::Folder { path, next } => {
                let folder = FileFolder::new(hall.rt, hall.alloc, printer, path, next);
                Device::Folder(FolderSink::new(folder))
            }
        }
    }

    /// Has a printer's pages written to what it prints to, until the spool is closed. Answers the seat.
    pub fn print_all(&self, seat: PrintingSeat<E>, opened: OpenedPlace) -> PrintingSeat<E> {
        let device = self.device_of(seat.printer(), opened);
        self.print_to(seat, device)
    }
}
