//! A printer's device as what a printer's worker writes its pages to.

ghost use Rattle.std.specs.Prelude.{◌≡◌};

use printer_devices::Device;
use printer_sinks::{Dial, Pause, PrinterFolder};
use printer_worker::{HandedPage, Leaving, PrintSink, SinkFault};
use server_pages::Explains;
use sink_devices::{Causes, Errand};
use std::io::Error;

/// A device of which the pages are counted that were written, and that were not.
#[derive(Drop)]
pub(crate) struct DeviceSink<
    'a,
    Q: Errand,
    D: Dial + Drop,
    P: Pause + Drop,
    F: PrinterFolder + Drop,
> {
    device: Device<'a, Q, D, P, F>,
    cause: Option<Error>,
    written: u64,
    faults: u64,
}

impl<
    'a,
    Q: Errand,
    D: Dial + Causes + Drop,
    P: Pause + Drop,
    F: PrinterFolder + Causes + Drop,
> DeviceSink<'a, Q, D, P, F> {
    /// A sink that writes to this device, on which no page was written.
    pub(crate) fn new(device: Device<'a, Q, D, P, F>) -> DeviceSink<'a, Q, D, P, F>
        ensures { (result.written ≡ 0) × (result.faults ≡ 0) }
    {
        DeviceSink {
            device,
            cause: None,
            written: 0,
            faults: 0,
        }
    }
}

impl<Q: Errand, D: Dial + Causes + Drop, P: Pause + Drop, F: PrinterFolder + Causes + Drop> Explains
    for DeviceSink<'_, Q, D, P, F> {
    ghost why = { λ sink. sink.cause };

    fn cause(&self) -> Option<Error> {
        self.cause
    }

    fn may_go_on(&self) -> bool {
        self.device.is_network()
    }
}

impl<
    Q: Errand,
    D: Dial + Causes + Drop,
    P: Pause + Drop,
    F: PrinterFolder + Causes + Drop,
> PrintSink for DeviceSink<'_, Q, D, P, F> {
    ghost oks = { λ sink. sink.written };

    ghost errs = { λ sink. sink.faults };

    fn write_page(&mut self, page: &HandedPage) -> Result<(), SinkFault> {
        if self.device.write(page.job, page.bytes()).is_err() {
            self.cause = self.device.cause();
            self.faults = self.faults.saturating_add(1);
            return Err(SinkFault);
        }
        self.written = self.written.saturating_add(1);
        Ok(())
    }

    fn leave_job(&mut self, leaving: Leaving) -> Result<(), SinkFault> {
        let left = self
            .device
            .leave(leaving == Leaving::Done)
            .or(Err(SinkFault));
        self.cause = if left.is_err() {
            self.device.untold()
        } else {
            None
        };
        left
    }
}
