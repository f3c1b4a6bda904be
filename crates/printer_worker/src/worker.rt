//! The worker.

ghost use Rattle.std.specs.Prelude.{◌≡◌, ◌≢◌, ◌<◌, ◌+◌, ◌^◌, true, OnErr, OnOk};
ghost use Rattle.shared_spool.specs.Seats.{next_desk};
ghost use Rattle.spool_calls.specs.declared.answers.Next.TheVariants as next;
ghost use Rattle.printer_worker.specs.Work.{Adds, Rises, without_page};

use crate::leaving::Leaving;
use crate::sink::PrintSink;
use shared_spool::{Foreign, HandedPage, Next, PrinterSeat, Progress, SharedSpool, SpoolLedger};
use std::sync::Wait;
use std::sync::ledger::Ledger;

/// Why a worker ended.
#[derive(Clone, Copy, Debug, PartialEq, Eq)]
pub enum Ending {
    /// The spool is closed.
    Closed,
    /// A page was out at the printer when the worker began.
    Busy,
    /// The spool didn't take a page back that it had handed to the printer.
    Foreign,
}

/// What a worker did.
#[derive(Clone, Copy, Debug, PartialEq, Eq)]
pub struct WorkReport {
    /// How many pages it wrote.
    pub written: u64,
    /// How many it couldn't write.
    pub faults: u64,
    /// Why it ended.
    pub ending: Ending,
}

/// The spool didn't take a page back.
#[derive(Clone, Copy)]
struct Refused;

/// A page that the sink was given.
#[derive(Clone, Copy)]
struct TriedPage {
    job: u64,
    /// Whether it was written.
    wrote: bool,
}

/// Gives a page back, as one that was written or one that wasn't, and answers whether its job is done with that. A page that
/// the spool doesn't take is surrendered.
fn give_back<E: SpoolLedger, K: Ledger, H: Ledger, R: Wait>(
    rt: &R,
    spool: &SharedSpool<E, K, H>,
    seat: &mut PrinterSeat<E, K, H>,
    page: HandedPage,
    wrote: bool,
) -> Result<bool, Refused>
    ensures taken { OnOk result (seat.new ≡ without_page wrote seat.old) }
    ensures foreign { OnErr result (seat.new ≡ seat.old) }
{
    let refused = if wrote {
        match spool.printed(rt, seat, page) {
            Ok(progress) => return Ok(progress == Progress::Done),
            Err(Foreign { page }) => page,
        }
    } else {
        match spool.failed(rt, seat, page) {
            Ok(()) => return Ok(false),
            Err(Foreign { page }) => page,
        }
    };
    refused.surrender();
    Err(Refused)
}

/// The next page. `last` is the last page that the sink was given, where its job isn't left, and None after the call. Where the
/// next page is none of that job, the sink leaves it first: at once, though no other page may be next for long.
fn next_page<E: SpoolLedger, K: Ledger, H: Ledger, R: Wait, S: PrintSink>(
    rt: &R,
    spool: &SharedSpool<E, K, H>,
    seat: &mut PrinterSeat<E, K, H>,
    sink: &mut S,
    last: &mut Option<TriedPage>,
) -> Next
    ensures seat { seat.new ≡ next_desk result seat.old }
    // No share has more hand-outs than a number holds.
    ensures bound { seat.new.sums.handed < 2 ^ 64 }
    ensures something { (result ≢ next.Nothing) × (result ≢ next.Stopped) }
    ensures oks { S.oks sink.new ≡ S.oks sink.old }
    ensures errs { S.errs sink.new ≡ S.errs sink.old }
{
    let Some(last) = last.take() else {
        return spool.next_wait(rt, seat);
    };
    let answer = spool.next_at_once(rt, seat);
    let leaving = match &answer {
        Next::Handed(page) if page.job == last.job => return answer,
        Next::Closed => Leaving::Closed,
        _ if last.wrote => Leaving::Ended,
        _ => Leaving::Failed,
    };
    let _ = sink.leave_job(leaving);
    match answer {
        Next::Nothing | Next::Stopped => spool.next_wait(rt, seat),
        answer => answer,
    }
}

/// Prints pages until the spool is closed. It waits where the spool has no page for its printer.
///
/// It ends with Closed; with Busy only where the seat came with a page out; or with Foreign, where
/// the spool didn't take a page back, which is surrendered then.
pub fn work<E: SpoolLedger, K: Ledger, H: Ledger, R: Wait, S: PrintSink>(
    rt: &R,
    spool: &SharedSpool<E, K, H>,
    seat: PrinterSeat<E, K, H>,
    sink: &mut S,
) -> (PrinterSeat<E, K, H>, WorkReport)
    ensures printer { result.0.printer ≡ seat.printer }
    // Each page that was handed to the seat is in the report.
    ensures taken { result.0.sums.handed
        ≡ seat.sums.handed + (result.1.written + result.1.faults) }
    // And each came back as it is told there, but for the one at which the worker ended.
    ensures added { Adds result.1 seat.sums result.0.sums }
    ensures written { Rises (S.oks sink.old) (S.oks sink.new) result.1.written }
    ensures faults { Rises (S.errs sink.old) (S.errs sink.new) result.1.faults }
    ensures busy { result.1.ending ≡ Ending.Busy → seat.is_out ≡ true }
{
    let mut seat = seat;
    let mut written = 0u64;
    let mut faults = 0u64;
    let mut ending = Ending::Closed;
    // The last page that the sink was given, where its job isn't left.
    let mut last = None;
    'pages: for _ in rt.forever() {
        let is_out = seat.is_out();
        let page = match next_page(rt, spool, &mut seat, sink, &mut last) {
            Next::Handed(page) => page,
            Next::Closed => break,
            Next::Busy if is_out => {
                ending = Ending::Busy;
                break;
            }
            Next::Busy => continue,
            Next::Nothing | Next::Stopped => unreachable!(),
        };
        let wrote = sink.write_page(&page).is_ok();
        if wrote {
            written += 1;
        } else {
            faults += 1;
        }
        let job = page.job;
        match give_back(rt, spool, &mut seat, page, wrote) {
            Ok(true) => {
                let _ = sink.leave_job(Leaving::Done);
            }
            Ok(false) => last = Some(TriedPage { job, wrote }),
            Err(Refused) => {
                let _ = sink.leave_job(Leaving::Closed);
                ending = Ending::Foreign;
                break;
            }
        }
    }
    let report = WorkReport {
        written,
        faults,
        ending,
    };
    (seat, report)
}
