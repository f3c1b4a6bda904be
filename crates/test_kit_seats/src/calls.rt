//! Jobs on their way by calls through seats.

use control_file::Control;
use lpd_values::FileName;
use page_pool::{FilledPage, PageTicket};
use shared_spool::{
    Asked, Foreign, HandedPage, Next, PrinterSeat, ReturnedPage, SessionSeat, SharedSpool,
    SpoolLedger,
};
use std::alloc::Global;
use std::sync::Wait;
use std::sync::ledger::Ledger;

/// A page with these octets. None where there is no octet.
pub fn filled(mut ticket: PageTicket, octets: &[u8]) -> Option<FilledPage> {
    ticket.push(octets);
    let pushed = ticket.len();
    if pushed == 0 {
        ticket.surrender();
        return None;
    }
    Some(ticket.seal())
}

/// Has a page lent to a job and puts it with these octets. None where a call is refused.
pub fn put<R: Wait, E: SpoolLedger, K: Ledger, H: Ledger>(
    rt: &R,
    spool: &SharedSpool<E, K, H>,
    seat: &mut SessionSeat<E, K, H>,
    job: u64,
    octets: &[u8],
) -> Option<()> {
    let page = match spool.ask_wait(rt, seat, job).ok()? {
        Asked::Page(ticket) => filled(ticket, octets)?,
        Asked::Later => return None,
    };
    if let Err(ReturnedPage { page }) = spool.put(rt, seat, job, page) {
        page.unseal().surrender();
        return None;
    }
    Some(())
}

/// Sends a job of user ann at host h1 to the queue `lp`, with a data file of these octets, so many on a page. Its number, or None
/// where a call is refused.
pub fn send<R: AllocGlobal + Wait, E: SpoolLedger, K: Ledger, H: Ledger>(
    rt: &R,
    spool: &SharedSpool<E, K, H>,
    seat: &mut SessionSeat<E, K, H>,
    sender: u32,
    octets: &[u8],
    page_size: usize,
) -> Option<u64> {
    let count = octets.len() as u64;
    if count == 0 {
        return None;
    }
    let job = spool.open(rt, seat, sender, b"lp").ok()?;
    let name = FileName::read(b"dfA001h1").ok()?;
    spool.begin_file(rt, seat, job, name, count).ok()?;
    for page in octets.chunks(page_size.max(1)) {
        put(rt, spool, seat, job, page)?;
    }
    spool.end_file(rt, seat, job).ok()?;
    let name = FileName::read(b"cfA001h1").ok()?;
    let control = Control::parse(rt.alloc(), &name, b"Hh1\nPann\nfdfA001h1\n").ok()?;
    spool.control(rt, seat, job, control).ok()?;
    Some(job)
}

/// The next page of a printer, once it is there.
pub fn take<R: Wait, E: SpoolLedger, K: Ledger, H: Ledger>(
    rt: &R,
    spool: &SharedSpool<E, K, H>,
    seat: &mut PrinterSeat<E, K, H>,
) -> Option<HandedPage> {
    match spool.next_wait(rt, seat) {
        Next::Handed(page) => Some(page),
        Next::Nothing | Next::Stopped | Next::Busy | Next::Closed => None,
    }
}

/// Gives a page back, and says whether the spool took it.
pub fn give_back<R: Wait, E: SpoolLedger, K: Ledger, H: Ledger>(
    rt: &R,
    spool: &SharedSpool<E, K, H>,
    seat: &mut PrinterSeat<E, K, H>,
    page: HandedPage,
    is_printed: bool,
) -> bool {
    let outcome = if is_printed {
        spool.printed(rt, seat, page).map(|_| ())
    } else {
        spool.failed(rt, seat, page)
    };
    match outcome {
        Ok(()) => true,
        Err(Foreign { page }) => {
            page.surrender();
            false
        }
    }
}
