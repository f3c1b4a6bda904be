//! A spool, with the pages that the sessions of its jobs and its printers keep, and what it answers to the calls of `calls`.

ghost use Rattle.std.specs.Prelude.{IsSome};
ghost use Rattle.receiver.specs.View.{BeginsSome, asked};

use crate::calls::{self, BAD_ROW};
use crate::spool::Spool;
use lpd_commands::{FileName, Refusal};
use page_pool::PageTicket;
use receiver::Need;
use request_calls::{Answer, Outcome, ReturnedTicket};
use spool_core::{Asked, Foreign, HandedPage, Next, Progress, Unremoved};
use std::alloc::{AllocError, Global};
use std::mem;
use test_kit::rows::{number, octets, push_numbers, short_number, word};
use test_kit_seats::Kept;

/// A spool, and the pages that its jobs and printers keep.
#[derive(Drop)]
pub struct Desk<S: Spool> {
    alloc: Global,
    pub spool: S,
    /// How many octets a page has at most.
    pub page_size: u32,
    /// How many printers there are.
    pub printers: u32,
    tickets: Kept<PageTicket>,
    pages: Kept<HandedPage>,
}

/// Appends a page at a printer: its job, its place, its file, its number in that and its octets.
fn push_page(told: &mut String, page: &HandedPage) -> Result<(), AllocError> {
    let numbers = [
        ("job", page.job),
        ("place", page.place),
        ("file", page.file),
        ("page", page.number),
    ];
    push_numbers(told, &numbers)?;
    write!(told, " {}", page.bytes().escape_ascii())
}

impl<S: Spool> Desk<S> {
    /// A spool of which no page is kept.
    pub fn new(alloc: Global, spool: S, page_size: u32, printers: u32) -> Desk<S> {
        Desk {
            alloc,
            spool,
            page_size,
            printers,
            tickets: Kept::new(alloc),
            pages: Kept::new(alloc),
        }
    }

    /// The spool alone. The pages that are kept are spent.
    pub fn into_spool(self) -> S {
        self.spool
    }

    /// Exchanges all pages that are kept with those of another desk.
    pub fn trade(&mut self, other: &mut Desk<S>) {
        mem::swap(&mut self.tickets, &mut other.tickets);
        mem::swap(&mut self.pages, &mut other.pages);
    }

    /// Asks for a page for a job, and keeps it. Answers whether there was one.
    fn is_lent(&mut self, job: u64) -> Result<bool, Refusal> {
        match self.spool.ask(job)? {
            Asked::Page(ticket) => {
                self.tickets.keep(job, ticket)?;
                Ok(true)
            }
            Asked::Later => Ok(false),
        }
    }

    /// Carries out a request of a session, and answers what isn't refused. A page that comes back is kept again.
    fn carry_out(&mut self, sender: u32, job: u64, request: Need) -> Result<Answer, Refusal>
        requires asks { IsSome (asked request) }
        requires begins { BeginsSome request }
    {
        let Outcome { answer, page } = self.spool.carry_out(sender, job, request);
        if let Some(ticket) = page {
            self.tickets.keep(job, ticket)?;
        }
        match answer {
            Answer::Refused(refusal) => Err(refusal),
            answer => Ok(answer),
        }
    }

    /// Writes these octets on the page that is kept for a job, and puts it.
    fn put(&mut self, job: u64, octets: &[u8]) -> Result<&'static str, Refusal> {
        let Some(mut ticket) = self.tickets.take(job) else {
            return Ok("no ticket");
        };
        ticket.push(octets);
        if ticket.is_empty() {
            self.tickets.keep(job, ticket)?;
            return Ok(BAD_ROW);
        }
        self.carry_out(0, job, Need::Filled(ticket.seal()))?;
        Ok("yes")
    }

    /// Sends a whole file of a job, page by page, and appends what is answered at its end.
    fn send(
        &mut self,
        told: &mut String,
        job: u64,
        name: &str,
        octets: &[u8],
    ) -> Result<(), Refusal> {
        if octets.is_empty() {
            return Ok(told.push_str(BAD_ROW)?);
        }
        let name = FileName::read(name.as_bytes())?;
        let count = octets.len() as u64;
        self.carry_out(0, job, Need::BeginFile { name, count })?;
        for piece in octets.chunks(self.page_size.max(1) as usize) {
            if !self.is_lent(job)? {
                return Ok(told.push_str("later")?);
            }
            self.put(job, piece)?;
        }
        let answer = self.carry_out(0, job, Need::EndFile)?;
        Ok(calls::push_answer(told, &answer)?)
    }

    /// Aborts a job, with the page that is kept for it if there is one. A page that is refused is kept again.
    fn abort(&mut self, job: u64) -> Result<&'static str, Refusal> {
        let ticket = self.tickets.take(job);
        let Err(ReturnedTicket { ticket }) = self.spool.abort(job, ticket) else {
            return Ok("yes");
        };
        if let Some(ticket) = ticket {
            self.tickets.keep(job, ticket)?;
        }
        Err(Refusal::NotOpen)
    }

    /// Gives a printer its next page, which is kept at it, and appends what is answered.
    fn next(&mut self, told: &mut String, printer: u32) -> Result<(), Refusal> {
        if printer == 0 || printer > self.printers {
            return Ok(told.push_str(BAD_ROW)?);
        }
        let word = match self.spool.next(printer) {
            Next::Handed(page) => {
                let shown = push_page(told, &page);
                self.pages.keep(u64::from(printer), page)?;
                return Ok(shown?);
            }
            Next::Nothing => "nothing",
            Next::Stopped => "stopped",
            Next::Busy => "busy",
            Next::Closed => "closed",
        };
        Ok(told.push_str(word)?)
    }

    /// Gives back the page that is kept at a printer as printed or failed. A page that is refused is kept again.
    fn give_back(&mut self, printer: u32, is_printed: bool) -> Result<&'static str, Refusal> {
        if printer == 0 || printer > self.printers {
            return Ok(BAD_ROW);
        }
        let Some(page) = self.pages.take(u64::from(printer)) else {
            return Ok("no page");
        };
        match self.spool.take_back(printer, page, is_printed) {
            Ok(Progress::Going) => Ok("going"),
            Ok(Progress::Done) => Ok("done"),
            Ok(Progress::Ended) => Ok("ended"),
            Err(Foreign { page }) => {
                self.pages.keep(u64::from(printer), page)?;
                Ok("foreign")
            }
        }
    }

    /// Appends what is answered to a request of a session, or that the row is none.
    fn push_request(&mut self, told: &mut String, call: &str, rest: &str) -> Result<(), Refusal> {
        let Some(need) = calls::request(self.alloc, call, rest)? else {
            return Ok(told.push_str(BAD_ROW)?);
        };
        let (first, _) = word(rest);
        let (sender, job) = (short_number(first), number(first));
        let answer = self.carry_out(sender, job, need)?;
        Ok(calls::push_answer(told, &answer)?)
    }

    /// Removes jobs of a queue by their numbers, and appends the number of the queue, or that of the first job that stays.
    fn cancel(&mut self, told: &mut String, rest: &str) -> Result<(), Refusal> {
        let (queue, jobs) = word(rest);
        let jobs: Vec<u64> = jobs
            .split_whitespace()
            .map(|job| number(job))
            .collect(self.alloc)?;
        let named = match self.spool.remove_jobs(queue.as_bytes(), jobs.as_slice()) {
            Ok(queue) => ("queue", u64::from(queue)),
            Err(Unremoved::Stays(job)) => ("stays", job),
            Err(Unremoved::Refused(refusal)) => return Err(refusal),
        };
        Ok(push_numbers(told, &[named])?)
    }

    /// Appends the counts of a spool that a call asks for.
    fn push_counts(&mut self, told: &mut String, call: &str) -> Result<(), AllocError> {
        let (held, pages, vacancy) = self.spool.counts();
        match call {
            "held" => push_numbers(told, &[("held", held as u64)]),
            "free" => push_numbers(told, &[("free", pages.free as u64)]),
            "vacancy" => {
                let numbers = [
                    ("held", vacancy.held as u64),
                    ("rows", vacancy.rows as u64),
                    ("pages", vacancy.pages as u64),
                    ("entries", vacancy.entries),
                ];
                push_numbers(told, &numbers)
            }
            _ => {
                let numbers = [
                    ("pages free", pages.free as u64),
                    ("chained", pages.chained as u64),
                    ("lent", pages.lent as u64),
                    ("out", pages.out as u64),
                ];
                push_numbers(told, &numbers)
            }
        }
    }

    /// Appends what is answered to a call.
    fn push_call(&mut self, told: &mut String, call: &str) -> Result<(), Refusal> {
        let (call, rest) = word(call);
        let (first, text) = word(rest);
        let (job, printer) = (number(first), short_number(first));
        match call {
            "ask" => {
                let is_lent = self.is_lent(job)?;
                told.push_str(if is_lent { "page" } else { "later" })?;
            }
            "put" => told.push_str(self.put(job, octets(self.alloc, text)?.as_slice())?)?,
            "send" => {
                let (name, text) = word(text);
                self.send(told, job, name, octets(self.alloc, text)?.as_slice())?;
            }
            "abort" => told.push_str(self.abort(job)?)?,
            "next" => self.next(told, printer)?,
            "print" => {
                self.next(told, printer)?;
                told.push_str(", ")?;
                told.push_str(self.give_back(printer, true)?)?;
            }
            "printed" => told.push_str(self.give_back(printer, true)?)?,
            "failed" => told.push_str(self.give_back(printer, false)?)?,
            "swap" => {
                self.pages.exchange(job, number(text));
                told.push_str("yes")?;
            }
            "switch" => {
                self.tickets.exchange(job, number(text));
                told.push_str("yes")?;
            }
            "close" => {
                self.spool.close();
                told.push_str("yes")?;
            }
            "cancel" => self.cancel(told, rest)?,
            "free" | "held" | "pages" | "vacancy" => self.push_counts(told, call)?,
            _ => self.push_request(told, call, rest)?,
        }
        Ok(())
    }

    /// Appends what is answered to a call, or the number of its refusal.
    pub fn push_answer(&mut self, told: &mut String, call: &str) -> Result<(), AllocError> {
        match self.push_call(told, call) {
            Ok(()) => Ok(()),
            Err(refusal) => write!(told, "refused {}", refusal.number()),
        }
    }
}
