//! The thread that shows the status of the server to browsers and to what monitors it: one request and one response a connection, many
//! connections at a time.
//!
//! A connection is taken out of the lobby as it comes, and is one of at most 128 exchanges from then on: its head has two seconds. No call waits
//! for one of them alone, so those that halt hold up nobody; where there are too many, who has halted longest gives way.

ghost use Rattle.std.specs.Prelude.{◌≡◌, ◌+◌, ◌-◌, ◌^◌, min};

use crate::board::{Board, PLACES};
use crate::drawn::Drawn;
use connection_lobby::Visit;
use log::{Log, warn};
use server_counts::{Look, ServerCounts};
use server_house::{Hall, HouseLedger, HouseSpool};
use server_survey::Surveyor;
use shared_spool::Sight;
use spool_snapshot::Pages;
use status_answers::{
    Method, Resource, Scene, refusal_response, status_response, timeout_response,
    unavailable_response,
};
use status_exchanges::{Exchanges, MOST_EXCHANGES};
use status_request::RequestReading;
use std::alloc::{AllocError, Global};
use std::fs::{File, Files};
use std::rt::Clock;
use std::sync::Wait;
use std::thread;
use std::time::Duration;

/// The part of the program that logs what happens here, as the log names it.
const PART: &str = "server_care::showing";

/// The time between two looks at where the pages are, in seconds.
const LOOK_SECONDS: u64 = 60;

/// The pause after the system didn't tell what happened, in milliseconds.
const PAUSE_MS: u64 = 100;

/// With how many exchanges many are asking: then one response is given to all that ask for the same within a tenth of a second.
const MANY: usize = 8;

/// The second from which on the look behind one at this second is due.
fn next_look(second: u64) -> u64
    ensures { result ≡ min (second + 60) (2 ^ 64 - 1) }
{
    second.saturating_add(LOOK_SECONDS)
}

/// What is seen N seconds after the server's start.
fn look_of(second: u64, pages: Pages, counts: &ServerCounts) -> Look {
    Look {
        second,
        free: pages.free,
        chained: pages.chained,
        lent: pages.lent,
        out: pages.out,
        done: counts.done,
        octets: counts.octets_done,
    }
}

/// The numbers of the jobs that are held. AllocError where memory for them is refused.
fn numbers_of(alloc: Global, sight: &Sight) -> Result<Vec<u64>, AllocError> {
    let mut numbers = Vec::new(alloc);
    for job in &sight.spool.jobs {
        numbers.push(job.number)?;
    }
    Ok(numbers)
}

/// Who shows how a server stands to whoever asks.
#[derive(Drop)]
pub struct Presenter<'h, 'a, R, E: HouseLedger> {
    pub spool: &'h HouseSpool<E>,
    pub hall: &'h Hall<'a, R>,
}

impl<'h, 'a, R, E: HouseLedger> Presenter<'h, 'a, R, E> {
    /// Who looks at how it stands.
    fn surveyor(&self) -> Surveyor<'h, 'a, R, E> {
        Surveyor {
            spool: self.spool,
            hall: self.hall,
        }
    }

    /// The status isn't shown any more, once the spool is closed.
    pub fn end_showing(&self) {
        if let Some(showing) = &self.hall.showing {
            showing.end();
        }
    }
}

impl<R: Files<File = File> + Clock + Log + Wait, E: HouseLedger> Presenter<'_, '_, R, E> {
    /// The milliseconds since the server's start; none where the clock can't be read.
    fn uptime_ms(&self) -> u64 {
        let start = self.hall.oversight.start;
        let elapsed = start.and_then(|start| start.elapsed(self.hall.rt).ok());
        elapsed.map_or(0, |elapsed| {
            u64::try_from(elapsed.as_millis()).unwrap_or(u64::MAX)
        })
    }

    /// What was counted since the server's start.
    fn counts(&self) -> ServerCounts {
        match &self.hall.job_book {
            Some(book) => book.counts(self.hall.rt),
            None => ServerCounts::new(),
        }
    }

    /// Looks at the clock, and where the pages are, where that is due. What there is no memory for is passed over.
    fn look(&self, board: &mut Board) {
        board.now_ms = board.now_ms.max(self.uptime_ms());
        let second = board.now_ms / 1_000;
        if second < board.due {
            return;
        }
        board.due = next_look(second);
        let pages = self.spool.pages(self.hall.rt);
        let _ = board.hour.note(look_of(second, pages, &self.counts()));
    }

    /// The response with a resource of the server as it is now, and by GET with its body. The spool's lock isn't held while it is drawn.
    /// AllocError where memory for it is refused.
    fn draw(
        &self,
        board: &Board,
        method: Method,
        resource: Resource,
    ) -> Result<String, AllocError> {
        let (rt, alloc) = (self.hall.rt, self.hall.alloc);
        let sight = self.spool.sight(rt, alloc)?;
        let Some(survey) = self.surveyor().survey(&sight)? else {
            return unavailable_response(alloc);
        };
        let ages = match &self.hall.job_book {
            Some(book) => book.ages(rt, numbers_of(alloc, &sight)?.as_slice())?,
            None => Vec::new(alloc),
        };
        let counts = self.counts();
        let scene = Scene {
            config: &self.hall.oversight.config,
            spool: &sight.spool,
            outside: &survey.outside(&sight),
            ages: ages.as_slice(),
            counts: &counts,
            hour: board.hour.looks(),
        };
        status_response(alloc, &scene, method, resource)
    }

    /// The response with a resource of the server where many ask: as it was drawn last, if that is less than a tenth of a second ago.
    /// AllocError where memory for it is refused.
    fn draw_for_many(
        &self,
        board: &mut Board,
        method: Method,
        resource: Resource,
    ) -> Result<String, AllocError> {
        let now_ms = board.now_ms;
        if let Some(drawn) = &board.drawn {
            if drawn.is_fresh(method, resource, now_ms) {
                return String::from_str(self.hall.alloc, drawn.response.as_str());
            }
        }
        let response = self.draw(board, method, resource)?;
        board.drawn = Some(Drawn {
            method,
            resource,
            at_ms: now_ms,
            response: String::from_str(self.hall.alloc, response.as_str())?,
        });
        Ok(response)
    }

    /// The response to what was read of a request, where so many exchanges are open.
    fn response_to(
        &self,
        board: &mut Board,
        reading: RequestReading,
        count: usize,
    ) -> Result<String, AllocError> {
        match reading {
            RequestReading::Wanted { method, resource } => {
                let drawn = if count < MANY {
                    self.draw(board, method, resource)
                } else {
                    self.draw_for_many(board, method, resource)
                };
                match drawn {
                    Ok(response) => Ok(response),
                    Err(AllocError) => unavailable_response(self.hall.alloc),
                }
            }
            RequestReading::Refused(refusal) => refusal_response(self.hall.alloc, refusal),
            RequestReading::More => timeout_response(self.hall.alloc),
        }
    }

    /// Takes up the exchange at a place, and answers it once it is known what it asks for.
    fn serve(&self, board: &mut Board, exchanges: &mut Exchanges, at: usize) {
        let Some(reading) = exchanges.turn(at, board.name.as_bytes(), board.now_ms) else {
            return;
        };
        match self.response_to(board, reading, exchanges.count()) {
            Ok(response) => exchanges.answer(at, response, board.now_ms),
            Err(AllocError) => {
                exchanges.end(at);
                warn!(self.hall.rt; target: PART, "memory was refused to show the status");
            }
        }
    }

    /// Begins an exchange with a connection, and takes it up. What goes wrong with one peer doesn't concern the next.
    fn welcome(&self, board: &mut Board, exchanges: &mut Exchanges, visit: Visit) {
        let Visit { stream, peer, .. } = visit;
        if stream.set_nonblocking(true).is_err() {
            return;
        }
        match exchanges.begin(stream, board.now_ms) {
            Ok(at) => self.serve(board, exchanges, at),
            Err(AllocError) =>
                warn!(self.hall.rt; target: PART, "{peer}: memory was refused to show the status"),
        }
    }

    /// Begins an exchange with each connection that has come. Whether there was one.
    fn welcome_all(&self, board: &mut Board, exchanges: &mut Exchanges) -> bool {
        let mut has_come = false;
        for _ in 0..PLACES {
            let Some(visit) = board.lobby.next_ready() else {
                break;
            };
            self.welcome(board, exchanges, visit);
            has_come = true;
        }
        has_come
    }

    /// Takes up each exchange, the last first: where one ends, the last takes its place.
    fn serve_all(&self, board: &mut Board, exchanges: &mut Exchanges) {
        let count = exchanges.count();
        for passed in 0..MOST_EXCHANGES {
            if passed >= count {
                break;
            }
            self.serve(board, exchanges, count - passed - 1);
        }
    }

    /// Sees to what has come to the lobby: at once where exchanges are open or connections have just come, and else once something has, or
    /// the next look is due.
    fn wait_at(&self, board: &mut Board, limit_ms: u64) {
        let until_ms = board.due.saturating_mul(1_000);
        let due_ms = until_ms
            .saturating_sub(board.now_ms)
            .min(LOOK_SECONDS * 1_000);
        if let Err(error) = board.lobby.round(self.hall.rt, Some(limit_ms.min(due_ms))) {
            warn!(self.hall.rt; target: PART, "the status can't be asked for: {error}");
            thread::sleep(self.hall.rt, Duration::from_millis(PAUSE_MS));
        }
    }

    /// Answers who asks for the status, until the spool is closed.
    pub fn show_all(&self, board: Board) {
        let mut board = board;
        let mut exchanges = Exchanges::new(self.hall.alloc);
        for _ in self.hall.rt.forever() {
            if self.hall.ending.is_closed() {
                break;
            }
            self.look(&mut board);
            let has_come = self.welcome_all(&mut board, &mut exchanges);
            self.serve_all(&mut board, &mut exchanges);
            let is_busy = exchanges.count() > 0;
            if is_busy && !has_come {
                exchanges.await_turn(board.lobby.descriptor());
            }
            self.wait_at(&mut board, if is_busy || has_come { 0 } else { u64::MAX });
        }
    }
}
