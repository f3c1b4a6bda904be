//! Connections, each served through a session's seat.

ghost use Rattle.std.specs.Int.NonZero.{non_zero_u64_get};
ghost use Rattle.std.specs.Prelude.{◌≡◌, None, Some, max, option_map};
ghost use Rattle.server_clients.specs.Ends.{failure_text, is_told};
ghost use Rattle.connection_lobby.specs.declared.desk.Serves.TheVariants.{All, NoJobs};
ghost use Rattle.request_session.specs.declared.ending.SessionEnd.TheVariants.{Memory};

use connection_lobby::{Serves, Visit, keep_asking, send_in_pieces};
use job_disk::DiskFolder;
use kept_requests::Keeping;
use log::{Log, warn};
use lpd_commands::{OctetRead, OctetWrite};
use lpd_values::Refusal;
use noted_requests::Noting;
use parked_requests::{JobWays, Parking, Parks, Parted};
use program_edge::{Limits, StreamReader, StreamWriter, pass_over};
use request_session::{Input, Requests, serve_with};
use server_folders::JobFolder;
use server_house::{Hall, HouseLedger, HouseSeat, HouseSpool};
use server_notes::{ServerEnding, milliseconds_since};
use server_sessions::{AskedJob, JobDoors, PartDoors, Served, SessionNotes};
use session::{Seated, SessionEnd};
use std::fmt::Display;
use std::fs::{File, Files};
use std::io;
use std::net::{Shutdown, SocketAddr, TcpStream};
use std::rt::Clock;
use std::sync::{Mutex, Wait};
use std::time::{Duration, Instant};

/// The part of the program that logs what happens here, as the log names it.
const PART: &str = "lpd_daemon::answering";

/// How many octets that come after the end of a session are passed over, at most.
const MOST_PASSED_OCTETS: usize = 1 << 20;

/// By how many reads they are, at most.
const MOST_READS: u32 = 1 << 20;

/// The longest time that each of these reads waits for the peer, in seconds.
const PATIENCE_SECONDS: u64 = 1;

/// How many octets the system keeps of an answer that its peer hasn't read, where a session serves
/// no jobs: few, so that each write comes to its end while the peer reads, and the limit of a write
/// leaves those alone that don't.
const UNREAD_OCTETS: u32 = 65_536;

/// The silence after which the system asks a peer whether it is there, in seconds.
const KEEPALIVE_SECONDS: u8 = 30;

/// Ends what is sent, and passes over what the peer still sends, for `seconds` seconds at most, or
/// until the server waits for nothing any more: a connection that is closed with octets unread may
/// take the last answer away from its peer.
fn take_leave<R: Clock>(
    rt: &R,
    stream: &TcpStream,
    seconds: u64,
    ending: &ServerEnding,
) -> io::Result<()> {
    stream.shutdown(Shutdown::Write)?;
    stream.set_read_timeout(Some(Duration::from_secs(PATIENCE_SECONDS)))?;
    let start = Instant::now(rt)?;
    let mut stream = stream;
    pass_over(&mut stream, MOST_READS, |passed| {
        passed >= MOST_PASSED_OCTETS
            || ending.cuts_off()
            || milliseconds_since(rt, start) >= seconds.saturating_mul(1_000)
    });
    Ok(())
}

/// Logs what went wrong with a peer's connection.
fn complain<R: Log, W: Display>(rt: &R, peer: SocketAddr, why: &W) {
    warn!(rt; target: PART, "{peer}: {why}");
}

/// Why a session failed, if it did.
fn failure_of(end: SessionEnd) -> Option<&'static str>
    ensures { option_map (λ text. text.now) result ≡ failure_text end }
{
    match end {
        SessionEnd::Finished | SessionEnd::Closed | SessionEnd::Refused(_) => None,
        SessionEnd::Broken => Some("the connection ended in the middle"),
        SessionEnd::ReadFault => Some("reading failed, or the peer was silent"),
        SessionEnd::WriteFault => Some("writing failed"),
        SessionEnd::Memory => Some("memory was refused"),
    }
}

/// Whether the log is told of a refusal: not of that of a job that isn't kept, of which it knows why.
fn is_told(refusal: Refusal, is_unkept: bool) -> bool
    ensures { result ≡ is_told refusal is_unkept }
{
    match refusal {
        Refusal::NotOpen => !is_unkept,
        _ => true,
    }
}

/// For how many seconds such a session waits for its peer at each read and at each write; None: for
/// ever.
fn patience_of(serves: Serves, limits: &Limits) -> Option<u64>
    ensures all { serves ≡ All
        → result ≡ option_map non_zero_u64_get limits.now.silence }
    ensures no_jobs { serves ≡ NoJobs → result ≡ Some (max limits.now.no_job_seconds 1) }
{
    match serves {
        Serves::All => limits.silence.map(|silence| silence.get()),
        Serves::NoJobs => Some(limits.no_job_seconds.max(1)),
    }
}

/// Who serves connections at one post of a server.
#[derive(Drop)]
struct Attendant<'h, 'a, R> {
    hall: &'h Hall<'a, R>,
    /// The number of the post.
    number: u32,
    serves: Serves,
}

impl<R: Files<File = File> + Clock + Wait + Log> Attendant<'_, '_, R> {
    /// Has octets sent at once and peers asked whether they are there, and limits how long a peer may be silent or not read. That limit
    /// is the socket's own, of each read and each write: a session that meets it ends as where reading or writing fails, and one that
    /// waits for a page isn't silent.
    fn set_up(&self, stream: &TcpStream) -> io::Result<()> {
        stream.set_nodelay(true)?;
        keep_asking(stream, KEEPALIVE_SECONDS);
        if matches!(self.serves, Serves::NoJobs) {
            send_in_pieces(stream, UNREAD_OCTETS);
        }
        let limit = patience_of(self.serves, &self.hall.limits).map(|seconds| Duration::from_secs(
            seconds,
        ));
        stream.set_read_timeout(limit)?;
        stream.set_write_timeout(limit)
    }

    /// Serves a session over the input of its thread, which is made where it isn't there yet;
    /// `requests` carries out what it asks for.
    fn serve_session<T: Requests, I: OctetRead, W: OctetWrite>(
        &self,
        requests: &mut T,
        input: &mut Option<Input>,
        sender: u32,
        reader: &mut I,
        writer: &mut W,
    ) -> SessionEnd
        ensures no_input { input.new ≡ None → result ≡ Memory }
    {
        let (rt, alloc) = (self.hall.rt, self.hall.alloc);
        if input.is_none() {
            *input = Input::new(alloc).ok();
        }
        match input {
            Some(input) => serve_with(rt, alloc, input, requests, sender, reader, writer),
            None => SessionEnd::Memory,
        }
    }

    /// Serves a connection whose stream is set up. None where the server waits for nothing any more.
    fn serve_visit<T: Requests>(
        &self,
        requests: &mut T,
        input: &mut Option<Input>,
        visit: &Visit,
    ) -> Option<SessionEnd> {
        let (hall, rt) = (self.hall, self.hall.rt);
        let (slowest, start) = (hall.limits.slowest, hall.oversight.start);
        let meter = hall.posts.begin(rt, self.number, visit, slowest, start);
        if hall.ending.cuts_off() {
            hall.posts.end(rt, self.number);
            return None;
        }
        let mut reader = StreamReader::new(meter);
        let mut writer = StreamWriter::new(&visit.stream);
        let sender = visit.host();
        let end = self.serve_session(requests, input, sender, &mut reader, &mut writer);
        hall.posts.end(rt, self.number);
        Some(end)
    }

    /// Has the files of the jobs taken away that a session has removed, and tells why a job of it wasn't kept. Whether there is such a job.
    fn settle<T: Served>(&self, requests: &mut T, peer: SocketAddr) -> bool {
        let is_unkept = requests.let_go(self.hall.rt, peer);
        if let Some(removed) = requests.take_removed() {
            self.hall.end_removed(removed);
        }
        is_unkept
    }

    /// Logs how a session ended, where that isn't well, with the job that it asked for last where it was refused, which is counted. Of one whose
    /// job isn't kept, of which the log was told why, the refusal says nothing more.
    fn tell_end(&self, peer: SocketAddr, end: SessionEnd, unkept: bool, asked: Option<AskedJob>) {
        let rt = self.hall.rt;
        if let SessionEnd::Refused(refusal) = end {
            match asked {
                _ if !is_told(refusal, unkept) => {}
                Some(asked) => warn!(rt; target: PART, "{peer}: {refusal}: {asked}"),
                None => complain(rt, peer, &refusal),
            }
            if let Some(book) = &self.hall.job_book {
                book.note_refusal(rt, refusal);
            }
        }
        if let Some(why) = failure_of(end) {
            complain(rt, peer, &why);
        }
    }

    /// Serves a connection; `requests` carries out what it asks for.
    fn answer<T: Requests + Served>(
        &self,
        requests: &mut Noting<T, SessionNotes<'_, '_, R>>,
        input: &mut Option<Input>,
        visit: &Visit,
    ) {
        let (hall, rt) = (self.hall, self.hall.rt);
        if let Err(error) = self.set_up(&visit.stream) {
            complain(rt, visit.peer, &error);
            return;
        }
        let Some(end) = self.serve_visit(requests, input, visit) else {
            return;
        };
        let is_unkept = self.settle(requests, visit.peer);
        let asked = requests.notes.take_asked();
        self.tell_end(visit.peer, end, is_unkept, asked);
        if matches!(end, SessionEnd::Finished | SessionEnd::Refused(_)) {
            // A peer that is gone already has lost nothing.
            let _ = take_leave(rt, &visit.stream, hall.limits.leave_seconds, &hall.ending);
        }
    }

    /// Serves connections, one after another, until no more can come, and notes what becomes of their jobs. `requests` carries out what
    /// they ask for, and is answered then: it is of any type with `Requests`, and is made once for the thread, so a type that keeps jobs
    /// can stand between a session and the spool. `session::serve` is for those who have one connection to serve, and makes a `Seated`
    /// for that.
    fn serve_all<T: Requests + Served + Drop>(&self, requests: T) -> T {
        let (hall, rt) = (self.hall, self.hall.rt);
        let mut noting = Noting::new(requests, SessionNotes::new(hall));
        // What the thread keeps from one connection to the next.
        let mut input = None;
        for _ in rt.forever() {
            let Some(visit) = hall.desk.take(rt, self.serves, &hall.waker) else {
                break;
            };
            if let Some(book) = &hall.job_book {
                book.note_connection(rt);
            }
            self.answer(&mut noting, &mut input, &visit);
            hall.desk.leave(rt, self.serves, visit);
        }
        let Noting { inner, .. } = noting;
        inner
    }
}

/// Who serves the connections of a server.
#[derive(Drop)]
pub struct Answering<'h, 'a, R, E: HouseLedger> {
    pub spool: &'h HouseSpool<E>,
    pub hall: &'h Hall<'a, R>,
}

impl<'h, 'a, R: Files<File = File> + Clock + Wait + Log, E: HouseLedger> Answering<'h, 'a, R, E> {
    /// Serves connections at a seat of this number, with a folder in which jobs are kept until they are printed, whichever way they go.
    /// Answers what carries out the requests.
    fn serve_keeping<P: Parks + Served + Drop>(
        &self,
        kept: &'h JobFolder<'a, R>,
        number: u32,
        serves: Serves,
        parking: P,
    ) -> P {
        let hall = self.hall;
        let keeping = Keeping::new(hall.alloc, parking, DiskFolder::new(&kept.disk, number));
        let attendant = Attendant {
            hall,
            number,
            serves,
        };
        let Keeping { inner, .. } = attendant.serve_all(keeping);
        inner
    }

    /// What has each job of a seat of this number go through the spool or beside it, over what carries out the requests of the spool.
    fn parking_of<Q: Requests>(
        &self,
        kept: &'h JobFolder<'a, R>,
        number: u32,
        spool: Q,
    ) -> Parking<Q, JobDoors<'h, 'a, R, E>> {
        let hall = self.hall;
        let doors = JobDoors::new(self.spool, hall, kept, number);
        let page_size = hall.oversight.config.page_size();
        Parking::new(hall.alloc, page_size, spool, doors)
    }

    /// Serves connections as `serve_keeping` does, where each job goes the way that is chosen for it.
    fn serve_ways<Q: Requests + Served + Drop, W: JobWays + Drop>(
        &self,
        kept: &'h JobFolder<'a, R>,
        number: u32,
        serves: Serves,
        parking: Parking<Q, W>,
    ) -> Parking<Q, W> {
        self.serve_keeping(kept, number, serves, parking)
    }

    /// Serves connections as `serve_keeping` does, where each job goes through the spool or beside it. Answers what carries out the
    /// requests of the spool.
    fn serve_parking<Q: Requests + Served + Drop>(
        &self,
        kept: &'h JobFolder<'a, R>,
        number: u32,
        serves: Serves,
        spool: Q,
    ) -> Q {
        let parking = self.parking_of(kept, number, spool);
        self.serve_ways(kept, number, serves, parking).into_inner()
    }

    /// Serves connections through a seat, with a folder in which jobs are kept until they are printed.
    fn answer_keeping(
        &self,
        kept: &'h JobFolder<'a, R>,
        seat: HouseSeat<E>,
        serves: Serves,
    ) -> HouseSeat<E> {
        let number = seat.number();
        let seated = Seated::new(self.hall.rt, self.spool, seat);
        self.serve_parking(kept, number, serves, seated).into_seat()
    }

    /// Serves connections through a seat, at a spool of which each queue has a part and no more.
    fn answer_parted(
        &self,
        turn: &'h Mutex<()>,
        seat: HouseSeat<E>,
        serves: Serves,
    ) -> HouseSeat<E> {
        let (hall, number) = (self.hall, seat.number());
        let parted = Parted {
            inner: Seated::new(hall.rt, self.spool, seat),
            parts: PartDoors::new(self.spool, hall, turn),
        };
        let attendant = Attendant {
            hall,
            number,
            serves,
        };
        attendant.serve_all(parted).into_inner().into_seat()
    }

    /// Serves connections through a seat, one after another, until no more can come. Answers the
    /// seat.
    pub fn answer_all(&self, seat: HouseSeat<E>, serves: Serves) -> HouseSeat<E> {
        let hall = self.hall;
        if let Some(kept) = &hall.kept {
            return self.answer_keeping(kept, seat, serves);
        }
        if let Some(turn) = &hall.parts {
            return self.answer_parted(turn, seat, serves);
        }
        let number = seat.number();
        let seated = Seated::new(hall.rt, self.spool, seat);
        let attendant = Attendant {
            hall,
            number,
            serves,
        };
        attendant.serve_all(seated).into_seat()
    }
}
