//! A printer at an address of the network.
//!
//! The printer gets one connection a job, and nothing twice: once an octet of a job was sent, nothing is dialled for it any more. What
//! the printer says is read all the time, since octets that it said and nobody read would cut off, at the close, what it still has to
//! take. The printer's end of the connection is waited for, but not after it stayed away three times in a row.

ghost use Rattle.std.specs.Prelude.{◌≡◌, ◌≤◌, None, Some, length, IfOk};
ghost use Rattle.sink_devices.specs.Ends.{is_in_time};

use crate::causes::Causes;
use crate::connection::PrinterConnection;
use crate::errand::Errand;
use crate::moments::{milliseconds_since, now, of_seconds};
use crate::unended::Unended;
use crate::waiting::{PrinterWait, is_not_wanted, not_wanted};
use log::{Log, info, warn};
use printer_sinks::{ConnectionFault, Dial};
use std::fmt::Display;
use std::io;
use std::io::{Error, ErrorKind};
use std::net::{Net, SocketAddr};
use std::num::NonZeroU64;
use std::rt::Clock;
use std::time::Instant;

/// The longest time for which one wait for a printer lasts, in milliseconds. Between two of them the server is asked whether to
/// wait on.
const TURN_MS: u16 = 1_000;

/// How many such waits a connection has to be accepted.
const CONNECT_TURNS: u32 = 2;

/// For how many milliseconds the printer's end of a connection is waited for, once nothing more is sent.
const END_MS: u64 = 10_000;

/// The longest time for which one wait for that end lasts, in milliseconds.
const END_TURN_MS: u16 = 500;

/// How many milliseconds lie between two tellings that a printer isn't reached.
const TELL_MS: u64 = 60_000;

/// A printer that isn't reached.
#[derive(Clone, Copy)]
struct Unreached {
    since: Instant,
    /// When that was told last.
    told: Instant,
}

impl Unreached {
    /// What it is once that was told again at this moment.
    fn told_at(self, told: Instant) -> Unreached
        ensures since { result.since ≡ self.since }
        ensures told { result.told ≡ told }
    {
        Unreached { told, ..self }
    }
}

/// How a connection ended, once the printer was told that nothing more is sent.
#[derive(Clone, Copy)]
enum End {
    /// The printer ended it too.
    Ended,
    /// It failed.
    Failed(Error),
    /// The printer didn't end it in time.
    Late,
    /// Its end wasn't waited for, or not any longer.
    Left,
}

/// Whether the printer ended the connection in time, where that was waited for: one that failed is ended too.
fn is_in_time(end: &End) -> Option<bool>
    ensures { result ≡ is_in_time end.now }
{
    match end {
        End::Ended | End::Failed(_) => Some(true),
        End::Late => Some(false),
        End::Left => None,
    }
}

/// A printer that connections are opened to. What it sends is read and dropped, so that it never waits for its sender.
#[derive(Drop)]
pub struct TcpDial<'a, R: Net + Clock + Log, Q: Errand> {
    rt: &'a R,
    errand: &'a Q,
    printer: u32,
    address: SocketAddr,
    silence_ms: Option<u64>,
    job: u64,
    connection: Option<PrinterConnection>,
    // Whether the connection took an octet.
    is_begun: bool,
    unreached: Option<Unreached>,
    unended: Unended,
    cause: Option<Error>,
}

impl<'a, R: Net + Clock + Log, Q: Errand> TcpDial<'a, R, Q> {
    /// The printer of this number at this address. Where `silence` is given it may take no octet of a job for that many
    /// seconds. While it waits it asks the server whether its job is still wanted.
    pub fn new(
        rt: &'a R,
        printer: u32,
        address: SocketAddr,
        silence: Option<NonZeroU64>,
        errand: &'a Q,
    ) -> TcpDial<'a, R, Q>
        ensures { result.cause ≡ None }
    {
        TcpDial {
            rt,
            errand,
            printer,
            address,
            silence_ms: silence.map(of_seconds),
            job: 0,
            connection: None,
            is_begun: false,
            unreached: None,
            unended: Unended::new(),
            cause: None,
        }
    }

    /// Waits until the printer has accepted a connection, and offers the job meanwhile. TimedOut where it doesn't; as `not_wanted` where
    /// nobody waits for the job any more.
    fn await_accepted(&self, connection: &PrinterConnection) -> io::Result<()> {
        let mut waiting = PrinterWait::begin(self.rt, self.errand, self.job);
        for _turn in 0..CONNECT_TURNS {
            let tried_ms = waiting.milliseconds();
            self.errand.offer(self.printer, self.job, tried_ms);
            if connection.is_accepted(TURN_MS)? {
                return Ok(());
            }
            if !waiting.goes_on() {
                return Err(not_wanted());
            }
        }
        Err(Error::from(ErrorKind::TimedOut))
    }

    /// Opens a connection. TimedOut where the printer doesn't accept it; as `not_wanted` where nobody waits for the job any
    /// more.
    fn connect(&self) -> io::Result<PrinterConnection> {
        let connection = PrinterConnection::begin(self.rt, self.address)?;
        let accepted = self.await_accepted(&connection);
        // From here on octets of it may go.
        if self.errand.withdraw(self.printer) {
            return Err(not_wanted());
        }
        accepted?;
        Ok(connection)
    }

    /// Tells that the printer isn't reached: at once why, and then once a minute for how long.
    fn tell_unreached(&mut self, error: &Error)
        ensures { self.new.cause ≡ self.old.cause }
    {
        self.errand.note_unreached(self.printer, *error);
        let Some(now) = now(self.rt) else {
            return;
        };
        let Some(unreached) = self.unreached else {
            self.unreached = Some(Unreached {
                since: now,
                told: now,
            });
            let TcpDial {
                printer,
                job,
                address,
                ..
            } = self;
            warn!(self.rt; "printer {printer}: job {job}: {address}: {error}");
            return;
        };
        if milliseconds_since(self.rt, Some(unreached.told)) < TELL_MS {
            return;
        }
        self.unreached = Some(unreached.told_at(now));
        let seconds = milliseconds_since(self.rt, Some(unreached.since)) / 1_000;
        self.errand.tell_unreached(self.printer, self.job, seconds);
    }

    /// Closes the connection, and keeps why. A printer that took no octet over it isn't reached.
    fn fail(&mut self, error: Error) -> ConnectionFault
        ensures { self.new.cause ≡ Some error }
    {
        self.connection = None;
        self.cause = Some(error);
        if !self.is_begun && !is_not_wanted(&error) {
            self.tell_unreached(&error);
        }
        ConnectionFault
    }

    /// Tells that a printer is reached that wasn't.
    fn tell_reached(&mut self) {
        let Some(Unreached { since, .. }) = self.unreached.take() else {
            return;
        };
        self.errand.note_taken(self.printer);
        let seconds = milliseconds_since(self.rt, Some(since)) / 1_000;
        info!(self.rt; "printer {} is reached again, after {seconds} s", self.printer);
    }

    /// Writes octets once the printer takes some, and answers how many.
    ///
    /// TimedOut where it took none for as long as it may; as `not_wanted` where nobody waits for the job any more; else as the
    /// system says.
    fn write_patiently(&mut self, octets: &[u8]) -> io::Result<usize>
        ensures { IfOk result (λ count. count ≤ length octets.now) }
    {
        let Some(connection) = &mut self.connection else {
            return Err(Error::from(ErrorKind::NotConnected));
        };
        let mut waiting = PrinterWait::begin(self.rt, self.errand, self.job);
        for turn in 0..u64::MAX {
            match connection.write(octets, TURN_MS) {
                Err(error) if error.kind() == ErrorKind::WouldBlock => {
                    self.errand.note_halt(self.printer);
                }
                Err(error) if error.kind() == ErrorKind::Interrupted => {}
                written => {
                    if turn != 0 {
                        self.errand.note_taken(self.printer);
                    }
                    return written;
                }
            }
            if !waiting.goes_on() {
                return Err(not_wanted());
            }
            if self
                .silence_ms
                .is_some_and(|silence_ms| silence_ms <= waiting.milliseconds())
            {
                break;
            }
        }
        Err(Error::new(
            ErrorKind::TimedOut,
            "the printer took nothing for as long as it may",
        ))
    }

    /// Ends a connection, and waits for the printer to end it too, unless it hasn't for three jobs in a row: what is there is
    /// dropped once then.
    fn end(&self, connection: &mut PrinterConnection) -> End {
        if let Err(error) = connection.end_sending() {
            return End::Failed(error);
        }
        let is_patient = self.unended.is_patient();
        let limit_ms = if is_patient { END_TURN_MS } else { 0 };
        let start = now(self.rt);
        for _turn in 0..u64::MAX {
            match connection.is_ended(limit_ms) {
                Ok(true) => return End::Ended,
                Ok(false) => {}
                Err(error) => return End::Failed(error),
            }
            if !is_patient || self.errand.is_cut_off() {
                return End::Left;
            }
            if milliseconds_since(self.rt, start) >= END_MS {
                break;
            }
        }
        End::Late
    }

    /// Tells and notes that it isn't known whether the printer has all octets of the job.
    fn tell_doubt<W: Display>(&self, why: &W) {
        self.errand.note_end(self.printer, Some(self.job));
        let TcpDial {
            printer,
            job,
            address,
            ..
        } = self;
        warn!(self.rt; "printer {printer}: job {job}: {address}: {why}: its last octets may not have come");
    }

    /// Tells of a printer that didn't end its connection in time.
    fn tell_late(&self) {
        self.tell_doubt(&"the printer didn't end the connection");
        if !self.unended.is_patient() {
            let TcpDial {
                printer,
                address,
                ..
            } = self;
            warn!(self.rt; "printer {printer}: {address}: it ended none of three connections: from now on that isn't waited for");
        }
    }
}

impl<'a, R: Net + Clock + Log, Q: Errand> Causes for TcpDial<'a, R, Q> {
    ghost why = { λ dial. dial.cause };

    fn cause(&self) -> Option<Error> {
        self.cause
    }
}

impl<'a, R: Net + Clock + Log, Q: Errand> Dial for TcpDial<'a, R, Q> {
    ghost connections = { λ _. None };

    fn dial(&mut self, job: u64) -> Result<(), ConnectionFault> {
        self.job = job;
        self.connection = None;
        self.is_begun = false;
        match self.connect() {
            Ok(connection) => {
                self.connection = Some(connection);
                Ok(())
            }
            Err(error) => Err(self.fail(error)),
        }
    }

    fn write(&mut self, octets: &[u8]) -> Result<usize, ConnectionFault> {
        match self.write_patiently(octets) {
            Ok(count) => {
                self.tell_reached();
                self.is_begun = true;
                Ok(count)
            }
            Err(error) => Err(self.fail(error)),
        }
    }

    fn hang_up(&mut self) {
        // One that failed is closed, and why is kept.
        let Some(mut connection) = self.connection.take() else {
            return;
        };
        let end = self.end(&mut connection);
        if let Some(is_in_time) = is_in_time(&end) {
            self.unended = self.unended.after(is_in_time);
        }
        match end {
            End::Ended => self.errand.note_end(self.printer, None),
            End::Failed(error) => self.tell_doubt(&error),
            End::Late => self.tell_late(),
            End::Left => {}
        }
    }
}
