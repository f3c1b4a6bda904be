//! A printer on the network.

ghost use Rattle.std.specs.Prelude.{◌≡◌, ◌<◌, ◌≤◌, true, length, take, OnOk, OnErr};
ghost use Rattle.std.specs.Result.{is_ok};
ghost use Rattle.printer_sinks.specs.Connections.{Adds, desk, Sends, SendsSome, spoken, is_amid, is_begun, opened, stands, stage_for, told, longer, sent};

use crate::dial::{ConnectionFault, Dial, Pause};
use crate::stage::SinkStage;

/// Writes octets to the newest connection until it fails, and answers how many it took.
fn write_on<D: Dial>(dial: &mut D, octets: &[u8]) -> usize
    ensures within { result ≤ length octets.now }
    ensures connections { D.connections dial.new
        ≡ told (longer (take result octets.now)) (D.connections dial.old) }
{
    let mut done = 0;
    while done < octets.len() {
        match dial.write(&octets[done..]) {
            Ok(0) | Err(_) => break,
            Ok(count) => done += count,
        }
    }
    done
}

/// Opens a connection for a job and writes to it once. Answers how many octets it took; where that is none, no connection of
/// the job is open.
fn try_once<D: Dial>(dial: &mut D, job: u64, octets: &[u8]) -> usize
    ensures within { result ≤ length octets.now }
    ensures connections { told spoken (D.connections dial.new)
        ≡ told (sent SinkStage.Idle job (take result octets.now)) (told spoken
        (D.connections dial.old)) }
    ensures begun { 0 < result → is_begun (D.connections dial.new) ≡ true }
{
    if dial.dial(job).is_err() {
        return 0;
    }
    match dial.write(octets) {
        Ok(0) | Err(_) => {
            dial.hang_up();
            0
        }
        Ok(count) => count,
    }
}

/// How often a sink tries to open a connection for a job, and what waits in between.
#[derive(Drop)]
struct Tries<'a, P: Pause> {
    pause: &'a mut P,
    most: u64,
}

/// Opens connections for a job until one takes an octet or no try is left. Answers how many octets it took; where that is none,
/// no connection of the job is open.
fn begin<D: Dial, P: Pause>(dial: &mut D, tries: Tries<'_, P>, job: u64, octets: &[u8]) -> usize
    ensures within { result ≤ length octets.now }
    ensures connections { told spoken (D.connections dial.new)
        ≡ told (sent SinkStage.Idle job (take result octets.now)) (told spoken
        (D.connections dial.old)) }
    ensures begun { 0 < result → is_begun (D.connections dial.new) ≡ true }
{
    let Tries { pause, most } = tries;
    for tried in 0..most {
        let count = try_once(dial, job, octets);
        if count > 0 {
            return count;
        }
        if !pause.pause(job, tried) {
            break;
        }
    }
    0
}

/// Writes the rest of a page to the newest connection, and ends that where it doesn't take all. Answers how many octets it
/// took. Opens none.
fn go_on<D: Dial>(dial: &mut D, octets: &[u8]) -> usize
    requires { is_begun (D.connections dial.old) ≡ true }
    ensures within { result ≤ length octets.now }
    ensures connections { told spoken (D.connections dial.new)
        ≡ told (longer (take result octets.now)) (told spoken (D.connections dial.old)) }
    ensures begun { is_begun (D.connections dial.new) ≡ true }
    ensures opened { opened (D.connections dial.new) ≡ opened (D.connections dial.old) }
{
    let count = write_on(dial, octets);
    if count < octets.len() {
        dial.hang_up();
    }
    count
}

/// Sends a page of a job of which nothing was sent.
fn send_first<D: Dial, P: Pause>(
    dial: &mut D,
    tries: Tries<'_, P>,
    job: u64,
    octets: &[u8],
) -> (usize, SinkStage)
    ensures adds { Adds result.0 job octets.now SinkStage.Idle
        (told spoken (D.connections dial.old)) (desk result.1 (D.connections dial.new)) }
    ensures stands { stands result.1 (D.connections dial.new) ≡ true }
{
    if octets.is_empty() {
        return (0, SinkStage::Idle);
    }
    let first = begin(dial, tries, job, octets);
    if first == 0 {
        return (0, SinkStage::Idle);
    }
    let count = first + go_on(dial, &octets[first..]);
    if count == octets.len() {
        (count, SinkStage::Sending(job))
    } else {
        (count, SinkStage::Lost(job))
    }
}

/// Sends a page of a job of which an octet was sent.
fn send_more<D: Dial>(dial: &mut D, job: u64, octets: &[u8]) -> (usize, SinkStage)
    requires { is_begun (D.connections dial.old) ≡ true }
    ensures adds { Adds result.0 job octets.now (SinkStage.Sending job) (told spoken
        (D.connections dial.old))
        (desk result.1 (D.connections dial.new)) }
    ensures stands { stands result.1 (D.connections dial.new) ≡ true }
    ensures opened { opened (D.connections dial.new) ≡ opened (D.connections dial.old) }
{
    let count = go_on(dial, octets);
    if count == octets.len() {
        (count, SinkStage::Sending(job))
    } else {
        (count, SinkStage::Lost(job))
    }
}

/// The stage for a page of a job. Where the sink was at another job it leaves that, and ends its connection.
fn come_to<D: Dial>(dial: &mut D, stage: SinkStage, job: u64) -> SinkStage
    ensures stage { result ≡ stage_for job stage }
    ensures connections { D.connections dial.new ≡ D.connections dial.old }
{
    match stage {
        SinkStage::Sending(other) if other != job => {
            dial.hang_up();
            SinkStage::Idle
        }
        SinkStage::Lost(other) if other != job => SinkStage::Idle,
        _ => stage,
    }
}

/// Sends a page, and answers how many of its octets were sent.
fn send<D: Dial, P: Pause>(
    dial: &mut D,
    tries: Tries<'_, P>,
    stage: SinkStage,
    job: u64,
    octets: &[u8],
) -> (usize, SinkStage)
    requires { stands stage (D.connections dial.old) ≡ true }
    ensures sends { SendsSome result.0 job octets.now (desk stage (D.connections dial.old))
        (desk result.1 (D.connections dial.new)) }
    ensures stands { stands result.1 (D.connections dial.new) ≡ true }
    ensures opened { is_amid (stage_for job stage) ≡ true
        → opened (D.connections dial.new) ≡ opened (D.connections dial.old) }
{
    match come_to(dial, stage, job) {
        SinkStage::Idle => send_first(dial, tries, job, octets),
        SinkStage::Sending(_) => send_more(dial, job, octets),
        SinkStage::Lost(_) => (0, SinkStage::Lost(job)),
    }
}

/// A printer on the network: one connection a job.
#[derive(Drop)]
pub struct SocketSink<D: Dial + Drop, P: Pause + Drop> {
    dial: D,
    pause: P,
    most_tries: u64,
    stage: SinkStage,
    ghost begun: { stands stage (D.connections dial) ≡ true },
}

impl<D: Dial + Drop, P: Pause + Drop> SocketSink<D, P> {
    /// A sink that is at no job. It makes N tries at most to open a connection for a job, with a pause after each.
    pub fn new(dial: D, pause: P, most_tries: u64) -> SocketSink<D, P>
        ensures { desk result.stage (D.connections result.dial)
            ≡ desk SinkStage.Idle (D.connections dial) }
    {
        SocketSink {
            dial,
            pause,
            most_tries,
            stage: SinkStage::Idle,
        }
    }

    /// What opens its connections.
    pub fn dial(&self) -> &D
        ensures { result.now ≡ self.now.dial }
    {
        &self.dial
    }

    /// Sends a page of a job, all its octets: by a new connection where nothing of the job was sent, and else by the newest.
    /// Where the sink was at another job, that one's connection is ended.
    ///
    /// ConnectionFault where not all of them were sent. If an octet of the job was, its connection is ended then, and none is
    /// opened for it any more.
    pub fn print(&mut self, job: u64, octets: &[u8]) -> Result<(), ConnectionFault>
        ensures sends { Sends job octets.now (is_ok result)
            (desk self.old.stage (D.connections self.old.dial)) (desk self.new.stage
            (D.connections self.new.dial)) }
        // Once an octet of the job was sent, no connection is opened.
        ensures opened { is_amid (stage_for job self.old.stage) ≡ true
            → opened (D.connections self.new.dial) ≡ opened (D.connections self.old.dial) }
    {
        let tries = Tries {
            pause: &mut self.pause,
            most: self.most_tries,
        };
        let (count, stage) = send(&mut self.dial, tries, self.stage, job, octets);
        self.stage = stage;
        let is_whole = count == octets.len();
        if is_whole {
            Ok(())
        } else {
            Err(ConnectionFault)
        }
    }

    /// Leaves the job that it is at, and ends its connection. Of an end that leaves a doubt tells who opens the connections: a job of which each
    /// octet was sent is printed.
    pub fn leave(&mut self)
        ensures { desk self.new.stage (D.connections self.new.dial)
            ≡ desk SinkStage.Idle (D.connections self.old.dial) }
    {
        let is_open = matches!(self.stage, SinkStage::Sending(_));
        self.stage = SinkStage::Idle;
        if is_open {
            self.dial.hang_up();
        }
    }
}
