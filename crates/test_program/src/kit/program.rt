//! The program's words, and what they are told.

use log::Log;
use program_edge::{Limits, PrinterLimits, Settings, StreamReader, StreamWriter};
use std::alloc::{AllocError, Global};
use std::fs::{File, Files};
use std::net::{Ipv4Addr, Net, OpenListener, SocketAddr, TcpListener, TcpStream};
use std::process::Abort;
use std::rt::Env;
use std::{env, fmt};
use word_actions::{RunOutcome, ServeRequest, System, run};

/// A configuration of one queue and one printer.
pub const CONFIG: &[u8] =
    b"pages = 4\npage_size = 8\nmax_jobs = 8\naccount = 100000\n[[queue]]\nname = \"lp\"\nlimit = 3\nprinters = 1\n";

/// The words that the program is started with, its name before these, with these paths for `FILE` and `SCRIPT`.
pub fn words_of(
    alloc: Global,
    line: &str,
    file: &str,
    script: &str,
) -> Result<Vec<String>, AllocError> {
    let mut words = Vec::new(alloc);
    words.push(String::from_str(alloc, "lpd_server")?)?;
    for word in line
        .split(',')
        .take(if line.is_empty() { 0 } else { usize::MAX })
    {
        let word = match word {
            "FILE" => file,
            "SCRIPT" => script,
            _ => word,
        };
        words.push(String::from_str(alloc, word)?)?;
    }
    Ok(words)
}

/// How a server is to run, as it is told in a line.
#[derive(Clone, Copy)]
struct ServeLine<'a> {
    config: &'a str,
    request: &'a ServeRequest<'a>,
}

/// Whom a server lets in, and for how long.
#[derive(Clone, Copy)]
struct LimitWords<'a>(&'a Limits);

impl fmt::Display for LimitWords<'_> {
    fn fmt<W: fmt::Write>(&self, f: &mut fmt::Formatter<W>) -> fmt::Result {
        let Limits {
            silence,
            per_host,
            slowest,
            no_job_seconds,
            leave_seconds,
            room_ms,
        } = *self.0;
        write!(f, "{silence:?} {per_host:?} {slowest:?} ")?;
        write!(f, "{no_job_seconds} {leave_seconds} {room_ms}")
    }
}

/// What printers print to, and how long a server waits for them.
#[derive(Clone, Copy)]
struct PrinterWords<'a>(&'a ServeRequest<'a>);

impl fmt::Display for PrinterWords<'_> {
    fn fmt<W: fmt::Write>(&self, f: &mut fmt::Formatter<W>) -> fmt::Result {
        let ServeRequest { printers, settings } = self.0;
        let PrinterLimits {
            patience_minutes,
            silence_seconds,
        } = settings.printer_limits;
        let restart_seconds = settings.restart_seconds;
        write!(f, "{printers:?} {patience_minutes:?} ")?;
        write!(f, "{silence_seconds:?} {restart_seconds:?}")
    }
}

impl fmt::Display for ServeLine<'_> {
    fn fmt<W: fmt::Write>(&self, f: &mut fmt::Formatter<W>) -> fmt::Result {
        let Settings {
            port,
            bind,
            out,
            sessions,
            connections,
            rotate,
            keep_room,
            limits,
            allowed,
            proxied,
            control,
            printers: _,
            printer_limits: _,
            restart_seconds: _,
            spool,
            parts,
            account,
            log,
            log_jobs,
            status,
            status_host,
        } = &self.request.settings;
        let parts = if *parts { " parts" } else { "" };
        write!(f, "serves {} {port} {bind} {out} ", self.config)?;
        write!(f, "{sessions} {connections:?} {rotate:?} ")?;
        write!(f, "{} {keep_room} ", LimitWords(limits))?;
        write!(f, "{allowed:?} {proxied:?} {control:?} ")?;
        write!(f, "{} ", PrinterWords(self.request))?;
        write!(f, "{spool:?} {account:?} {log:?} {log_jobs} ")?;
        writeln!(f, "{status:?} {status_host:?}{parts}")
    }
}

/// What is told behind all that the program printed: its exit status, how a server is to run, or the path and the line of a command for one.
fn end_of(alloc: Global, outcome: &RunOutcome) -> Result<Vec<u8>, AllocError> {
    let text = match outcome {
        RunOutcome::Ended(status) => format!(in alloc; "status {status}\n")?,
        RunOutcome::Serve { config, request } => {
            format!(in alloc; "{}", ServeLine { config, request })?
        }
        RunOutcome::Control(request) => {
            let mut words = format!(in alloc; "controls {} ", request.path)?.into_bytes();
            words.extend_from_slice(request.command.line(alloc)?.as_slice())?;
            return Ok(words);
        }
        RunOutcome::Audit(request) => format!(in alloc; "audits {request:?}\n")?,
        RunOutcome::Usage(request) => format!(in alloc; "uses {request:?}\n")?,
    };
    Ok(text.into_bytes())
}

/// What the program prints for these words and this input, its faults, and in a line of its own its exit status, how a server is to
/// run, or the path and the line of a command for one.
pub fn told<
    R: Abort
        + AllocGlobal
        + Env
        + Files<File = File>
        + Log
        + Net<Listener = TcpListener, Stream = TcpStream>,
>(rt: &R, words: &[String], input: &[u8]) -> Result<Vec<u8>, AllocError> {
    let alloc = rt.alloc();
    let mut output = StreamWriter::new(Vec::new(alloc));
    let mut faults = StreamWriter::new(Vec::new(alloc));
    let mut input = StreamReader::new(input);
    let end = {
        let system = System { rt, host: rt };
        let outcome = run(system, words, &mut input, &mut output, &mut faults);
        end_of(alloc, &outcome)
    };
    let mut told = output.into_stream();
    told.extend_from_slice(faults.into_stream().as_slice())?;
    told.extend_from_slice(end?.as_slice())?;
    Ok(told)
}

/// A listener at a port of loopback that nobody else has, and the port.
pub fn listen<R: Abort + Net<Listener = TcpListener, Stream = TcpStream>>(
    rt: &R,
) -> (TcpListener, u16) {
    let address = SocketAddr::from((Ipv4Addr::LOCALHOST, 0));
    let listener = TcpListener::bind(rt, address).expect(rt, "a port");
    let port = listener.local_addr().expect(rt, "its number").port();
    (listener, port)
}

/// The path of a file for a test that holds this port.
pub fn path_of<R: Abort + AllocGlobal + Env>(rt: &R, port: u16) -> String {
    let dir = env::temp_dir(rt).expect(rt, "a directory");
    let dir = dir.as_str();
    format!(in rt.alloc(); "{dir}/hurgwaye-{port}").expect(rt, "memory")
}
