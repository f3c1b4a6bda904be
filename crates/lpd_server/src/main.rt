//! The program: what its words ask for is done with the standard streams, files and the network.
//!
//! It runs the server itself, by what `word_actions` answers: threads are lent to `main` alone, and what holds a runtime with them can't
//! be handed on behind a trait.
#![tactic(auto)]

ghost use Rattle.std.specs.Prelude.{◌≡◌, ◌≤◌, ◌⊎◌};
ghost use Rattle.std.specs.Process.{exit_status};
ghost use Rattle.word_actions.specs.Outcome.{IfEnded};

use account_reports::AUDIT;
use config_values::Config;
use log::filter::{Builder, Filter, FilteredLog};
use log::sink::Console;
use log::{Level, LevelFilter, Log, Logged, error, info};
use log_lines::{LineLog, LineQueue, LogForm};
use lpd_commands::OctetWrite;
use lpd_daemon::{
    ACCOUNT_LINES, Counter, FOLDER_CAUSES, JOB_LINES, OpenFault, Plan, SHARED_FOLDERS, ServerFault,
};
use program_edge::{
    CAUSES, FaultName, PlacedPrinter, Settings, StreamReader, StreamWriter,
    fill_standard_descriptors, tell, tell_cause,
};
use program_words::{AuditRequest, ControlRequest, ServeRequest, Unread, UsageRequest};
use std::alloc::{AllocError, Global};
use std::fs::{File, Files};
use std::io::{IsTerminal, Lock, StdoutLock, Write};
use std::net::{Net, TcpListener, TcpStream};
use std::process::ExitCode;
use std::rt::Clock;
use std::sync::{Arc, Wait};
use std::thread::Threads;
use std::time::Duration;
use std::{io, thread};
use terminal_writer::TerminalWriter;
use word_actions::{
    ActionFault, PLACE_LINES, PROGRESS, ReadSpool, RunOutcome, System, ToldPlace, printers_of,
    remark_on, tell_places,
};

/// How many lines of the log wait to be written, at most.
const LINES: usize = 256;

/// The longest time that the end waits until the log is written, in seconds.
const PATIENCE_SECONDS: u64 = 2;

/// The part of the program that tells here why a server doesn't start.
const STARTS: &str = "lpd_server";

/// What is logged at the most but by the parts that are named: at a terminal for information too.
fn most_told(is_terminal: bool) -> LevelFilter {
    if is_terminal {
        LevelFilter::Info
    } else {
        LevelFilter::Warn
    }
}

/// Which parts of a server log for information where standard error is no terminal: in any case why a fault comes, in a line before it.
fn informing(settings: &Settings) -> &'static [&'static str] {
    match (settings.log_jobs, settings.account) {
        (true, Some(_)) => &[
            CAUSES,
            FOLDER_CAUSES,
            SHARED_FOLDERS,
            STARTS,
            PLACE_LINES,
            ACCOUNT_LINES,
            JOB_LINES,
        ],
        (true, None) => &[
            CAUSES,
            FOLDER_CAUSES,
            SHARED_FOLDERS,
            STARTS,
            PLACE_LINES,
            JOB_LINES,
        ],
        (false, Some(_)) => &[
            CAUSES,
            FOLDER_CAUSES,
            SHARED_FOLDERS,
            STARTS,
            PLACE_LINES,
            ACCOUNT_LINES,
        ],
        (false, None) => &[CAUSES, FOLDER_CAUSES, SHARED_FOLDERS, STARTS, PLACE_LINES],
    }
}

/// What is logged where no server is asked for: as `most_told` says, why something failed in any case, and of how far something is, which this
/// part of the program tells, all where that is asked for.
fn told(
    alloc: Global,
    is_terminal: bool,
    part: &str,
    tells_progress: bool,
) -> Result<Filter, AllocError> {
    let mut builder = Builder::new(alloc).filter_level(most_told(is_terminal))?;
    for part in word_actions::CAUSES {
        builder = builder.filter_module(part, LevelFilter::Info)?;
    }
    if !tells_progress {
        return Ok(builder.build());
    }
    Ok(builder.filter_module(part, LevelFilter::Info)?.build())
}

/// Tells that memory was refused. Answers the exit status.
fn refuse_memory<W: Write + Drop>(alloc: Global, faults: &mut StreamWriter<W>) -> u8
    ensures { result ≡ 4 }
{
    // Where standard error can't be written, the status alone tells.
    let _ = tell(alloc, &FaultName::Memory, faults);
    4
}

/// Standard output, at which what strangers sent is shown by its digits where it is a terminal.
fn output_of(rt: &HostRuntime) -> TerminalWriter<StreamWriter<StdoutLock<'static>>> {
    let output = rt.stdout();
    let is_terminal = output.is_terminal();
    TerminalWriter::new(rt.alloc(), StreamWriter::new(output.lock()), is_terminal)
}

/// Nothing more is written to the output. Answers this exit status, and 4, which is told, where what was held back can't be written.
fn ended<O: OctetWrite + Drop, E: OctetWrite>(
    alloc: Global,
    status: u8,
    output: &mut TerminalWriter<O>,
    faults: &mut E,
) -> u8
    ensures { (result ≡ status) ⊎ (result ≡ 4) }
{
    if output.finish().is_ok() || status != 0 {
        return status;
    }
    // As for any fault: the exit status says it too.
    let _ = tell(alloc, &FaultName::WriteFile, faults);
    4
}

/// What is told at a terminal where standard input is to be read, before anything is waited for. A function without a clause, and no constant: a
/// contract that speaks of each octet of this text is dear to prove.
fn reading() -> &'static str {
    "reading a configuration and a script from standard input (--help tells the words)"
}

/// Tells at a terminal that standard input is read where there are no words.
fn tell_reading<W: Write + Drop>(rt: &HostRuntime, words: &[String], faults: &mut StreamWriter<W>) {
    if words.len() <= 1 && rt.stdin().is_terminal() {
        // Where standard error can't be written, nobody is there who waits for it.
        let _ = tell(rt.alloc(), &reading(), faults);
    }
}

/// Does what the words ask for, but for serving and for commands to a server.
fn run<'a>(rt: &HostRuntime, words: &'a [String]) -> RunOutcome<'a>
    ensures { IfEnded result (λ status. status ≤ 5) }
{
    let alloc = rt.alloc();
    let mut input = StreamReader::new(rt.stdin().lock());
    let mut output = output_of(rt);
    let mut faults = StreamWriter::new(rt.stderr());
    tell_reading(rt, words, &mut faults);
    // What asks for it is known by the part that sends a job alone.
    let Ok(filter) = told(alloc, rt.stderr().is_terminal(), PROGRESS, true) else {
        let unread = Unread::Memory;
        return RunOutcome::Ended(word_actions::tell_unread(
            alloc,
            unread,
            &mut output,
            &mut faults,
        ));
    };
    let logged = Logged::new(*rt, Level::Info, FilteredLog::new(Console(*rt), filter));
    let system = System {
        rt: &logged,
        host: rt,
    };
    match word_actions::run(system, words, &mut input, &mut output, &mut faults) {
        RunOutcome::Ended(status) => {
            RunOutcome::Ended(ended(alloc, status, &mut output, &mut faults))
        }
        outcome => outcome,
    }
}

/// Sends a command to a server's control socket, and prints the answer. Answers the exit status.
fn control(rt: &HostRuntime, request: &ControlRequest) -> u8
    ensures { result ≤ 5 }
{
    let alloc = rt.alloc();
    let mut output = output_of(rt);
    let mut faults = StreamWriter::new(rt.stderr());
    let Ok(filter) = told(alloc, rt.stderr().is_terminal(), PROGRESS, false) else {
        return refuse_memory(alloc, &mut faults);
    };
    let logged = Logged::new(*rt, Level::Info, FilteredLog::new(Console(*rt), filter));
    let status = word_actions::control(rt, &logged, request, &mut output, &mut faults);
    ended(alloc, status, &mut output, &mut faults)
}

/// Checks an account, of which `progress` asks to be told how far that is. Answers the exit status.
fn audit(rt: &HostRuntime, request: &AuditRequest) -> u8
    ensures { result ≤ 6 }
{
    let alloc = rt.alloc();
    let mut output = output_of(rt);
    let mut faults = StreamWriter::new(rt.stderr());
    let is_terminal = rt.stderr().is_terminal();
    let Ok(filter) = told(alloc, is_terminal, AUDIT, request.progress) else {
        return refuse_memory(alloc, &mut faults);
    };
    let logged = Logged::new(*rt, Level::Info, FilteredLog::new(Console(*rt), filter));
    let status = account_reports::audit(&logged, alloc, request, &mut output, &mut faults);
    ended(alloc, status, &mut output, &mut faults)
}

/// Tells what was used. Answers the exit status.
fn usage(rt: &HostRuntime, request: &UsageRequest) -> u8
    ensures { result ≤ 6 }
{
    let alloc = rt.alloc();
    let mut output = output_of(rt);
    let mut faults = StreamWriter::new(rt.stderr());
    let Ok(filter) = told(alloc, rt.stderr().is_terminal(), AUDIT, false) else {
        return refuse_memory(alloc, &mut faults);
    };
    let logged = Logged::new(*rt, Level::Info, FilteredLog::new(Console(*rt), filter));
    let status = account_reports::usage(&logged, alloc, request, &mut output, &mut faults);
    ended(alloc, status, &mut output, &mut faults)
}

/// Starts the thread that writes what is logged, so that no other waits for whoever reads that. It
/// isn't joined: its last write may wait for ever.
fn start_log<R: Clock + Threads + Wait + Copy + Send + 'static, W: Write + Drop + Send + 'static>(
    rt: &R,
    alloc: Global,
    form: LogForm,
    out: W,
) -> io::Result<Arc<LineQueue>> {
    let queue = Arc::new(alloc, LineQueue::new(alloc, LINES, form))?;
    let lines = Arc::try_clone(&queue)?;
    let host = *rt;
    let writer = thread::spawn(rt, move || {
        let mut out = out;
        lines.write_all(&host, alloc, &mut out);
    })?;
    drop(writer);
    Ok(queue)
}

/// Tells that the control socket at a path can't be made. Answers the exit status.
fn refuse_control<R: Log>(rt: &R, path: Option<&str>, why: &OpenFault) -> u8
    ensures { result ≡ 4 }
{
    let path = path.unwrap_or("");
    info!(rt; target: STARTS, "{path}: {why}");
    error!(rt; "{} {path}", FaultName::Network);
    4
}

/// Tells a fault in the log. Answers its exit status.
fn refuse<R: Log>(rt: &R, fault: &ActionFault) -> u8
    ensures { result ≤ 5 }
{
    error!(rt; "{fault}");
    fault.status()
}

/// How a server ended, which is told where the log wasn't told yet. Answers the exit status.
fn status_of<R: Log>(rt: &R, ended: Result<(), ServerFault>) -> u8
    ensures { result ≤ 5 }
{
    match ended {
        Ok(()) => 0,
        Err(fault) => {
            if !fault.is_told() {
                error!(rt; "{fault}");
            }
            fault.status()
        }
    }
}

/// Serves the queues of this configuration. The control socket, where the settings name one, is made by `host`, since a logger hands no Unix
/// sockets on. Answers the exit status.
fn serve_plan<
    R: Files<File = File>
        + Net<Listener = TcpListener, Stream = TcpStream>
        + Clock
        + Log
        + Threads
        + Wait
        + Sync,
    N: AllocGlobal + Clock + Files<File = File> + Net,
    O: Write + Drop,
>(rt: &R, host: &N, config: Config, settings: Settings, output: O) -> u8
where
    R::Dir: Send + Sync,
    ensures { result ≤ 5 }
{
    let alloc = host.alloc();
    match Counter::open(host, alloc, settings.control) {
        Ok((counter, socket)) => {
            let plan = Plan {
                config,
                settings,
                counter,
            };
            let mut output = StreamWriter::new(output);
            let ended = lpd_daemon::serve(rt, alloc, plan, &mut output);
            if let Some(socket) = socket {
                socket.remove(host);
            }
            status_of(rt, ended)
        }
        Err(why) => {
            let status = refuse_control(rt, settings.control, &why);
            settings.let_go();
            status
        }
    }
}

/// The spool of the configuration at this path. Why it isn't read is told in the log, where it tells more than the fault.
fn spool_at<R: Files<File = File> + Log>(
    rt: &R,
    alloc: Global,
    path: &str,
) -> Result<ReadSpool, ActionFault> {
    let mut file = StreamReader::open(rt, path);
    let read = word_actions::read_spool(alloc, &mut file);
    if let Err(fault) = &read {
        tell_cause(rt, &path, file.cause());
        remark_on(rt, alloc, path, Some(fault));
    }
    read
}

/// What each printer of a spool prints to, by its configuration and by the words of a request: the log is told of it, and of each remark.
fn printers_at<'a, R: Files<File = File> + Log>(
    rt: &R,
    alloc: Global,
    path: &str,
    (config, told): (&Config, &'a [ToldPlace]),
    request: &ServeRequest<'a>,
) -> Result<Vec<PlacedPrinter<'a>>, ActionFault> {
    let placed = printers_of(alloc, config, told, request.printers.as_slice());
    remark_on(rt, alloc, path, placed.as_ref().err());
    let printers = placed?;
    tell_places(rt, alloc, config, request.settings.out, printers.as_slice())?;
    Ok(printers)
}

/// Serves the queues of the configuration at this path, which has each printer that words say something of. Faults are told in the log.
/// Answers the exit status.
fn serve<
    R: Files<File = File>
        + Net<Listener = TcpListener, Stream = TcpStream>
        + Clock
        + Log
        + Threads
        + Wait
        + Sync,
    N: AllocGlobal + Clock + Files<File = File> + Net,
    O: Write + Drop,
>(rt: &R, host: &N, path: &str, request: ServeRequest, output: O) -> u8
where
    R::Dir: Send + Sync,
    ensures { result ≤ 5 }
{
    let alloc = host.alloc();
    let ReadSpool { config, told } = match spool_at(rt, alloc, path) {
        Ok(spool) => spool,
        Err(fault) => {
            request.settings.let_go();
            return refuse(rt, &fault);
        }
    };
    match printers_at(rt, alloc, path, (&config, told.as_slice()), &request) {
        Ok(printers) => {
            let ServeRequest { settings, .. } = request;
            let settings = Settings {
                printers,
                ..settings
            };
            serve_plan(rt, host, config, settings, output)
        }
        Err(fault) => {
            request.settings.let_go();
            refuse(rt, &fault)
        }
    }
}

/// These lines of a log: for information causes, the lines of jobs and of the account's segments, and at a terminal all.
fn informed<'a, R: Clock + Wait>(
    lines: LineLog<'a, R>,
    is_terminal: bool,
    settings: &Settings,
) -> LineLog<'a, R> {
    if is_terminal {
        return lines;
    }
    lines.informed_by(informing(settings))
}

/// The exit code of this status.
fn code(status: u8) -> ExitCode
    requires { status ≤ 6 }
    ensures { exit_status result ≤ 6 }
{
    ExitCode::from(status)
}

fn main(rt: HostRuntime) -> ExitCode {
    // Before anything else is opened: a file takes the lowest number that is free, and a printer's
    // isn't to be written to by the log.
    let filled = fill_standard_descriptors();
    let alloc = rt.alloc();
    let words = match program_words::words_of(&rt) {
        Ok(words) => words,
        Err(unread) => {
            let mut output = StreamWriter::new(rt.stdout());
            let mut faults = StreamWriter::new(rt.stderr());
            return code(word_actions::tell_unread(alloc, unread, &mut output, &mut faults));
        }
    };
    match run(&rt, words.as_slice()) {
        RunOutcome::Ended(status) => code(status),
        RunOutcome::Control(request) => code(control(&rt, &request)),
        RunOutcome::Audit(request) => code(audit(&rt, &request)),
        RunOutcome::Usage(request) => code(usage(&rt, &request)),
        RunOutcome::Serve { config, request } => {
            let Ok(queue) = start_log(&rt, alloc, request.settings.log, rt.stderr()) else {
                request.settings.let_go();
                return code(refuse_memory(alloc, &mut StreamWriter::new(rt.stderr())));
            };
            let lines = LineLog::new(&rt, alloc, &queue);
            let lines = informed(lines, rt.stderr().is_terminal(), &request.settings);
            let logged = Logged::new(rt, Level::Info, lines);
            let status = if filled {
                serve(&logged, &rt, config, request, rt.stdout())
            } else {
                error!(logged; "{} /dev/null", FaultName::ReadFile);
                request.settings.let_go();
                4
            };
            queue.end(&rt, Duration::from_secs(PATIENCE_SECONDS));
            code(status)
        }
    }
}
