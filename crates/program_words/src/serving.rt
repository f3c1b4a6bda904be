//! The words of `serve`: as `clap` is told them, and what they say.

ghost use Rattle.std.specs.Prelude.{◌≡◌, IfOk, IfErr, codes, option_map};
ghost use Rattle.clap.specs.Words.{found_of, rows_of};
ghost use Rattle.program_words.specs.Refused.{HasNoAddress, HasNoControl, HasNoLimits, HasNoLog, HasNoNetworks, HasNoSessions, HasNoStatus, HasNoStatusHost};
ghost use Rattle.program_words.specs.Refused.{LacksServing};
ghost use Rattle.program_words.specs.Serving.{AreLimits, AreNetworks, IsControl, IsListening, IsLog, IsPrinting};
ghost use Rattle.program_words.specs.Serving.{IsServing, IsStatus, IsStatusHost, IsTelling};
ghost use Rattle.program_words.specs.Values.{IsAddress, IsGivenOr};
ghost use Rattle.program_words.specs.declared.word_fault.WordFault.TheVariants.{Address, Missing};

use crate::command::CONFIG;
use crate::printers::{PRINTER, printer_limits_of, printers_of};
use crate::values::{
    address_of, count_of, flag_of, limit_of, number_of, text_if, text_or, texts_of,
};
use crate::word_fault::WordFault;
use clap::ArgMatches;
use command_tables::{CommandTable, Shape, Word};
use printer_names::NamedPrinter;
use program_edge::{
    LEAVE_SECONDS, Limits, LogForm, MOST_CONTROL_PATH, NO_JOB_SECONDS, Network, PrinterLimits,
    ROOM_MS, Settings, StatusPlace, is_host_name,
};
use std::alloc::Global;
use std::net::Ipv4Addr;
use std::num::NonZeroU64;

/// How many connections are served at once where the words don't say it.
const SESSIONS: u32 = 8;

/// The directory of the printers' files where the words don't say it.
const OUT: &str = ".";

const MORE_OF_SERVE: &str = "\
Prints `listening N` with its port, `rotated K entries E` when the account is rotated, and after the last
connection, where there is one, `closed entries E`. The pages of printer K are written to DIR/printer-K, at its end.
Sessions that fail are told on standard error.
A PRINTER is QUEUE, the first printer of that queue, QUEUE.N, its printer N, or K, printer K over all queues. Where the configuration
has `places` for it too, that is refused. Where any has a PLACE, a line on standard error tells what each prints to, as:
printer 1 lp socket://10.0.0.9:9100
A PLACE is file:PATH, a file, a device or a pipe; folder:PATH, where each job becomes a file of its own; or
socket://A.B.C.D[:PORT], a printer on the network that takes octets as they are, at port 9100 without :PORT.
N, SECONDS, MINUTES and OCTETS are 1 to 4294967295 where nothing else is said.

Examples:
  lpd_server serve spool.toml --port 515 --keep-room
  lpd_server serve spool.toml --port 5150 --bind 0.0.0.0 --out pages --sessions 16 --silence 60
  lpd_server serve spool.toml --port 515 --printer lp=socket://10.0.0.9
  lpd_server serve spool.toml --port 515 --keep-room --spool /var/spool/hurgwaye
  lpd_server serve spool.toml --port 515 --keep-room --account /var/lib/hurgwaye/account
  lpd_server serve spool.toml --port 515 --keep-room --bind 0.0.0.0 --proxied 10.0.0.2 --allow 10.0.0.0/8
  lpd_server serve spool.toml --port 5150 --connections 1";

/// The command that serves.
pub(crate) const SERVE: CommandTable = CommandTable {
    name: "serve",
    about: "Serves the queues of a configuration to the network",
    more: MORE_OF_SERVE,
    words: &[
        CONFIG,
        Word {
            id: "port",
            shape: Shape::RequiredOption("PORT", 1, 65_535),
            help: "The port to listen on: 1 to 65535",
        },
        Word {
            id: "bind",
            shape: Shape::Option("ADDRESS"),
            help: "The IPv4 address to listen on, 0.0.0.0 for all [default: 127.0.0.1]",
        },
        Word {
            id: "out",
            shape: Shape::Option("DIR"),
            help: "The directory of the printers' files [default: .]",
        },
        Word {
            id: "sessions",
            shape: Shape::NumberOption("N", 1, 64),
            help: "Serves at most N connections at once: 1 to 64 [default: 8]",
        },
        Word {
            id: "connections",
            shape: Shape::Count("N"),
            help: "Exits after N connections [default: never]",
        },
        Word {
            id: "rotate",
            shape: Shape::Count("N"),
            help: "Rotates the account after every N connections, for which all wait",
        },
        Word {
            id: "silence",
            shape: Shape::Count("SECONDS"),
            help: "Ends a session whose peer sends nothing, or reads nothing, for SECONDS",
        },
        Word {
            id: "per-host",
            shape: Shape::Count("N"),
            help: "Serves at most N connections of one address at once",
        },
        Word {
            id: "slowest",
            shape: Shape::Count("OCTETS"),
            help: "Ends a session whose peer sends fewer than OCTETS a second for a minute",
        },
        Word {
            id: "keep-room",
            shape: Shape::Flag,
            help: "Rotates the account as soon as no job is held, or trims it, and has new jobs wait for that",
        },
        Word {
            id: "allow",
            shape: Shape::Repeated("NETWORK"),
            help: "Lets in this network alone, and each other that is named so, as 10.0.0.0/8",
        },
        Word {
            id: "proxied",
            shape: Shape::Repeated("NETWORK"),
            help: "Has a proxy's header (PROXY protocol) say whose each connection of this network is, and of each other that is named so",
        },
        Word {
            id: "control",
            shape: Shape::Option("PATH"),
            help: "Makes a Unix socket at PATH where the server is looked after",
        },
        PRINTER,
        Word {
            id: "patience",
            shape: Shape::Count("MINUTES"),
            help: "Fails a job whose network printer isn't reached for MINUTES",
        },
        Word {
            id: "printer-silence",
            shape: Shape::Count("SECONDS"),
            help: "Fails a job whose network printer takes nothing for SECONDS",
        },
        Word {
            id: "restart",
            shape: Shape::Count("SECONDS"),
            help: "Starts a queue again SECONDS after a printer of it failed",
        },
        Word {
            id: "spool",
            shape: Shape::Option("DIR"),
            help: "Keeps each job in a file of DIR until it is printed, so that it outlives the server",
        },
        Word {
            id: "parts",
            shape: Shape::Flag,
            help: "Gives each queue its part of the spool, and refuses a job over it for now, where no jobs are kept",
        },
        Word {
            id: "account",
            shape: Shape::Option("DIR"),
            help: "Writes each segment of the account into a file of DIR, as it is rotated and at the end",
        },
        Word {
            id: "log",
            shape: Shape::Option("FORM"),
            help: "Sets before each line of the log its time, or what systemd's journal reads: FORM is time or journal",
        },
        Word {
            id: "log-jobs",
            shape: Shape::Flag,
            help: "Logs each job that was received, done, failed, removed, put back or aborted",
        },
        Word {
            id: "status",
            shape: Shape::Option("[ADDRESS:]PORT"),
            help: "Shows how all stands to browsers, and counts to Prometheus, at PORT of ADDRESS [default: 127.0.0.1]",
        },
        Word {
            id: "status-host",
            shape: Shape::Option("NAME"),
            help: "Lets browsers ask for that by the name NAME too",
        },
    ],
};

/// The address to listen on. `Address` where the text isn't one.
fn bind_of(matches: &ArgMatches) -> Result<Ipv4Addr, WordFault>
    ensures address { IfOk result (IsAddress (codes "bind") (rows_of (found_of matches.now))) }
    ensures fault { IfErr result (λ fault. (fault ≡ Address)
        × HasNoAddress (codes "bind") (rows_of (found_of matches.now))) }
{
    match address_of(matches, "bind") {
        Some(address) => Ok(address),
        None => Err(WordFault::Address),
    }
}

/// How many connections are served at once. `Missing` where the option is no number.
fn sessions_of(matches: &ArgMatches) -> Result<u32, WordFault>
    ensures sessions { IfOk result
        (IsGivenOr 8 (rows_of (found_of matches.now)) (codes "sessions")) }
    ensures fault { IfErr result (λ fault. (fault ≡ Missing)
        × HasNoSessions (rows_of (found_of matches.now))) }
{
    match matches.try_get_one::<u32>("sessions") {
        Ok(sessions) => Ok(sessions.unwrap_or(SESSIONS)),
        Err(_) => Err(WordFault::Missing),
    }
}

/// What words say of a server's peers. `Missing` where an option is no number above 0.
fn limits_of(matches: &ArgMatches) -> Result<Limits, WordFault>
    ensures limits { IfOk result (AreLimits (rows_of (found_of matches.now))) }
    ensures fault { IfErr result (λ fault. (fault ≡ Missing)
        × HasNoLimits (rows_of (found_of matches.now))) }
{
    Ok(Limits {
        silence: limit_of(matches, "silence")?,
        per_host: limit_of(matches, "per-host")?,
        slowest: limit_of(matches, "slowest")?,
        no_job_seconds: NO_JOB_SECONDS,
        leave_seconds: LEAVE_SECONDS,
        room_ms: ROOM_MS,
    })
}

/// The networks that an option names. `Network` with the first text that names none, and `Memory`.
fn networks_of(alloc: Global, matches: &ArgMatches, option: &str) -> Result<Vec<Network>, WordFault>
    ensures networks { IfOk result (λ networks.
        AreNetworks (rows_of (found_of matches.now)) option.now networks.items) }
    ensures fault { IfErr result (HasNoNetworks (rows_of (found_of matches.now)) option.now) }
{
    let mut networks = Vec::new(alloc);
    let Ok(texts) = texts_of(matches, option) else {
        return Ok(networks);
    };
    for text in texts {
        match Network::read(text) {
            Some(network) => networks.push(network)?,
            None => return Err(WordFault::Network(String::from_str(alloc, text)?)),
        }
    }
    Ok(networks)
}

/// The path of the control socket, if there is one. `Control` where it is too long, and `Memory`.
pub(crate) fn control_of<'a>(
    alloc: Global,
    matches: &ArgMatches<'a>,
) -> Result<Option<&'a str>, WordFault>
    ensures path { IfOk result (λ path.
        IsControl (rows_of (found_of matches.now)) (option_map (λ text. text.now) path)) }
    ensures fault { IfErr result (HasNoControl (rows_of (found_of matches.now))) }
{
    let Some(path) = text_if(matches, "control") else {
        return Ok(None);
    };
    if path.len() > MOST_CONTROL_PATH {
        return Err(WordFault::Control(String::from_str(alloc, path)?));
    }
    Ok(Some(path))
}

/// What stands before each line of the log. `Log` with a text that names no form, and `Memory`.
fn log_of(alloc: Global, matches: &ArgMatches) -> Result<LogForm, WordFault>
    ensures form { IfOk result (IsLog (rows_of (found_of matches.now))) }
    ensures fault { IfErr result (HasNoLog (rows_of (found_of matches.now))) }
{
    let Some(text) = text_if(matches, "log") else {
        return Ok(LogForm::Plain);
    };
    match LogForm::read(text) {
        Some(form) => Ok(form),
        None => Err(WordFault::Log(String::from_str(alloc, text)?)),
    }
}

/// Where the status is shown, if it is. `Status` with a text that names no place, and `Memory`.
fn status_of(alloc: Global, matches: &ArgMatches) -> Result<Option<StatusPlace>, WordFault>
    ensures place { IfOk result (IsStatus (rows_of (found_of matches.now))) }
    ensures fault { IfErr result (HasNoStatus (rows_of (found_of matches.now))) }
{
    let Some(text) = text_if(matches, "status") else {
        return Ok(None);
    };
    match StatusPlace::read(text) {
        Some(place) => Ok(Some(place)),
        None => Err(WordFault::Status(String::from_str(alloc, text)?)),
    }
}

/// By which name the status may be asked for, if one is given. `StatusHost` with a text that is no name of a host,
/// `NoStatus` where the status is shown nowhere, and `Memory`.
fn status_host_of<'a>(alloc: Global, matches: &ArgMatches<'a>) -> Result<Option<&'a str>, WordFault>
    ensures name { IfOk result (λ name.
        IsStatusHost (rows_of (found_of matches.now)) (option_map (λ text. text.now) name)) }
    ensures fault { IfErr result (HasNoStatusHost (rows_of (found_of matches.now))) }
{
    let Some(name) = text_if(matches, "status-host") else {
        return Ok(None);
    };
    if !is_host_name(name) {
        return Err(WordFault::StatusHost(String::from_str(alloc, name)?));
    }
    match text_if(matches, "status") {
        Some(_) => Ok(Some(name)),
        None => Err(WordFault::NoStatus),
    }
}

/// Where a server listens, and how many connections it serves.
#[derive(Clone, Copy)]
struct ListeningWords {
    port: u16,
    bind: Ipv4Addr,
    sessions: u32,
    connections: Option<u64>,
    rotate: Option<NonZeroU64>,
    limits: Limits,
}

/// What words say of the connections that a server takes.
fn listening_of(matches: &ArgMatches) -> Result<ListeningWords, WordFault>
    ensures read { IfOk result (IsListening (rows_of (found_of matches.now))) }
    ensures fault { IfErr result (LacksServing (rows_of (found_of matches.now))) }
{
    Ok(ListeningWords {
        port: number_of(matches, "port")?,
        bind: bind_of(matches)?,
        sessions: sessions_of(matches)?,
        connections: count_of(matches, "connections")?,
        rotate: limit_of(matches, "rotate")?,
        limits: limits_of(matches)?,
    })
}

/// What a server prints to.
#[derive(Drop)]
struct PrintingWords<'a> {
    printers: Vec<NamedPrinter<'a>>,
    limits: PrinterLimits,
    restart_seconds: Option<NonZeroU64>,
}

/// What words say of the printers of a server.
fn printing_of<'a>(alloc: Global, matches: &ArgMatches<'a>) -> Result<PrintingWords<'a>, WordFault>
    ensures read { IfOk result (IsPrinting (rows_of (found_of matches.now))) }
    ensures fault { IfErr result (LacksServing (rows_of (found_of matches.now))) }
{
    Ok(PrintingWords {
        printers: printers_of(alloc, matches)?,
        limits: printer_limits_of(matches)?,
        restart_seconds: limit_of(matches, "restart")?,
    })
}

/// What a server tells of itself.
#[derive(Clone, Copy)]
struct Telling<'a> {
    log: LogForm,
    status: Option<StatusPlace>,
    status_host: Option<&'a str>,
}

/// What words say of what a server tells of itself.
fn telling_of<'a>(alloc: Global, matches: &ArgMatches<'a>) -> Result<Telling<'a>, WordFault>
    ensures read { IfOk result (IsTelling (rows_of (found_of matches.now))) }
    ensures fault { IfErr result (LacksServing (rows_of (found_of matches.now))) }
{
    Ok(Telling {
        log: log_of(alloc, matches)?,
        status: status_of(alloc, matches)?,
        status_host: status_host_of(alloc, matches)?,
    })
}

/// How a server is to run, as the words say it.
#[derive(Debug, Drop)]
pub struct ServeRequest<'a> {
    /// All but what its printers print to.
    pub settings: Settings<'a>,
    /// What single printers print to: each name at most once.
    pub printers: Vec<NamedPrinter<'a>>,
}

/// What words say of a server that is to run.
pub(crate) fn serving_of<'a>(
    alloc: Global,
    matches: &ArgMatches<'a>,
) -> Result<ServeRequest<'a>, WordFault>
    ensures read { IfOk result (IsServing (rows_of (found_of matches.now))) }
    ensures fault { IfErr result (LacksServing (rows_of (found_of matches.now))) }
{
    let listening = listening_of(matches)?;
    let allowed = networks_of(alloc, matches, "allow")?;
    let proxied = networks_of(alloc, matches, "proxied")?;
    let control = control_of(alloc, matches)?;
    let printing = printing_of(alloc, matches)?;
    let telling = telling_of(alloc, matches)?;
    let settings = Settings {
        port: listening.port,
        bind: listening.bind,
        out: text_or(matches, "out", OUT),
        sessions: listening.sessions,
        connections: listening.connections,
        rotate: listening.rotate,
        keep_room: flag_of(matches, "keep-room"),
        limits: listening.limits,
        allowed,
        proxied,
        control,
        printers: Vec::new(alloc),
        printer_limits: printing.limits,
        restart_seconds: printing.restart_seconds,
        spool: text_if(matches, "spool"),
        parts: flag_of(matches, "parts"),
        account: text_if(matches, "account"),
        log: telling.log,
        log_jobs: flag_of(matches, "log-jobs"),
        status: telling.status,
        status_host: telling.status_host,
    };
    Ok(ServeRequest {
        settings,
        printers: printing.printers,
    })
}
