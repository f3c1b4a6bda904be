//! How a server is to run.
//!
//! It is one struct, which the words are read into and the server goes by, and stands below both: so the one knows no threads and the
//! other no words. A limit that isn't given is None, and 0 is none: below the words a limit is a `NonZeroU64`.

ghost use Rattle.std.specs.Prelude.{◌≡◌, [], None, IfNone, IfSome, codes, false};
ghost use Rattle.std.specs.declared.net.ipv4_addr.TheConstants.Ipv4Addr.{LOCALHOST};
ghost use Rattle.program_edge.specs.Forms.{IsFormName};
ghost use Rattle.program_edge.specs.declared.settings.LogForm.{LogForm};
ghost use Rattle.program_edge.specs.declared.settings.LogForm.TheVariants.{Plain};

use crate::networks::Network;
use crate::places::PlacedPrinter;
use crate::status::StatusPlace;
use std::alloc::Global;
use std::net::Ipv4Addr;
use std::num::NonZeroU64;

/// The most threads that serve connections.
pub const MOST_SESSIONS: u32 = 64;

/// For how many seconds a peer whose connection brings no job may be silent, or not read, where a
/// session serves such ones alone: what the program's words give.
pub const NO_JOB_SECONDS: u64 = 5;

/// For how many seconds octets that come after the end of a session are passed over: what the
/// program's words give.
pub const LEAVE_SECONDS: u64 = 5;

/// For how many milliseconds new jobs wait for room in the account: what the program's words give.
pub const ROOM_MS: u64 = 1_000;

/// The most octets that the path of a Unix socket may have: what the system has room for, less the octet 00 behind it.
pub const MOST_CONTROL_PATH: usize = 107;

/// What stands before each line of a server's log.
#[derive(Clone, Copy, Debug, PartialEq, Eq)]
pub enum LogForm {
    /// Nothing.
    Plain,
    /// When it was logged: RFC 3339, in UTC, to the millisecond.
    Time,
    /// How grave it is, as systemd's journal reads it: `<3>` to `<7>`.
    Journal,
}

impl LogForm {
    /// The form of this name: `time` or `journal`. None of any other text.
    pub fn read(text: &str) -> Option<LogForm>
        ensures form { IfSome result (IsFormName text.now) }
        ensures none { IfNone result ((form : LogForm) → IsFormName text.now form → ⊥) }
    {
        match text {
            "time" => Some(LogForm::Time),
            "journal" => Some(LogForm::Journal),
            _ => None,
        }
    }
}

/// How a server is to run.
#[derive(Debug, Drop)]
pub struct Settings<'a> {
    /// The address to listen on.
    pub bind: Ipv4Addr,
    /// The port to listen on. At 0 the system picks a free one: tests want that, and no words give it.
    pub port: u16,
    /// The path of the directory where the printers' files are.
    pub out: &'a str,
    /// How many threads serve connections, 1 to `MOST_SESSIONS`. A number outside stands for the
    /// nearest one inside. Two more serve connections that bring no job.
    pub sessions: u32,
    /// After how many connections the server ends. Without it the server runs on.
    pub connections: Option<u64>,
    /// After how many connections the account is rotated, again and again.
    pub rotate: Option<NonZeroU64>,
    /// Whether the account is rotated as soon as no job is held, once a quarter of it is counted,
    /// and new jobs wait for that for a moment where it is nearly full.
    pub keep_room: bool,
    /// What peers may do.
    pub limits: Limits,
    /// The networks whose addresses are let in. Where there is none, each address is.
    pub allowed: Vec<Network>,
    /// The networks of the proxies: each connection of their addresses begins with a header of the PROXY protocol, which says whose
    /// it is.
    pub proxied: Vec<Network>,
    /// The path of the control socket, where there is one: at most `MOST_CONTROL_PATH` octets.
    pub control: Option<&'a str>,
    /// What single printers print to: each number at most once. Every other printer prints to its
    /// file in `out`.
    pub printers: Vec<PlacedPrinter<'a>>,
    /// What a printer on the network may do.
    pub printer_limits: PrinterLimits,
    /// How many seconds after the last failure of a printer its queue is started again; never
    /// without it.
    pub restart_seconds: Option<NonZeroU64>,
    /// The path of the directory where jobs are kept until they are printed, where they are kept: they
    /// outlive the server.
    pub spool: Option<&'a str>,
    /// Whether each queue has its part of the spool and no more, where no jobs are kept: a job over it is refused for now.
    pub parts: bool,
    /// The path of the directory where each segment of the account becomes a file, where they do.
    pub account: Option<&'a str>,
    /// What stands before each line of the log. But for `Plain`, a warning that a peer causes again and again is told
    /// once a minute.
    pub log: LogForm,
    /// Whether the log has a line for each job that was received, or has ended.
    pub log_jobs: bool,
    /// Where the status is shown to browsers, where it is.
    pub status: Option<StatusPlace>,
    /// The name of this machine by which browsers may ask for the status, beside its addresses and `localhost`.
    pub status_host: Option<&'a str>,
}

impl<'a> Settings<'a> {
    /// Lets go of all that they hold. To whoever calls it that is one call; at the end of a scope it is one for each part.
    pub fn let_go(self) {}

    /// A server at this port of 127.0.0.1, for this computer's own clients, with 8 sessions and the
    /// printers' files in the directory `.`, of which nothing else is said.
    pub fn new(alloc: Global, port: u16) -> Settings<'a>
        ensures bind { result.bind ≡ LOCALHOST }
        ensures port { result.port ≡ port }
        ensures out { result.out.now ≡ codes "." }
        ensures sessions { result.sessions ≡ 8 }
        ensures connections { result.connections ≡ None }
        ensures rotate { result.rotate ≡ None }
        ensures keep_room { result.keep_room ≡ false }
        ensures limits { (result.limits.silence ≡ None) × (result.limits.per_host ≡ None)
            × (result.limits.slowest ≡ None) × (result.limits.no_job_seconds ≡ 5)
            × (result.limits.leave_seconds ≡ 5) × (result.limits.room_ms ≡ 1000) }
        ensures allowed { (result.allowed.items ≡ []) × (result.proxied.items ≡ []) }
        ensures control { result.control ≡ None }
        ensures printers { result.printers.items ≡ [] }
        ensures printer_limits { (result.printer_limits.patience_minutes ≡ None)
            × (result.printer_limits.silence_seconds ≡ None) }
        ensures restart_seconds { result.restart_seconds ≡ None }
        ensures spool { (result.spool ≡ None) × (result.parts ≡ false) }
        ensures account { result.account ≡ None }
        ensures log { (result.log ≡ Plain) × (result.log_jobs ≡ false) }
        ensures status { (result.status ≡ None) × (result.status_host ≡ None) }
    {
        Settings {
            bind: Ipv4Addr::LOCALHOST,
            port,
            out: ".",
            sessions: 8,
            connections: None,
            rotate: None,
            keep_room: false,
            limits: Limits::NONE,
            allowed: Vec::new(alloc),
            proxied: Vec::new(alloc),
            control: None,
            printers: Vec::new(alloc),
            printer_limits: PrinterLimits::NONE,
            restart_seconds: None,
            spool: None,
            parts: false,
            account: None,
            log: LogForm::Plain,
            log_jobs: false,
            status: None,
            status_host: None,
        }
    }
}

/// What the peers of a server may do. Where a number isn't given there is no limit.
#[derive(Clone, Copy, Debug)]
pub struct Limits {
    /// For how many seconds a peer may be silent, or not read, before its session ends; and for how
    /// many nothing at all may happen while sessions wait for pages, before these are ended.
    pub silence: Option<NonZeroU64>,
    /// How many of the threads that serve any connection one address may have at once.
    pub per_host: Option<NonZeroU64>,
    /// How many octets a second a peer has to send at the least, over a minute for which it is
    /// waited for, or its session ends.
    pub slowest: Option<NonZeroU64>,
    /// For how many seconds, 1 at the least, a session that serves no jobs waits for its peer at
    /// each read and at each write, before it ends.
    pub no_job_seconds: u64,
    /// For how many seconds octets that come after the end of a session are passed over, at most.
    pub leave_seconds: u64,
    /// For how many milliseconds new jobs wait for room in the account, where it is kept, at most.
    pub room_ms: u64,
}

impl Limits {
    /// Nothing is limited by a word.
    pub const NONE: Limits = Limits {
        silence: None,
        per_host: None,
        slowest: None,
        no_job_seconds: NO_JOB_SECONDS,
        leave_seconds: LEAVE_SECONDS,
        room_ms: ROOM_MS,
    };
}

/// What a printer on the network may do. Where a number isn't given there is no limit.
#[derive(Clone, Copy, Debug)]
pub struct PrinterLimits {
    /// For how many minutes a printer that isn't reached is tried again before its job fails.
    pub patience_minutes: Option<NonZeroU64>,
    /// For how many seconds a printer may take nothing amid a job before this fails.
    pub silence_seconds: Option<NonZeroU64>,
}

impl PrinterLimits {
    /// Nothing is limited.
    pub const NONE: PrinterLimits = PrinterLimits {
        patience_minutes: None,
        silence_seconds: None,
    };
}
