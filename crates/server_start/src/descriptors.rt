//! How many descriptors are kept for others than connections that wait, and whether as many are there as a server takes at least.

ghost use Rattle.std.specs.Prelude.{◌≡◌, ◌≤◌, IfErr, Some};
ghost use Rattle.program_edge.specs.Openings.{IsUnopened};
ghost use Rattle.program_edge.specs.declared.opening.StartPart.{StartPart};
ghost use Rattle.program_edge.specs.declared.opening.StartPart.TheVariants.{Listener};
ghost use Rattle.server_start.specs.Descriptors.{kept, least_free, too_few_text};

use log::{Log, info};
use program_edge::{CAUSES, StartFault, StartPart, descriptor_limit};
use std::alloc::Global;
use std::fmt;
use std::fs::{File, Files};
use std::net::SocketAddr;

/// How many descriptors are kept for more than connections that wait.
const KEPT_DESCRIPTORS: u64 = 64;

/// How many more are kept for the control socket and what comes to it.
const STEWARDS_DESCRIPTORS: u64 = 80;

/// How many more are kept for who shows the status and for who asks for it: 64 in its lobby, 128 that are answered.
const BOARDS_DESCRIPTORS: u64 = 208;

/// How many more are kept for the folder in which jobs are, and for what is read of it.
const FOLDERS_DESCRIPTORS: u64 = 8;

/// The system's fault where a process has all descriptors that it may have (EMFILE).
const NO_MORE: i32 = 24;

/// What of a server takes descriptors beside connections that wait.
#[derive(Clone, Copy)]
pub struct Takers {
    pub printers: u32,
    pub sessions: u32,
    /// It has a folder of jobs.
    pub are_kept: bool,
    /// It has a folder of its account's segments.
    pub is_archived: bool,
    /// It has a control socket, or looks at signals.
    pub is_watched: bool,
    /// Its status is shown.
    pub is_shown: bool,
}

impl Takers {
    /// How many descriptors are kept for others than connections that wait: for each printer's file, for each session two of its connection,
    /// and some for what the program has beside; where a steward looks after the server, for each printer's pipe and for what comes to the
    /// steward too; where jobs are kept, for each session a file, and some for the folder; and some where the status is shown.
    pub fn kept(self) -> u64
        ensures { result ≡ kept self }
    {
        let (printers, sessions) = (u64::from(self.printers), u64::from(self.sessions));
        let steward = if self.is_watched {
            printers + STEWARDS_DESCRIPTORS
        } else {
            0
        };
        let folder = if self.are_kept {
            sessions + FOLDERS_DESCRIPTORS
        } else {
            0
        };
        let board = if self.is_shown { BOARDS_DESCRIPTORS } else { 0 };
        KEPT_DESCRIPTORS + printers + 2 * sessions + steward + folder + board
    }

    /// How many have to be free once all is open, at least: one for each printer, two for a connection that brings a job, two for that job's
    /// file and its folder, and one each for a segment, a command, and a question for the status.
    fn least_free(self) -> u64
        ensures { result ≡ least_free self }
    {
        let folder = if self.are_kept { 2 } else { 0 };
        let archive = u64::from(self.is_archived);
        let steward = u64::from(self.is_watched);
        let board = u64::from(self.is_shown);
        2 + u64::from(self.printers) + folder + archive + steward + board
    }
}

/// How many of N descriptors aren't free: as many files are opened at once, and closed.
fn lacking<R: Files<File = File>>(rt: &R, alloc: Global, wanted: u64) -> u64
    ensures { result ≤ wanted }
{
    let mut opened = Vec::new(alloc);
    for count in 0..wanted {
        match File::open(rt, "/") {
            Ok(file) => {
                if opened.push(file).is_err() {
                    break;
                }
            }
            Err(error) if error.raw_os_error() == Some(NO_MORE) => return wanted - count,
            Err(_) => break,
        }
    }
    0
}

/// So many descriptors are too few, since it takes so many at least.
#[derive(Clone, Copy)]
struct TooFew {
    limit: u64,
    least: u64,
}

impl fmt::Display for TooFew {
    ghost output = { λ it. Some (too_few_text it) };

    fn fmt<W: fmt::Write>(&self, f: &mut fmt::Formatter<W>) -> fmt::Result {
        write!(
            f,
            "{} descriptors are too few: it takes {}",
            self.limit, self.least
        )
    }
}

/// Fails where fewer descriptors are free than these take, now that a server listens at this address: of that the log is told why too.
pub fn check_descriptors<R: Files<File = File> + Log>(
    rt: &R,
    alloc: Global,
    address: SocketAddr,
    takers: Takers,
) -> Result<(), StartFault>
    ensures { IfErr result (IsUnopened (λ (part : StartPart). part ≡ Listener)) }
{
    let lacking = lacking(rt, alloc, takers.least_free());
    if lacking == 0 {
        return Ok(());
    }
    let limit = descriptor_limit();
    let least = limit.saturating_add(lacking);
    let cause = TooFew { limit, least };
    info!(rt; target: CAUSES, "{address}: {cause}");
    Err(StartFault::of(alloc, StartPart::Listener, &address, &cause))
}
