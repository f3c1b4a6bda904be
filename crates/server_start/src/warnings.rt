//! What bites a server later is said at its start: once, and not of one that is to end after so many connections, as a script's does.

ghost use Rattle.std.specs.Prelude.{◌≡◌, ◌-◌, ◌/◌, ◌<◌, ◌↔◌, IsTrue, false, true};
ghost use Rattle.config_values.specs.Config.{IsQueue, reserve_of};

use config_values::Config;
use log::{Log, warn};
use printer_devices::{default_file, place_of};
use program_edge::Settings;
use std::str;

/// The part of the program that logs what happens here, as the log names it.
const PART: &str = "lpd_daemon::serving";

/// How many jobs of a queue are few for an account.
const FEW: u64 = 50;

/// How many jobs of a queue, each as large as that allows, these entries are enough for. The last entry is that of the close.
fn jobs_of(config: &Config, queue: u32, entries: u64) -> u64
    requires { IsQueue config.now queue }
    ensures { result ≡ (entries - 1) / reserve_of config.now queue }
{
    entries.saturating_sub(1) / config.reserve_of(queue)
}

/// How many jobs of a queue, each as large as that allows, the account has room for: of those between two moments without held jobs, and where
/// room is kept, which is done once a quarter of it is counted for jobs that are gone, of those that are held at once.
fn room_for(config: &Config, queue: u32, keep_room: bool) -> u64
    requires { IsQueue config.now queue }
    ensures fits { keep_room ≡ false → result
        ≡ (config.now.account - 1) / reserve_of config.now queue }
    ensures held { keep_room ≡ true → result
        ≡ (config.now.account - config.now.account / 4 - 1) / reserve_of config.now queue }
{
    let account = config.account();
    if keep_room {
        jobs_of(config, queue, account - account / 4)
    } else {
        jobs_of(config, queue, account)
    }
}

/// Whether this number of jobs is few.
fn is_few(jobs: u64) -> bool
    ensures { IsTrue result ↔ (jobs < 50) }
{
    jobs < FEW
}

/// Warns of each queue of which the account has room for few jobs.
fn warn_of_sizes<R: Log>(rt: &R, config: &Config, keep_room: bool) {
    let when = if keep_room {
        "at once"
    } else {
        "until it is rotated"
    };
    for place in 0..config.queues().len() {
        let queue = place as u32 + 1;
        let jobs = room_for(config, queue, keep_room);
        if is_few(jobs) {
            let (name, account) = (config.name_of(queue), config.account());
            let name = str::from_utf8(name).unwrap_or("");
            warn!(rt; target: PART, "queue {name}: an account of {account} entries takes {jobs} of its largest jobs {when}: a larger account or larger pages make room");
        }
    }
}

/// Warns of each printer that nobody said a place of, where somebody said one of another.
fn warn_of_unplaced<R: Log>(rt: &R, settings: &Settings<'_>, config: &Config) {
    if settings.printers.is_empty() {
        return;
    }
    for index in 0..config.printer_count() {
        let printer = index + 1;
        if place_of(settings, printer).is_none() {
            let name = config.name_of(config.queue_of(printer));
            let name = str::from_utf8(name).unwrap_or("");
            let file = default_file(settings, printer);
            warn!(rt; target: PART, "printer {printer} of {name} has no place, where others have one: it prints to {file}");
        }
    }
}

/// Warns of what a server of these settings and this configuration will want sooner or later.
pub fn warn_of<R: Log>(rt: &R, settings: &Settings<'_>, config: &Config) {
    if settings.connections.is_some() {
        return;
    }
    // A server with kept jobs or an account in files has a warning of its own.
    let has_folder = settings.spool.is_some() || settings.account.is_some();
    if !settings.keep_room && settings.rotate.is_none() && !has_folder {
        warn!(rt; target: PART, "the account is never rotated: without --keep-room or --rotate no job is taken once it is full");
    }
    if settings.limits.silence.is_none() && !settings.bind.is_loopback() {
        warn!(rt; target: PART, "a peer that stalls amid a job can hold up all others: --silence SECONDS ends it");
    }
    warn_of_unplaced(rt, settings, config);
    warn_of_sizes(rt, config, settings.keep_room);
}
