//! The signals that are pending for the process, and those that it blocks, by the text of /proc/self/status.
//!
//! A program of this toolchain has no signal handler. So it is started with SIGTERM or SIGINT blocked, and looks from time to time which
//! are pending. The system keeps one of a sort, and a second SIGTERM can't be seen: it is both sorts together that say `stop now`.

ghost use Rattle.std.specs.Prelude.{◌≡◌, ◌≤◌, codes, option_copied};
ghost use Rattle.control_socket.specs.Signals.{first_line_named, is_in_line, is_in_mask, mask_written};
ghost use Rattle.control_socket.specs.Signals.{pending_of};

use std::alloc::Global;
use std::fs::{File, Files};
use std::io;
use std::io::{Read, Seek, SeekFrom};

/// The file that tells of this process.
const STATUS: &str = "/proc/self/status";

/// The most octets of that file that are read.
const MOST_OCTETS: u64 = 1 << 20;

/// How many hexadecimal digits a mask has.
const DIGITS: usize = 16;

/// The number that this many hexadecimal digits write; None where they are more, fewer, or none.
fn hexadecimal(digits: &[u8]) -> Option<u64>
    ensures { result ≡ mask_written digits.now }
{
    if digits.len() != DIGITS {
        return None;
    }
    let mut mask = 0;
    for digit in digits {
        let value = char::from(*digit).to_digit(16)?;
        mask = mask * 16 + u64::from(value);
    }
    Some(mask)
}

/// The first line that begins with this name.
fn line_named<'a>(text: &'a [u8], name: &[u8]) -> Option<&'a [u8]>
    ensures { option_copied result ≡ first_line_named text.now name.now }
{
    text.split(|octet| *octet == b'\n')
        .find(|line| line.starts_with(name))
}

/// Whether a mask has the bit of a signal.
fn has_signal(mask: u64, signal: u32) -> bool
    requires first { 1 ≤ signal }
    requires last { signal ≤ 64 }
    ensures { result ≡ is_in_mask mask signal }
{
    mask >> (signal - 1) & 1 == 1
}

/// Whether a signal is in the mask of the first line that begins with this name; None where there is no such line, or it has no mask.
fn is_among(text: &[u8], name: &[u8], signal: u32) -> Option<bool>
    requires first { 1 ≤ signal }
    requires last { signal ≤ 64 }
    ensures { result ≡ is_in_line text.now name.now signal }
{
    let line = line_named(text, name)?;
    let digits = line.get(name.len()..)?;
    let mask = hexadecimal(digits)?;
    Some(has_signal(mask, signal))
}

/// Whether a signal, by its number, is pending for the process, by the text of /proc/self/status. None where the text doesn't tell.
pub fn is_pending(text: &[u8], signal: u32) -> Option<bool>
    requires first { 1 ≤ signal }
    requires last { signal ≤ 64 }
    ensures { result ≡ is_in_line text.now (codes "ShdPnd:\t") signal }
{
    is_among(text, b"ShdPnd:\t", signal)
}

/// Whether a signal, by its number, is blocked for the thread of which the text of /proc/self/status tells, the first one. None
/// where the text doesn't tell.
pub fn is_blocked(text: &[u8], signal: u32) -> Option<bool>
    requires first { 1 ≤ signal }
    requires last { signal ≤ 64 }
    ensures { result ≡ is_in_line text.now (codes "SigBlk:\t") signal }
{
    is_among(text, b"SigBlk:\t", signal)
}

/// The signal of an interrupt at the terminal.
const INTERRUPT: u32 = 2;

/// The signal that asks a program to end.
const TERMINATE: u32 = 15;

/// How many of two signals are pending.
#[derive(Clone, Copy, Debug, PartialEq, Eq)]
pub enum Pending {
    Neither,
    One,
    Both,
}

/// How many are pending, where it is known of each whether it is.
fn pending_of(interrupt: bool, terminate: bool) -> Pending
    ensures { result ≡ pending_of interrupt terminate }
{
    match (interrupt, terminate) {
        (false, false) => Pending::Neither,
        (true, true) => Pending::Both,
        _ => Pending::One,
    }
}

/// The two signals that ask this process to end, SIGINT and SIGTERM, where it was started with one of them blocked: then they don't
/// end it, and it can look whether they are pending.
#[derive(Drop)]
pub struct Signals {
    status: File,
    text: Vec<u8>,
}

impl Signals {
    /// The signals of this process. None where neither is blocked, or the system doesn't tell.
    pub fn of_process<R: Files<File = File>>(rt: &R, alloc: Global) -> Option<Signals> {
        let mut signals = Signals {
            status: File::open(rt, STATUS).ok()?,
            text: Vec::new(alloc),
        };
        signals.read().ok()?;
        let text = signals.text.as_slice();
        let is_watched = is_blocked(text, INTERRUPT)? || is_blocked(text, TERMINATE)?;
        is_watched.then_some(signals)
    }

    /// Reads /proc/self/status as it is now.
    fn read(&mut self) -> io::Result<()> {
        self.text.clear();
        self.status.seek(SeekFrom::Start(0))?;
        (&self.status)
            .take(MOST_OCTETS)
            .read_to_end(&mut self.text)?;
        Ok(())
    }

    /// How many of them are pending; neither where the system doesn't tell.
    pub fn pending(&mut self) -> Pending {
        if self.read().is_err() {
            return Pending::Neither;
        }
        let text = self.text.as_slice();
        let interrupt = is_pending(text, INTERRUPT).unwrap_or(false);
        pending_of(interrupt, is_pending(text, TERMINATE).unwrap_or(false))
    }
}
