//! The names in a folder.

ghost use Rattle.std.specs.Char.{IsAsciiDigit, is_ascii_digit};
ghost use Rattle.std.specs.List.{All, prefix_len, take_while};
ghost use Rattle.std.specs.Prelude.{◌≡◌, ◌≤◌, length};
ghost use Rattle.sink_devices.specs.Names.{number_in, value_written, with_name, with_names};

use std::fs::Files;
use std::io;
use std::io::Read;

/// How many octets of names are read at once.
const PIECE_OCTETS: usize = 8_192;

/// What the names in a folder say.
#[derive(Clone, Copy, Debug, PartialEq, Eq)]
pub struct FolderNames {
    /// The number behind the greatest that a job's file has; 1 where none has one.
    pub next: u64,
    /// How many hidden files of jobs there are, which a server that was killed has left.
    pub left: u64,
}

/// How many digits octets begin with.
fn digit_count(octets: &[u8]) -> usize
    ensures value { result ≡ prefix_len is_ascii_digit octets.now }
    ensures within { result ≤ length octets.now }
{
    octets
        .iter()
        .take_while(|octet| octet.is_ascii_digit())
        .count()
}

/// The digits that octets begin with.
fn leading_digits(octets: &[u8]) -> &[u8]
    ensures value { result.now ≡ take_while is_ascii_digit octets.now }
    ensures digits { All IsAsciiDigit result.now }
{
    &octets[..digit_count(octets)]
}

/// The number that decimal digits write; None where there are none, or it has more than 64 bits.
fn value_of(digits: &[u8]) -> Option<u64>
    requires { All IsAsciiDigit digits.now }
    ensures { result ≡ value_written digits.now }
{
    if digits.is_empty() {
        return None;
    }
    let mut value: u64 = 0;
    for digit in digits {
        value = value
            .checked_mul(10)?
            .checked_add(u64::from(*digit - b'0'))?;
    }
    Some(value)
}

/// The number of a job's file of this name, or of one that belongs to it: `job-`, digits, and what doesn't begin with one.
fn number_of(name: &[u8]) -> Option<u64>
    ensures { result ≡ number_in name.now }
{
    if !name.starts_with(b"job-") {
        return None;
    }
    value_of(leading_digits(&name[4..]))
}

impl FolderNames {
    /// What is said where there is no name.
    pub fn none() -> FolderNames
        ensures next { result.next ≡ 1 }
        ensures left { result.left ≡ 0 }
    {
        FolderNames { next: 1, left: 0 }
    }

    /// What the names say with this one more.
    fn with(self, name: &[u8]) -> FolderNames
        ensures { result ≡ with_name self name.now }
    {
        let mut names = self;
        if let Some(number) = number_of(name) {
            names.next = names.next.max(number.saturating_add(1));
        }
        if name.starts_with(b".job-") {
            names.left = names.left.saturating_add(1);
        }
        names
    }

    /// What they say with those more that end at octets 00.
    pub fn with_all(self, octets: &[u8]) -> FolderNames
        ensures { result ≡ with_names self octets.now }
    {
        octets
            .split(|octet| *octet == 0)
            .fold(self, |names, name| names.with(name))
    }
}

/// What the names in the folder at this path say. An error where it can't be read.
pub fn names_of<R: Files>(rt: &R, path: &str) -> io::Result<FolderNames> {
    let mut names = FolderNames::none();
    let mut folder = rt.open_dir(path)?;
    let mut buffer = [0u8; PIECE_OCTETS];
    for _ in 0..u64::MAX {
        let count = folder.read(&mut buffer)?;
        if count == 0 {
            break;
        }
        // No read ends inside a name.
        names = names.with_all(&buffer[..count]);
    }
    Ok(names)
}
