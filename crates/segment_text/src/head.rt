//! What stands at the head of a segment, and at its end.

use account::Base;
use config_values::Config;
use lpd_values::Octets;

/// The version of the text that a segment is written in.
#[derive(Clone, Copy, Debug, PartialEq, Eq)]
pub enum Version {
    /// A segment begins from a base, and ends where no job is held.
    One,
    /// A segment may begin and end amid held jobs.
    Two,
}

/// Where a segment stands.
#[derive(Drop)]
pub struct Origin {
    /// The version of its text.
    pub version: Version,
    /// The number of its run, from 1.
    pub run: u64,
    /// Its number in the run, from 1.
    pub segment: u64,
    /// When its first entry was written: RFC 3339 in UTC, to the second.
    pub first: Octets,
    /// When its last entry was written: by version 2 not before the first.
    pub last: Octets,
    /// The digest that the segment before it ends in, if there is one.
    pub previous: Option<[u8; 32]>,
}

/// What a printer prints to.
#[derive(Drop)]
pub struct HeadPrinter {
    /// Its place, as the words of the server tell it.
    pub place: Octets,
    /// Where it was when the run began: of a regular file its length in octets, of a folder by version 2 the number of the file that
    /// the first job becomes there.
    pub begins: Option<u64>,
}

/// What the entries of a segment begin from.
#[derive(Drop)]
pub enum Begin {
    /// From a base, with no job held.
    Base(Base),
    /// Amid jobs that are held: from where the segment before it left the spool.
    Amid {
        /// How many entries came in the run since its last base.
        since: u64,
        /// How many entries more than configured the account may have, as so much of what was counted for them was given back.
        freed: u64,
    },
}

/// What is before a segment in its run, and what its entries begin from.
#[derive(Drop)]
pub struct Start {
    /// How many entries are before.
    pub entries: u64,
    /// The sum of the numbers of the kinds of these.
    pub kinds: u64,
    /// How many of these are hand-outs.
    pub handed: u64,
    /// What the entries begin from.
    pub begin: Begin,
}

/// What stands before the entries of a segment.
#[derive(Drop)]
pub struct Head {
    /// Where it stands.
    pub origin: Origin,
    /// What its spool is made for.
    pub config: Config,
    /// The printers, by their numbers from 1.
    pub printers: Vec<HeadPrinter>,
    /// What is before it.
    pub start: Start,
}

/// What stands at the end of a segment.
#[derive(Clone, Copy)]
pub struct Last {
    /// How many entries the segment has.
    pub entries: u64,
    /// The SHA-256 of all its lines before this one, each with its LF.
    pub digest: [u8; 32],
}
