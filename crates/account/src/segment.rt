//! A part of an account.

use crate::base::Base;
use crate::entry::Entry;

/// What an account had from one rotation or trim to the next.
#[derive(Drop)]
pub struct Segment {
    /// Its number, from 1.
    pub number: u64,
    /// How many entries all earlier segments have.
    pub before: u64,
    /// The sum of the numbers of the kinds of these.
    pub kinds_before: u64,
    /// How many of these are of the kind Handed.
    pub handed_before: u64,
    /// What the entries since the last rotation begin from.
    pub base: Base,
    /// How many of these earlier segments have. It is 0 where the segment begins from its base.
    pub since: u64,
    /// How many entries more than configured the account might have for these, as so much of the counted reserve was given back.
    pub freed: u64,
    /// Its entries, in order of writing.
    pub entries: Vec<Entry>,
}
