//! The account of a spool since its last rotation.

ghost use Rattle.std.specs.Prelude.{◌≡◌, ◌<◌, ◌≤◌, ◌*◌, ◌^◌, ◌∷◌, [], OnErr, OnOk, length, reverse};
ghost use Rattle.account.specs.Kinds.{handed_in, kinds_in};
ghost use Rattle.account.specs.Seen.{event_seen, history};

use crate::entry::Entry;
use crate::kind::Kind;
use past_log::Past;
use std::alloc::{AllocError, Global};
use std::marker::Model;
use std::mem;

/// The entries since the last rotation or trim. Contracts see all events since the rotation, the newest first, those of them
/// that the entries tell of, and how many entries there is memory for.
#[derive(Drop)]
pub struct Account {
    /// In order of writing.
    entries: Vec<Entry>,
    /// All since the last rotation: it takes no memory.
    story: Past<Entry>,
}

impl Model for Account {
    ghost use Rattle.std.specs.Prelude.{reverse, vec_capacity};
    ghost use Rattle.account.specs.Logs.{Log};
    ghost use Rattle.account.specs.Seen.{history};

    ghost Value = { Log };

    ghost view = { λ a. record {
      events = history (reverse a.story.items);
      kept = history (reverse a.entries.items);
      room = vec_capacity a.entries;
    } };
}

impl Account {
    /// An account with no entries. It takes no memory.
    pub fn new(alloc: Global) -> Account
        ensures events { result.events ≡ [] }
        ensures kept { result.kept ≡ [] }
        ensures room { result.room ≡ 0 }
    {
        Account {
            entries: Vec::new(alloc),
            story: Past::new(),
        }
    }

    /// Asks for memory for so many entries in all, those there included.
    ///
    /// AllocError where it is refused; then nothing has changed.
    pub fn reserve(&mut self, entries: u64) -> Result<(), AllocError>
        ensures events { self.new.events ≡ self.old.events }
        ensures kept { self.new.kept ≡ self.old.kept }
        ensures room { OnOk result (entries ≤ self.new.room) }
        ensures no_less { self.old.room ≤ self.new.room }
        ensures unchanged { OnErr result (self.new ≡ self.old) }
    {
        let more = (entries as usize).saturating_sub(self.entries.len());
        self.entries.reserve(more)
    }

    /// Writes one entry more.
    pub fn add(&mut self, entry: Entry)
        requires { length self.old.kept < self.old.room }
        ensures { self.new ≡ record self.old {
          events = event_seen entry ∷ self.old.events;
          kept = event_seen entry ∷ self.old.kept;
        } }
    {
        self.story = self.story.and(&entry);
        self.entries.push_reserved(entry);
    }

    /// Hands out the entries, and goes on with the room of another account, which has none.
    pub fn go_on(&mut self, next: Account) -> Vec<Entry>
        requires { next.kept ≡ [] }
        ensures entries { history (reverse result.items) ≡ self.old.kept }
        ensures events { self.new.events ≡ self.old.events }
        ensures kept { self.new.kept ≡ [] }
        ensures room { self.new.room ≡ next.room }
    {
        let Account { entries, story: _ } = next;
        mem::replace(&mut self.entries, entries)
    }

    /// The entries, in order of writing.
    pub fn entries(&self) -> &[Entry]
        ensures { history (reverse result.now) ≡ self.now.kept }
    {
        self.entries.as_slice()
    }

    /// How many entries there are.
    pub fn len(&self) -> u64
        ensures value { result ≡ length self.now.kept }
        ensures room { result ≤ self.now.room }
        ensures within { length self.now.kept < 2 ^ 63 }
    {
        self.entries.len() as u64
    }

    /// The entries, in order of writing.
    pub fn into_entries(self) -> Vec<Entry>
        ensures { history (reverse result.items) ≡ self.kept }
    {
        let Account { entries, story: _ } = self;
        entries
    }

    /// The sum of the numbers of the kinds of the entries.
    pub fn kinds(&self) -> u64
        requires { 13 * length self.now.kept < 2 ^ 64 }
        ensures value { result ≡ kinds_in self.now.kept }
        ensures within { result ≤ 13 * length self.now.kept }
    {
        let mut sum = 0;
        for entry in self.entries() {
            sum += entry.kind().number();
        }
        sum
    }

    /// How many of the entries tell of a page that was handed to a printer.
    pub fn handed(&self) -> u64
        ensures value { result ≡ handed_in self.now.kept }
        ensures within { result ≤ length self.now.kept }
    {
        let mut count = 0;
        for entry in self.entries() {
            if matches!(entry.kind(), Kind::Handed) {
                count += 1;
            }
        }
        count
    }
}
