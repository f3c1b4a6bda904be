//! The keys of a configuration and its faults.
//!
//! `ConfigFault` writes its own text beside the derive of `thiserror`, which makes it an error: a text by that derive has no contract, and this
//! one is proved.

ghost use Rattle.std.specs.Prelude.{◌≡◌};
ghost use Rattle.spool_config.specs.Keys.{word_of, most_of};

use std::fmt;
use thiserror::Error;

/// A key, which a fault names.
#[derive(Clone, Copy, Debug, PartialEq, Eq)]
pub enum Key {
    /// How many pages the pool has: a whole number, 1 to 65,536.
    Pages,
    /// The octets of a page: a whole number, 1 to 65,536.
    PageSize,
    /// How many jobs are held at once: a whole number, 1 to 1,024.
    MaxJobs,
    /// How many entries the account may have: a whole number, 1 to 16,000,000.
    Account,
    /// The queues: an array of 1 to 64 tables.
    Queue,
    /// The name of a queue: a text of 1 to 64 octets from 21 to 7E (hexadecimal).
    Name,
    /// How many pages a job of a queue may hold: a whole number, 1 to 65,536 and at most `pages`.
    Limit,
    /// How many printers serve a queue: a whole number, 1 to 16.
    Printers,
}

impl Key {
    /// The word under which it stands in its table.
    pub fn word(self) -> &'static str
        ensures { result.now ≡ word_of self }
    {
        match self {
            Key::Pages => "pages",
            Key::PageSize => "page_size",
            Key::MaxJobs => "max_jobs",
            Key::Account => "account",
            Key::Queue => "queue",
            Key::Name => "name",
            Key::Limit => "limit",
            Key::Printers => "printers",
        }
    }

    /// The most that its number may be; at `queue` the most queues, at `name` the most octets.
    pub fn most(self) -> u32
        ensures { result ≡ most_of self }
    {
        match self {
            Key::Pages | Key::PageSize | Key::Limit => 65_536,
            Key::MaxJobs => 1_024,
            Key::Account => 16_000_000,
            Key::Queue | Key::Name => 64,
            Key::Printers => 16,
        }
    }
}

/// Writes the key as a fault tells it: with `queue.` in front where it stands in the table of a queue.
impl fmt::Display for Key {
    ghost use Rattle.std.specs.Prelude.{Some};
    ghost use Rattle.spool_config.specs.Words.{key_words};

    ghost output = { λ key. Some (key_words key) };

    fn fmt<W: fmt::Write>(&self, f: &mut fmt::Formatter<W>) -> fmt::Result {
        if let Key::Name | Key::Limit | Key::Printers = self {
            f.write_str("queue.")?;
        }
        f.write_str(self.word())
    }
}

/// Why a text is no configuration.
#[derive(Clone, Copy, Debug, PartialEq, Eq, Error)]
pub enum ConfigFault {
    /// It isn't TOML.
    NotToml,
    /// The key isn't there.
    Missing(Key),
    /// The value has another type.
    WrongType(Key),
    /// The value isn't in its range.
    OutOfRange(Key),
    /// Two queues have one name.
    SameName,
    /// A queue's limit is over the pages of the pool.
    LimitOverPool,
    /// Memory was refused, which says nothing of the text.
    Memory,
}

/// Writes one line without its end: `fault`, the number, the name, and the key where there is one.
impl fmt::Display for ConfigFault {
    ghost use Rattle.std.specs.Prelude.{Some};
    ghost use Rattle.spool_config.specs.Words.{fault_words};

    ghost output = { λ fault. Some (fault_words fault) };

    fn fmt<W: fmt::Write>(&self, f: &mut fmt::Formatter<W>) -> fmt::Result {
        match self {
            ConfigFault::NotToml => f.write_str("fault 50 NotToml"),
            ConfigFault::Missing(key) => write!(f, "fault 51 Missing {key}"),
            ConfigFault::WrongType(key) => write!(f, "fault 52 WrongType {key}"),
            ConfigFault::OutOfRange(key) => write!(f, "fault 53 OutOfRange {key}"),
            ConfigFault::SameName => f.write_str("fault 54 SameName"),
            ConfigFault::LimitOverPool => f.write_str("fault 55 LimitOverPool"),
            ConfigFault::Memory => f.write_str("fault 12 Memory"),
        }
    }
}
