//! Worked histories, entry by entry, as the plain reader reads them.
//!
//! A history is a configuration, a line `%%` (both may be left out) and a line for each entry: `WHO NUMBER VERB` and then
//! up to five times `NAME VALUE`, and behind the bar what the reader says once the entry came, which has to leave the
//! spool safe. This is the count of free pages, what the first printer gets next (a page as its job and place, or a word)
//! and the jobs that may be lent a page, as the digits of one number. An entry that may not come is `refused`, and the next
//! line goes on without it. At its end, and where it is rotated, a history has to be legal and to leave joined. `state QUEUE
//! short WORDS`, `state QUEUE long WORDS` and `removal QUEUE AGENT WORDS` are no entries: behind their bar stands the text that
//! answers them.
//!
//! A line `base ACCEPTED RESERVED CLOSED STOPPED ..`, of numbers and then 0 or 1 each, has the history begin from that
//! base. A line `rotated` has it go on from the base after it, and is refused where a job is held.

use crate::entries::entry;
use account::{Act, Base, Entry};
use account_audit::check;
use account_text::{parse_entry, write_entry};
use config_values::Config;
use history_legality::{free_pages, is_legal, is_safe_now, leaves_joined, may};
use history_reader::{Next, State, next_page, now, removal_text, rotated, state_text};
use std::alloc::{AllocError, Global};
use test_kit::Spool;
use test_kit::rows::{number, short_number, word, words};

/// What a history begins from, and its entries, the newest first.
#[derive(Drop)]
struct Account {
    alloc: Global,
    config: Config,
    base: Base,
    entries: Vec<Entry>,
}

/// The base that these words tell: the last acceptance number, the counted reserve, whether the spool is closed, and for
/// each printer whether it is stopped.
fn base_of(alloc: Global, told: &str) -> Result<Base, AllocError> {
    let (accepted, rest) = word(told);
    let (reserved, rest) = word(rest);
    let (closed, rest) = word(rest);
    let mut stopped = Vec::new(alloc);
    for printer in rest.split_whitespace() {
        stopped.push(printer == "1")?;
    }
    Ok(Base {
        accepted: number(accepted),
        reserved: number(reserved),
        closed: closed == "1",
        stopped,
    })
}

impl Account {
    /// Where it leaves a spool.
    fn state(&self) -> Result<State, AllocError> {
        now(
            self.alloc,
            &self.config,
            &self.base,
            self.entries.as_slice(),
        )
    }

    /// What is wrong where an entry didn't meet its conditions, or what was handed isn't joined.
    fn fault(&self) -> Result<Option<&'static str>, AllocError> {
        let entries = self.entries.as_slice();
        if !is_legal(self.alloc, &self.config, &self.base, entries)? {
            return Ok(Some("not legal"));
        }
        if !leaves_joined(self.alloc, entries)? {
            return Ok(Some("not joined"));
        }
        if !self.audits(None)? {
            return Ok(Some("not audited"));
        }
        Ok(None)
    }

    /// Whether an audit takes all entries, in order of writing, and this one behind them. Each but that was written as a line and read back.
    fn audits(&self, more: Option<Entry>) -> Result<bool, AllocError> {
        let mut entries = Vec::new(self.alloc);
        for entry in self.entries.iter().rev() {
            let line = write_entry(self.alloc, entry)?;
            match parse_entry(self.alloc, line.as_slice()) {
                Ok(entry) => entries.push(entry)?,
                Err(_) => return Ok(false),
            }
        }
        if let Some(entry) = more {
            entries.push(entry)?;
        }
        if entries.len() > 1_000_000 {
            return Ok(false);
        }
        check(self.alloc, &self.config, &self.base, entries.as_slice())
    }

    /// Which of the first three jobs may be lent a page, as the digits of a number.
    fn lendable(&self, state: &State) -> Result<u64, AllocError> {
        let mut digits = 0u64;
        for job in 1..4 {
            if may(
                self.alloc,
                &self.config,
                state,
                &Entry::OfJob(job, Act::Granted),
            )? {
                digits = digits.saturating_mul(10).saturating_add(job);
            }
        }
        Ok(digits)
    }

    /// Appends what the reader says of a spool that stands like this.
    fn push_standing(&self, told: &mut String, state: &State) -> Result<(), AllocError> {
        let (alloc, config) = (self.alloc, &self.config);
        if !is_safe_now(alloc, config, state)? {
            return told.push_str("not safe");
        }
        write!(told, "{} ", free_pages(alloc, config, state)?)?;
        match next_page(alloc, config, state, 1)? {
            Next::Hands(sheet) => write!(told, "{}.{}", sheet.job, sheet.place)?,
            Next::Nothing => told.push_str("nothing")?,
            Next::Stops => told.push_str("stops")?,
            Next::Busy => told.push_str("busy")?,
            Next::Over => told.push_str("over")?,
        }
        write!(told, " {}", self.lendable(state)?)
    }

    /// Appends what the reader says once an entry came, if it may. The newest entry stands first.
    fn push_entry(&mut self, told: &mut String, entry: Entry) -> Result<(), AllocError> {
        if !may(self.alloc, &self.config, &self.state()?, &entry)? {
            if self.audits(Some(entry))? {
                return told.push_str("audited");
            }
            return told.push_str("refused");
        }
        self.entries.insert(0, entry)?;
        self.push_standing(told, &self.state()?)
    }

    /// Appends what the reader says once the history goes on from the base after it, where no job is held.
    fn push_rotation(&mut self, told: &mut String) -> Result<(), AllocError> {
        let state = self.state()?;
        if !state.jobs.is_empty() || state.accepted > u128::from(u64::MAX) {
            return told.push_str("refused");
        }
        if let Some(fault) = self.fault()? {
            return told.push_str(fault);
        }
        self.base = rotated(self.alloc, &state)?;
        self.entries.clear();
        self.push_standing(told, &self.state()?)
    }

    /// Appends what the reader answers for the state of a queue, in the form of the second word, or for a removal, whose agent
    /// that is.
    fn push_text(&self, told: &mut String, asked: &str, is_state: bool) -> Result<(), AllocError> {
        let (alloc, config, state) = (self.alloc, &self.config, self.state()?);
        let (queue, rest) = word(asked);
        let (second, list) = word(rest);
        let (queue, list) = (short_number(queue), words(alloc, list)?);
        let list = list.as_slice();
        let text = if is_state {
            state_text(alloc, config, &state, queue, list, second == "long")?
        } else {
            removal_text(alloc, config, &state, queue, second.as_bytes(), list)?
        };
        write!(told, "{}", text.as_slice().escape_ascii())
    }

    /// Appends a line, with what the reader says behind its bar.
    fn push_row(&mut self, told: &mut String, row: &str) -> Result<(), AllocError> {
        let Some((asked, _)) = row.split_once("| ") else {
            if let ("base", base) = word(row) {
                self.base = base_of(self.alloc, base)?;
            }
            return writeln!(told, "{row}");
        };
        write!(told, "{asked}| ")?;
        match word(asked) {
            ("state", rest) => self.push_text(told, rest, true)?,
            ("removal", rest) => self.push_text(told, rest, false)?,
            ("rotated", _) => self.push_rotation(told)?,
            _ => match entry(self.alloc, asked)? {
                Some(entry) => self.push_entry(told, entry)?,
                None => told.push_str("no entry")?,
            },
        }
        told.push_str("\n")
    }
}

/// Appends the lines of a history, behind its configuration, each with what the reader says.
pub fn history(told: &mut String, alloc: Global, asked: &str) -> Result<(), AllocError> {
    let (config, rows) = match asked.split_once("%%\n") {
        Some((config, rows)) => {
            write!(told, "{config}%%\n")?;
            (spool_config::read(alloc, config.as_bytes()).ok(), rows)
        }
        None => (Spool::SMALL.config(alloc), asked),
    };
    let Some(config) = config else {
        return told.push_str("no configuration\n");
    };
    let mut account = Account {
        alloc,
        config,
        base: Base::first(alloc),
        entries: Vec::new(alloc),
    };
    for row in rows.lines() {
        account.push_row(told, row)?;
    }
    match account.fault()? {
        Some(fault) => writeln!(told, "{fault}"),
        None => Ok(()),
    }
}
