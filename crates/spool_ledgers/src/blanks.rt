//! The ledgers of a spool, before they are opened.

ghost use Rattle.std.specs.Prelude.{◌≡◌, ◌+◌};
ghost use Rattle.config_values.specs.Config.{printer_count};
ghost use Rattle.spool_ledgers.specs.Blanks.{HaveParts};

use config_values::Config;
use std::fmt;
use std::sync::ledger::Blank;

/// The ledgers of a spool, before they are opened.
#[derive(Drop)]
pub struct Blanks {
    /// Of the entries of the account.
    pub entries: Blank,
    /// Of the sum of their kind numbers.
    pub kinds: Blank,
    /// Of the pages that are handed out.
    pub handed: Blank,
}

/// They have no octets, so there is nothing to show.
impl fmt::Debug for Blanks {
    fn fmt<W: fmt::Write>(&self, f: &mut fmt::Formatter<W>) -> fmt::Result {
        f.write_str("Blanks")
    }
}

impl Blanks {
    /// The ledgers of a spool of this configuration with so many sessions, cut into a part for each of these and for each printer.
    pub fn new(config: &Config, sessions: u32) -> Blanks
        ensures { HaveParts result (sessions + printer_count config.now) }
    {
        let parts = u64::from(sessions) + u64::from(config.printer_count());
        Blanks {
            entries: Blank::new(parts),
            kinds: Blank::new(parts),
            handed: Blank::new(parts),
        }
    }
}
