//! A ledger of one spool.

ghost use Rattle.std.specs.Prelude.{[]};
ghost use Rattle.config_values.specs.Config.{Config};

use std::marker::Brand;
use std::sync::ledger::Ledger;

/// The ledger of the entries of a spool, which is made for one configuration. Whoever makes a spool picks both.
pub trait SpoolLedger: Ledger {
    /// What the spool is made for.
    ghost config: { Config };
}

impl SpoolLedger for Brand {
    ghost config = { record { pages = 0; page_size = 0; max_jobs = 0; account = 0; queues = [] } };
}
