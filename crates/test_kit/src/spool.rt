//! Configurations of small spools.

use config_values::Config;
use std::alloc::{AllocError, Global};

/// A spool with a queue `lp`.
#[derive(Clone, Copy)]
pub struct Spool<'a> {
    pub pages: u32,
    /// How many octets a page has.
    pub page_size: u32,
    pub jobs: u32,
    pub account: u32,
    /// The limit of `lp`, in pages.
    pub limit: u32,
    /// How many printers `lp` has.
    pub printers: u32,
    /// What its configuration says of other queues.
    pub others: &'a str,
}

impl Spool<'_> {
    /// Four pages of eight octets, and one printer.
    pub const SMALL: Spool<'static> = Spool {
        pages: 4,
        page_size: 8,
        jobs: 8,
        account: 100_000,
        limit: 3,
        printers: 1,
        others: "",
    };

    /// What its configuration says.
    pub fn text(&self, alloc: Global) -> Result<String, AllocError> {
        let Spool {
            pages,
            page_size,
            jobs,
            account,
            limit,
            printers,
            others,
        } = *self;
        format!(in alloc;
            "pages = {pages}\npage_size = {page_size}\nmax_jobs = {jobs}\naccount = {account}\n\
             [[queue]]\nname = \"lp\"\nlimit = {limit}\nprinters = {printers}\n{others}"
        )
    }

    /// Its configuration. None where it is none, or memory was refused.
    pub fn config(&self, alloc: Global) -> Option<Config> {
        spool_config::read(alloc, self.text(alloc).ok()?.as_bytes()).ok()
    }
}
