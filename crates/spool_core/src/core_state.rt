//! The state of a spool.

ghost use Rattle.std.specs.Prelude.{◌≡◌, ◌+◌, List, [], IfErr, IfOk, length};
ghost use Rattle.claims.specs.Claims.{IsTable};
ghost use Rattle.config_values.specs.Config.{printer_count};
ghost use Rattle.config_values.specs.Ranges.{IsConfig};
ghost use Rattle.spool_history.specs.Base.{Base, first_base};
ghost use Rattle.spool_history.specs.Events.{Event};
ghost use Rattle.spool_history.specs.Now.{capacity};
ghost use Rattle.spool_calls.specs.Looks.{Detail, What};
ghost use Rattle.spool_calls.specs.Looks.Detail.{Outlines};
ghost use Rattle.spool_calls.specs.Kept.{Leaves};
ghost use Rattle.spool_core.specs.Printers.{idle};

use crate::kinds::capacity;
use crate::printers::idle_printers;
use crate::unmade::Unmade;
use claims::Table;
use config_values::Config;
use ordered_safety::Scratch;
use page_pool::Pool;
use queues::Book;
use spool_calls::Printer;
use std::alloc::{AllocError, Global};
use std::marker::Model;

/// The state of a spool: its pages, its held jobs and their claims, and its printers.
///
/// Contracts say of each call what it answers after any legal history of calls, and which history it leaves.
#[derive(Drop)]
pub struct Core {
    pub(crate) alloc: Global,
    pub(crate) config: Config,
    pub(crate) pool: Pool,
    pub(crate) book: Book,
    pub(crate) table: Table,
    pub(crate) scratch: Scratch,
    pub(crate) accepted: u64,
    pub(crate) reserved: u64,
    pub(crate) printers: Vec<Printer>,
    pub(crate) closed: bool,
}

impl Model for Core {
    ghost use Rattle.spool_calls.specs.Kept.{Kept};
    ghost use Rattle.spool_core.specs.Inside.{core_view, IsCore};

    ghost Value = { Kept };

    ghost view = { core_view };

    ghost invariant = { IsCore };
}

/// What a spool of a configuration has at first beside that, and takes memory.
#[derive(Drop)]
struct Parts {
    pool: Pool,
    book: Book,
    table: Table,
    scratch: Scratch,
    printers: Vec<Printer>,
}

/// All pages free, no job, no claim, and no page at a printer. AllocError where memory for them is refused.
fn parts_of(alloc: Global, config: &Config) -> Result<Parts, AllocError>
    ensures pool { IfOk result (λ parts. parts.pool ≡ record {
      page_size = config.now.page_size;
      pages = config.now.pages;
      free = config.now.pages;
    }) }
    ensures book { IfOk result (λ parts. parts.book ≡ record {
      jobs = [];
      stored = 0;
      max_jobs = config.now.max_jobs;
      pages = config.now.pages;
      page_size = config.now.page_size;
    }) }
    ensures table { IfOk result (λ parts. parts.table ≡ record {
      capacity = capacity config.now;
      free = capacity config.now;
      rows = [];
      room = config.now.max_jobs;
    }) }
    ensures is_table { IfOk result (λ parts. IsTable parts.table) }
    ensures scratch { IfOk result (λ parts. (parts.scratch.rows ≡ config.now.max_jobs)
        × (parts.scratch.kinds ≡ length config.now.queues + 1)) }
    ensures printers { IfOk result (λ parts.
        parts.printers.items ≡ idle config.now (printer_count config.now)) }
    ensures ranges { IsConfig config.now }
{
    let pages = config.pages() as usize;
    let page_size = config.page_size() as usize;
    let Ok(pool) = Pool::new(alloc, pages, page_size) else {
        return Err(AllocError);
    };
    let max_jobs = config.max_jobs();
    let rows = max_jobs as usize;
    let capacity = capacity(alloc, config)?;
    let table = Table::new(alloc, &capacity, max_jobs)?;
    let scratch = Scratch::with_room(alloc, rows, capacity.kinds())?;
    let book = Book::new(alloc, rows, pages, page_size)?;
    let printers = idle_printers(alloc, config)?;
    Ok(Parts {
        pool,
        book,
        table,
        scratch,
        printers,
    })
}

impl Core {
    /// A spool in which nothing happened yet.
    ///
    /// Where memory for it is refused the configuration comes back.
    pub fn new(alloc: Global, config: Config) -> Result<Core, Unmade>
        ensures config { IfOk result (λ core. core.config ≡ config) }
        ensures ranges { IfOk result (λ core. IsConfig core.config) }
        ensures left { IfOk result (λ core. (d : Detail) → Leaves d first_base [] core) }
        ensures back { IfErr result (λ unmade. unmade.config ≡ config) }
    {
        let Ok(parts) = parts_of(alloc, &config) else {
            return Err(Unmade { config });
        };
        Ok(Core {
            alloc,
            config,
            pool: parts.pool,
            book: parts.book,
            table: parts.table,
            scratch: parts.scratch,
            accepted: 0,
            reserved: 0,
            printers: parts.printers,
            closed: false,
        })
    }
}
