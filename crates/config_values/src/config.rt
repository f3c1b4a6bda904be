//! A spool's configuration.

ghost use Rattle.std.specs.Prelude.{◌≡◌, ◌≢◌, ◌↔◌, ◌≤◌, ◌<◌, ◌+◌, ◌*◌, ◌^◌, ◌-◌, All, IfOk, IfSome, IfNone, IsTrue, MatchOption, length, slice_index_or};
ghost use Rattle.config_values.specs.Config as C;

use crate::queue::{Queue, printers_of, served_from};
use std::alloc::{AllocError, Global};
use std::marker::Model;

/// How often each page of its limit may stand in the account for a job: granted, put, and 99 times handed out and come back.
const ENTRIES_A_PAGE: u64 = 200;

/// How many entries a job may have beside those of its pages: 109, as `reserve_of` of `specs/Config.antt` tells, and three of slack.
const ENTRIES_A_JOB: u64 = 112;

/// What a spool is made for. Queues have the numbers 1, 2 and so on, and printers are numbered from 1 over all queues,
/// in the queues' order. It is in its ranges, always: 1 to 65,536 pages of 1 to 65,536 octets, 1 to 1,024 jobs held at
/// once, 1 to 16,000,000 entries of the account, and 1 to 64 queues, no two of one name; a queue's name has 1 to 64 octets
/// from 21 to 7E (hexadecimal), its limit is 1 to the pages of the pool, and it has 1 to 16 printers.
#[derive(Debug, Drop)]
pub struct Config {
    pages: u32,
    page_size: u32,
    max_jobs: u32,
    account: u64,
    queues: Vec<Queue>,
}

impl Model for Config {
    ghost use Rattle.config_values.specs.Config as C;
    ghost use Rattle.config_values.specs.Ranges.{IsConfig};

    ghost Value = { C.Config };

    ghost view = { λ c. record {
      pages = c.pages;
      page_size = c.page_size;
      max_jobs = c.max_jobs;
      account = c.account;
      queues = c.queues.items;
    } };

    ghost invariant = { λ c. IsConfig (record {
      pages = c.pages;
      page_size = c.page_size;
      max_jobs = c.max_jobs;
      account = c.account;
      queues = c.queues.items;
    }) };
}

/// The place of the queue of this name.
fn place_of(queues: &[Queue], name: &[u8]) -> Option<usize>
    ensures found { IfSome result (λ at. (at < length queues.now)
        × ((slice_index_or queues.now at C.no_queue).name ≡ name.now)) }
    ensures absent { IfNone result (All (λ (q : C.Queue). q.name ≢ name.now) queues.now) }
{
    queues.iter().position(|queue| queue.name() == name)
}

impl Config {
    ghost use Rattle.config_values.specs.Ranges.{IsConfig};

    /// A configuration in its ranges.
    pub fn new(
        pages: u32,
        page_size: u32,
        max_jobs: u32,
        account: u64,
        queues: Vec<Queue>,
    ) -> Config
        requires { IsConfig (record {
          pages = pages;
          page_size = page_size;
          max_jobs = max_jobs;
          account = account;
          queues = queues.items;
        }) }
        ensures { result ≡ record {
          pages = pages;
          page_size = page_size;
          max_jobs = max_jobs;
          account = account;
          queues = queues.items;
        } }
    {
        Config {
            pages,
            page_size,
            max_jobs,
            account,
            queues,
        }
    }

    /// A configuration that says the same.
    ///
    /// AllocError where memory is refused.
    pub fn copy_of(alloc: Global, config: &Config) -> Result<Config, AllocError>
        ensures { IfOk result (λ copy. copy ≡ config.now) }
    {
        let mut queues = Vec::new(alloc);
        for queue in config.queues() {
            queues.push(Queue::copy_of(alloc, queue)?)?;
        }
        Ok(Config::new(
            config.pages(),
            config.page_size(),
            config.max_jobs(),
            config.account(),
            queues,
        ))
    }

    /// How many pages there are.
    pub fn pages(&self) -> u32
        ensures value { result ≡ self.now.pages }
        ensures ranges { IsConfig self.now }
    {
        self.pages
    }

    /// The octets of a page.
    pub fn page_size(&self) -> u32
        ensures value { result ≡ self.now.page_size }
        ensures ranges { IsConfig self.now }
    {
        self.page_size
    }

    /// How many jobs may be held at once.
    pub fn max_jobs(&self) -> u32
        ensures value { result ≡ self.now.max_jobs }
        ensures ranges { IsConfig self.now }
    {
        self.max_jobs
    }

    /// How many entries the account may have.
    pub fn account(&self) -> u64
        ensures value { result ≡ self.now.account }
        ensures ranges { IsConfig self.now }
    {
        self.account
    }

    /// Lets the account have so many entries.
    pub fn set_account(&mut self, entries: u64)
        requires { (1 ≤ entries) × (entries ≤ 2 ^ 62) }
        ensures { self.new ≡ record self.old { account = entries } }
    {
        self.account = entries;
    }

    /// The queues, in the order of their numbers.
    pub fn queues(&self) -> &[Queue]
        ensures value { result.now ≡ self.now.queues }
        ensures ranges { IsConfig self.now }
    {
        self.queues.as_slice()
    }

    /// The number of the queue of this name.
    pub fn queue_named(&self, name: &[u8]) -> Option<u32>
        ensures found { IfSome result (λ q. C.IsQueue self.now q × ((C.queue_at self.now q).name
            ≡ name.now)) }
        ensures absent { IfNone result (All (λ (q : C.Queue). q.name ≢ name.now) self.now.queues) }
        ensures named { MatchOption result (C.queue_named self.now name.now ≡ 0)
            (λ q. C.queue_named self.now name.now ≡ q) }
    {
        let Some(at) = place_of(self.queues.as_slice(), name) else {
            return None;
        };
        Some(at as u32 + 1)
    }

    /// The queue of a number.
    pub fn queue(&self, number: u32) -> Option<&Queue>
        ensures found { IfSome result (λ q. C.IsQueue self.now number
            × (q.now ≡ C.queue_at self.now number)) }
        ensures absent { IfNone result (C.IsQueue self.now number → ⊥) }
    {
        let before = number.checked_sub(1)?;
        self.queues.get(before as usize)
    }

    /// Whether a queue has this number.
    pub fn is_queue(&self, queue: u32) -> bool
        ensures { IsTrue result ↔ C.IsQueue self.now queue }
    {
        self.queue(queue).is_some()
    }

    /// How many printers there are over all queues.
    pub fn printer_count(&self) -> u32
        ensures value { result ≡ C.printer_count self.now }
        ensures within { result ≤ 1024 }
    {
        printers_of(self.queues.as_slice()) as u32
    }

    /// Whether a printer has this number.
    pub fn is_printer(&self, printer: u32) -> bool
        ensures { IsTrue result ↔ C.IsPrinter self.now printer }
    {
        1 <= printer && printer <= self.printer_count()
    }

    /// The number of the queue that a printer serves, or 0 where no printer has this number.
    pub fn queue_of(&self, printer: u32) -> u32
        ensures { result ≡ C.queue_of self.now printer }
    {
        if printer == 0 {
            return 0;
        }
        served_from(1, self.queues.as_slice(), printer)
    }

    /// The pages that a job of a queue may hold, or 0 where no queue has this number.
    pub fn limit_of(&self, queue: u32) -> u32
        ensures { result ≡ C.limit_of self.now queue }
    {
        self.queue(queue).map_or(0, |found| found.limit())
    }

    /// The name of a queue, or nothing where no queue has this number.
    pub fn name_of(&self, queue: u32) -> &[u8]
        ensures { result.now ≡ (C.queue_at self.now queue).name }
    {
        self.queue(queue).map_or(&[], |found| found.name())
    }

    /// How many printers serve a queue, or 0 where no queue has this number.
    pub fn printers_of(&self, queue: u32) -> u32
        ensures { result ≡ (C.queue_at self.now queue).printers }
    {
        self.queue(queue).map_or(0, |found| found.printers())
    }

    /// The most entries of the account that are about a job of a queue.
    pub fn reserve_of(&self, queue: u32) -> u64
        ensures value { result ≡ C.reserve_of self.now queue }
        ensures within { result < 2 ^ 40 }
    {
        ENTRIES_A_PAGE * u64::from(self.limit_of(queue)) + ENTRIES_A_JOB
    }
}
