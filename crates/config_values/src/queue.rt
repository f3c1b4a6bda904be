//! A queue and its printers.

ghost use Rattle.std.specs.Prelude.{◌≡◌, ◌≤◌, ◌+◌, ◌*◌, ◌^◌, IfOk, length, string_bytes, sum_by};
ghost use Rattle.config_values.specs.Config as C;

use std::alloc::{AllocError, Global};
use std::marker::Model;

/// A queue. Contracts see its name, its limit and how many printers it has.
#[derive(Debug, Drop)]
pub struct Queue {
    name: String,
    limit: u32,
    printers: u32,
}

impl Model for Queue {
    ghost use Rattle.std.specs.Prelude.{string_bytes};
    ghost use Rattle.config_values.specs.Config as C;

    ghost Value = { C.Queue };

    ghost view = { λ q. record {
      name = string_bytes q.name;
      limit = q.limit;
      printers = q.printers;
    } };
}

impl Queue {
    /// A queue of this name, whose jobs may hold so many pages, and which so many printers serve.
    pub fn new(name: String, limit: u32, printers: u32) -> Queue
        ensures { result ≡ record { name = string_bytes name; limit = limit; printers = printers } }
    {
        Queue {
            name,
            limit,
            printers,
        }
    }

    /// A queue that says the same.
    ///
    /// AllocError where memory is refused.
    pub fn copy_of(alloc: Global, queue: &Queue) -> Result<Queue, AllocError>
        ensures { IfOk result (λ copy. copy ≡ queue.now) }
    {
        let name = Vec::from_slice(alloc, queue.name())?;
        // A queue's name is a text, so memory alone can be wanting.
        let name = String::from_utf8(name).or(Err(AllocError))?;
        Ok(Queue::new(name, queue.limit(), queue.printers()))
    }

    /// The octets of its name.
    pub fn name(&self) -> &[u8]
        ensures { result.now ≡ self.now.name }
    {
        self.name.as_bytes()
    }

    /// The most pages that one of its jobs may hold.
    pub fn limit(&self) -> u32
        ensures { result ≡ self.now.limit }
    {
        self.limit
    }

    /// How many printers serve it.
    pub fn printers(&self) -> u32
        ensures { result ≡ self.now.printers }
    {
        self.printers
    }
}

/// How many printers these queues have together.
pub(crate) fn printers_of(queues: &[Queue]) -> u64
    requires { length queues.now ≤ 64 }
    ensures value { result ≡ sum_by (λ (q : C.Queue). q.printers) queues.now }
    ensures within { result ≤ 2 ^ 32 * length queues.now }
{
    let Some((first, rest)) = queues.split_first() else {
        return 0;
    };
    u64::from(first.printers()) + printers_of(rest)
}

/// The number of the queue that a printer serves, where the first of these queues has this number.
pub(crate) fn served_from(number: u32, queues: &[Queue], printer: u32) -> u32
    requires { number + length queues.now ≤ 65 }
    ensures { result ≡ C.served_from number queues.now printer }
{
    let Some((first, rest)) = queues.split_first() else {
        return 0;
    };
    let printers = first.printers();
    if printer <= printers {
        return number;
    }
    served_from(number + 1, rest, printer - printers)
}
