//! Amounts of each kind: pages, and the printers of each queue.

ghost use Rattle.std.specs.Prelude.{◌≡◌, IfOk};
ghost use Rattle.config_values.specs.Config as C;
ghost use Rattle.spool_history.specs.Now.{amounts, capacity};

use config_values::Config;
use counts::Counts;
use std::alloc::{AllocError, Global};

/// What there is of each kind.
pub(crate) fn capacity(alloc: Global, config: &Config) -> Result<Counts, AllocError>
    ensures { IfOk result (λ c. c ≡ capacity config.now) }
{
    let queues = config.queues();
    let mut all = Counts::zero(alloc, queues.len() + 1)?;
    all.set(0, config.pages());
    for i in 0..queues.len() {
        all.set(i + 1, queues[i].printers());
    }
    Ok(all)
}

/// So many pages, and so many printers of a queue.
pub(crate) fn amounts(
    alloc: Global,
    config: &Config,
    pages: u32,
    queue: u32,
    printers: u32,
) -> Result<Counts, AllocError>
    requires { C.IsQueue config.now queue }
    ensures { IfOk result (λ c. c ≡ amounts config.now pages queue printers) }
{
    let mut all = Counts::zero(alloc, config.queues().len() + 1)?;
    all.set(0, pages);
    all.set(queue as usize, printers);
    Ok(all)
}
