//! The kinds of resource that a spool's jobs hold: pages, and the printers of each queue.

ghost use Rattle.std.specs.Prelude.{◌≡◌, ◌+◌, IfOk};
ghost use Rattle.config_values.specs.Config as C;
ghost use Rattle.spool_history.specs.Now.{capacity};
ghost use Rattle.spool_core.specs.Inside.{claim_in};

use config_values::Config;
use counts::Counts;
use std::alloc::{AllocError, Global};

/// What there is of each kind: pages, and the printers of each queue.
pub fn capacity(alloc: Global, config: &Config) -> Result<Counts, AllocError>
    ensures { IfOk result (λ c. c ≡ capacity config.now) }
{
    let queues = config.queues();
    let mut all = Counts::zero(alloc, queues.len() + 1)?;
    all.set(0, config.pages());
    for i in 0..queues.len() {
        all.set(i + 1, queues[i].printers());
    }
    Ok(all)
}

/// What a job that was just accepted may need: the pages of its queue's limit, and a printer of it.
pub fn claim_of(alloc: Global, config: &Config, queue: u32) -> Result<Counts, AllocError>
    requires { C.IsQueue config.now queue }
    ensures { IfOk result (λ c. c ≡ claim_in config.now queue) }
{
    let mut all = Counts::zero(alloc, config.queues().len() + 1)?;
    all.set(0, config.limit_of(queue));
    all.set(queue as usize, 1);
    Ok(all)
}
