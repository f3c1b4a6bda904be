//! Steps one after another.

ghost use Rattle.std.specs.Prelude.{◌≡◌, IfOk, OnErr, length};
ghost use Rattle.spool_trace.specs.Trace.{Trace};
ghost use Rattle.spool_trace.specs.Headline.{Headline};
ghost use Rattle.spool_world.specs.Worlds.{Leads};
ghost use Rattle.spool_world.specs.Runs.{Runs};

use crate::world::World;
use spool_trace::{Reply, Step};
use std::alloc::AllocError;

impl World {
    /// Does these steps one after another, and replies to each.
    ///
    /// AllocError where memory for the list of replies is refused; nothing has happened then.
    pub fn run(&mut self, steps: &[Step]) -> Result<Vec<Reply>, AllocError>
        ensures config { self.new.core.config ≡ self.old.core.config }
        ensures count { IfOk result (λ replies. length replies.items ≡ length steps.now) }
        // Each reply is the one that is due after the trace before it, and the longer trace leads
        // to where the world is.
        ensures replies { IfOk result (λ replies. Runs self.old steps.now replies.items self.new) }
        ensures refused { OnErr result (self.new ≡ self.old) }
        // Whatever trace leads to where the world is, the headline holds of it.
        ensures headline { (t : Trace) → Leads t self.new → Headline self.new.core.config t }
    {
        let mut replies = Vec::with_capacity(self.alloc, steps.len())?;
        for step in steps {
            replies.push_reserved(self.step(step));
        }
        Ok(replies)
    }
}
