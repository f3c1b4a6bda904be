//! In which order the held jobs can finish.

ghost use Rattle.std.specs.Prelude.{IfOk, MatchOption};
ghost use Rattle.claims.specs.Safety.{FinishesBy, IsSafe};

use crate::snapshot::Snapshot;
use ordered_safety::{Order, Scratch, find_order};
use std::alloc::{AllocError, Global};

impl Snapshot {
    /// The numbers of all held jobs in an order in which each can finish: it needs no more than is free once those before it gave
    /// back what they hold. None where there is no such order.
    ///
    /// AllocError where memory for it is refused.
    pub fn finishing_order(&self, alloc: Global) -> Result<Option<Order>, AllocError>
        ensures { IfOk result (λ found.
            MatchOption found (IsSafe self.now.claims → ⊥) (FinishesBy self.now.claims)) }
    {
        let rows = self.claims.len();
        let kinds = self.claims.capacity().kinds();
        let mut scratch = Scratch::with_room(alloc, rows, kinds)?;
        let (order, _tests) = find_order(alloc, &mut scratch, &self.claims)?;
        Ok(order)
    }
}
