//! Orders, as lists of numbers of rows.

ghost use Rattle.std.specs.Prelude.{◌≡◌, IfOk, length};

use std::alloc::{AllocError, Global};
use std::marker::Model;

/// Numbers of rows in the order in which their jobs are to finish. Contracts see the list of them.
#[derive(Debug, Drop)]
pub struct Order {
    numbers: Vec<u64>,
}

impl Model for Order {
    ghost use Rattle.std.specs.Prelude.{List, ℕ};

    ghost Value = { List ℕ };

    ghost view = { λ o. o.numbers.items };
}

impl Order {
    /// An order with a copy of these numbers.
    pub fn copy_of(alloc: Global, numbers: &[u64]) -> Result<Order, AllocError>
        ensures { IfOk result (λ o. o ≡ numbers.now) }
    {
        Ok(Order {
            numbers: numbers.to_vec(alloc)?,
        })
    }

    /// The numbers.
    pub fn as_slice(&self) -> &[u64]
        ensures { result.now ≡ self.now }
    {
        self.numbers.as_slice()
    }

    /// How many numbers there are.
    pub fn len(&self) -> usize
        ensures { result ≡ length self.now }
    {
        self.numbers.len()
    }
}
