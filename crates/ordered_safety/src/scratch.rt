//! Room for a decision, and what it answers.

ghost use Rattle.std.specs.Prelude.{◌≡◌, [], IfOk};

use crate::kept::Kept;
use claims::Row;
use counts::Counts;
use std::alloc::{AllocError, Global};
use std::marker::Model;

/// Whether a finishing order exists, or is the one that was asked about, and how often a row's need
/// was compared with what is free.
#[derive(Clone, Copy, Debug, PartialEq, Eq)]
pub struct Verdict {
    /// Whether there is such an order.
    pub safe: bool,
    /// How often a need was compared.
    pub tests: u64,
}

/// What a decision works with, and writes anew.
#[derive(Drop)]
pub struct Work {
    /// Places of rows in the order that is tried, or that a scan finds.
    pub places: Vec<usize>,
    /// Which places the kept order has.
    pub met: Vec<bool>,
    /// Numbers of rows in the order of `places`.
    pub numbers: Vec<u64>,
    /// Places of the rows that haven't gone.
    pub left: Vec<usize>,
    /// For each of `left`, how many before it are of its sender and queue.
    pub ahead: Vec<u32>,
    /// What is free once the others have gone.
    pub free: Counts,
}

/// Room for a decision, and the finishing order that `safe_after_page` found last. Contracts see
/// for how many rows and of how many kinds there is room, and the numbers of that order.
#[derive(Drop)]
pub struct Scratch {
    /// The rows of the kept order, in that order.
    pub(crate) kept: Vec<Kept>,
    pub(crate) work: Work,
    /// The row that a page is asked for, as it is once it has the page.
    pub(crate) asking: Row,
    pub(crate) rows: usize,
}

impl Model for Scratch {
    ghost use Rattle.std.specs.Prelude.{◌≡◌, ◌≤◌, length, vec_capacity};
    ghost use Rattle.ordered_safety.specs.Kept.{kept_numbers, KeepsLines};
    ghost use Rattle.ordered_safety.specs.Room.{Room};

    ghost Value = { Room };

    ghost view = { λ s. record {
      rows = s.rows;
      kinds = length s.work.free;
      order = kept_numbers s.kept.items;
    } };

    ghost invariant = { λ s.
        KeepsLines s.kept.items
        × (s.rows ≤ vec_capacity s.kept)
        × (s.rows ≤ vec_capacity s.work.places)
        × (s.rows ≤ vec_capacity s.work.met)
        × (s.rows ≤ vec_capacity s.work.numbers)
        × (s.rows ≤ vec_capacity s.work.left)
        × (s.rows ≤ vec_capacity s.work.ahead)
        × (length s.asking.held ≡ length s.work.free)
        × (length s.asking.need ≡ length s.work.free) };
}

impl Scratch {
    /// Room for so many rows of so many kinds, with no order kept.
    pub fn with_room(alloc: Global, rows: usize, kinds: usize) -> Result<Scratch, AllocError>
        ensures { IfOk result (λ s. s ≡ record { rows = rows; kinds = kinds; order = [] }) }
    {
        Ok(Scratch {
            kept: Vec::with_capacity(alloc, rows)?,
            work: Work {
                places: Vec::with_capacity(alloc, rows)?,
                met: Vec::with_capacity(alloc, rows)?,
                numbers: Vec::with_capacity(alloc, rows)?,
                left: Vec::with_capacity(alloc, rows)?,
                ahead: Vec::with_capacity(alloc, rows)?,
                free: Counts::zero(alloc, kinds)?,
            },
            asking: Row {
                number: 0,
                sender: 0,
                queue: 0,
                held: Counts::zero(alloc, kinds)?,
                need: Counts::zero(alloc, kinds)?,
            },
            rows,
        })
    }
}
