//! What is kept of a finishing order.

ghost use Rattle.std.specs.Prelude.{◌≡◌, ◌<◌, ◌≤◌, ◌↔◌, IsTrue, length, vec_capacity, All};
ghost use Rattle.claims.specs.Claims.{IsLower, Pairwise};
ghost use Rattle.claims.specs.Safety.{IsOrderOf, KeepsLine};
ghost use Rattle.ordered_safety.specs.Scan.{rows_at};
ghost use Rattle.ordered_safety.specs.Carried.{numbers_of};
ghost use Rattle.ordered_safety.specs.Kept.{kept_numbers, KeepsLines};

use crate::rows::Rows;
use claims::Row;

/// A row of a kept order.
#[derive(Clone, Copy)]
pub struct Kept {
    pub number: u64,
    pub sender: u32,
    pub queue: u32,
    /// Where the row stood when it was kept, and is looked for first.
    pub place: usize,
}

impl Kept {
    /// Whether the row is of the sender and the queue that were kept.
    pub fn is_of_line(&self, row: &Row) -> bool
        ensures { IsTrue result
            ↔ ((row.now.sender ≡ self.now.sender) × (row.now.queue ≡ self.now.queue)) }
    {
        row.sender == self.sender && row.queue == self.queue
    }
}

/// Keeps the rows at these places as the order.
pub fn keep(rows: &Rows, places: &[usize], kept: &mut Vec<Kept>)
    requires there { All (λ j. j < length rows.now) places.now }
    requires rising { Pairwise IsLower rows.now }
    requires once { IsOrderOf rows.now (rows_at rows.now places.now) }
    requires line { Pairwise KeepsLine (rows_at rows.now places.now) }
    requires room { length rows.now ≤ vec_capacity kept.old }
    ensures numbers { kept_numbers kept.new.items
        ≡ numbers_of (rows_at rows.now places.now) }
    ensures lines { KeepsLines kept.new.items }
    ensures room { vec_capacity kept.old ≤ vec_capacity kept.new }
{
    kept.clear();
    for &place in places {
        let row = rows.get(place);
        kept.push(Kept {
            number: row.number,
            sender: row.sender,
            queue: row.queue,
            place,
        })
        .unwrap();
    }
}
