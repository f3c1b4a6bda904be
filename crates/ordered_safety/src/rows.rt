//! The rows of a table, one of which may be changed.

ghost use Rattle.std.specs.Prelude.{◌≡◌, ◌<◌, length, slice_set};
ghost use Rattle.claims.specs.Claims.{row_at};
ghost use Rattle.claims.specs.Safety.{same_line};

use claims::Row;
use std::marker::Model;

/// A row that stands at a place in another's stead.
#[derive(Drop)]
pub struct Change<'a> {
    pub place: usize,
    pub row: &'a Row,
}

/// The rows of a table, one of which may be changed. Contracts see the list of them with the
/// change.
#[derive(Drop)]
pub struct Rows<'a> {
    rows: &'a [Row],
    change: Option<Change<'a>>,
}

impl<'a> Model for Rows<'a> {
    ghost use Rattle.std.specs.Prelude.{List};
    ghost use Rattle.claims.specs.declared.row.Row.{Row};

    ghost Value = { List Row };

    ghost use Rattle.ordered_safety.specs.Changed.{changed};

    ghost view = { λ r. changed r.rows.now r.change };
}

impl<'a> Rows<'a> {
    /// The rows as they are.
    pub fn plain(rows: &'a [Row]) -> Rows<'a>
        ensures { result ≡ rows.now }
    {
        Rows { rows, change: None }
    }

    /// The rows with another one at this place.
    pub fn with(rows: &'a [Row], place: usize, row: &'a Row) -> Rows<'a>
        ensures { result ≡ slice_set rows.now place row.now }
    {
        Rows {
            rows,
            change: Some(Change { place, row }),
        }
    }

    /// How many rows there are.
    pub fn len(&self) -> usize
        ensures { result ≡ length self.now }
    {
        self.rows.len()
    }

    /// The row at a place.
    pub fn get(&self, place: usize) -> &Row
        requires { place < length self.now }
        ensures { result.now ≡ row_at self.now place }
    {
        match &self.change {
            Some(change) if change.place == place => change.row,
            _ => &self.rows[place],
        }
    }

    /// Whether the rows at two places are of one sender and queue.
    pub fn are_of_one_line(&self, place: usize, other: usize) -> bool
        requires here { place < length self.now }
        requires there { other < length self.now }
        ensures { result ≡ same_line (row_at self.now place) (row_at self.now other) }
    {
        let row = self.get(place);
        let other = self.get(other);
        row.sender == other.sender && row.queue == other.queue
    }
}
