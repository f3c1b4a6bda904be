//! The table of claims.

ghost use Rattle.std.specs.Prelude.{◌≡◌, ◌≢◌, ℕ, ◌+◌, ◌-◌, ◌<◌, ◌≤◌, ◌↔◌, ◌∷◌, ◌++◌, [], IsTrue, IfOk, IfSome, IfNone, OnOk, OnErr, MatchResult, length, All};
ghost use Rattle.counts.specs.Amounts.{amount, Fits};
ghost use Rattle.claims.specs.Claims.{IsTable, row_at};
ghost use Rattle.claims.specs.Changes.{RefusedFor, HasPlace, new_row_of, opened, with_amounts, granted, given_back, need_ended, closed};

use crate::row::Row;
use counts::Counts;
use std::alloc::{AllocError, Global};
use std::error::Error;
use std::fmt;
use std::marker::Model;

/// Why a row wasn't opened.
#[derive(Clone, Copy, Debug, PartialEq, Eq)]
pub enum OpenError {
    /// The row needs more of a kind than its whole capacity.
    OverCapacity,
    /// The table has as many rows as it has room for.
    Full,
    /// Memory was refused.
    Memory,
}

/// Writes the number and the name, as `21 OverCapacity`.
impl fmt::Display for OpenError {
    ghost use Rattle.std.specs.Prelude.{Some};
    ghost use Rattle.claims.specs.Words.{error_words};

    ghost output = { λ error. Some (error_words error) };

    fn fmt<W: fmt::Write>(&self, f: &mut fmt::Formatter<W>) -> fmt::Result {
        f.write_str(match self {
            OpenError::OverCapacity => "21 OverCapacity",
            OpenError::Full => "22 Full",
            OpenError::Memory => "12 Memory",
        })
    }
}

impl Error for OpenError {}

/// The capacity of each kind of resource, what is free of it, and a row for each job by rising
/// number. What is free and what all rows hold is the capacity, always.
#[derive(Drop)]
pub struct Table {
    alloc: Global,
    capacity: Counts,
    free: Counts,
    rows: Vec<Row>,
    room: usize,
}

impl Model for Table {
    ghost use Rattle.std.specs.Prelude.{◌≤◌, vec_capacity};
    ghost use Rattle.claims.specs.Claims.{Claims, IsTable};

    ghost Value = { Claims };

    ghost view = { λ t. record {
      capacity = t.capacity;
      free = t.free;
      rows = t.rows.items;
      room = t.room;
    } };

    ghost invariant = { λ t.
        IsTable (record {
          capacity = t.capacity;
          free = t.free;
          rows = t.rows.items;
          room = t.room;
        })
        × (t.room ≤ vec_capacity t.rows) };
}

impl Table {
    /// A table of this capacity, all of it free, with no rows and room for so many.
    pub fn new(alloc: Global, capacity: &Counts, rows: u32) -> Result<Table, AllocError>
        ensures { IfOk result (λ t. t ≡ record {
          capacity = capacity.now;
          free = capacity.now;
          rows = [];
          room = rows;
        }) }
    {
        let room = rows as usize;
        Ok(Table {
            alloc,
            capacity: capacity.copy(alloc)?,
            free: capacity.copy(alloc)?,
            rows: Vec::with_capacity(alloc, room)?,
            room,
        })
    }

    /// A table that says the same.
    ///
    /// AllocError where memory for it is refused.
    pub fn copy(&self, alloc: Global) -> Result<Table, AllocError>
        ensures { IfOk result (λ t. t ≡ self.now) }
    {
        let mut rows = Vec::with_capacity(alloc, self.room)?;
        for row in &self.rows {
            rows.push(row.copy(alloc)?)?;
        }
        Ok(Table {
            alloc,
            capacity: self.capacity.copy(alloc)?,
            free: self.free.copy(alloc)?,
            rows,
            room: self.room,
        })
    }

    /// The rows by rising number.
    pub fn rows(&self) -> &[Row]
        ensures rows { result.now ≡ self.now.rows }
        ensures table { IsTable self.now }
    {
        self.rows.as_slice()
    }

    /// What is free of each kind.
    pub fn free(&self) -> &Counts
        ensures free { result.now ≡ self.now.free }
        ensures table { IsTable self.now }
    {
        &self.free
    }

    /// How much there is of each kind, free or held.
    pub fn capacity(&self) -> &Counts
        ensures capacity { result.now ≡ self.now.capacity }
        ensures table { IsTable self.now }
    {
        &self.capacity
    }

    /// How many rows there are.
    pub fn len(&self) -> usize
        ensures { result ≡ length self.now.rows }
    {
        self.rows.len()
    }

    /// Whether there is no row.
    pub fn is_empty(&self) -> bool
        ensures { IsTrue result ↔ (self.now.rows ≡ []) }
    {
        self.rows.is_empty()
    }

    /// The place of the row with this number.
    pub fn position(&self, number: u64) -> Option<usize>
        ensures found { IfSome result (λ i.
            (i < length self.now.rows) × ((row_at self.now.rows i).number ≡ number)) }
        ensures absent { IfNone result (All (λ row. row.number ≢ number) self.now.rows) }
    {
        self.rows.iter().position(|row| row.number == number)
    }

    /// Adds a row that holds nothing yet. Refused, and then nothing changes, where it needs more
    /// than the capacity, else where the table is full, else for want of memory.
    pub fn open_row(
        &mut self,
        number: u64,
        sender: u32,
        queue: u32,
        need: &Counts,
    ) -> Result<(), OpenError>
        requires greater { All (λ other. other.number < number) self.old.rows }
        requires kinds { length need.now ≡ length self.old.capacity }
        ensures opened { OnOk result (self.new ≡ opened self.old number sender queue need.now) }
        ensures cause { MatchResult result
            (λ _. HasPlace self.old need.now) (RefusedFor self.old need.now) }
        ensures unchanged { OnErr result (self.new ≡ self.old) }
    {
        if !need.le(&self.capacity) {
            return Err(OpenError::OverCapacity);
        }
        if self.rows.len() == self.room {
            return Err(OpenError::Full);
        }
        let Ok(row) = new_row(self.alloc, number, sender, queue, need) else {
            return Err(OpenError::Memory);
        };
        self.add_row(row);
        Ok(())
    }

    /// Gives the row one more of a kind, which was free and which it needs.
    pub fn grant(&mut self, row: usize, kind: usize)
        requires here { row < length self.old.rows }
        requires kind { kind < length self.old.capacity }
        requires free { 0 < amount self.old.free kind }
        requires needed { 0 < amount (row_at self.old.rows row).need kind }
        ensures { self.new ≡ granted self.old row kind }
    {
        let place = &self.rows[row];
        let held = place.held.get(kind);
        let need = place.need.get(kind);
        self.set_amounts(row, kind, held + 1, need - 1);
    }

    /// Takes so many of a kind from what the row holds. They are free then.
    pub fn give_back(&mut self, row: usize, kind: usize, n: u32)
        requires here { row < length self.old.rows }
        requires kind { kind < length self.old.capacity }
        requires held { n ≤ amount (row_at self.old.rows row).held kind }
        ensures { self.new ≡ given_back self.old row kind n }
    {
        let place = &self.rows[row];
        let held = place.held.get(kind);
        let need = place.need.get(kind);
        self.set_amounts(row, kind, held - n, need);
    }

    /// The row needs no more of a kind than it holds.
    pub fn need_ends(&mut self, row: usize, kind: usize)
        requires here { row < length self.old.rows }
        requires kind { kind < length self.old.capacity }
        ensures { self.new ≡ need_ended self.old row kind }
    {
        let held = self.rows[row].held.get(kind);
        self.set_amounts(row, kind, held, 0);
    }

    /// Takes the row out. All that it held is free then.
    pub fn close_row(&mut self, row: usize)
        requires { row < length self.old.rows }
        ensures { self.new ≡ closed self.old row }
    {
        let row = self.rows.remove(row);
        self.free.add(&row.held);
    }

    /// Gives a row other amounts of a kind. What it holds less is free, and what it holds more
    /// was free.
    fn set_amounts(&mut self, i: usize, kind: usize, held: u32, need: u32)
        requires here { i < length self.old.rows }
        requires kind { kind < length self.old.capacity }
        requires fits { held ≤ amount self.old.free kind
            + amount (row_at self.old.rows i).held kind }
        ensures { self.new ≡ with_amounts self.old i kind held need }
    {
        let row = &mut self.rows[i];
        let old = row.held.get(kind);
        row.held.set(kind, held);
        row.need.set(kind, need);
        let free = self.free.get(kind);
        self.free.set(kind, free + old - held);
    }

    /// Adds a row that holds nothing, where there is room for it.
    fn add_row(&mut self, row: Row)
        requires room { length self.old.rows < self.old.room }
        requires greater { All (λ other. other.number < row.number) self.old.rows }
        requires holds { (kind : ℕ) → amount row.held kind ≡ 0 }
        requires kinds { (length row.held ≡ length self.old.capacity)
            × (length row.need ≡ length self.old.capacity) }
        ensures { self.new ≡ record self.old { rows = self.old.rows ++ row ∷ [] } }
    {
        self.rows.push(row).unwrap();
    }
}

/// A row that holds nothing.
fn new_row(
    alloc: Global,
    number: u64,
    sender: u32,
    queue: u32,
    need: &Counts,
) -> Result<Row, AllocError>
    ensures { IfOk result (λ row. row ≡ new_row_of number sender queue need.now) }
{
    Ok(Row {
        number,
        sender,
        queue,
        held: Counts::zero(alloc, need.kinds())?,
        need: need.copy(alloc)?,
    })
}
