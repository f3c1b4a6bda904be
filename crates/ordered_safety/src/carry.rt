//! The kept order, carried to the rows that there are now.

ghost use Rattle.std.specs.Prelude.{◌≡◌, ℕ, ◌+◌, ◌<◌, ◌≤◌, List, ◌++◌, true, false, not, IsTrue, length, slice_index_or, vec_len, vec_capacity, All, filter, count_by, IfSome, IfNone};
ghost use Rattle.claims.specs.declared.row.Row.{Row};
ghost use Rattle.claims.specs.Claims.{IsLower, Pairwise, row_at};
ghost use Rattle.claims.specs.Safety.{IsOrderOf, KeepsLine};
ghost use Rattle.ordered_safety.specs.Scan.{rows_at};
ghost use Rattle.ordered_safety.specs.Carried.{carried, has_row, is_among, is_lacked, AreMet, numbers_of, StandsAt};
ghost use Rattle.ordered_safety.specs.Kept.{kept_numbers, KeepsLines};

use crate::kept::Kept;
use crate::rows::Rows;

/// Puts the places of all rows in the carried order into `places`. Where it answers true, that
/// order keeps all lines.
pub fn carry(rows: &Rows, kept: &[Kept], met: &mut Vec<bool>, places: &mut Vec<usize>) -> bool
    requires rising { Pairwise IsLower rows.now }
    requires lines { KeepsLines kept.now }
    requires met { length rows.now ≤ vec_capacity met.old }
    requires places { length rows.now ≤ vec_capacity places.old }
    ensures there { All (λ j. j < length rows.now) places.new.items }
    ensures carried { numbers_of (rows_at rows.now places.new.items)
        ≡ carried rows.now (kept_numbers kept.now) }
    ensures once { IsOrderOf rows.now (rows_at rows.now places.new.items) }
    ensures line { IsTrue result → Pairwise KeepsLine (rows_at rows.now places.new.items) }
    ensures met { vec_capacity met.old ≤ vec_capacity met.new }
    ensures places { vec_capacity places.old ≤ vec_capacity places.new }
{
    mark_none(met, rows.len());
    places.clear();
    let (same, greatest) = put_met(rows, kept, met, places);
    let above = put_others(rows, met.as_slice(), greatest, places);
    same && above
}

/// So many marks, none of them set.
fn mark_none(met: &mut Vec<bool>, rows: usize)
    requires { rows ≤ vec_capacity met.old }
    ensures len { vec_len met.new ≡ rows }
    ensures none { All (λ mark. mark ≡ false) met.new.items }
    ensures room { vec_capacity met.old ≤ vec_capacity met.new }
{
    met.clear();
    for _ in 0..rows {
        met.push(false).unwrap();
    }
}

/// Appends the places of the rows that the kept order has, in its order, and marks them. Answers
/// whether each is of the sender and the queue that were kept for it, and the greatest number in
/// the kept order.
fn put_met(rows: &Rows, kept: &[Kept], met: &mut Vec<bool>, places: &mut Vec<usize>) -> (bool, u64)
    requires rising { Pairwise IsLower rows.now }
    requires lines { KeepsLines kept.now }
    requires met { vec_len met.old ≡ length rows.now }
    requires none { All (λ mark. mark ≡ false) met.old.items }
    requires empty { vec_len places.old ≡ 0 }
    requires room { length rows.now ≤ vec_capacity places.old }
    ensures there { All (λ j. j < length rows.now) places.new.items }
    ensures found { numbers_of (rows_at rows.now places.new.items)
        ≡ filter (has_row rows.now) (kept_numbers kept.now) }
    ensures once { (others : List Row)
        → IsOrderOf (filter (is_lacked (kept_numbers kept.now)) rows.now) others
        → IsOrderOf rows.now (rows_at rows.now places.new.items ++ others) }
    ensures line { IsTrue result.0
        → Pairwise KeepsLine (rows_at rows.now places.new.items) }
    ensures among { All (λ place.
        is_among (kept_numbers kept.now) (row_at rows.now place) ≡ true) places.new.items }
    ensures greatest { All (λ place.
        (row_at rows.now place).number ≤ result.1) places.new.items }
    ensures marks { AreMet rows.now (kept_numbers kept.now) met.new.items }
    ensures count { vec_len places.new + count_by not met.new.items ≡ length rows.now }
    ensures met { vec_len met.new ≡ length rows.now }
    ensures marked { vec_capacity met.old ≤ vec_capacity met.new }
    ensures room { vec_capacity places.old ≤ vec_capacity places.new }
{
    let mut same = true;
    let mut greatest = 0;
    for row in kept {
        greatest = greatest.max(row.number);
        let Some(place) = find(rows, row.number, row.place) else {
            continue;
        };
        same &= row.is_of_line(rows.get(place));
        met[place] = true;
        places.push(place).unwrap();
    }
    (same, greatest)
}

/// Appends the places that aren't marked. Answers whether no row there has a number below this.
fn put_others(rows: &Rows, met: &[bool], greatest: u64, places: &mut Vec<usize>) -> bool
    requires met { length met.now ≡ length rows.now }
    requires there { All (λ j. j < length rows.now) places.old.items }
    requires room { vec_len places.old + count_by not met.now ≤ vec_capacity places.old }
    ensures there { All (λ j. j < length rows.now) places.new.items }
    ensures others { (numbers : List ℕ) → AreMet rows.now numbers met.now
        → rows_at rows.now places.new.items
        ≡ rows_at rows.now places.old.items ++ filter (is_lacked numbers) rows.now }
    ensures above { IsTrue result → (place : ℕ) → place < length rows.now
        → slice_index_or met.now place false ≡ false
        → greatest ≤ (row_at rows.now place).number }
    ensures room { vec_capacity places.old ≤ vec_capacity places.new }
{
    let mut above = true;
    for place in 0..rows.len() {
        if met[place] {
            continue;
        }
        above &= rows.get(place).number >= greatest;
        places.push(place).unwrap();
    }
    above
}

/// The place of the row with this number: `hint` if it stands there, otherwise by halves, since
/// the numbers rise.
fn find(rows: &Rows, number: u64, hint: usize) -> Option<usize>
    requires { Pairwise IsLower rows.now }
    ensures found { IfSome result (StandsAt rows.now number) }
    ensures none { IfNone result ((place : ℕ) → StandsAt rows.now number place → ⊥) }
{
    if hint < rows.len() && rows.get(hint).number == number {
        return Some(hint);
    }
    let mut low = 0;
    let mut high = rows.len();
    'halves: while low < high {
        let middle = low + (high - low) / 2;
        let found = rows.get(middle).number;
        if found == number {
            return Some(middle);
        }
        if found < number {
            low = middle + 1;
        } else {
            high = middle;
        }
    }
    None
}
