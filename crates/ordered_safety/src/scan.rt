//! The scan: turn by turn the first row that may go.

ghost use Rattle.std.specs.Prelude.{◌≡◌, ℕ, ◌+◌, ◌*◌, ◌<◌, ◌≤◌, ◌^◌, ◌↔◌, false, IsTrue, IfSome, IfNone, length, slice_index, vec_capacity, All, remove, count_by};
ghost use Rattle.counts.specs.Amounts.{amount};
ghost use Rattle.claims.specs.Claims.{IsLower, Pairwise, HaveKinds, row_at};
ghost use Rattle.claims.specs.Safety.{HasFinishingOrder, IsFinishingOrder, same_line};
ghost use Rattle.ordered_safety.specs.Scan.{MayGoAt, StaysSmall, CountsAhead, rows_at};
ghost use Rattle.ordered_safety.specs.Compared.{ScanTakes, compared};

use crate::rows::Rows;
use crate::scratch::{Verdict, Work};
use counts::Counts;

/// The first of these places whose row may go now: its need fits, and no earlier row that is left
/// is of its sender and queue. It compares the needs of the rows that no earlier one of these
/// precedes, up to the one that goes, and also answers how many these are.
fn pick(rows: &Rows, left: &[usize], ahead: &[u32], free: &Counts) -> (Option<usize>, u64)
    requires kinds { HaveKinds (length free.now) rows.now }
    requires there { All (λ j. j < length rows.now) left.now }
    requires ahead { CountsAhead (rows_at rows.now left.now) ahead.now }
    requires few { length left.now < 2 ^ 32 }
    ensures found { IfSome result.0 (MayGoAt rows.now left.now free.now) }
    ensures none { IfNone result.0 ((at : ℕ) → MayGoAt rows.now left.now free.now at → ⊥) }
    ensures first { IfSome result.0 (λ at.
        (k : ℕ) → k < at → MayGoAt rows.now left.now free.now k → ⊥) }
    ensures tests { IfSome result.0 (λ at.
        result.1 ≡ compared (rows_at rows.now left.now) (at + 1)) }
    ensures all { IfNone result.0
        (result.1 ≡ compared (rows_at rows.now left.now) (length left.now)) }
    ensures most { result.1 ≤ length left.now }
    ensures least { 0 < length left.now → 0 < result.1 }
{
    let mut tests = 0;
    for at in 0..left.len() {
        if ahead[at] == 0 {
            tests += 1;
            if rows.get(left[at]).need.le(free) {
                return (Some(at), tests);
            }
        }
    }
    (None, tests)
}

/// Takes rows that may go, the first one each time, until none is left or none may go. Where all
/// went, `work.places` has their places in this order.
pub fn scan(rows: &Rows, work: &mut Work) -> Verdict
    requires kinds { HaveKinds (length work.old.free) rows.now }
    requires few { length rows.now < 2 ^ 32 }
    requires small { StaysSmall work.old.free rows.now }
    requires rising { Pairwise IsLower rows.now }
    requires left { length rows.now ≤ vec_capacity work.old.left }
    requires ahead { length rows.now ≤ vec_capacity work.old.ahead }
    requires places { length rows.now ≤ vec_capacity work.old.places }
    ensures exact { IsTrue result.safe ↔ HasFinishingOrder (amount work.old.free) rows.now }
    ensures there { All (λ j. j < length rows.now) work.new.places.items }
    ensures order { IsTrue result.safe → IsFinishingOrder (amount work.old.free) rows.now
        (rows_at rows.now work.new.places.items) }
    ensures tests { ScanTakes (amount work.old.free) rows.now result.tests }
    ensures most { 2 * result.tests ≤ length rows.now * (length rows.now + 1) }
    ensures each { IsTrue result.safe → length rows.now ≤ result.tests }
    ensures some { result.safe ≡ false → 0 < result.tests }
    ensures left { vec_capacity work.old.left ≤ vec_capacity work.new.left }
    ensures ahead { vec_capacity work.old.ahead ≤ vec_capacity work.new.ahead }
    ensures places { vec_capacity work.old.places ≤ vec_capacity work.new.places }
    ensures met { vec_capacity work.old.met ≤ vec_capacity work.new.met }
    ensures numbers { vec_capacity work.old.numbers ≤ vec_capacity work.new.numbers }
    ensures same { length work.new.free ≡ length work.old.free }
{
    fill(&mut work.left, rows.len());
    count_ahead(rows, work.left.as_slice(), &mut work.ahead);
    work.places.clear();
    let mut tests = 0;
    'turns: while !work.left.is_empty() {
        let left = work.left.as_slice();
        let (choice, compared) = pick(rows, left, work.ahead.as_slice(), &work.free);
        tests += compared;
        let Some(at) = choice else {
            return Verdict { safe: false, tests };
        };
        count_less(rows, left, &mut work.ahead, at);
        let place = work.left.remove(at);
        work.free.add(&rows.get(place).held);
        work.places.push(place).unwrap();
    }
    Verdict { safe: true, tests }
}

/// The places of so many rows.
pub fn fill(left: &mut Vec<usize>, rows: usize)
    requires { rows ≤ vec_capacity left.old }
    ensures len { length left.new.items ≡ rows }
    ensures each { (j : ℕ) → j < rows → slice_index left.new.items j ≡ j }
    ensures room { vec_capacity left.old ≤ vec_capacity left.new }
{
    left.clear();
    for place in 0..rows {
        left.push(place).unwrap();
    }
}

/// How many of the rows at these places are of the row's sender and queue.
fn count_line(rows: &Rows, earlier: &[usize], place: usize) -> u32
    requires here { place < length rows.now }
    requires there { All (λ j. j < length rows.now) earlier.now }
    requires few { length earlier.now < 2 ^ 32 }
    ensures { result ≡ count_by (same_line (row_at rows.now place)) (rows_at rows.now earlier.now) }
{
    let mut count = 0;
    for &j in earlier {
        if rows.are_of_one_line(place, j) {
            count += 1;
        }
    }
    count
}

/// Counts for each of these places how many before it have a row of the sender and queue of its
/// own.
fn count_ahead(rows: &Rows, left: &[usize], ahead: &mut Vec<u32>)
    requires there { All (λ j. j < length rows.now) left.now }
    requires few { length left.now < 2 ^ 32 }
    requires room { length left.now ≤ vec_capacity ahead.old }
    ensures counts { CountsAhead (rows_at rows.now left.now) ahead.new.items }
    ensures room { vec_capacity ahead.old ≤ vec_capacity ahead.new }
{
    ahead.clear();
    for at in 0..left.len() {
        ahead.push(count_line(rows, &left[..at], left[at])).unwrap();
    }
}

/// Takes the count at `gone` out, and where a later place has a row of the line of that one, it
/// counts one less.
fn count_less(rows: &Rows, left: &[usize], ahead: &mut Vec<u32>, gone: usize)
    requires there { All (λ j. j < length rows.now) left.now }
    requires gone { gone < length left.now }
    requires counts { CountsAhead (rows_at rows.now left.now) ahead.old.items }
    ensures counts { CountsAhead (remove (rows_at rows.now left.now) gone) ahead.new.items }
    ensures room { vec_capacity ahead.old ≤ vec_capacity ahead.new }
{
    for at in gone + 1..left.len() {
        if ahead[at] > 0 && rows.are_of_one_line(left[at], left[gone]) {
            ahead[at] -= 1;
        }
    }
    ahead.remove(gone);
}
