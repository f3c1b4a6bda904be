//! The check of an order that was given.

ghost use Rattle.std.specs.Prelude.{◌≡◌, ℕ, ◌<◌, ◌≤◌, ◌^◌, ◌↔◌, IsTrue, IfSome, IfNone, length, slice_index, vec_capacity, All};
ghost use Rattle.counts.specs.Amounts.{amount};
ghost use Rattle.claims.specs.Claims.{IsLower, Pairwise, HaveKinds};
ghost use Rattle.claims.specs.Safety.{AreFinishing};
ghost use Rattle.ordered_safety.specs.Scan.{HasTurn, IsHead, StaysSmall};
ghost use Rattle.ordered_safety.specs.Compared.{CheckTakes};

use crate::rows::Rows;
use crate::scan::fill;
use crate::scratch::Verdict;
use counts::Counts;

/// Whether none of the rows at these places is of the row's sender and queue.
fn is_head(rows: &Rows, earlier: &[usize], place: usize) -> bool
    requires here { place < length rows.now }
    requires there { All (λ j. j < length rows.now) earlier.now }
    ensures { IsTrue result ↔ IsHead rows.now earlier.now place }
{
    for &j in earlier {
        if rows.are_of_one_line(place, j) {
            return false;
        }
    }
    true
}

/// Where among these places the row with this number stands, if no earlier row that is left is of
/// its sender and queue.
fn turn_of(rows: &Rows, left: &[usize], number: u64) -> Option<usize>
    requires there { All (λ j. j < length rows.now) left.now }
    ensures found { IfSome result (HasTurn rows.now left.now number) }
    ensures none { IfNone result ((at : ℕ) → HasTurn rows.now left.now number at → ⊥) }
{
    for at in 0..left.len() {
        if rows.get(left[at]).number == number && is_head(rows, &left[..at], left[at]) {
            return Some(at);
        }
    }
    None
}

/// Whether these are the numbers of all rows in a finishing order. It stops at the first that can't
/// be next, and counts a comparison for it only where its need was compared.
pub fn follow(rows: &Rows, left: &mut Vec<usize>, free: &mut Counts, numbers: &[u64]) -> Verdict
    requires kinds { HaveKinds (length free.old) rows.now }
    requires few { length rows.now < 2 ^ 32 }
    requires small { StaysSmall free.old rows.now }
    requires rising { Pairwise IsLower rows.now }
    requires left { length rows.now ≤ vec_capacity left.old }
    ensures exact { IsTrue result.safe ↔ AreFinishing (amount free.old) rows.now numbers.now }
    ensures tests { CheckTakes (amount free.old) rows.now numbers.now result.tests }
    ensures most { result.tests ≤ length rows.now }
    ensures each { IsTrue result.safe → result.tests ≡ length rows.now }
    ensures left { vec_capacity left.old ≤ vec_capacity left.new }
    ensures same { length free.new ≡ length free.old }
{
    fill(left, rows.len());
    let mut tests = 0;
    'numbers: for &number in numbers {
        let Some(at) = turn_of(rows, left.as_slice(), number) else {
            return Verdict { safe: false, tests };
        };
        let row = rows.get(left[at]);
        tests += 1;
        if !row.need.le(free) {
            return Verdict { safe: false, tests };
        }
        left.remove(at);
        free.add(&row.held);
    }
    let safe = left.is_empty();
    Verdict { safe, tests }
}
