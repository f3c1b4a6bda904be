//! The trial of the kept order.

ghost use Rattle.std.specs.Prelude.{◌≡◌, ◌<◌, ◌≤◌, ◌^◌, ◌↔◌, IsTrue, length, vec_capacity, All};
ghost use Rattle.counts.specs.Amounts.{amount};
ghost use Rattle.claims.specs.Claims.{IsLower, Pairwise, HaveKinds};
ghost use Rattle.claims.specs.Safety.{AreFinishing, IsFinishingOrder, IsOrderOf, KeepsLine};
ghost use Rattle.ordered_safety.specs.Scan.{StaysSmall, rows_at};
ghost use Rattle.ordered_safety.specs.Compared.{CheckTakes};
ghost use Rattle.ordered_safety.specs.Carried.{carried, numbers_of};
ghost use Rattle.ordered_safety.specs.Kept.{kept_numbers, KeepsLines};

use crate::carry::carry;
use crate::follow::follow;
use crate::kept::Kept;
use crate::rows::Rows;
use crate::scratch::{Verdict, Work};
use counts::Counts;

/// Whether the rows finish in the kept order, carried to them. `work.places` has that order.
pub fn try_kept(rows: &Rows, kept: &[Kept], work: &mut Work) -> Verdict
    requires kinds { HaveKinds (length work.old.free) rows.now }
    requires few { length rows.now < 2 ^ 32 }
    requires small { StaysSmall work.old.free rows.now }
    requires rising { Pairwise IsLower rows.now }
    requires lines { KeepsLines kept.now }
    requires met { length rows.now ≤ vec_capacity work.old.met }
    requires places { length rows.now ≤ vec_capacity work.old.places }
    requires numbers { length rows.now ≤ vec_capacity work.old.numbers }
    requires left { length rows.now ≤ vec_capacity work.old.left }
    ensures exact { IsTrue result.safe
        ↔ AreFinishing (amount work.old.free) rows.now (carried rows.now (kept_numbers kept.now)) }
    ensures there { All (λ j. j < length rows.now) work.new.places.items }
    ensures order { IsTrue result.safe → IsFinishingOrder (amount work.old.free) rows.now
        (rows_at rows.now work.new.places.items) }
    ensures carried { numbers_of (rows_at rows.now work.new.places.items)
        ≡ carried rows.now (kept_numbers kept.now) }
    ensures tests { CheckTakes (amount work.old.free) rows.now
        (carried rows.now (kept_numbers kept.now)) result.tests }
    ensures most { result.tests ≤ length rows.now }
    ensures each { IsTrue result.safe → result.tests ≡ length rows.now }
    ensures met { vec_capacity work.old.met ≤ vec_capacity work.new.met }
    ensures places { vec_capacity work.old.places ≤ vec_capacity work.new.places }
    ensures numbers { vec_capacity work.old.numbers ≤ vec_capacity work.new.numbers }
    ensures left { vec_capacity work.old.left ≤ vec_capacity work.new.left }
    ensures ahead { vec_capacity work.old.ahead ≤ vec_capacity work.new.ahead }
    ensures same { length work.new.free ≡ length work.old.free }
{
    if carry(rows, kept, &mut work.met, &mut work.places) {
        return walk(rows, work.places.as_slice(), &mut work.free);
    }
    // Rows of other senders than the kept ones, or lower numbers: whether each line is kept has to
    // be looked at row by row.
    put_numbers(rows, work.places.as_slice(), &mut work.numbers);
    let numbers = work.numbers.as_slice();
    follow(rows, &mut work.left, &mut work.free, numbers)
}

/// Makes `numbers` the numbers of the rows at these places.
pub fn put_numbers(rows: &Rows, places: &[usize], numbers: &mut Vec<u64>)
    requires there { All (λ j. j < length rows.now) places.now }
    requires room { length places.now ≤ vec_capacity numbers.old }
    ensures numbers { numbers.new.items ≡ numbers_of (rows_at rows.now places.now) }
    ensures room { vec_capacity numbers.old ≤ vec_capacity numbers.new }
{
    numbers.clear();
    for &place in places {
        numbers.push(rows.get(place).number).unwrap();
    }
}

/// Whether the rows at these places, which keep all lines, finish in this order. It stops at the
/// first that needs more than is free.
fn walk(rows: &Rows, places: &[usize], free: &mut Counts) -> Verdict
    requires kinds { HaveKinds (length free.old) rows.now }
    requires few { length rows.now < 2 ^ 32 }
    requires small { StaysSmall free.old rows.now }
    requires rising { Pairwise IsLower rows.now }
    requires there { All (λ j. j < length rows.now) places.now }
    requires once { IsOrderOf rows.now (rows_at rows.now places.now) }
    requires line { Pairwise KeepsLine (rows_at rows.now places.now) }
    ensures exact { IsTrue result.safe
        ↔ AreFinishing (amount free.old) rows.now (numbers_of (rows_at rows.now places.now)) }
    ensures tests { CheckTakes (amount free.old) rows.now
        (numbers_of (rows_at rows.now places.now)) result.tests }
    ensures most { result.tests ≤ length rows.now }
    ensures each { IsTrue result.safe → result.tests ≡ length rows.now }
    ensures same { length free.new ≡ length free.old }
{
    let mut tests = 0;
    for &place in places {
        let row = rows.get(place);
        tests += 1;
        if !row.need.le(free) {
            return Verdict { safe: false, tests };
        }
        free.add(&row.held);
    }
    Verdict { safe: true, tests }
}
