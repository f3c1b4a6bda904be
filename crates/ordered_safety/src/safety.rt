//! The decisions about a table: whether it is safe, and in which order its rows can finish.

ghost use Rattle.std.specs.Prelude.{◌≡◌, ◌+◌, ◌-◌, ◌*◌, ◌<◌, ◌≤◌, ◌^◌, ◌↔◌, false, IsTrue, IfOk, MatchOption, IfSome, IfNone, length, slice_set};
ghost use Rattle.counts.specs.Amounts.{amount};
ghost use Rattle.claims.specs.Claims.{row_at};
ghost use Rattle.claims.specs.Changes.{granted, granted_row};
ghost use Rattle.claims.specs.Safety.{IsSafe, FinishesBy};
ghost use Rattle.ordered_safety.specs.Compared.{DecisionTakes, OrderTakes};
ghost use Rattle.ordered_safety.specs.Carried.{AfterPageTakes, StillServes, carried};

use crate::follow::follow;
use crate::kept::keep;
use crate::order::Order;
use crate::rows::Rows;
use crate::scan::scan;
use crate::scratch::{Scratch, Verdict};
use crate::trial::{put_numbers, try_kept};
use claims::{Row, Table};
use counts::Counts;
use std::alloc::{AllocError, Global};

/// The kind of resource that is pages.
pub const PAGES: usize = 0;

/// Whether a finishing order exists. With n rows it takes at most n * (n + 1) / 2 comparisons:
/// in each turn those of the rows that no earlier one of their sender and queue precedes, up to
/// the row that goes.
pub fn is_safe(scratch: &mut Scratch, table: &Table) -> Verdict
    requires rows { length table.now.rows ≤ scratch.old.rows }
    requires kinds { length table.now.capacity ≡ scratch.old.kinds }
    ensures exact { IsTrue result.safe ↔ IsSafe table.now }
    ensures tests { DecisionTakes table.now result.tests }
    ensures most { 2 * result.tests ≤ length table.now.rows * (length table.now.rows + 1) }
    ensures each { IsTrue result.safe → length table.now.rows ≤ result.tests }
    ensures some { result.safe ≡ false → 0 < result.tests }
    ensures kept { scratch.new ≡ scratch.old }
{
    scratch.work.free.copy_from(table.free());
    let rows = Rows::plain(table.rows());
    scan(&rows, &mut scratch.work)
}

/// Whether a finishing order exists once this row holds one page more and needs one less, and one
/// less is free.
///
/// It first tries the kept order, without the numbers that no row has now, and with the rows that
/// it lacks last. Where n rows finish so, that takes n comparisons. Otherwise a scan follows, and
/// both take at most n * (n + 1) / 2 + n. The order that is found is kept; where there is none, the
/// kept one stays.
pub fn safe_after_page(scratch: &mut Scratch, table: &Table, row: usize) -> Verdict
    requires rows { length table.now.rows ≤ scratch.old.rows }
    requires kinds { length table.now.capacity ≡ scratch.old.kinds }
    requires here { row < length table.now.rows }
    requires free { 0 < amount table.now.free PAGES }
    requires needed { 0 < amount (row_at table.now.rows row).need PAGES }
    ensures exact { IsTrue result.safe ↔ IsSafe (granted table.now row PAGES) }
    ensures order { IsTrue result.safe
        → FinishesBy (granted table.now row PAGES) scratch.new.order }
    ensures carried { let after = granted table.now row PAGES in
        StillServes after scratch.old.order
        → scratch.new.order ≡ carried after.rows scratch.old.order }
    ensures same { result.safe ≡ false → scratch.new ≡ scratch.old }
    ensures room { scratch.new ≡ record scratch.old { order = scratch.new.order } }

    ensures tests { AfterPageTakes (granted table.now row PAGES) scratch.old.order result.tests }
    ensures few { StillServes (granted table.now row PAGES) scratch.old.order
        → result.tests ≡ length table.now.rows }
    ensures most { let n = length table.now.rows in 2 * result.tests ≤ n * (n + 1) + 2 * n }
    ensures each { IsTrue result.safe → length table.now.rows ≤ result.tests }
    ensures some { result.safe ≡ false → 0 < result.tests }
{
    let rows = table.rows();
    copy_with_page(&rows[row], &mut scratch.asking);
    let rows = Rows::with(rows, row, &scratch.asking);
    take_page(table.free(), &mut scratch.work.free);
    let tried = try_kept(&rows, scratch.kept.as_slice(), &mut scratch.work);
    if tried.safe {
        keep(&rows, scratch.work.places.as_slice(), &mut scratch.kept);
        return tried;
    }
    take_page(table.free(), &mut scratch.work.free);
    let mut scanned = scan(&rows, &mut scratch.work);
    if scanned.safe {
        keep(&rows, scratch.work.places.as_slice(), &mut scratch.kept);
    }
    scanned.tests += tried.tests;
    scanned
}

/// Whether these are the numbers of all rows in a finishing order. It stops at the first number
/// whose row isn't next, which isn't compared, or doesn't fit, which is, and takes at most as many
/// comparisons as there are rows.
pub fn check_order(scratch: &mut Scratch, table: &Table, order: &Order) -> Verdict
    requires rows { length table.now.rows ≤ scratch.old.rows }
    requires kinds { length table.now.capacity ≡ scratch.old.kinds }
    ensures exact { IsTrue result.safe ↔ FinishesBy table.now order.now }
    ensures tests { OrderTakes table.now order.now result.tests }
    ensures most { result.tests ≤ length table.now.rows }
    ensures each { IsTrue result.safe → result.tests ≡ length table.now.rows }
    ensures kept { scratch.new ≡ scratch.old }
{
    scratch.work.free.copy_from(table.free());
    let rows = Rows::plain(table.rows());
    let order = order.as_slice();
    follow(&rows, &mut scratch.work.left, &mut scratch.work.free, order)
}

/// A finishing order, if there is one, and how many comparisons it took to find or exclude it: with
/// n rows at most n * (n + 1) / 2.
pub fn find_order(
    alloc: Global,
    scratch: &mut Scratch,
    table: &Table,
) -> Result<(Option<Order>, u64), AllocError>
    requires rows { length table.now.rows ≤ scratch.old.rows }
    requires kinds { length table.now.capacity ≡ scratch.old.kinds }
    ensures exact { IfOk result (λ found.
        MatchOption found.0 (IsSafe table.now → ⊥) (FinishesBy table.now)) }
    ensures tests { IfOk result (λ found. DecisionTakes table.now found.1) }
    ensures most { IfOk result (λ found.
        2 * found.1 ≤ length table.now.rows * (length table.now.rows + 1)) }
    ensures each { IfOk result (λ found. IfSome found.0 (λ _. length table.now.rows ≤ found.1)) }
    ensures some { IfOk result (λ found. IfNone found.0 (0 < found.1)) }
    ensures kept { scratch.new ≡ scratch.old }
{
    scratch.work.free.copy_from(table.free());
    let rows = Rows::plain(table.rows());
    let verdict = scan(&rows, &mut scratch.work);
    if !verdict.safe {
        return Ok((None, verdict.tests));
    }
    let places = scratch.work.places.as_slice();
    put_numbers(&rows, places, &mut scratch.work.numbers);
    let order = Order::copy_of(alloc, scratch.work.numbers.as_slice())?;
    Ok((Some(order), verdict.tests))
}

/// Makes `asking` the row as it is once it holds one page more and needs one less.
fn copy_with_page(row: &Row, asking: &mut Row)
    requires held { length asking.old.held ≡ length row.now.held }
    requires need { length asking.old.need ≡ length row.now.need }
    requires pages { (PAGES < length row.now.held) × (PAGES < length row.now.need) }
    requires room { amount row.now.held PAGES + 1 < 2 ^ 32 }
    requires needed { 0 < amount row.now.need PAGES }
    ensures { asking.new ≡ granted_row PAGES row.now }
{
    asking.number = row.number;
    asking.sender = row.sender;
    asking.queue = row.queue;
    asking.held.copy_from(&row.held);
    asking.held.set(PAGES, row.held.get(PAGES) + 1);
    asking.need.copy_from(&row.need);
    asking.need.set(PAGES, row.need.get(PAGES) - 1);
}

/// Makes `left` what is free once one page is not.
fn take_page(free: &Counts, left: &mut Counts)
    requires same { length free.now ≡ length left.old }
    requires some { 0 < amount free.now PAGES }
    ensures { left.new ≡ slice_set free.now PAGES (amount free.now PAGES - 1) }
{
    left.copy_from(free);
    left.set(PAGES, free.get(PAGES) - 1);
}
