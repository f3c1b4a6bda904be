//! Tables of claims, and whether all jobs can finish.

ghost use Rattle.std.specs.Prelude.{◌≡◌};

use claims::{OpenError, Table};
use counts::Counts;
use ordered_safety::{
    Order, PAGES, Scratch, Verdict, check_order, find_order, is_safe, safe_after_page,
};
use std::alloc::{AllocError, Global};
use test_kit::rows::word;

/// What a job claims of two kinds, the first of which is pages.
#[derive(Clone, Copy)]
pub struct Claim {
    pub sender: u32,
    pub held: [u32; 2],
    pub need: [u32; 2],
}

/// The number at a place of a text, or 0 where there is none.
pub fn number(text: &str, place: usize) -> u32 {
    match text.split_whitespace().nth(place) {
        Some(word) => word.parse().unwrap_or(0),
        None => 0,
    }
}

/// The claim that a row writes as `sender held held need need`.
fn read_claim(text: &str) -> Claim {
    Claim {
        sender: number(text, 0),
        held: [number(text, 1), number(text, 2)],
        need: [number(text, 3), number(text, 4)],
    }
}

/// Amounts of two kinds.
fn counts(alloc: Global, amounts: [u32; 2]) -> Result<Counts, AllocError> {
    let mut made = Counts::zero(alloc, 2)?;
    if made.kinds() == 2 {
        made.set(0, amounts[0]);
        made.set(1, amounts[1]);
    }
    Ok(made)
}

/// The amounts that a row writes.
fn read_counts(alloc: Global, text: &str) -> Result<Counts, AllocError> {
    counts(alloc, [number(text, 0), number(text, 1)])
}

/// Asks for a row with the greatest number.
fn open(table: &mut Table, sender: u32, need: &Counts) -> Result<(), OpenError> {
    let number = match table.rows().last() {
        Some(row) => row.number.saturating_add(1),
        None => 1,
    };
    let fresh = table.rows().iter().all(|row| row.number < number);
    if !fresh || need.kinds() != table.capacity().kinds() {
        return Err(OpenError::Full);
    }
    table.open_row(number, sender, 0, need)
}

/// Grants one of a kind. False where that may not be asked.
pub fn grant(table: &mut Table, row: usize, kind: usize) -> bool {
    if row >= table.len() || kind >= table.capacity().kinds() {
        return false;
    }
    let granted = table.free().get(kind) > 0 && table.rows()[row].need.get(kind) > 0;
    if granted {
        table.grant(row, kind);
    }
    granted
}

/// Opens a row for the claim, and grants what it holds.
pub fn add(alloc: Global, table: &mut Table, claim: Claim) -> Result<(), AllocError> {
    let [pages, printers] = claim.held;
    let whole = [
        pages.saturating_add(claim.need[0]),
        printers.saturating_add(claim.need[1]),
    ];
    let row = table.len();
    if open(table, claim.sender, &counts(alloc, whole)?).is_ok() {
        for _ in 0..pages {
            grant(table, row, 0);
        }
        for _ in 0..printers {
            grant(table, row, 1);
        }
    }
    Ok(())
}

/// A table without rows, and with room for so many.
pub fn empty_table(alloc: Global, room: u32, capacity: [u32; 2]) -> Result<Table, AllocError> {
    let capacity = counts(alloc, capacity)?;
    Table::new(alloc, &capacity, room)
}

/// The table that a row writes as `capacity | claim | claim`, its rows numbered from 1, with room for so many.
fn read_table(alloc: Global, room: u32, text: &str) -> Result<Table, AllocError> {
    let mut table = empty_table(alloc, room, [number(text, 0), number(text, 1)])?;
    for claim in text.split(" | ").skip(1) {
        add(alloc, &mut table, read_claim(claim))?;
    }
    Ok(table)
}

/// Appends whether a table is safe, and the comparisons that it took.
fn push_verdict(told: &mut String, verdict: Verdict) -> Result<(), AllocError> {
    let Verdict { safe, tests } = verdict;
    write!(told, "{safe} after {tests}")
}

/// Appends whether a table is safe, and a finishing order of its rows, each with the comparisons that it took.
pub fn order(told: &mut String, alloc: Global, asked: &str) -> Result<(), AllocError> {
    let table = read_table(alloc, 8, asked)?;
    let mut scratch = Scratch::with_room(alloc, table.len(), table.capacity().kinds())?;
    push_verdict(told, is_safe(&mut scratch, &table))?;
    let (order, tests) = find_order(alloc, &mut scratch, &table)?;
    match order {
        Some(order) => write!(told, ", {:?} after {tests}", order.as_slice()),
        None => Ok(()),
    }
}

/// Appends whether the rows of a table finish in the order that stands after it and a `;`.
pub fn check(told: &mut String, alloc: Global, asked: &str) -> Result<(), AllocError> {
    let (table, order) = asked.split_once("; ").unwrap_or((asked, ""));
    let mut numbers = Vec::new(alloc);
    for word in order.split_whitespace() {
        numbers.push(word.parse().unwrap_or(0))?;
    }
    let table = read_table(alloc, 8, table)?;
    push_verdict(told, checked(alloc, &table, numbers.as_slice())?)
}

/// Whether the rows of a table finish in the order of these numbers.
pub fn checked(alloc: Global, table: &Table, numbers: &[u64]) -> Result<Verdict, AllocError> {
    let order = Order::copy_of(alloc, numbers)?;
    let mut scratch = Scratch::with_room(alloc, table.len(), table.capacity().kinds())?;
    Ok(check_order(&mut scratch, table, &order))
}

/// The most rows of a table on whose pages is decided.
const ROWS: usize = 8;

/// Decisions on a page for rows of one table after another.
#[derive(Drop)]
pub struct Pages {
    scratch: Scratch,
    ghost rows: { scratch.rows ≡ 8 },
    ghost kinds: { scratch.kinds ≡ 2 },
}

impl Pages {
    /// None is made yet.
    pub fn new(alloc: Global) -> Result<Pages, AllocError> {
        Ok(Pages {
            scratch: Scratch::with_room(alloc, ROWS, 2)?,
        })
    }

    /// What is decided on a page for a row. None where it may not be asked.
    pub fn decide(&mut self, table: &Table, row: usize) -> Option<Verdict> {
        if row >= table.len() || table.len() > ROWS || table.capacity().kinds() != 2 {
            return None;
        }
        if table.free().get(PAGES) == 0 || table.rows()[row].need.get(PAGES) == 0 {
            return None;
        }
        Some(safe_after_page(&mut self.scratch, table, row))
    }

    /// Appends what is decided on a page for a row.
    fn push(&mut self, told: &mut String, table: &Table, row: usize) -> Result<(), AllocError> {
        match self.decide(table, row) {
            Some(verdict) => push_verdict(told, verdict),
            None => told.push_str("no page"),
        }
    }
}

/// Appends whether one page more for the second row is safe, in each of the tables that stand between `;`,
/// with one scratch for all.
pub fn page(told: &mut String, alloc: Global, asked: &str) -> Result<(), AllocError> {
    let mut pages = Pages::new(alloc)?;
    for text in asked.split("; ") {
        if !told.is_empty() {
            told.push_str("; ")?;
        }
        pages.push(told, &read_table(alloc, 8, text)?, 1)?;
    }
    Ok(())
}

/// Appends what comes of a sum of two amounts or of a difference, and whether it may be asked.
pub fn sum(told: &mut String, alloc: Global, asked: &str) -> Result<(), AllocError> {
    let (first, second) = asked
        .split_once(['+', '-'].as_slice())
        .unwrap_or((asked, ""));
    let mut first = read_counts(alloc, first)?;
    let second = read_counts(alloc, second)?;
    let done = if first.kinds() != second.kinds() {
        false
    } else if asked.contains('+') {
        first.try_add(&second).is_ok()
    } else if second.le(&first) {
        first.sub(&second);
        true
    } else {
        false
    };
    write!(told, "{done} {:?}", first.as_slice())
}

/// Appends what is free of the capacity, and what each row holds and needs.
fn show(told: &mut String, table: &Table) -> Result<(), AllocError> {
    let (free, capacity) = (table.free().as_slice(), table.capacity().as_slice());
    write!(told, "free {free:?} of {capacity:?}")?;
    for row in table.rows() {
        let (held, need) = (row.held.as_slice(), row.need.as_slice());
        write!(told, ", {} holds {held:?} needs {need:?}", row.number)?;
    }
    Ok(())
}

/// Changes a table where that may be asked, and says whether it may: `give ROW KIND N`, `end ROW KIND` (its need), `close ROW`.
fn change(table: &mut Table, call: &str, text: &str) -> bool {
    let (row, kind, n) = (
        number(text, 0) as usize,
        number(text, 1) as usize,
        number(text, 2),
    );
    if row >= table.len() || kind >= table.capacity().kinds() {
        return false;
    }
    match call {
        "give" if n <= table.rows()[row].held.get(kind) => table.give_back(row, kind, n),
        "end" => table.need_ends(row, kind),
        "close" => table.close_row(row),
        _ => return false,
    }
    true
}

/// Appends what a change of a table answers: those of `change`, and `open AMOUNTS`, `add CLAIM`, `place NUMBER`, `page ROW`, `show`.
fn push_change(
    told: &mut String,
    alloc: Global,
    table: &mut Table,
    pages: &mut Pages,
    asked: &str,
) -> Result<(), AllocError> {
    let (call, text) = word(asked);
    match call {
        "open" => {
            let answer = open(table, 1, &read_counts(alloc, text)?);
            write!(told, "{answer:?}, rows {}", table.len())
        }
        "add" => {
            add(alloc, table, read_claim(text))?;
            write!(told, "rows {}", table.len())
        }
        "place" => write!(told, "{:?}", table.position(u64::from(number(text, 0)))),
        "page" => pages.push(told, table, number(text, 0) as usize),
        "show" => show(told, table),
        _ => write!(told, "{}", change(table, call, text)),
    }
}

/// Appends what the changes answer that stand between `;` behind a table, which has room for so many rows as stand before it.
pub fn changes(told: &mut String, alloc: Global, asked: &str) -> Result<(), AllocError> {
    let (room, rest) = asked.split_once("; ").unwrap_or((asked, ""));
    let mut pages = Pages::new(alloc)?;
    let mut parts = rest.split("; ");
    let mut table = read_table(alloc, number(room, 0), parts.next().unwrap_or(""))?;
    for change in parts {
        if !told.is_empty() {
            told.push_str("; ")?;
        }
        push_change(told, alloc, &mut table, &mut pages, change)?;
    }
    Ok(())
}
