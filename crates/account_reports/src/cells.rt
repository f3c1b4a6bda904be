//! Names as cells of a table that spreadsheets read.
//!
//! A spreadsheet takes a cell for a formula, which it runs, by the first octet of its text, also where the text came from a stranger.

ghost use Rattle.std.specs.Prelude.{◌≡◌, IfOk};
ghost use Rattle.account_reports.specs.Cells.{is_formula, name_cell};

use lpd_values::Octets;
use std::alloc::{AllocError, Global};

/// Whether a spreadsheet may run this text: it begins with `=`, `+`, `-`, `@`, a tab or a carriage return.
fn is_formula(text: &[u8]) -> bool
    ensures { result ≡ is_formula text.now }
{
    match text.first() {
        Some(first) => matches!(*first, b'=' | b'+' | b'-' | b'@' | b'\t' | b'\r'),
        None => false,
    }
}

/// A name as a cell: with a `'` in front where a spreadsheet may run it, by which it is shown there as the text that it is. AllocError
/// where memory is refused.
pub(crate) fn name_cell(alloc: Global, name: &[u8]) -> Result<Octets, AllocError>
    ensures { IfOk result (λ cell. cell ≡ name_cell name.now) }
{
    if !is_formula(name) {
        return Octets::copy_of(alloc, name);
    }
    let mut cell = Vec::from_slice(alloc, b"'")?;
    cell.extend_from_slice(name)?;
    Ok(Octets::from_vec(cell))
}
