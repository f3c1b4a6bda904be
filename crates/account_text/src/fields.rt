//! The fields of a line, as they are written.

ghost use Rattle.std.specs.Prelude.{◌≡◌, ◌++◌, ◌∷◌, OnOk};
ghost use Rattle.std.specs.List.{AllByRecursion};
ghost use Rattle.hex.specs.Hex.{IsBytes};
ghost use Rattle.account_text.specs.Lines as W;
ghost use Rattle.account_text.specs.Told.{IsOutline, IsU64};

use account::Outline;
use control_lines::HIDDEN;
use lpd_values::FileName;
use percent_encoding::percent_encode;
use std::alloc::{AllocError, Global};

/// Puts a number after a space.
pub fn put_number(line: &mut Vec<u8>, alloc: Global, n: u64) -> Result<(), AllocError>
    ensures { OnOk result (line.new.items ≡ line.old.items ++ W.number n) }
{
    let digits = n.to_string(alloc)?;
    line.push(b' ')?;
    line.extend_from_slice(digits.as_bytes())?;
    Ok(())
}

/// Puts octets in hexadecimal after a space.
pub fn put_hexed(line: &mut Vec<u8>, alloc: Global, octets: &[u8]) -> Result<(), AllocError>
    ensures line { OnOk result (line.new.items ≡ line.old.items ++ W.hexed octets.now) }
    ensures bytes { IsBytes octets.now }
{
    let digits = hex::encode(alloc, octets)?;
    line.push(b' ')?;
    line.extend_from_slice(digits.as_bytes())?;
    Ok(())
}

/// Puts octets after a space as they are shown: those from 21 to 7E (hexadecimal) but `%` as they are, and each other one
/// as `%` and two upper-case hexadecimal digits.
pub fn put_shown(line: &mut Vec<u8>, alloc: Global, octets: &[u8]) -> Result<(), AllocError>
    ensures line { OnOk result (line.new.items ≡ line.old.items ++ W.shown octets.now) }
    ensures bytes { IsBytes octets.now }
{
    let mut text = String::new(alloc);
    percent_encode(octets, HIDDEN).append_to(&mut text)?;
    line.push(b' ')?;
    line.extend_from_slice(text.as_bytes())?;
    Ok(())
}

/// Puts octets as they are after a space.
pub fn put_plain(line: &mut Vec<u8>, octets: &[u8]) -> Result<(), AllocError>
    ensures { OnOk result (line.new.items ≡ line.old.items ++ W.plain octets.now) }
{
    line.push(b' ')?;
    line.extend_from_slice(octets)?;
    Ok(())
}

/// Puts each number after a space.
pub(crate) fn put_numbers(
    line: &mut Vec<u8>,
    alloc: Global,
    numbers: &[u64],
) -> Result<(), AllocError>
    ensures line { OnOk result (line.new.items ≡ line.old.items ++ W.numbers numbers.now) }
    ensures told { OnOk result (AllByRecursion IsU64 numbers.now) }
{
    let Some((first, rest)) = numbers.split_first() else {
        return Ok(());
    };
    put_number(line, alloc, *first)?;
    put_numbers(line, alloc, rest)
}

/// Puts each name after a space.
pub(crate) fn put_names(line: &mut Vec<u8>, names: &[FileName]) -> Result<(), AllocError>
    ensures { OnOk result (line.new.items ≡ line.old.items ++ W.plains names.now) }
{
    let Some((first, rest)) = names.split_first() else {
        return Ok(());
    };
    put_plain(line, first.octets())?;
    put_names(line, rest)
}

/// Puts the length of a page and its digest.
pub(crate) fn put_outline(
    line: &mut Vec<u8>,
    alloc: Global,
    page: Outline,
) -> Result<(), AllocError>
    ensures line { OnOk result (line.new.items ≡ line.old.items ++ W.outline page) }
    ensures told { OnOk result (IsOutline page) }
{
    put_number(line, alloc, u64::from(page.length))?;
    put_hexed(line, alloc, &page.digest)
}

/// Puts whether a job is whole.
pub(crate) fn put_wholly(line: &mut Vec<u8>, whole: bool) -> Result<(), AllocError>
    ensures { OnOk result (line.new.items ≡ line.old.items ++ W.wholly whole) }
{
    if whole {
        line.extend_from_slice(b" whole")
    } else {
        line.extend_from_slice(b" part")
    }
}
