//! The lines that tell of one job.

ghost use Rattle.std.specs.Prelude.{◌≡◌, ◌≤◌, ◌++◌, [], OnOk, if◌then◌else◌, map};
ghost use Rattle.std.specs.Fmt.{decimal};
ghost use Rattle.std.specs.List.{flat_map};
ghost use Rattle.lpd_values.specs.Texts as T;

use crate::told::{ToldFile, ToldJob, host_of, number_of, user_of};
use lpd_values::FileName;
use std::alloc::{AllocError, Global};

/// Puts a number in decimal digits behind a text.
fn put_number(alloc: Global, text: &mut Vec<u8>, number: u128) -> Result<(), AllocError>
    ensures { OnOk result (text.new.items ≡ text.old.items ++ decimal number) }
{
    let digits = number.to_string(alloc)?;
    text.extend_from_slice(digits.as_bytes())?;
    Ok(())
}

/// Puts a job number in three digits and these octets before it behind a text.
fn put_job_number(text: &mut Vec<u8>, before: &[u8], number: u16) -> Result<(), AllocError>
    requires { number ≤ 999 }
    ensures { OnOk result (text.new.items
        ≡ text.old.items ++ before.now ++ T.three_digits number) }
{
    text.extend_from_slice(before)?;
    text.push(b'0' + (number / 100) as u8)?;
    text.push(b'0' + (number / 10 % 10) as u8)?;
    text.push(b'0' + (number % 10) as u8)?;
    Ok(())
}

/// Puts a word and these octets before it behind a text.
pub(crate) fn put_word(text: &mut Vec<u8>, before: &[u8], word: &[u8]) -> Result<(), AllocError>
    ensures { OnOk result (text.new.items ≡ text.old.items ++ before.now ++ word.now) }
{
    text.extend_from_slice(before)?;
    text.extend_from_slice(word)?;
    Ok(())
}

/// Puts a number and these octets before it behind a text.
pub(crate) fn put_count(
    alloc: Global,
    text: &mut Vec<u8>,
    before: &[u8],
    count: u128,
) -> Result<(), AllocError>
    ensures { OnOk result (text.new.items ≡ text.old.items ++ before.now ++ decimal count) }
{
    text.extend_from_slice(before)?;
    put_number(alloc, text, count)
}

/// What the line of a job begins with of which so many places were handed out.
fn stage_word(handed: u64) -> &'static [u8]
    ensures { result.now ≡ T.stage_word handed }
{
    if handed == 0 {
        b"waiting ".as_slice()
    } else {
        b"active ".as_slice()
    }
}

/// Puts the line of a job behind a text.
fn put_job_line<J: ToldJob>(alloc: Global, text: &mut Vec<u8>, job: &J) -> Result<(), AllocError>
    ensures { OnOk result (text.new.items ≡ text.old.items ++ T.job_line (J.told job.now)) }
{
    put_job_number(text, stage_word(job.handed()), number_of(job))?;
    put_word(text, b" ".as_slice(), user_of(job))?;
    put_word(text, b" ".as_slice(), host_of(job))?;
    put_count(alloc, text, b" pages ".as_slice(), job.left(alloc)?)?;
    text.push(b'\n')?;
    Ok(())
}

/// Puts the line of a file behind a text, where it has this name.
fn put_where_named<F: ToldFile>(
    alloc: Global,
    text: &mut Vec<u8>,
    name: &FileName,
    file: &F,
) -> Result<(), AllocError>
    ensures { OnOk result (text.new.items ≡ text.old.items
        ++ T.file_line name.now (F.told file.now)) }
{
    if file.name() == name {
        put_word(text, b"  ".as_slice(), file.name().octets())?;
        put_count(alloc, text, b" ".as_slice(), u128::from(file.count()))?;
        text.push(b'\n')?;
    }
    Ok(())
}

/// Puts a line for each of these files of a name behind a text.
fn put_file_lines<F: ToldFile>(
    alloc: Global,
    text: &mut Vec<u8>,
    name: &FileName,
    files: &[F],
) -> Result<(), AllocError>
    ensures { OnOk result (text.new.items ≡ text.old.items
        ++ T.file_lines name.now (map F.told files.now)) }
{
    let Some((first, rest)) = files.split_first() else {
        return Ok(());
    };
    put_where_named(alloc, text, name, first)?;
    put_file_lines(alloc, text, name, rest)
}

/// Puts a line for each file of these names behind a text.
fn put_print_lines<F: ToldFile>(
    alloc: Global,
    text: &mut Vec<u8>,
    names: &[FileName],
    files: &[F],
) -> Result<(), AllocError>
    ensures { OnOk result (text.new.items ≡ text.old.items
        ++ flat_map (λ name. T.file_lines name (map F.told files.now)) names.now) }
{
    let Some((first, rest)) = names.split_first() else {
        return Ok(());
    };
    put_file_lines(alloc, text, first, files)?;
    put_print_lines(alloc, text, rest, files)
}

/// Puts the lines of a job behind a text.
pub(crate) fn put_job_lines<J: ToldJob>(
    alloc: Global,
    text: &mut Vec<u8>,
    long: bool,
    job: &J,
) -> Result<(), AllocError>
    ensures { OnOk result (text.new.items ≡ text.old.items ++ T.job_lines long (J.told job.now)) }
{
    put_job_line(alloc, text, job)?;
    if long {
        if let Some(control) = job.control() {
            put_print_lines(alloc, text, control.prints.as_slice(), job.files())?;
        }
    }
    Ok(())
}

/// Puts the line of a removed job behind a text.
pub(crate) fn put_removed_line<J: ToldJob>(text: &mut Vec<u8>, job: &J) -> Result<(), AllocError>
    ensures { OnOk result (text.new.items ≡ text.old.items ++ T.removed_line (J.told job.now)) }
{
    put_job_number(text, b"removed ".as_slice(), number_of(job))?;
    put_word(text, b" ".as_slice(), user_of(job))?;
    text.push(b'\n')?;
    Ok(())
}
