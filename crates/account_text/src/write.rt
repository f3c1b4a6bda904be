//! Entries as they are written.

ghost use Rattle.std.specs.Prelude.{◌≡◌, ◌++◌, ◌∷◌, IfOk, OnOk};
ghost use Rattle.control_file.specs.View.{contents};
ghost use Rattle.account.specs.Seen.{act_seen, event_seen, sheet_seen, turn_seen};
ghost use Rattle.account_text.specs.Lines as W;
ghost use Rattle.account_text.specs.Meant.{Means};
ghost use Rattle.account_text.specs.Told as T;

use crate::fields::{
    put_names, put_number, put_numbers, put_outline, put_plain, put_shown, put_wholly,
};
use account::{Act, Entry, Progress, Sheet, Turn};
use control_file::Control;
use std::alloc::{AllocError, Global};

/// Puts what a control file says.
fn put_contents(line: &mut Vec<u8>, alloc: Global, control: &Control) -> Result<(), AllocError>
    ensures line { OnOk result (line.new.items
        ≡ line.old.items ++ W.control_fields (contents control.now)) }
    ensures told { OnOk result (T.IsControl (contents control.now)) }
{
    put_number(line, alloc, u64::from(control.number))?;
    put_shown(line, alloc, control.host.as_slice())?;
    put_shown(line, alloc, control.user.as_slice())?;
    put_names(line, control.prints.as_slice())
}

/// Puts a control file of a job, and whether it made the job whole.
fn put_control(
    line: &mut Vec<u8>,
    alloc: Global,
    job: u64,
    control: &Control,
    whole: bool,
) -> Result<(), AllocError>
    ensures line { OnOk result (line.new.items
        ≡ line.old.items ++ W.control_line job (contents control.now) whole) }
    ensures told { OnOk result (T.IsControl (contents control.now)) }
{
    line.extend_from_slice(b"controlled")?;
    put_number(line, alloc, job)?;
    put_wholly(line, whole)?;
    put_contents(line, alloc, control)
}

/// Puts what the session of a job did.
fn put_act(line: &mut Vec<u8>, alloc: Global, job: u64, act: &Act) -> Result<(), AllocError>
    ensures line { OnOk result (line.new.items
        ≡ line.old.items ++ W.act_line job (act_seen act.now)) }
    ensures told { OnOk result (T.IsAct (act_seen act.now)) }
{
    match act {
        Act::Granted => {
            line.extend_from_slice(b"granted")?;
            put_number(line, alloc, job)
        }
        Act::Began { name, count } => {
            line.extend_from_slice(b"began")?;
            put_number(line, alloc, job)?;
            put_plain(line, name.octets())?;
            put_number(line, alloc, *count)
        }
        Act::Put { file, number, page } => {
            line.extend_from_slice(b"put")?;
            put_number(line, alloc, job)?;
            put_number(line, alloc, *file)?;
            put_number(line, alloc, *number)?;
            put_outline(line, alloc, *page)
        }
        Act::FileEnded { file, is_whole } => {
            line.extend_from_slice(b"ended")?;
            put_number(line, alloc, job)?;
            put_number(line, alloc, *file)?;
            put_wholly(line, *is_whole)
        }
        Act::Controlled { control, is_whole } => put_control(line, alloc, job, control, *is_whole),
        Act::Aborted => {
            line.extend_from_slice(b"aborted")?;
            put_number(line, alloc, job)
        }
    }
}

/// Puts what became of a page.
fn put_turn(line: &mut Vec<u8>, turn: Turn) -> Result<(), AllocError>
    ensures { OnOk result (line.new.items ≡ line.old.items ++ W.turn_word (turn_seen turn)) }
{
    match turn {
        Turn::Handed => line.extend_from_slice(b"handed"),
        Turn::Printed(Progress::Going) => line.extend_from_slice(b"printed going"),
        Turn::Printed(Progress::Done) => line.extend_from_slice(b"printed done"),
        Turn::Printed(Progress::Ended) => line.extend_from_slice(b"printed ended"),
        Turn::Failed => line.extend_from_slice(b"failed"),
    }
}

/// Puts a page at a printer.
fn put_sheet(line: &mut Vec<u8>, alloc: Global, sheet: &Sheet) -> Result<(), AllocError>
    ensures line { OnOk result (line.new.items
        ≡ line.old.items ++ W.sheet_fields (sheet_seen sheet.now)) }
    ensures told { OnOk result (T.IsSheet (sheet_seen sheet.now)) }
{
    put_number(line, alloc, sheet.job)?;
    put_number(line, alloc, sheet.place)?;
    put_number(line, alloc, sheet.file)?;
    put_number(line, alloc, sheet.number)?;
    put_outline(line, alloc, sheet.page)
}

fn put_entry(line: &mut Vec<u8>, alloc: Global, entry: &Entry) -> Result<(), AllocError>
    ensures line { OnOk result (line.new.items
        ≡ line.old.items ++ W.event_line (event_seen entry.now)) }
    ensures told { OnOk result (T.IsTold (event_seen entry.now)) }
{
    match entry {
        Entry::Opened { job, sender, queue } => {
            line.extend_from_slice(b"opened")?;
            put_number(line, alloc, *job)?;
            put_number(line, alloc, u64::from(*sender))?;
            put_number(line, alloc, u64::from(*queue))
        }
        Entry::OfJob(job, act) => put_act(line, alloc, *job, act),
        Entry::AtPrinter(printer, sheet, turn) => {
            put_turn(line, *turn)?;
            put_number(line, alloc, u64::from(*printer))?;
            put_sheet(line, alloc, sheet)
        }
        Entry::Removed(queue, jobs) => {
            line.extend_from_slice(b"removed")?;
            put_number(line, alloc, u64::from(*queue))?;
            put_numbers(line, alloc, jobs.as_slice())
        }
        Entry::Started(queue) => {
            line.extend_from_slice(b"started")?;
            put_number(line, alloc, u64::from(*queue))
        }
        Entry::Closed => line.extend_from_slice(b"closed"),
    }
}

/// The line of an entry, without its LF.
///
/// AllocError where memory is refused.
pub fn write_entry(alloc: Global, entry: &Entry) -> Result<Vec<u8>, AllocError>
    ensures line { IfOk result (λ line. Means line.items entry.now) }
    ensures told { IfOk result (λ _. T.IsTold (event_seen entry.now)) }
{
    let mut line = Vec::new(alloc);
    put_entry(&mut line, alloc, entry)?;
    Ok(line)
}
