//! What stands in the folders of a server is said.

ghost use Rattle.account_folder.specs.declared.looking.AccountState.{AccountState};
ghost use Rattle.std.specs.Prelude.{◌≡◌, ◌≢◌, IfErr, IfOk, OnOk, string_bytes};
ghost use Rattle.job_disk.specs.declared.looking.FolderState.{FolderState};
ghost use Rattle.lpd_commands.specs.Ends.{Writes};
ghost use Rattle.word_actions.specs.Folders.{account_line, folder_line, out_line};
ghost use Rattle.word_actions.specs.Order.{write_faults};
ghost use Rattle.word_actions.specs.Status.{status_of};

use crate::fault::ActionFault;
use crate::files::print;
use account_folder::AccountState;
use control_lines::Escaped;
use job_disk::{FolderState, HELD_QUEUES, look, read_held};
use log::{Log, info};
use lpd_commands::OctetWrite;
use program_edge::tell_cause;
use std::alloc::{AllocError, Global};
use std::fs::{File, Files};
use std::io::ErrorKind;

/// The part of the program that tells the log why, by which a log can choose its lines.
pub(crate) const PART: &str = "lpd_words::folders";

/// The line that says what stands in the folder at this path.
fn folder_line(alloc: Global, path: &str, state: FolderState) -> Result<String, AllocError>
    ensures { IfOk result (λ line. string_bytes line ≡ folder_line path.now state) }
{
    match state {
        FolderState::Absent => format!(in alloc; "spool {path} will be made\n"),
        FolderState::Present { waiting, failed } => {
            format!(in alloc; "spool {path} waiting {waiting} failed {failed}\n")
        }
    }
}

/// Tells the log which queues the folder at this path says are held, or why that isn't known.
fn tell_holds<R: Files<File = File> + Log>(alloc: Global, rt: &R, path: &str) {
    let text = match read_held(rt, alloc, path) {
        Ok(text) => text,
        Err(error) if error.kind() == ErrorKind::NotFound => return,
        Err(error) => {
            info!(rt; target: PART, "{path}/{HELD_QUEUES}: {error}: a server would hold all queues");
            return;
        }
    };
    for name in text.split(|octet| *octet == b'\n') {
        if !name.is_empty() {
            info!(rt; target: PART, "{path}: queue {} is held", Escaped(name));
        }
    }
}

/// Says what stands in the folder at this path, of which nothing is made or changed; the log is told which queues are held. Answers `Folder`
/// where a server couldn't take it, of which the log is told why, `WriteFile`, and `Memory`.
pub(crate) fn check_folder<R: Files<File = File> + Log, W: OctetWrite>(
    alloc: Global,
    rt: &R,
    path: &str,
    output: &mut W,
) -> Result<(), ActionFault>
    ensures printed { OnOk result ((state : FolderState)
        × Writes (W.written output.old) (W.written output.new) (folder_line path.now state)) }
    ensures write_fault { W.faults output.new ≡ write_faults (W.faults output.old) result }
    ensures fault { IfErr result (λ fault. status_of fault ≢ 1) }
{
    let state = match look(rt, alloc, path) {
        Ok(state) => state,
        Err(why) => {
            info!(rt; target: PART, "{path}: {why}");
            return Err(ActionFault::Folder(String::from_str(alloc, path)?));
        }
    };
    tell_holds(alloc, rt, path);
    print(output, folder_line(alloc, path, state)?.as_bytes())
}

/// The line that says what stands in the folder of an account at this path.
fn account_line(alloc: Global, path: &str, state: AccountState) -> Result<String, AllocError>
    ensures { IfOk result (λ line. string_bytes line ≡ account_line path.now state) }
{
    match state {
        AccountState::Absent => format!(in alloc; "account {path} will be made\n"),
        AccountState::Present { segments } => {
            format!(in alloc; "account {path} segments {segments}\n")
        }
    }
}

/// Says what stands in the folder of an account at this path, of which nothing is made or changed. Answers `Folder` where a
/// server couldn't take it, of which the log is told why, `WriteFile`, and `Memory`.
pub(crate) fn check_account<R: Files<File = File> + Log, W: OctetWrite>(
    alloc: Global,
    rt: &R,
    path: &str,
    output: &mut W,
) -> Result<(), ActionFault>
    ensures printed { OnOk result ((state : AccountState)
        × Writes (W.written output.old) (W.written output.new) (account_line path.now state)) }
    ensures write_fault { W.faults output.new ≡ write_faults (W.faults output.old) result }
    ensures fault { IfErr result (λ fault. status_of fault ≢ 1) }
{
    let state = match account_folder::look(rt, alloc, path) {
        Ok(state) => state,
        Err(why) => {
            info!(rt; target: PART, "{path}: {why}");
            return Err(ActionFault::Folder(String::from_str(alloc, path)?));
        }
    };
    print(output, account_line(alloc, path, state)?.as_bytes())
}

/// The line that says that the directory of printers' files is there.
fn out_line(alloc: Global, path: &str) -> Result<String, AllocError>
    ensures { IfOk result (λ line. string_bytes line ≡ out_line path.now) }
{
    format!(in alloc; "out {path} is there\n")
}

/// Says that the directory of printers' files at this path is there. Answers `Folder` where no folder is, of which the
/// log is told why, `WriteFile`, and `Memory`.
pub(crate) fn check_out<R: Files<File = File> + Log, W: OctetWrite>(
    alloc: Global,
    rt: &R,
    path: &str,
    output: &mut W,
) -> Result<(), ActionFault>
    ensures printed { OnOk result
        (Writes (W.written output.old) (W.written output.new) (out_line path.now)) }
    ensures write_fault { W.faults output.new ≡ write_faults (W.faults output.old) result }
    ensures fault { IfErr result (λ fault. status_of fault ≢ 1) }
{
    if let Err(error) = rt.open_dir(path) {
        tell_cause(rt, &path, Some(error));
        return Err(ActionFault::Folder(String::from_str(alloc, path)?));
    }
    print(output, out_line(alloc, path)?.as_bytes())
}
