//! What a job must be to be sent.
//!
//! It is a condition with its test, since a client knows all of it before it sends anything: so no call answers a refusal of its own. That the
//! names of the data files differ, and that those which are printed are among them, is no condition: a server says so, and the octets are read as
//! one job all the same.

ghost use Rattle.std.specs.Prelude.{◌≡◌, IfOk};
ghost use Rattle.std.specs.List.{list_all, list_any};
ghost use Rattle.lpd_values.specs.Kinds.{is_space, is_word_octet};
ghost use Rattle.lpd_commands.specs.declared.command.Command.TheVariants.{Receive};
ghost use Rattle.lpd_commands.specs.Written.{command_has_line};
ghost use Rattle.lpr_client.specs.Sendable.{is_named, is_sendable, is_sendable_file};

use crate::file::DataFile;
use control_file::Control;
use lpd_commands::{FileName, Octets};
use lpd_values::{MAX_CONTROL_TEXT, MAX_FILES, MAX_LINE, all_text, is_space};
use std::alloc::{AllocError, Global};

fn has_space(octets: &[u8]) -> bool
    ensures { result ≡ list_any is_space octets.now }
{
    octets.iter().any(|octet| is_space(*octet))
}

/// Whether all octets are ones of a word.
pub(crate) fn all_word_octets(octets: &[u8]) -> bool
    ensures { result ≡ list_all is_word_octet octets.now }
{
    all_text(octets) && !has_space(octets)
}

/// Whether a line can ask to send jobs to a queue of this name: it is a word of at most 1,022 octets.
fn is_queue_word(queue: &[u8]) -> bool
    ensures { result ≡ command_has_line (Receive queue.now) }
{
    !queue.is_empty() && queue.len() < MAX_LINE && all_word_octets(queue)
}

/// Whether the name is one of a control file, with the number of this one.
fn is_named(name: &FileName, control: &Control) -> bool
    ensures { result ≡ is_named name.now control.now }
{
    name.is_control() && name.number() == control.number
}

/// Whether the data file can be sent.
fn is_sendable_file(file: &DataFile) -> bool
    ensures { result ≡ is_sendable_file file.now }
{
    !file.name.is_control() && !file.octets.as_slice().is_empty()
}

fn all_sendable(files: &[DataFile]) -> bool
    ensures { result ≡ list_all is_sendable_file files.now }
{
    files.iter().all(|file| is_sendable_file(file))
}

/// Whether a job can be sent: the queue is a word of at most 1,022 octets, so that the line that asks for it isn't too
/// long; the name is one of a control file, with the control file's number; its text has at most 8,192 octets; there
/// are at most 52 data files, each under the name of one, and none of them empty (RFC 1179, sections 5.2, 6.2, 6.3, 7).
pub fn is_sendable(
    alloc: Global,
    queue: &Octets,
    name: &FileName,
    control: &Control,
    files: &[DataFile],
) -> Result<bool, AllocError>
    ensures { IfOk result
        (λ sendable. sendable ≡ is_sendable queue.now name.now control.now files.now) }
{
    let text = control.write(alloc)?;
    let asked = is_queue_word(queue.as_slice()) && is_named(name, control);
    let fits = text.as_slice().len() <= MAX_CONTROL_TEXT && files.len() <= MAX_FILES;
    Ok(asked && (fits && all_sendable(files)))
}
