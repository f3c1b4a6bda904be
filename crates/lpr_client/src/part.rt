//! A job in parts, each up to one acknowledgement.
//!
//! Data files are sent in the order given, and the control file last, so that a server has all that the job prints when it learns that the job is
//! whole. Lines and the control file are written to memory before the first octet is sent, so that want of memory never leaves half a job with a
//! server; the contents of data files are lent, and not copied.

ghost use Rattle.std.specs.Prelude.{◌≡◌, ◌++◌, ◌∷◌, [], map, IfOk, OnOk};
ghost use Rattle.control_file.specs.Written.{control_text};
ghost use Rattle.control_file.specs.View.{contents};
ghost use Rattle.lpr_client.specs.Parts.{AreCounted, data_parts, job_parts, sub_sent};
ghost use Rattle.lpr_client.specs.Shown.{part_octets};

use crate::file::DataFile;
use control_file::Control;
use lpd_commands::{Command, FileName, Octets, Sub, write_command, write_sub};
use std::alloc::{AllocError, Global};

/// What is sent up to one acknowledgement.
#[derive(Drop)]
pub(crate) enum Part<'a> {
    /// A line, with its LF.
    Line(Octets),
    /// The contents of a data file, which an octet 00 follows.
    Contents(&'a [u8]),
    /// The text of the control file, which an octet 00 follows.
    Text(Octets),
}

impl Part<'_> {
    /// The octets that it has of a line, a file or a text, and those that follow them.
    pub(crate) fn octets(&self) -> (&[u8], &[u8])
        ensures { result.0.now ++ result.1.now ≡ part_octets self.now }
    {
        match self {
            Part::Line(line) => (line.as_slice(), &[]),
            Part::Contents(contents) => (contents, &[0]),
            Part::Text(text) => (text.as_slice(), &[0]),
        }
    }
}

/// Puts the line of a subcommand at the end, and then what it announces.
fn put_file<'a>(
    alloc: Global,
    parts: &mut Vec<Part<'a>>,
    sub: &Sub,
    file: Part<'a>,
) -> Result<(), AllocError>
    ensures { OnOk result (map part_octets parts.new.items
        ≡ map part_octets parts.old.items ++ sub_sent sub.now ∷ part_octets file.entry ∷ []) }
{
    parts.push(Part::Line(write_sub(alloc, sub)?))?;
    parts.push(file)?;
    Ok(())
}

/// Puts the data files at the end, in order.
fn put_data_files<'a>(
    alloc: Global,
    parts: &mut Vec<Part<'a>>,
    files: &'a [DataFile],
) -> Result<(), AllocError>
    ensures parts { OnOk result
        (map part_octets parts.new.items
        ≡ map part_octets parts.old.items ++ data_parts files.now) }
    ensures counted { OnOk result (AreCounted files.now) }
{
    for file in files {
        let octets = file.octets.as_slice();
        let (count, name) = (octets.len() as u64, file.name);
        put_file(
            alloc,
            parts,
            &Sub::DataFile { count, name },
            Part::Contents(octets),
        )?;
    }
    Ok(())
}

/// The parts of a job: the line that asks to send it, its data files in order, and last its control file of this name.
pub(crate) fn parts_of<'a>(
    alloc: Global,
    queue: &Octets,
    name: &FileName,
    control: &Control,
    files: &'a [DataFile],
) -> Result<Vec<Part<'a>>, AllocError>
    ensures parts { IfOk result (λ parts.
        map part_octets parts.items
        ≡ job_parts queue.now name.now (control_text (contents control.now)) files.now) }
    ensures counted { OnOk result (AreCounted files.now) }
{
    let queue = Octets::copy_of(alloc, queue.as_slice())?;
    let mut parts = Vec::new(alloc);
    parts.push(Part::Line(write_command(alloc, &Command::Receive { queue })?))?;
    put_data_files(alloc, &mut parts, files)?;
    let text = control.write(alloc)?;
    let (count, name) = (text.as_slice().len() as u64, *name);
    put_file(
        alloc,
        &mut parts,
        &Sub::ControlFile { count, name },
        Part::Text(text),
    )?;
    Ok(parts)
}
