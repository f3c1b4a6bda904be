//! Whose a kept job is, and how long: what stands at the head of its file, its lines, and its control file.

use crate::told::FiledFile;
use control_file::Control;
use job_disk::{JobSize, KeptFile};
use job_heads::HeadFault;
use job_store::read_sender;
use lpd_commands::{Command, OctetFault, OctetRead, Sub, parse_command, parse_sub};
use lpd_values::{MAX_CONTROL_TEXT, MAX_FILES, MAX_LINE, Octets, Refusal};
use std::alloc::{AllocFailed, Global};
use std::fmt;

/// Who sent a kept job, and to which queue.
#[derive(Drop)]
pub struct Owner {
    /// The number of the sender.
    pub sender: u32,
    /// The name of the queue.
    pub queue: Octets,
}

/// A kept job, as its file says whose it is.
#[derive(Drop)]
pub struct FiledJob {
    /// Who sent it, and to which queue.
    pub owner: Owner,
    /// Its control file.
    pub control: Control,
    /// Its data files, in order.
    pub files: Vec<FiledFile>,
    /// How long these are.
    pub size: JobSize,
}

/// Why a file doesn't say whose its job is.
#[derive(Clone, Copy, Debug, PartialEq, Eq)]
pub enum OwnerFault {
    /// It doesn't begin as a kept job.
    NoJob,
    /// It is of another version of this program.
    OtherVersion,
    /// It can't be read.
    Unread,
    /// Memory was refused.
    Memory,
}

impl fmt::Display for OwnerFault {
    fn fmt<W: fmt::Write>(&self, f: &mut fmt::Formatter<W>) -> fmt::Result {
        f.write_str(match self {
            OwnerFault::NoJob => "the file isn't that of a kept job",
            OwnerFault::OtherVersion => "the file is of another version",
            OwnerFault::Unread => "the file can't be read",
            OwnerFault::Memory => "memory was refused",
        })
    }
}

impl From<AllocFailed<FiledFile>> for OwnerFault {
    fn from(_: AllocFailed<FiledFile>) -> OwnerFault {
        OwnerFault::Memory
    }
}

impl From<OctetFault> for OwnerFault {
    fn from(_: OctetFault) -> OwnerFault {
        OwnerFault::Unread
    }
}

impl From<Refusal> for OwnerFault {
    fn from(refusal: Refusal) -> OwnerFault {
        match refusal {
            Refusal::Memory => OwnerFault::Memory,
            _ => OwnerFault::NoJob,
        }
    }
}

impl From<HeadFault> for OwnerFault {
    fn from(fault: HeadFault) -> OwnerFault {
        match fault {
            HeadFault::NoHead => OwnerFault::NoJob,
            HeadFault::OtherVersion => OwnerFault::OtherVersion,
        }
    }
}

/// The next line, without its end. None where no line ends within `MAX_LINE` octets.
fn line_of<I: OctetRead>(alloc: Global, job: &mut I) -> Result<Option<Vec<u8>>, OwnerFault> {
    let mut line = Vec::new(alloc);
    for _ in 0..=MAX_LINE {
        let mut octet = [0];
        if job.read(&mut octet)? == 0 {
            break;
        }
        if octet[0] == b'\n' {
            return Ok(Some(line));
        }
        if line.push(octet[0]).is_err() {
            return Err(OwnerFault::Memory);
        }
    }
    Ok(None)
}

/// Whose the job is that stands here: its head and its first line.
fn owner_of<I: OctetRead>(alloc: Global, job: &mut I) -> Result<Owner, OwnerFault> {
    let sender = read_sender(job)??;
    let line = line_of(alloc, job)?.ok_or(OwnerFault::NoJob)?;
    match parse_command(alloc, line.as_slice()) {
        Ok(Command::Receive { queue }) => Ok(Owner { sender, queue }),
        Ok(_) | Err(_) => Err(OwnerFault::NoJob),
    }
}

/// The text of a control file of N octets, and the octet 00 behind it.
fn text_of<I: OctetRead>(alloc: Global, job: &mut I, count: u64) -> Result<Vec<u8>, OwnerFault> {
    if count > MAX_CONTROL_TEXT as u64 {
        return Err(OwnerFault::NoJob);
    }
    let mut text = Vec::new(alloc);
    for _ in 0..count {
        let mut octet = [0];
        if job.read(&mut octet)? == 0 {
            return Err(OwnerFault::NoJob);
        }
        if text.push(octet[0]).is_err() {
            return Err(OwnerFault::Memory);
        }
    }
    if job.read(&mut [0])? == 0 {
        return Err(OwnerFault::NoJob);
    }
    Ok(text)
}

/// What is known of a job while its files are read.
#[derive(Drop)]
struct FilesSoFar {
    control: Option<Control>,
    files: Vec<FiledFile>,
    size: JobSize,
}

impl FilesSoFar {
    /// Takes what one line more says, with the file behind it, of which only a control file's octets are read.
    fn take(
        &mut self,
        alloc: Global,
        job: &mut KeptFile,
        page_size: u32,
        line: &[u8],
    ) -> Result<(), OwnerFault> {
        match parse_sub(line)? {
            Sub::ControlFile { count, name } => {
                let text = text_of(alloc, job, count)?;
                self.control = Some(Control::parse(alloc, &name, text.as_slice())?);
            }
            Sub::DataFile { count, name } => {
                // An octet 00 ends it.
                job.skip(count.saturating_add(1))?;
                self.files.push(FiledFile { name, count })?;
                self.size = self.size.with_file(count, page_size.max(1));
            }
            Sub::Abort => return Err(OwnerFault::NoJob),
        }
        Ok(())
    }
}

/// The job that stands here, whose pages have this many octets, of which the data is passed over.
pub(crate) fn filed_job(
    alloc: Global,
    job: &mut KeptFile,
    page_size: u32,
) -> Result<FiledJob, OwnerFault> {
    let owner = owner_of(alloc, job)?;
    let mut files = FilesSoFar {
        control: None,
        files: Vec::new(alloc),
        size: JobSize::NOTHING,
    };
    for _ in 0..=MAX_FILES {
        let Some(line) = line_of(alloc, job)? else {
            break;
        };
        files.take(alloc, job, page_size, line.as_slice())?;
    }
    let FilesSoFar {
        control,
        files,
        size,
    } = files;
    let control = control.ok_or(OwnerFault::NoJob)?;
    Ok(FiledJob {
        owner,
        control,
        files,
        size,
    })
}
