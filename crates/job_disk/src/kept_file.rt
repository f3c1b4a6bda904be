//! A job's file that is read.

ghost use Rattle.std.specs.Prelude.{◌≡◌, ◌≤◌, None, IfOk, length};

use crate::frame::{FileDigest, HEADER_LENGTH, TRAILER_LENGTH, may_be_trailer, read_header};
use lpd_commands::{OctetFault, OctetRead, Sub, parse_sub};
use lpd_values::MAX_LINE;
use sha2::{Digest, Sha256};
use std::alloc::Global;
use std::fs::File;
use std::io;
use std::io::{ErrorKind, Read, Seek, SeekFrom};

/// How many octets are read at once to look whether they have changed.
const PIECE_OCTETS: usize = 16_384;

/// How often a read that was interrupted is tried.
const TRIES: u32 = 1_000;

/// What is said of a file that isn't as it was kept.
const CHANGED: &str = "it isn't as it was kept: its octets changed, it lacks some, or it has more";

/// What stands around a job.
#[derive(Clone, Copy)]
struct Frame {
    /// How many octets a page has.
    page_size: u32,
    trailer: [u8; TRAILER_LENGTH],
    /// How many octets the job has.
    length: u64,
}

/// A job's file, of which the job's octets are read: what stands around them is passed over.
#[derive(Drop)]
pub struct KeptFile {
    file: File,
    /// None of a file of version 1, which has the job alone.
    frame: Option<Frame>,
    /// How many octets of the job were neither read nor passed over.
    left: u64,
    faults: u64,
    reads: u64,
}

/// What a file is refused by that isn't as it was kept.
fn changed() -> io::Error {
    io::Error::new(ErrorKind::InvalidData, CHANGED)
}

/// Reads octets of a file, and answers how many: none at its end. A read that was interrupted is tried again.
fn read_patiently(file: &mut File, into: &mut [u8]) -> io::Result<usize>
    ensures { IfOk result (λ count. count ≤ length into.old) }
{
    for _ in 0..TRIES {
        match file.read(into) {
            Err(error) if error.kind() == ErrorKind::Interrupted => {}
            answer => return answer,
        }
    }
    Err(ErrorKind::Interrupted.into())
}

/// What stands around the job of a file. None where the file is of version 1, or of none.
///
/// InvalidData where it has a header and no trailer.
fn frame_of(file: &mut File) -> io::Result<Option<Frame>> {
    let length = file.seek(SeekFrom::End(0))?;
    let Some(length) = length.checked_sub(HEADER_LENGTH as u64) else {
        return Ok(None);
    };
    file.seek(SeekFrom::Start(0))?;
    let mut header = [0; HEADER_LENGTH];
    file.read_exact(&mut header)?;
    let Some(page_size) = read_header(&header) else {
        return Ok(None);
    };
    let Some(length) = length.checked_sub(TRAILER_LENGTH as u64) else {
        return Err(changed());
    };
    file.seek(SeekFrom::End(-(TRAILER_LENGTH as i64)))?;
    let mut trailer = [0; TRAILER_LENGTH];
    file.read_exact(&mut trailer)?;
    if !may_be_trailer(&trailer) {
        return Err(changed());
    }
    Ok(Some(Frame {
        page_size,
        trailer,
        length,
    }))
}

impl KeptFile {
    /// A file that is open, from its job's head on.
    ///
    /// An error where it can't be read; InvalidData where it lacks its last line.
    pub(crate) fn new(file: File) -> io::Result<KeptFile> {
        let mut file = file;
        let frame = frame_of(&mut file)?;
        let mut kept = KeptFile {
            file,
            frame,
            left: 0,
            faults: 0,
            reads: 0,
        };
        kept.rewind()?;
        Ok(kept)
    }

    /// Goes to the job's head.
    fn rewind(&mut self) -> io::Result<()> {
        let (start, length) = match &self.frame {
            Some(frame) => (HEADER_LENGTH as u64, frame.length),
            None => (0, u64::MAX),
        };
        self.file.seek(SeekFrom::Start(start))?;
        self.left = length;
        Ok(())
    }

    /// Reads octets of the job, and answers how many: none at its end.
    fn read_some(&mut self, into: &mut [u8]) -> io::Result<usize>
        ensures within { IfOk result (λ count. count ≤ length into.old) }
        ensures faults { self.new.faults ≡ self.old.faults }
        ensures reads { self.new.reads ≡ self.old.reads }
    {
        let most = usize::try_from(self.left).unwrap_or(usize::MAX);
        let most = most.min(into.len());
        let count = read_patiently(&mut self.file, &mut into[..most])?;
        self.left = self.left.saturating_sub(count as u64);
        Ok(count)
    }

    /// Passes over N octets of the job. That they are there isn't said: behind its end nothing is read.
    pub fn skip(&mut self, count: u64) -> Result<(), OctetFault> {
        let Ok(count) = i64::try_from(count) else {
            return Err(OctetFault);
        };
        match self.file.seek(SeekFrom::Current(count)) {
            Ok(_) => {
                self.left = self.left.saturating_sub(count as u64);
                Ok(())
            }
            Err(_) => Err(OctetFault),
        }
    }

    /// Reads the whole job, and then goes to its head: it is to be as it was kept. A file of version 1 doesn't say how that was, and isn't read.
    ///
    /// InvalidData where it isn't; another error where it can't be read, or memory is refused.
    pub(crate) fn check(&mut self, alloc: Global) -> io::Result<()> {
        let Some(frame) = self.frame else {
            return Ok(());
        };
        let checking = Checking {
            job: self,
            page_size: u64::from(frame.page_size.max(1)),
            digest: FileDigest::new(frame.page_size),
        };
        let Some(digest) = checking.read_all(alloc)? else {
            return Err(changed());
        };
        let trailer = digest.trailer(alloc)?;
        if trailer.as_bytes() != frame.trailer.as_slice() {
            return Err(changed());
        }
        self.rewind()
    }
}

impl OctetRead for KeptFile {
    ghost left = { λ _. None };

    ghost faults = { λ reader. reader.faults };

    ghost reads = { λ reader. reader.reads };

    fn read(&mut self, into: &mut [u8]) -> Result<usize, OctetFault> {
        self.reads = self.reads.saturating_add(1);
        match self.read_some(into) {
            Ok(count) => Ok(count),
            Err(_) => {
                self.faults = self.faults.saturating_add(1);
                Err(OctetFault)
            }
        }
    }
}

/// A job that is read to its end, with the digest of its file so far.
#[derive(Drop)]
struct Checking<'f> {
    job: &'f mut KeptFile,
    page_size: u64,
    digest: FileDigest,
}

impl Checking<'_> {
    /// Takes N octets by themselves. False where fewer are left.
    fn take_octets(&mut self, count: u64) -> io::Result<bool> {
        let mut left = count;
        let mut piece = [0; PIECE_OCTETS];
        for _ in 0..count {
            if left == 0 {
                break;
            }
            let most = usize::try_from(left)
                .unwrap_or(PIECE_OCTETS)
                .min(PIECE_OCTETS);
            let got = self.job.read_some(&mut piece[..most])?;
            if got == 0 {
                return Ok(false);
            }
            self.digest.take(&piece[..got]);
            left = left.saturating_sub(got as u64);
        }
        Ok(true)
    }

    /// Takes a page of N octets by its SHA-256. False where fewer are left.
    fn take_page(&mut self, count: u64) -> io::Result<bool> {
        let mut left = count;
        let mut piece = [0; PIECE_OCTETS];
        let mut hash = Sha256::new();
        for _ in 0..count {
            if left == 0 {
                break;
            }
            let most = usize::try_from(left)
                .unwrap_or(PIECE_OCTETS)
                .min(PIECE_OCTETS);
            let got = self.job.read_some(&mut piece[..most])?;
            if got == 0 {
                return Ok(false);
            }
            hash.update(&piece[..got]);
            left = left.saturating_sub(got as u64);
        }
        self.digest.take(&hash.finalize());
        Ok(true)
    }

    /// Takes a data file of N octets, page by page. False where fewer are left.
    fn take_file(&mut self, count: u64) -> io::Result<bool> {
        let mut left = count;
        for _ in 0..count {
            if left == 0 {
                break;
            }
            let page = left.min(self.page_size);
            if !self.take_page(page)? {
                return Ok(false);
            }
            left = left.saturating_sub(page);
        }
        Ok(true)
    }

    /// Takes a line, and answers it without its end. None where no line ends within `MAX_LINE` octets.
    fn take_line(&mut self, alloc: Global) -> io::Result<Option<Vec<u8>>> {
        let mut line = Vec::new(alloc);
        for _ in 0..=MAX_LINE {
            let mut octet = [0];
            if self.job.read_some(&mut octet)? == 0 {
                break;
            }
            self.digest.take(&octet);
            if octet[0] == b'\n' {
                return Ok(Some(line));
            }
            line.push(octet[0])?;
        }
        Ok(None)
    }

    /// Takes a file with its line, and the octet 00 behind it. False where no such file is there.
    fn take_one(&mut self, alloc: Global) -> io::Result<bool> {
        let Some(line) = self.take_line(alloc)? else {
            return Ok(false);
        };
        let is_there = match parse_sub(line.as_slice()) {
            Ok(Sub::ControlFile { count, .. }) => self.take_octets(count)?,
            Ok(Sub::DataFile { count, .. }) => self.take_file(count)?,
            Ok(Sub::Abort) | Err(_) => false,
        };
        Ok(is_there && self.take_octets(1)?)
    }

    /// Takes the whole job: its head, the line that asks for its queue, and its files. None where it isn't that of a job.
    fn read_all(self, alloc: Global) -> io::Result<Option<FileDigest>> {
        let mut checking = self;
        for _ in 0..2 {
            if checking.take_line(alloc)?.is_none() {
                return Ok(None);
            }
        }
        for _ in 0..u64::MAX {
            if checking.job.left == 0 {
                let Checking { digest, .. } = checking;
                return Ok(Some(digest));
            }
            if !checking.take_one(alloc)? {
                break;
            }
        }
        Ok(None)
    }
}
