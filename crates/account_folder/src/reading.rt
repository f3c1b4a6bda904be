//! Reading the file of a segment to its end, in memory that doesn't grow with it.

ghost use Rattle.segment_text.specs.Streams.{HasReadAtMost};

use crate::listing::Listing;
use crate::names::SegmentName;
use crate::opening::AccountOpenError;
use segment_text::{LineFault, SegmentLine, SegmentReader};
use std::alloc::{AllocError, Global};
use std::fs::{File, Files};
use std::io::Read;
use std::{fs, io};

/// How many octets are read at once.
const PIECE: usize = 16_384;

/// The most octets that a line of a segment has: those of the longest entry, a removal of 1,024 jobs, and of the longest base are
/// fewer by far.
const MOST_OCTETS: usize = 262_144;

/// The most lines that are read.
const MOST_LINES: u64 = 1 << 62;

/// What the last segment in a folder leaves to the next one.
#[derive(Clone, Copy)]
pub(crate) struct LastSegment {
    /// The number of its run.
    pub(crate) run: u64,
    /// The digest that it ends in.
    pub(crate) digest: [u8; 32],
}

/// Why a file isn't read as a segment.
#[derive(Clone, Copy)]
enum ReadFault {
    /// It isn't a whole one.
    Broken,
    /// The system says why.
    Failed(io::Error),
}

impl From<AllocError> for ReadFault {
    fn from(error: AllocError) -> ReadFault {
        ReadFault::Failed(error.into())
    }
}

impl From<LineFault> for ReadFault {
    fn from(fault: LineFault) -> ReadFault {
        match fault {
            LineFault::Bad => ReadFault::Broken,
            LineFault::Memory => ReadFault::from(AllocError),
        }
    }
}

/// What was read of a segment.
#[derive(Drop)]
struct Scan {
    reader: SegmentReader,
    lines: u64,
    run: Option<u64>,
    digest: Option<[u8; 32]>,
    ghost few: { HasReadAtMost reader lines },
}

impl Scan {
    /// Nothing.
    fn begin() -> Scan {
        Scan {
            reader: SegmentReader::begin(),
            lines: 0,
            run: None,
            digest: None,
        }
    }

    /// One line more, without its LF.
    fn line(self, alloc: Global, line: &[u8]) -> Result<Scan, ReadFault> {
        let Scan {
            mut reader,
            lines,
            mut run,
            mut digest,
        } = self;
        if lines >= MOST_LINES {
            return Err(ReadFault::Broken);
        }
        match reader.read(alloc, line)? {
            SegmentLine::Origin(origin) => run = Some(origin.run),
            SegmentLine::Last(last) => digest = Some(last.digest),
            _ => {}
        }
        Ok(Scan {
            reader,
            lines: lines + 1,
            run,
            digest,
        })
    }

    /// A piece of the text more, where `line` has what was read of a line that hasn't ended.
    fn piece(self, alloc: Global, line: &mut Vec<u8>, piece: &[u8]) -> Result<Scan, ReadFault> {
        let mut scan = self;
        let mut is_first = true;
        for part in piece.split(|octet| *octet == b'\n') {
            if !is_first {
                scan = scan.line(alloc, line.as_slice())?;
                line.clear();
            }
            is_first = false;
            if part.len() > MOST_OCTETS.saturating_sub(line.len()) {
                return Err(ReadFault::Broken);
            }
            line.extend_from_slice(part)?;
        }
        Ok(scan)
    }

    /// What it leaves to the next one, where all of it was read.
    fn end(&self) -> Result<LastSegment, ReadFault> {
        match (self.run, self.digest) {
            (Some(run), Some(digest)) => Ok(LastSegment { run, digest }),
            _ => Err(ReadFault::Broken),
        }
    }
}

/// What the segment in this file leaves to the next one.
fn read_segment<F: Read>(alloc: Global, file: &mut F) -> Result<LastSegment, ReadFault> {
    let mut scan = Scan::begin();
    let mut line = Vec::new(alloc);
    let mut buffer = [0u8; PIECE];
    for _ in 0..u64::MAX {
        let count = match file.read(&mut buffer) {
            Ok(count) => count,
            Err(cause) => return Err(ReadFault::Failed(cause)),
        };
        if count == 0 {
            break;
        }
        scan = scan.piece(alloc, &mut line, &buffer[..count])?;
    }
    if !line.is_empty() {
        return Err(ReadFault::Broken);
    }
    scan.end()
}

/// What the segment of this name in the folder at a path leaves to the next one.
fn read_named<R: Files<File = File>>(
    rt: &R,
    alloc: Global,
    path: &str,
    name: SegmentName,
) -> Result<LastSegment, AccountOpenError> {
    let path = format!(in alloc; "{path}/{name}").map_err(io::Error::from)?;
    // A pipe would have its opener wait.
    if !fs::metadata(rt, path.as_str())?.is_file() {
        return Err(AccountOpenError::Broken(name));
    }
    let mut file = File::open(rt, path.as_str())?;
    match read_segment(alloc, &mut file) {
        Ok(last) => Ok(last),
        Err(ReadFault::Broken) => Err(AccountOpenError::Broken(name)),
        Err(ReadFault::Failed(cause)) => Err(AccountOpenError::from(cause)),
    }
}

/// Where the next segment in a folder stands.
#[derive(Clone, Copy)]
pub(crate) struct NextSegment {
    /// The name of its file.
    pub(crate) name: SegmentName,
    /// The number of its run.
    pub(crate) run: u64,
    /// The digest that the segment before it ends in, if there is one.
    pub(crate) previous: Option<[u8; 32]>,
}

/// Where the first segment of a new run stands behind these of the folder at a path. The last one of them is read whole.
///
/// # Errors
///
/// `Broken` where that isn't a whole segment; `Full` where no number is left; `Folder`, by `Failed`, where it can't be read, or memory
/// is refused.
pub(crate) fn next_in<R: Files<File = File>>(
    rt: &R,
    alloc: Global,
    path: &str,
    listing: &Listing,
) -> Result<NextSegment, AccountOpenError> {
    let Some(greatest) = listing.greatest else {
        return Ok(NextSegment {
            name: SegmentName::first(),
            run: 1,
            previous: None,
        });
    };
    let last = read_named(rt, alloc, path, greatest)?;
    let name = greatest.next().ok_or(AccountOpenError::Full)?;
    let run = last.run.checked_add(1).ok_or(AccountOpenError::Full)?;
    Ok(NextSegment {
        name,
        run,
        previous: Some(last.digest),
    })
}
