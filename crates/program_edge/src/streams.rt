//! Streams and files as ends that octets are read from and written to. They count their failures, and
//! keep the cause of the last one.
//!
//! No clause says that this cause is the system's.

ghost use Rattle.std.specs.Prelude.{◌≡◌, None};

use lpd_commands::{OctetFault, OctetRead, OctetWrite};
use std::fs::{Files, OpenOptions};
use std::io::{Error, ErrorKind, Read, Write};

/// How often a read or a write that was interrupted is tried.
const TRIES: u32 = 1_000;

/// A stream that octets are read from, which counts its reads. It doesn't tell which are left.
#[derive(Drop)]
pub struct StreamReader<R: Read + Drop> {
    stream: Option<R>,
    faults: u64,
    reads: u64,
    // Why it can't be read, where it couldn't be opened or failed.
    cause: Option<Error>,
}

impl<R: Read + Drop> StreamReader<R> {
    /// A reader of the stream, if there is one, or this is why there is none. It wasn't read and
    /// hasn't failed.
    fn of(stream: Option<R>, cause: Option<Error>) -> StreamReader<R>
        ensures faults { result.faults ≡ 0 }
        ensures reads { result.reads ≡ 0 }
        ensures cause { result.cause ≡ cause }
    {
        StreamReader {
            stream,
            faults: 0,
            reads: 0,
            cause,
        }
    }

    /// A reader of the stream, which wasn't read and hasn't failed.
    pub fn new(stream: R) -> StreamReader<R>
        ensures faults { result.faults ≡ 0 }
        ensures reads { result.reads ≡ 0 }
        ensures cause { result.cause ≡ None }
    {
        StreamReader::of(Some(stream), None)
    }

    /// The file at this path, from its beginning. It wasn't read and hasn't failed. Of one that
    /// can't be opened each read fails.
    pub fn open<H: Files<File = R>>(files: &H, path: &str) -> StreamReader<R>
        ensures faults { result.faults ≡ 0 }
        ensures reads { result.reads ≡ 0 }
    {
        match OpenOptions::new().read(true).open(files, path) {
            Ok(stream) => StreamReader::of(Some(stream), None),
            Err(error) => StreamReader::of(None, Some(error)),
        }
    }

    /// Why the file couldn't be opened, or the last read failed; None where neither was so.
    pub fn cause(&self) -> Option<Error>
        ensures { result ≡ self.now.cause }
    {
        self.cause
    }
}

impl<R: Read + Drop> OctetRead for StreamReader<R> {
    ghost left = { λ _. None };

    ghost faults = { λ reader. reader.faults };

    ghost reads = { λ reader. reader.reads };

    fn read(&mut self, into: &mut [u8]) -> Result<usize, OctetFault> {
        self.reads = self.reads.saturating_add(1);
        if let Some(stream) = &mut self.stream {
            let mut cause = Error::from(ErrorKind::Interrupted);
            for _ in 0..TRIES {
                match stream.read(into) {
                    Ok(count) => return Ok(count),
                    Err(error) if error.kind() == ErrorKind::Interrupted => {}
                    Err(error) => {
                        cause = error;
                        break;
                    }
                }
            }
            self.cause = Some(cause);
        }
        self.faults = self.faults.saturating_add(1);
        Err(OctetFault)
    }
}

/// A stream that octets are written to. It doesn't tell which were.
#[derive(Drop)]
pub struct StreamWriter<W: Write + Drop> {
    stream: W,
    faults: u64,
    // Why the last write failed, if one did.
    cause: Option<Error>,
}

impl<W: Write + Drop> StreamWriter<W> {
    /// A writer to the stream, which hasn't failed.
    pub fn new(stream: W) -> StreamWriter<W>
        ensures faults { result.faults ≡ 0 }
        ensures cause { result.cause ≡ None }
    {
        StreamWriter {
            stream,
            faults: 0,
            cause: None,
        }
    }

    /// Why the last write that failed did; None where none failed.
    pub fn cause(&self) -> Option<Error>
        ensures { result ≡ self.now.cause }
    {
        self.cause
    }

    /// The stream.
    pub fn into_stream(self) -> W
        ensures { result ≡ self.stream }
    {
        self.stream
    }
}

impl<W: Write + Drop> OctetWrite for StreamWriter<W> {
    ghost written = { λ _. None };

    ghost faults = { λ writer. writer.faults };

    fn write(&mut self, octets: &[u8]) -> Result<usize, OctetFault> {
        let mut cause = Error::from(ErrorKind::Interrupted);
        for _ in 0..TRIES {
            match self.stream.write(octets) {
                Ok(0) if !octets.is_empty() => {
                    cause = Error::from(ErrorKind::WriteZero);
                    break;
                }
                Ok(count) => return Ok(count),
                Err(error) if error.kind() == ErrorKind::Interrupted => {}
                Err(error) => {
                    cause = error;
                    break;
                }
            }
        }
        self.cause = Some(cause);
        self.faults = self.faults.saturating_add(1);
        Err(OctetFault)
    }
}
