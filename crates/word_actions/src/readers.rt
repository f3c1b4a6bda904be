//! Where the data files of a job are read from.
//!
//! They are read from what opens readers by paths, and not from the system's files alone: these don't tell their octets, so a contract
//! over them can't say that the octets which are sent are those of the file at each path. A file that can't be opened is one of which
//! each read fails: so a contract over readers says in which order faults are told, and the system's call to open a file, of which no
//! contract can speak, stands outside it.

ghost use Rattle.std.specs.Prelude.{◌≡◌, ℕ, List, None, Option};

use log::{Log, info};
use lpd_commands::OctetRead;
use program_edge::{StreamReader, tell_cause};
use std::fs::Files;

/// The part of the program that tells the log why, by which a log can choose its lines.
pub(crate) const PART: &str = "lpd_words::readers";

/// Where files are read from by their paths.
pub(crate) trait OpenReaders {
    /// What reads a file.
    type Reader: OctetRead + Drop;

    /// The octets of the file at a path, where the type can tell them.
    ghost contents: { Self → List ℕ → Option (List ℕ) };

    /// What reads the file at this path, from its beginning. Of one that can't be opened each read
    /// fails.
    fn open_reader(&self, path: &str) -> Self::Reader
        ensures { Self.Reader.left result ≡ contents self.now path.now };

    /// Tells the log why the file at this path, which this reads, is none to be sent.
    fn tell_why(&self, path: &str, reader: &Self::Reader);
}

/// The files of the system, which don't tell their octets.
impl<R: Files + Log> OpenReaders for R {
    type Reader = StreamReader<R::File>;

    ghost contents = { λ _ _. None };

    fn open_reader(&self, path: &str) -> StreamReader<R::File> {
        StreamReader::open(self, path)
    }

    fn tell_why(&self, path: &str, reader: &StreamReader<R::File>) {
        match reader.cause() {
            None => info!(self; target: PART, "{path}: it has no octets, or no end"),
            cause => tell_cause(self, &path, cause),
        }
    }
}
