//! A folder of segments, which one server writes.

ghost use Rattle.std.specs.Prelude.{◌≡◌, IfOk, IfSome, None, OnErr, Some, false, true};
ghost use Rattle.account.specs.Seen.{base_seen};
ghost use Rattle.account_folder.specs.Hands.{IsInHandStill, Names, begin_as};
ghost use Rattle.segment_text.specs.Seen.{begin_seen, start_seen};

use crate::fault::WriteFault;
use crate::listing::list;
use crate::names::SegmentName;
use crate::opening::AccountOpenError;
use crate::reading::next_in;
use crate::stamps::stamp;
use crate::writing::{TextFault, write_segment};
use account::{Base, Entry, Segment};
use config_values::Config;
use lpd_values::Octets;
use program_edge::StreamWriter;
use segment_text::{Begin, Head, HeadPrinter, Origin, Start, Version, is_before};
use server_folder::{FILE_MODE, FolderHold, FolderUse};
use std::alloc::Global;
use std::fmt::{Display, Formatter, Write};
use std::fs::{File, Files, OpenOptions};
use std::os::unix::fs::OpenOptionsExt;
use std::time::SystemTime;
use std::{fmt, fs, io, mem};

/// A segment that has become a file.
#[derive(Clone, Copy)]
pub struct PutAway {
    /// The name of the file.
    pub name: SegmentName,
    /// The number of its run.
    pub run: u64,
    /// Its number in the run.
    pub segment: u64,
    /// How many entries it has.
    pub entries: u64,
    /// The digest that it ends in.
    pub digest: [u8; 32],
}

impl Display for PutAway {
    fn fmt<W: Write>(&self, f: &mut Formatter<W>) -> fmt::Result {
        let PutAway {
            name,
            run,
            segment,
            entries,
            ..
        } = self;
        write!(
            f,
            "{name} run {run} segment {segment} entries {entries} digest "
        )?;
        for octet in &self.digest {
            write!(f, "{octet:02x}")?;
        }
        Ok(())
    }
}

/// A folder of segments, which one server has at a time, and the segment in hand that is to become a file of it.
#[derive(Drop)]
pub struct AccountFolder {
    alloc: Global,
    path: String,
    folder: File,
    // Held while the server has the folder.
    _hold: FolderHold,
    // The name of the next file, if there may be one.
    next: Option<SegmentName>,
    // When the segment in hand was begun, and when it was closed.
    begun: SystemTime,
    closed: SystemTime,
    head: Head,
    entries: Vec<Entry>,
    is_in_hand: bool,
}

/// The head of a segment of this run, of which nothing else is known.
fn head_of(
    alloc: Global,
    run: u64,
    previous: Option<[u8; 32]>,
    config: Config,
    printers: Vec<HeadPrinter>,
) -> Head {
    let origin = Origin {
        version: Version::Two,
        run,
        segment: 0,
        first: Octets::from_vec(Vec::new(alloc)),
        last: Octets::from_vec(Vec::new(alloc)),
        previous,
    };
    let start = Start {
        entries: 0,
        kinds: 0,
        handed: 0,
        begin: Begin::Base(Base::first(alloc)),
    };
    Head {
        origin,
        config,
        printers,
        start,
    }
}

/// What a segment's entries begin from: a base, or what the segment before it left amid its jobs.
fn begin_of(base: Base, since: u64, freed: u64) -> Begin
    ensures { begin_seen result ≡ begin_as (base_seen base) since freed }
{
    if since == 0 {
        Begin::Base(base)
    } else {
        Begin::Amid { since, freed }
    }
}

/// Gives a file another name. AlreadyExists where a file has that: somebody has put it there.
fn rename_anew<R: Files<File = File>>(rt: &R, from: &str, to: &str) -> io::Result<()> {
    match fs::symlink_metadata(rt, to) {
        Ok(_) => Err(io::ErrorKind::AlreadyExists.into()),
        Err(cause) if cause.kind() == io::ErrorKind::NotFound => fs::rename(rt, from, to),
        Err(cause) => Err(cause),
    }
}

impl AccountFolder {
    /// The folder at this path, which is made where nothing is there, for a run of this configuration and of these printers that
    /// begins at this time. Temporary files that a server has left are removed.
    ///
    /// # Errors
    ///
    /// `Broken` where its last segment isn't whole; `Full` where no number is left; `Left` where a temporary file can't be removed; `Folder`, by `InUse` where another server has it,
    /// and by `Failed` where it can't be made, opened or read, or memory is refused.
    pub fn open<R: Files<File = File>>(
        rt: &R,
        alloc: Global,
        path: &str,
        config: Config,
        printers: Vec<HeadPrinter>,
        begun: SystemTime,
    ) -> Result<AccountFolder, AccountOpenError> {
        let hold = server_folder::take(rt, alloc, FolderUse::Account, path)?;
        let listing = list(rt, alloc, path)?;
        for name in &listing.left {
            let path = format!(in alloc; "{path}/{name}.tmp").map_err(io::Error::from)?;
            if let Err(cause) = fs::remove_file(rt, path.as_str()) {
                return Err(AccountOpenError::Left(*name, cause));
            }
        }
        let next = next_in(rt, alloc, path, &listing)?;
        Ok(AccountFolder {
            alloc,
            path: String::from_str(alloc, path).map_err(io::Error::from)?,
            folder: File::open(rt, path)?,
            _hold: hold,
            next: Some(next.name),
            begun,
            closed: begun,
            head: head_of(alloc, next.run, next.previous, config, printers),
            entries: Vec::new(alloc),
            is_in_hand: false,
        })
    }

    /// Takes a segment in hand, which was closed at this time. One that was in hand is let go.
    pub fn take(&mut self, segment: Segment, closed: SystemTime)
        ensures number { self.new.head.origin.segment ≡ segment.number }
        ensures start { start_seen self.new.head.start ≡ record {
          entries = segment.before;
          kinds = segment.kinds_before;
          handed = segment.handed_before;
          begin = begin_as (base_seen segment.base) segment.since segment.freed;
        } }
        ensures entries { self.new.entries.items ≡ segment.entries.items }
        ensures times { (self.new.begun ≡ self.old.closed) × (self.new.closed ≡ closed) }
        ensures chain { (self.new.head.origin.run ≡ self.old.head.origin.run)
            × (self.new.head.origin.previous ≡ self.old.head.origin.previous)
            × (self.new.next ≡ self.old.next) }
        ensures in_hand { self.new.is_in_hand ≡ true }
    {
        let Segment {
            number,
            before,
            kinds_before,
            handed_before,
            base,
            entries,
            since,
            freed,
        } = segment;
        self.begun = mem::replace(&mut self.closed, closed);
        self.head.origin.segment = number;
        self.head.start = Start {
            entries: before,
            kinds: kinds_before,
            handed: handed_before,
            begin: begin_of(base, since, freed),
        };
        self.entries = entries;
        self.is_in_hand = true;
    }

    /// Writes the segment in hand into a file at this path, and has that on the disk. Answers the digest that it ends in.
    fn write<R: Files<File = File>>(&mut self, rt: &R, path: &str) -> io::Result<[u8; 32]>
        ensures { IsInHandStill self.old self.new }
    {
        let first = stamp(self.alloc, self.begun)?;
        let last = stamp(self.alloc, self.closed)?;
        // (a clock that was set back)
        self.head.origin.last = if is_before(last.as_slice(), first.as_slice()) {
            Octets::copy_of(self.alloc, first.as_slice())?
        } else {
            last
        };
        self.head.origin.first = first;
        let mut options = OpenOptions::new();
        options
            .write(true)
            .create(true)
            .truncate(true)
            .mode(FILE_MODE);
        let mut output = StreamWriter::new(options.open(rt, path)?);
        let entries = self.entries.as_slice();
        let written = write_segment(self.alloc, &self.head, entries, &mut output);
        let cause = output.cause();
        match written {
            Ok(digest) => {
                output.into_stream().sync_all()?;
                Ok(digest)
            }
            Err(TextFault::Memory) => Err(io::ErrorKind::OutOfMemory.into()),
            Err(TextFault::Output) => Err(cause.unwrap_or(io::ErrorKind::Other.into())),
        }
    }

    /// Writes the segment in hand under another name, and gives it this one.
    fn make_file<R: Files<File = File>>(
        &mut self,
        rt: &R,
        name: SegmentName,
    ) -> io::Result<[u8; 32]>
        ensures { IsInHandStill self.old self.new }
    {
        let path = self.path.as_str();
        let temporary = format!(in self.alloc; "{path}/{name}.tmp")?;
        let whole = format!(in self.alloc; "{path}/{name}")?;
        let made = match self.write(rt, temporary.as_str()) {
            Ok(digest) => rename_anew(rt, temporary.as_str(), whole.as_str()).map(|()| digest),
            Err(cause) => Err(cause),
        };
        if made.is_err() {
            // Half a file takes room where that may be wanting. The next try makes it anew in any case.
            let _ = fs::remove_file(rt, temporary.as_str());
        }
        made
    }

    /// Makes the segment in hand a file, and has the file and its name on the disk. None where none is in hand.
    ///
    /// An error with the file, or the folder, and the cause where that fails: the segment is still in hand then, and this can be called again.
    pub fn put_away<R: Files<File = File>>(&mut self, rt: &R) -> Result<Option<PutAway>, WriteFault>
        ensures kept { OnErr result (IsInHandStill self.old self.new) }
        ensures none { IfOk result (λ put. put ≡ None → self.old.is_in_hand ≡ false) }
        ensures told { IfOk result (λ put. IfSome put (Names self.old)) }
        ensures put_away { IfOk result (λ put. IfSome put (λ p. (self.new.is_in_hand ≡ false)
            × (self.new.head.origin.previous ≡ Some p.digest)
            × (self.new.head.origin.run ≡ self.old.head.origin.run))) }
    {
        if !self.is_in_hand {
            return Ok(None);
        }
        let Some(name) = self.next else {
            let cause = io::Error::new(io::ErrorKind::Other, "no number is left");
            return Err(WriteFault::new(None, cause));
        };
        let digest = match self.make_file(rt, name) {
            Ok(digest) => digest,
            Err(cause) => return Err(WriteFault::new(Some(name), cause)),
        };
        if let Err(cause) = self.folder.sync_all() {
            return Err(WriteFault::new(None, cause));
        }
        let (run, segment) = (self.head.origin.run, self.head.origin.segment);
        let entries = self.entries.len() as u64;
        self.next = name.next();
        self.head.origin.previous = Some(digest);
        self.entries = Vec::new(self.alloc);
        self.is_in_hand = false;
        Ok(Some(PutAway {
            name,
            run,
            segment,
            entries,
            digest,
        }))
    }
}
