//! A session's hand at the folder.

ghost use Rattle.std.specs.Prelude.{◌≡◌, None, IsSome, OnErr, OnOk};
ghost use Rattle.kept_jobs.specs.Folder.{HasCause};

use crate::disk::Disk;
use crate::fault::DiskFault;
use crate::frame::{FileDigest, write_header};
use job_files::{FileStage, KeptFileName};
use kept_jobs::{Folder, KeepError};
use std::fs::{File, Files};
use std::io::Write;
use std::sync::Wait;
use std::{io, mem};

/// A temporary file, and the digest of what was appended to it.
#[derive(Drop)]
struct TemporaryFile {
    file: File,
    digest: FileDigest,
}

/// What is in hand.
#[derive(Drop)]
enum InHand {
    Nothing,
    /// A temporary file, which octets are appended to.
    Temporary(TemporaryFile),
    /// A whole file.
    Whole,
}

/// A session's hand at a folder that sessions share. It tells nothing: that the system's calls are as the trait says is trusted.
#[derive(Drop)]
pub struct DiskFolder<'a, R> {
    disk: &'a Disk<'a, R>,
    /// The seat of its session.
    seat: u32,
    in_hand: InHand,
    number: u64,
    faults: u64,
    fault: Option<DiskFault<'a>>,
}

impl<'a, R: Files<File = File> + Wait> DiskFolder<'a, R> {
    /// The hand of a session at this seat, with nothing in it.
    pub fn new(disk: &'a Disk<'a, R>, seat: u32) -> DiskFolder<'a, R> {
        DiskFolder {
            disk,
            seat,
            in_hand: InHand::Nothing,
            number: 0,
            faults: 0,
            fault: None,
        }
    }

    /// Takes out why the folder failed last, if it has since this was asked before.
    pub fn take_fault(&mut self) -> Option<DiskFault<'a>>
        ensures taken { result ≡ self.old.fault }
        ensures once { self.new.fault ≡ None }
    {
        self.fault.take()
    }

    fn name(&self, stage: FileStage) -> KeptFileName {
        let number = self.number;
        KeptFileName { number, stage }
    }

    /// Fails where the call did that is at this file, or at the folder, and keeps why.
    fn checked(
        &mut self,
        name: Option<KeptFileName>,
        answer: io::Result<()>,
    ) -> Result<(), KeepError>
        ensures cause { HasCause self.old.faults self.new.faults result }
        ensures told { OnErr result (IsSome self.new.fault) }
        ensures untold { OnOk result (self.new.fault ≡ self.old.fault) }
    {
        let Err(cause) = answer else {
            return Ok(());
        };
        self.fault = Some(match name {
            Some(name) => self.disk.fault_at(name, cause),
            None => self.disk.fault(cause),
        });
        match self.faults.checked_add(1) {
            Some(faults) => {
                self.faults = faults;
                Err(KeepError::Failed)
            }
            None => Err(KeepError::Memory),
        }
    }

    fn create_file(&mut self) -> io::Result<()>
        ensures { self.new.faults ≡ self.old.faults }
    {
        self.in_hand = InHand::Nothing;
        self.number = self.disk.number(self.seat)?;
        let file = self.disk.create(self.name(FileStage::Temporary))?;
        let page_size = self.disk.page_size;
        let digest = FileDigest::new(page_size);
        self.in_hand = InHand::Temporary(TemporaryFile { file, digest });
        self.write(&write_header(page_size))
    }

    /// Writes octets to the temporary file.
    fn write(&mut self, octets: &[u8]) -> io::Result<()>
        ensures { self.new.faults ≡ self.old.faults }
    {
        match &mut self.in_hand {
            InHand::Temporary(temporary) => temporary.file.write_all(octets),
            InHand::Nothing | InHand::Whole => Err(io::ErrorKind::NotFound.into()),
        }
    }

    /// Writes octets of the job, of a page with its SHA-256.
    fn append_octets(&mut self, octets: &[u8], digest: Option<[u8; 32]>) -> io::Result<()>
        ensures { self.new.faults ≡ self.old.faults }
    {
        self.write(octets)?;
        if let InHand::Temporary(temporary) = &mut self.in_hand {
            match &digest {
                Some(digest) => temporary.digest.take(digest),
                None => temporary.digest.take(octets),
            }
        }
        Ok(())
    }

    /// Writes the line behind the job, and has the file on the disk.
    fn sync_file(&mut self) -> io::Result<()>
        ensures { self.new.faults ≡ self.old.faults }
    {
        let InHand::Temporary(temporary) = mem::replace(&mut self.in_hand, InHand::Nothing) else {
            return Err(io::ErrorKind::NotFound.into());
        };
        let TemporaryFile { file, digest } = temporary;
        let trailer = digest.trailer(self.disk.alloc);
        // The digest is used up, and nothing is appended any more.
        let digest = FileDigest::new(self.disk.page_size);
        self.in_hand = InHand::Temporary(TemporaryFile { file, digest });
        self.write(trailer?.as_bytes())?;
        match &self.in_hand {
            InHand::Temporary(temporary) => temporary.file.sync_data(),
            InHand::Nothing | InHand::Whole => Err(io::ErrorKind::NotFound.into()),
        }
    }

    fn rename(&mut self) -> io::Result<()>
        ensures { self.new.faults ≡ self.old.faults }
    {
        let InHand::Temporary(_) = &self.in_hand else {
            return Err(io::ErrorKind::NotFound.into());
        };
        self.disk
            .rename(self.name(FileStage::Temporary), FileStage::Whole)?;
        self.in_hand = InHand::Whole;
        Ok(())
    }
}

impl<R: Files<File = File> + Wait> Folder for DiskFolder<'_, R> {
    ghost seen = { λ _. None };

    ghost may_hold = { λ _ octets. ⊥ };

    ghost may_leave = { λ _ left. ⊥ };

    ghost moment = { λ _. 0 };

    ghost left_since = { λ _ t left. ⊥ };

    ghost may_lack = { λ _ octets. ⊥ };

    ghost faults = { λ folder. folder.faults };

    fn create(&mut self) -> Result<(), KeepError> {
        let answer = self.create_file();
        self.checked(Some(self.name(FileStage::Temporary)), answer)
    }

    fn append(&mut self, octets: &[u8], digest: Option<[u8; 32]>) -> Result<(), KeepError> {
        let answer = self.append_octets(octets, digest);
        self.checked(Some(self.name(FileStage::Temporary)), answer)
    }

    fn sync(&mut self) -> Result<(), KeepError> {
        let answer = self.sync_file();
        self.checked(Some(self.name(FileStage::Temporary)), answer)
    }

    fn publish(&mut self) -> Result<(), KeepError> {
        let answer = self.rename();
        self.checked(Some(self.name(FileStage::Temporary)), answer)
    }

    fn sync_names(&mut self) -> Result<(), KeepError> {
        let answer = self.disk.sync_names();
        self.checked(None, answer)
    }

    fn pass(&mut self, job: u64) {
        let InHand::Whole = &self.in_hand else {
            return;
        };
        self.in_hand = InHand::Nothing;
        if let Err(fault) = self.disk.pass(job, self.number) {
            self.fault = Some(fault);
        }
    }

    fn leave(&mut self) {
        if let InHand::Whole = &self.in_hand {
            self.in_hand = InHand::Nothing;
        }
    }

    fn discard(&mut self) {
        let stage = match &self.in_hand {
            InHand::Nothing => return,
            InHand::Temporary(_) => FileStage::Temporary,
            InHand::Whole => FileStage::Whole,
        };
        self.in_hand = InHand::Nothing;
        let name = self.name(stage);
        if let Err(cause) = self.disk.remove(name) {
            // Why it was given up is told, where that is known.
            self.fault = self.fault.or(Some(self.disk.fault_at(name, cause)));
        }
    }

    ghost counts_now = { λ _ t c le now. now };

    ghost only_now = { λ _ c left. left };
}
