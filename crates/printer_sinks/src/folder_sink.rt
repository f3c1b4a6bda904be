//! A folder that each job becomes a file of.

ghost use Rattle.std.specs.Prelude.{◌≡◌, Bool, true, false, OnOk, OnErr};
ghost use Rattle.std.specs.Result.{is_ok};
ghost use Rattle.printer_sinks.specs.Files.{AddsOne, IsBroken, Keeps, Leaves, MayAdd, draft_for, extended, is_whole, shelf, started, with_page};

use crate::draft::JobDraft;
use crate::folder::{FolderFault, PrinterFolder};

/// What the sink has of a page's job. Where it was at another job it leaves that, and removes its hidden file.
fn come_to<F: PrinterFolder>(folder: &mut F, stage: JobDraft, job: u64) -> JobDraft
    ensures stage { result ≡ draft_for job stage }
    ensures files { F.files folder.new ≡ F.files folder.old }
    ensures draft { is_whole result ≡ true → F.draft folder.new ≡ F.draft folder.old }
{
    match stage {
        JobDraft::Whole(other) if other != job => {
            folder.discard();
            JobDraft::Nothing
        }
        JobDraft::Broken(other) if other != job => JobDraft::Nothing,
        _ => stage,
    }
}

/// Makes the hidden file of a job with its first page, and says whether the file has it.
fn begin_with<F: PrinterFolder>(folder: &mut F, job: u64, octets: &[u8]) -> bool
    ensures draft { result ≡ true
        → F.draft folder.new ≡ extended octets.now (started (F.files folder.old)) }
    ensures files { F.files folder.new ≡ F.files folder.old }
{
    folder.begin(job).is_ok() && folder.append(octets).is_ok()
}

/// Adds a page to the hidden file, or makes one where nothing of the job is there. Says whether the file has the page.
fn add<F: PrinterFolder>(folder: &mut F, stage: JobDraft, job: u64, octets: &[u8]) -> bool
    ensures draft { result ≡ true → F.draft folder.new
        ≡ with_page stage octets.now (F.draft folder.old) (F.files folder.old) }
    ensures whole { result ≡ true → IsBroken stage → ⊥ }
    ensures files { F.files folder.new ≡ F.files folder.old }
{
    match stage {
        JobDraft::Whole(_) => folder.append(octets).is_ok(),
        JobDraft::Nothing => begin_with(folder, job, octets),
        JobDraft::Broken(_) => false,
    }
}

/// Adds a page to the hidden file of its job. Where that fails, the file is removed.
fn keep<F: PrinterFolder>(folder: &mut F, stage: JobDraft, job: u64, octets: &[u8]) -> JobDraft
    ensures keeps { Keeps job octets.now (is_whole result)
        (shelf stage (F.draft folder.old) (F.files folder.old))
        (shelf result (F.draft folder.new) (F.files folder.new)) }
{
    let stage = come_to(folder, stage, job);
    if add(folder, stage, job, octets) {
        return JobDraft::Whole(job);
    }
    folder.discard();
    JobDraft::Broken(job)
}

/// Writes the hidden file to the disk, and then gives it a number.
fn publish<F: PrinterFolder>(folder: &mut F) -> Result<(), FolderFault>
    ensures ok { OnOk result (AddsOne (F.draft folder.old) (F.files folder.old)
        (F.files folder.new)) }
    ensures err { OnErr result (MayAdd (F.draft folder.old) (F.files folder.old)
        (F.files folder.new)) }
{
    folder.sync()?;
    folder.publish()?;
    Ok(())
}

/// A folder that each job becomes a file of, once all of it was printed.
#[derive(Drop)]
pub struct FolderSink<F: PrinterFolder + Drop> {
    folder: F,
    stage: JobDraft,
}

impl<F: PrinterFolder + Drop> FolderSink<F> {
    /// A sink that is at no job.
    pub fn new(folder: F) -> FolderSink<F>
        ensures { (result.stage ≡ JobDraft.Nothing) × (result.folder ≡ folder) }
    {
        FolderSink {
            folder,
            stage: JobDraft::Nothing,
        }
    }

    /// The folder.
    pub fn folder(&self) -> &F
        ensures { result.now ≡ self.now.folder }
    {
        &self.folder
    }

    /// Adds a page of a job to the hidden file, all its octets. Where the sink was at another job, that one's hidden file is
    /// removed.
    ///
    /// FolderFault where that failed, and for each page of the job from then on: nothing of the job is kept.
    pub fn print(&mut self, job: u64, octets: &[u8]) -> Result<(), FolderFault>
        ensures { Keeps job octets.now (is_ok result)
            (shelf self.old.stage (F.draft self.old.folder) (F.files self.old.folder))
            (shelf self.new.stage (F.draft self.new.folder) (F.files self.new.folder)) }
    {
        self.stage = keep(&mut self.folder, self.stage, job, octets);
        if let JobDraft::Whole(_) = self.stage {
            return Ok(());
        }
        Err(FolderFault)
    }

    /// Leaves the job that it is at: where it is done and no page of it failed, the hidden file becomes a file of the folder,
    /// and else it is removed.
    ///
    /// FolderFault where it is done and its file may not be there, or not on the disk. The hidden file stays then, unless it
    /// had its number already.
    pub fn leave(&mut self, is_done: bool) -> Result<(), FolderFault>
        ensures { Leaves is_done (is_ok result)
            (shelf self.old.stage (F.draft self.old.folder) (F.files self.old.folder))
            (shelf self.new.stage (F.draft self.new.folder) (F.files self.new.folder)) }
    {
        let stage = self.stage;
        self.stage = JobDraft::Nothing;
        match stage {
            JobDraft::Whole(_) if is_done => publish(&mut self.folder)?,
            JobDraft::Whole(_) => self.folder.discard(),
            JobDraft::Nothing | JobDraft::Broken(_) => {}
        }
        Ok(())
    }
}
