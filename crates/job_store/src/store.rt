//! A folder of jobs at a start: what is read there, and what a crash may leave.

ghost use Rattle.std.specs.Prelude.{◌≡◌, ◌≤◌, List, ℕ, Option, None, IfOk, IfSome, OnOk, is_some};
ghost use Rattle.kept_jobs.specs.Folder.{Elapses, HasCause, NoMore};
ghost use Rattle.job_store.specs.Files.{HasNoPartials, KeepsJobs, ListsFailed, ListsJobs, Opens, SameFiles, whole_told};
ghost use Rattle.job_store.specs.Kept.{LeftAsSeen};

use kept_jobs::KeepError;
use lpd_commands::OctetRead;
use std::alloc::Global;

/// The numbers of the files of a folder, each once of its kind, in any order.
#[derive(Drop)]
pub struct Names {
    /// Those of the whole files.
    pub jobs: Vec<u64>,
    /// Those of the files of failed jobs.
    pub failed: Vec<u64>,
}

/// A folder with temporary files of jobs, whole ones, and those of failed jobs, each by its number. What a call does is said of all numbers
/// at once, and what a crash may leave of one job doesn't depend on what it leaves of another.
pub trait Store {
    ghost use Rattle.job_store.specs.Files.{Files};

    /// The octets of a whole file, read one after another.
    type Job: OctetRead + Drop;

    /// What is told, where the type can tell it.
    ghost files: { Option (Self → Files) };

    /// What a crash at this moment may leave of a job: the octets of its whole file, or no such file.
    ghost may_leave: { Self → ℕ → Option (List ℕ) → Type 0 };

    /// The moment, as a number that doesn't fall.
    ghost moment: { Self → ℕ };

    /// What a crash at some moment from that one on might have left of a job, during a call or between two.
    ghost left_since: { Self → (job : ℕ) → ℕ → Option (List ℕ) → Type 0 };

    /// How often the folder has failed.
    ghost faults: { Self → ℕ };

    /// Has the names of the folder on the disk: after it, a crash leaves a job exactly where its whole file is seen.
    fn sync_names(&mut self) -> Result<(), KeepError>
        ensures names { OnOk result (LeftAsSeen files self.old (may_leave self.new)) }
        ensures files { SameFiles files self.old self.new }
        ensures crash { (n : ℕ) → NoMore (may_leave self.old n) (may_leave self.new n) }
        ensures time { (n : ℕ) → Elapses (moment self.old) (moment self.new) (left_since self.old n)
            (left_since self.new n) (may_leave self.new n) }
        ensures cause { HasCause (faults self.old) (faults self.new) result };

    /// Takes all temporary files away.
    fn clear_partials(&mut self) -> Result<(), KeepError>
        ensures gone { OnOk result (HasNoPartials files self.new) }
        ensures jobs { KeepsJobs files self.old self.new }
        ensures crash { (n : ℕ) → NoMore (may_leave self.old n) (may_leave self.new n) }
        ensures time { (n : ℕ) → Elapses (moment self.old) (moment self.new) (left_since self.old n)
            (left_since self.new n) (may_leave self.new n) }
        ensures cause { HasCause (faults self.old) (faults self.new) result };

    /// The numbers of the whole files and of those of failed jobs.
    fn names(&mut self, alloc: Global) -> Result<Names, KeepError>
        ensures jobs { IfOk result (λ names. ListsJobs files self.old names.jobs.items) }
        ensures failed { IfOk result (λ names. ListsFailed files self.old names.failed.items) }
        ensures files { SameFiles files self.old self.new }
        ensures crash { (n : ℕ) → NoMore (may_leave self.old n) (may_leave self.new n) }
        ensures time { (n : ℕ) → Elapses (moment self.old) (moment self.new) (left_since self.old n)
            (left_since self.new n) (may_leave self.new n) }
        ensures cause { HasCause (faults self.old) (faults self.new) result };

    /// Opens the whole file of a job, to be read from its first octet. None where there is no such file.
    fn open(&mut self, job: u64) -> Result<Option<Self::Job>, KeepError>
        ensures opened { IfOk result
            (λ opened. Opens Self.Job.left (whole_told files self.old job) opened) }
        ensures files { SameFiles files self.old self.new }
        ensures crash { (n : ℕ) → NoMore (may_leave self.old n) (may_leave self.new n) }
        ensures time { (n : ℕ) → Elapses (moment self.old) (moment self.new) (left_since self.old n)
            (left_since self.new n) (may_leave self.new n) }
        ensures cause { HasCause (faults self.old) (faults self.new) result };

    /// This moment is one of those since an earlier one.
    ghost counts_now: { (folder : Self) (n t : ℕ) (c : Option (List ℕ)) → t ≤ moment folder
        → may_leave folder n c → left_since folder n t c };

    /// Since this moment there is no other.
    ghost only_now: { (folder : Self) (n : ℕ) (c : Option (List ℕ)) → left_since folder n (moment folder) c
        → may_leave folder n c };
}
