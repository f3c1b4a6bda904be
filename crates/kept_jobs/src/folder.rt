//! A folder of jobs as one session has it: what is told of the job in hand, and what a crash may leave.

ghost use Rattle.std.specs.Prelude.{◌≡◌, ◌⊎◌, ◌≤◌, ◌++◌, [], List, ℕ, Option, None, Some, OnOk, is_some};
ghost use Rattle.kept_jobs.specs.declared.folder.KeepError.TheVariants.{Memory};
ghost use Rattle.kept_jobs.specs.Folder.{Elapses, EmptiesOrFails, HasCause, IsNever, IsSeen, LacksNoMore, Leads, NoMore, OrNone, SamePassed, SomeOf, octets_of};
ghost use Rattle.kept_jobs.specs.Kept.{IsKept, Leaves, Passes};

use std::alloc::{AllocError, AllocFailed};

/// Why a job isn't kept.
#[derive(Clone, Copy, Debug, PartialEq, Eq)]
pub enum KeepError {
    /// Memory is refused.
    Memory,
    /// The folder has failed.
    Failed,
}

impl From<AllocError> for KeepError {
    ghost from_gives = { λ _ e. e ≡ Memory };

    fn from(_: AllocError) -> Self {
        KeepError::Memory
    }
}

impl<T: Drop> From<AllocFailed<T>> for KeepError {
    ghost from_gives = { λ _ e. e ≡ Memory };

    fn from(_: AllocFailed<T>) -> Self {
        KeepError::Memory
    }
}

/// A folder of jobs, as one session has it: at most one job is in hand, which is in a temporary file or
/// in a whole one. Another session has a value of its own, and its job another number, so that no call
/// here changes what is said of that one's job, and neither waits for the other.
pub trait Folder {
    ghost use Rattle.kept_jobs.specs.Folder.{Seen};

    /// What is told, where the type can tell it.
    ghost seen: { Self → Option Seen };

    /// What octets a crash may leave in the temporary file in hand.
    ghost may_hold: { Self → List ℕ → Type 0 };

    /// What a crash at this moment may leave of the job in hand: the octets of its whole file, or no
    /// such file.
    ghost may_leave: { Self → Option (List ℕ) → Type 0 };

    /// The moment, as a number that doesn't fall.
    ghost moment: { Self → ℕ };

    /// What a crash at some moment from that one on might have left of the job that was in hand then, during a call
    /// or between two.
    ghost left_since: { Self → ℕ → Option (List ℕ) → Type 0 };

    /// Whether a crash at some moment since a job with these octets was passed on or left, and before it was let go, might have
    /// left anything else of it than a whole file with just these octets.
    ghost may_lack: { Self → List ℕ → Type 0 };

    /// How often the folder has failed.
    ghost faults: { Self → ℕ };

    /// Takes an empty temporary file of a number of its own in hand.
    fn create(&mut self) -> Result<(), KeepError>
        ensures made { OnOk result (Leads (λ old new. new
            ≡ record old { partial = Some []; whole = None })
            (seen self.old) (seen self.new)) }
        ensures passed { SamePassed (seen self.old) (seen self.new) }
        ensures never { OnOk result (IsNever (may_leave self.new)) }
        ensures crash { OrNone (may_leave self.old) (may_leave self.new) }
        ensures time { Elapses (moment self.old) (moment self.new) (left_since self.old)
            (left_since self.new) (may_leave self.new) }
        ensures lacks { LacksNoMore (may_lack self.old) (may_lack self.new) }
        ensures cause { HasCause (faults self.old) (faults self.new) result };

    /// Writes octets at the end of the temporary file. Until a sync, a crash may leave any octets in
    /// it. Where they are those of a page, its SHA-256 comes with them, so that a folder which is to
    /// notice octets that change in it needn't make one.
    fn append(&mut self, octets: &[u8], digest: Option<[u8; 32]>) -> Result<(), KeepError>
        ensures written { OnOk result (Leads
            (λ old new. new ≡ record old { partial = Some (octets_of old.partial ++ octets.now) })
            (seen self.old) (seen self.new)) }
        ensures passed { SamePassed (seen self.old) (seen self.new) }
        ensures crash { NoMore (may_leave self.old) (may_leave self.new) }
        ensures time { Elapses (moment self.old) (moment self.new) (left_since self.old)
            (left_since self.new) (may_leave self.new) }
        ensures lacks { LacksNoMore (may_lack self.old) (may_lack self.new) }
        ensures cause { HasCause (faults self.old) (faults self.new) result };

    /// Has the octets of the temporary file on the disk. After an error nothing is known of what the
    /// disk has of them.
    fn sync(&mut self) -> Result<(), KeepError>
        ensures held { OnOk result ((octets : List ℕ) → may_hold self.new octets
            → IsSeen (λ s. s.partial ≡ Some octets) (seen self.old)) }
        ensures seen { seen self.new ≡ seen self.old }
        ensures crash { NoMore (may_leave self.old) (may_leave self.new) }
        ensures time { Elapses (moment self.old) (moment self.new) (left_since self.old)
            (left_since self.new) (may_leave self.new) }
        ensures lacks { LacksNoMore (may_lack self.old) (may_lack self.new) }
        ensures cause { HasCause (faults self.old) (faults self.new) result };

    /// Gives the temporary file the name of a whole one, at once. Until the folder is synced, a crash
    /// may leave either name, and whatever the disk has of the file's octets.
    fn publish(&mut self) -> Result<(), KeepError>
        ensures whole { OnOk result (Leads (λ old new. new
            ≡ record old { partial = None; whole = old.partial })
            (seen self.old) (seen self.new)) }
        ensures passed { SamePassed (seen self.old) (seen self.new) }
        ensures crash { (c : Option (List ℕ)) → may_leave self.new c
            → may_leave self.old c ⊎ SomeOf (may_hold self.old) c }
        ensures time { Elapses (moment self.old) (moment self.new) (left_since self.old)
            (left_since self.new) (may_leave self.new) }
        ensures lacks { LacksNoMore (may_lack self.old) (may_lack self.new) }
        ensures cause { HasCause (faults self.old) (faults self.new) result };

    /// Has the names of the folder on the disk: after it, a crash leaves the job exactly where it is
    /// seen.
    fn sync_names(&mut self) -> Result<(), KeepError>
        ensures names { OnOk result ((c : Option (List ℕ)) → may_leave self.new c
            → IsSeen (λ s. is_some c ≡ is_some s.whole) (seen self.old)) }
        ensures seen { seen self.new ≡ seen self.old }
        ensures crash { NoMore (may_leave self.old) (may_leave self.new) }
        ensures time { Elapses (moment self.old) (moment self.new) (left_since self.old)
            (left_since self.new) (may_leave self.new) }
        ensures lacks { LacksNoMore (may_lack self.old) (may_lack self.new) }
        ensures cause { HasCause (faults self.old) (faults self.new) result };

    /// Passes the job in hand, if it is kept, on to whoever lets it go once the job of this number has
    /// ended. Nothing is in hand then.
    fn pass(&mut self, job: u64)
        ensures passes { (octets : List ℕ) → IsKept (seen self.old) (may_leave self.old) octets
            → Passes job octets (seen self.old) (seen self.new) }
        ensures never { IsNever (may_leave self.new) }
        ensures time { Elapses (moment self.old) (moment self.new) (left_since self.old)
            (left_since self.new) (may_leave self.new) }
        ensures lacks { (octets : List ℕ) → IsKept (seen self.old) (may_leave self.old) octets
            → LacksNoMore (may_lack self.old) (may_lack self.new) };

    /// Leaves the job in hand, if it is kept: its whole file stays, and nobody is told its job. Nothing is in hand then.
    fn leave(&mut self)
        ensures leaves { (octets : List ℕ) → IsKept (seen self.old) (may_leave self.old) octets
            → Leaves octets (seen self.old) (seen self.new) }
        ensures never { IsNever (may_leave self.new) }
        ensures time { Elapses (moment self.old) (moment self.new) (left_since self.old)
            (left_since self.new) (may_leave self.new) }
        ensures lacks { (octets : List ℕ) → IsKept (seen self.old) (may_leave self.old) octets
            → LacksNoMore (may_lack self.old) (may_lack self.new) };

    /// Takes away what is in hand, if it can. After a crash a job that was whole may come back.
    fn discard(&mut self)
        ensures emptied { EmptiesOrFails (faults self.old) (faults self.new) (seen self.old)
            (seen self.new) }
        ensures passed { SamePassed (seen self.old) (seen self.new) }
        ensures crash { OrNone (may_leave self.old) (may_leave self.new) }
        ensures time { Elapses (moment self.old) (moment self.new) (left_since self.old)
            (left_since self.new) (may_leave self.new) }
        ensures lacks { LacksNoMore (may_lack self.old) (may_lack self.new) };

    /// This moment is one of those since an earlier one.
    ghost counts_now: { (folder : Self) (t : ℕ) (c : Option (List ℕ)) → t ≤ moment folder
        → may_leave folder c → left_since folder t c };

    /// Since this moment there is no other.
    ghost only_now: { (folder : Self) (c : Option (List ℕ)) → left_since folder (moment folder) c
        → may_leave folder c };
}
