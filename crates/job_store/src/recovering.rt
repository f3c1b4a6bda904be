//! Which jobs a folder has.

ghost use Rattle.std.specs.Prelude.{◌≡◌, ◌<◌, ◌≤◌, ◌==◌, ◌⊎◌, ℕ, List, Some, IfNone, IfOk, IfSome, OnOk, count_by};
ghost use Rattle.std.specs.List.Sorted.{IsNonDecreasing};
ghost use Rattle.kept_jobs.specs.Folder.{HasCause};
ghost use Rattle.job_store.specs.Files.{HasGreatest, IsAbove, KeepsJobs, ListsFailed, ListsJobs};
ghost use Rattle.job_store.specs.Kept.{ContentsAreThere, GoesOnFrom, HasNoneLeft, KeepsFound, LeavesNoMore};

use crate::{Names, Store};
use kept_jobs::KeepError;
use std::alloc::Global;

/// The jobs that were found, and where new ones go on.
#[derive(Drop)]
pub struct FoundJobs {
    /// The numbers of the whole files, by rising number.
    pub jobs: Vec<u64>,
    /// The numbers of the files of failed jobs, in any order.
    pub failed: Vec<u64>,
    /// A number above all of them. None where one of them is the greatest that there is.
    pub next: Option<u64>,
}

/// Finds the jobs of a folder that a crash may have left, takes the temporary files away, and answers a number above all that are there. It
/// may crash too.
pub fn recover<S: Store>(alloc: Global, store: &mut S) -> Result<FoundJobs, KeepError>
    // The octets of each whole file are on the disk. A name may still be missing there, where only the process ended.
    requires contents { ContentsAreThere S.files store.old (S.may_leave store.old) }

    // Exactly the jobs that the folder has, each once.
    ensures jobs { IfOk result (λ found. ListsJobs S.files store.old found.jobs.items) }
    ensures rising { IfOk result (λ found. IsNonDecreasing found.jobs.items) }
    ensures failed { IfOk result (λ found. ListsFailed S.files store.old found.failed.items) }
    ensures kept { OnOk result
        (KeepsFound S.files store.old store.new (S.may_leave store.new)) }
    ensures free { IfOk result (λ found. IfSome found.next (λ next.
        GoesOnFrom S.files store.new (S.may_leave store.new) next)) }
    ensures full { IfOk result (λ found. IfNone found.next (HasNoneLeft S.files store.old)) }

    // A crash at any moment leaves what a crash before the call might have left.
    ensures any_moment { LeavesNoMore S.moment S.left_since S.may_leave store.old store.new }
    ensures same { KeepsJobs S.files store.old store.new }
    ensures cause { HasCause (S.faults store.old) (S.faults store.new) result }
{
    store.clear_partials()?;
    store.sync_names()?;
    let Names { mut jobs, failed } = store.names(alloc)?;
    jobs.sort_unstable();
    let next = number_above_both(&jobs, &failed);
    Ok(FoundJobs { jobs, failed, next })
}

/// A number above all of these, not below the first. None where one of them is the greatest that there is.
fn number_above(first: u64, numbers: &[u64]) -> Option<u64>
    ensures first { IfSome result (λ next. first ≤ next) }
    ensures above { IfSome result (λ next. IsAbove next numbers.now) }
    ensures none { IfNone result (HasGreatest numbers.now) }
{
    let mut next = first;
    for number in numbers {
        if *number >= next {
            next = number.checked_add(1)?;
        }
    }
    Some(next)
}

/// A number above all of both. None where one of them is the greatest that there is.
fn number_above_both(jobs: &[u64], failed: &[u64]) -> Option<u64>
    ensures jobs { IfSome result (λ next. IsAbove next jobs.now) }
    ensures failed { IfSome result (λ next. IsAbove next failed.now) }
    ensures none { IfNone result (HasGreatest jobs.now ⊎ HasGreatest failed.now) }
{
    let next = number_above(0, jobs)?;
    number_above(next, failed)
}
