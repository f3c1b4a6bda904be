//! Kept jobs are fed to a spool.

ghost use Rattle.std.specs.Prelude.{◌≡◌, ◌<◌, ℕ, None, IfErr, IfOk, IfSome};
ghost use Rattle.std.specs.List.Sorted.{IsNonDecreasing};
ghost use Rattle.kept_jobs.specs.Folder.{HasCause};
ghost use Rattle.job_store.specs.Files.{KeepsJobs, ListsJobs, SameFiles, whole_told};
ghost use Rattle.job_store.specs.Kept.{ContentsAreThere, LeavesNoMore};
ghost use Rattle.kept_recovery.specs.Feeding.{Feeds, FeedsAll};

use job_heads::HeadFault;
use job_store::{FoundJobs, Store, read_sender, recover};
use kept_jobs::KeepError;
use request_session::{OctetFault, OctetWrite, Requests, SessionEnd, serve_by};
use std::alloc::{AllocError, Global};
use std::sync::Wait;

/// What came of feeding a kept job. Nothing was asked of the spool but where it was served, and its file stays as it is in each case.
#[derive(Clone, Copy, Debug, PartialEq, Eq)]
pub enum Fed {
    /// It was served as a session of its sender, which ended so.
    Served(SessionEnd),
    /// Its file doesn't begin with a head of this version.
    Headless(HeadFault),
    /// It has no whole file.
    Absent,
    /// Its file isn't opened.
    Unopened(KeepError),
    /// A read failed before the end of its head.
    Unreadable,
}

/// Takes all octets: nobody waits for an answer.
#[derive(Drop)]
struct Writer {
    /// Never more.
    faults: u64,
}

impl OctetWrite for Writer {
    ghost written = { λ _. None };

    ghost faults = { λ writer. writer.faults };

    fn write(&mut self, octets: &[u8]) -> Result<usize, OctetFault> {
        Ok(octets.len())
    }
}

/// Feeds a kept job to a spool: what stands behind the head of its file is served as a session of the sender that the head names. It waits
/// where the spool does.
pub fn feed_one<S: Store, Q: Requests, R: Wait>(
    rt: &R,
    alloc: Global,
    store: &mut S,
    spool: &mut Q,
    job: u64,
) -> Fed
    ensures fed { Feeds Q.carries Q.ends
        (whole_told S.files store.old job) result spool.old spool.new }
    ensures files { SameFiles S.files store.old store.new }
    ensures any_moment { LeavesNoMore S.moment S.left_since S.may_leave store.old store.new }
    ensures failed { result ≡ Fed.Unopened KeepError.Failed
        → S.faults store.old < S.faults store.new }
{
    let mut reader = match store.open(job) {
        Ok(Some(reader)) => reader,
        Ok(None) => return Fed::Absent,
        Err(error) => return Fed::Unopened(error),
    };
    let sender = match read_sender(&mut reader) {
        Ok(Ok(sender)) => sender,
        Ok(Err(fault)) => return Fed::Headless(fault),
        Err(OctetFault) => return Fed::Unreadable,
    };
    let mut writer = Writer { faults: 0 };
    Fed::Served(serve_by(rt, alloc, spool, sender, &mut reader, &mut writer))
}

/// Feeds kept jobs to a spool, one after another, as `feed_one` does. Answers what came of each. Fails where memory for that is refused.
pub fn feed<S: Store, Q: Requests, R: Wait>(
    rt: &R,
    alloc: Global,
    store: &mut S,
    spool: &mut Q,
    jobs: &[u64],
) -> Result<Vec<Fed>, AllocError>
    ensures fed { IfOk result (λ fed. FeedsAll Q.carries Q.ends
        (whole_told S.files store.old) jobs.now fed.items spool.old spool.new) }
    ensures files { SameFiles S.files store.old store.new }
    ensures any_moment { LeavesNoMore S.moment S.left_since S.may_leave store.old store.new }
{
    let mut fed = Vec::new(alloc);
    for job in jobs {
        fed.push(feed_one(rt, alloc, store, spool, *job))?;
    }
    Ok(fed)
}

/// What a start found and fed.
#[derive(Drop)]
pub struct Recovered {
    /// The numbers that were found.
    pub numbers: FoundJobs,
    /// What came of each job, in their order.
    pub fed: Vec<Fed>,
}

/// Feeds a spool with exactly the jobs that a folder has, by rising number.
pub fn recover_all<S: Store, Q: Requests, R: Wait>(
    rt: &R,
    alloc: Global,
    store: &mut S,
    spool: &mut Q,
) -> Result<Recovered, KeepError>
    requires contents { ContentsAreThere S.files store.old (S.may_leave store.old) }

    ensures jobs { IfOk result
        (λ found. ListsJobs S.files store.old found.numbers.jobs.items) }
    ensures rising { IfOk result (λ found. IsNonDecreasing found.numbers.jobs.items) }
    ensures fed { IfOk result
        (λ found. FeedsAll Q.carries Q.ends (whole_told S.files store.old) found.numbers.jobs.items
        found.fed.items spool.old spool.new) }

    ensures any_moment { LeavesNoMore S.moment S.left_since S.may_leave store.old store.new }
    ensures same { KeepsJobs S.files store.old store.new }
{
    let numbers = recover(alloc, store)?;
    let fed = feed(rt, alloc, store, spool, numbers.jobs.as_slice())?;
    Ok(Recovered { numbers, fed })
}
