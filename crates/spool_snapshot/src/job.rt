//! What a snapshot has of a held job.

ghost use Rattle.std.specs.Prelude.{◌≡◌, IfOk, option_copied};
ghost use Rattle.control_file.specs.View.{contents};
ghost use Rattle.held_jobs.specs.Jobs.{contents_of};
ghost use Rattle.lpd_values.specs.Contents.{Contents};
ghost use Rattle.spool_snapshot.specs.Jobs.{host_in, octets_of, seen_job, user_in};

use control_file::Control;
use held_jobs::{DataFile, Job, Phase};
use lpd_values::Octets;
use std::alloc::{AllocError, Global};

/// What a snapshot has of a held job.
#[derive(Drop)]
pub struct SeenJob {
    /// Its number of acceptance.
    pub number: u64,
    /// Its sender.
    pub sender: u32,
    /// The number of its queue.
    pub queue: u32,
    /// How far it is.
    pub phase: Phase,
    /// How many pages were lent to it so far.
    pub granted: u32,
    /// Whether a page is lent to it.
    pub lent: bool,
    /// The octets of its data files that have begun; 2 to the 64th less 1 where they are more.
    pub octets: u64,
    /// How many of its places were handed to a printer.
    pub handed: u64,
    /// How many of its places came back from a printer.
    pub back: u64,
    /// The user that its control file names; no octet where that isn't there.
    pub user: Octets,
    /// The host that its control file names; no octet where that isn't there.
    pub host: Octets,
}

/// The octets of these files.
fn octets_of(files: &[DataFile]) -> u64
    ensures { result ≡ octets_of files.now }
{
    let Some((first, rest)) = files.split_first() else {
        return 0;
    };
    first.count.saturating_add(octets_of(rest))
}

/// A copy of the user that a control file names.
fn copy_user(alloc: Global, control: Option<&Control>) -> Result<Octets, AllocError>
    ensures { IfOk result (λ user. user ≡ user_in (contents_of (option_copied control.entry))) }
{
    match control {
        Some(control) => Octets::copy_of(alloc, control.user.as_slice()),
        None => Ok(Octets::from_vec(Vec::new(alloc))),
    }
}

/// A copy of the host that a control file names.
fn copy_host(alloc: Global, control: Option<&Control>) -> Result<Octets, AllocError>
    ensures { IfOk result (λ host. host ≡ host_in (contents_of (option_copied control.entry))) }
{
    match control {
        Some(control) => Octets::copy_of(alloc, control.host.as_slice()),
        None => Ok(Octets::from_vec(Vec::new(alloc))),
    }
}

/// What a snapshot has of this job.
///
/// AllocError where memory for its user or its host is refused.
pub fn seen_job(alloc: Global, job: &Job) -> Result<SeenJob, AllocError>
    ensures { IfOk result (λ seen. seen ≡ seen_job job.now) }
{
    Ok(SeenJob {
        number: job.number(),
        sender: job.sender(),
        queue: job.queue(),
        phase: job.phase(),
        granted: job.granted(),
        lent: job.is_lent(),
        octets: octets_of(job.files()),
        handed: job.handed(),
        back: job.back(),
        user: copy_user(alloc, job.control())?,
        host: copy_host(alloc, job.control())?,
    })
}
