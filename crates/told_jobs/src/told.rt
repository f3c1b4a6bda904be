//! What a text needs of a job, and of jobs.

ghost use Rattle.std.specs.Prelude.{◌≡◌, ◌≤◌, ◌<◌, IfOk, MatchOption, None, Some, length, map, slice_get};
ghost use Rattle.lpd_values.specs.Choice.{is_listed};
ghost use Rattle.lpd_values.specs.Told.{host_in, number_in, user_in};
ghost use Rattle.control_file.specs.View.{contents};

use control_file::Control;
use lpd_values::FileName;
use std::alloc::{AllocError, Global};

/// A data file, as it is told of.
pub trait ToldFile {
    ghost use Rattle.lpd_values.specs.Told as O;

    /// What is told of it.
    ghost told: { Self → O.ToldFile };

    /// Its name.
    fn name(&self) -> &FileName
        ensures { result.now ≡ (told self.now).name };

    /// Its length in octets.
    fn count(&self) -> u64
        ensures { result ≡ (told self.now).count };
}

/// A held job, as it is told of.
pub trait ToldJob {
    ghost use Rattle.lpd_values.specs.Told.{Told};

    /// One of its data files.
    type File: ToldFile;

    /// What is told of it.
    ghost told: { Self → Told };

    /// Whether it is of this queue, is received and hasn't ended.
    fn is_listed(&self, queue: u32) -> bool
        ensures { result ≡ is_listed queue (told self.now) };

    /// Its control file, if that came.
    fn control(&self) -> Option<&Control>
        ensures { MatchOption result ((told self.now).control ≡ None)
            (λ c. (told self.now).control ≡ Some (contents c.now)) };

    /// Its data files, in order of beginning.
    fn files(&self) -> &[Self::File]
        ensures { map Self.File.told result.now ≡ (told self.now).files };

    /// How many of its places were handed to a printer.
    fn handed(&self) -> u64
        ensures { result ≡ (told self.now).handed };

    /// How many of its places were not handed out.
    ///
    /// AllocError where memory to count them is refused.
    fn left(&self, alloc: Global) -> Result<u128, AllocError>
        ensures { IfOk result (λ n. n ≡ (told self.now).left) };
}

/// Held jobs in order of acceptance.
pub trait ToldJobs {
    ghost use Rattle.std.specs.Prelude.{List};
    ghost use Rattle.lpd_values.specs.Told.{Told};

    /// One of them.
    type Job: ToldJob;

    /// What is known of a job.
    ghost Known: { Type 0 };

    /// What is told of that.
    ghost told: { Known → Told };

    /// What is known of each.
    ghost jobs: { Self → List Known };

    /// How many they are.
    fn len(&self) -> usize
        ensures { result ≡ length (jobs self.now) };

    /// The job at a place.
    fn job(&self, i: usize) -> &Self::Job
        requires { i < length (jobs self.now) }
        ensures { ((job : Known) × (slice_get (jobs self.now) i ≡ Some job)
            × (Self.Job.told result.now ≡ told job)) };
}

/// The job number, as its control file has it, or 0 where there is none.
pub(crate) fn number_of<J: ToldJob>(job: &J) -> u16
    ensures value { result ≡ number_in (J.told job.now).control }
    ensures within { result ≤ 999 }
{
    job.control().map_or(0, |control| control.number)
}

/// The user, as its control file has it, or nothing where there is none.
pub(crate) fn user_of<J: ToldJob>(job: &J) -> &[u8]
    ensures { result.now ≡ user_in (J.told job.now).control }
{
    job.control().map_or(&[], |control| control.user.as_slice())
}

/// The host, as its control file has it, or nothing where there is none.
pub(crate) fn host_of<J: ToldJob>(job: &J) -> &[u8]
    ensures { result.now ≡ host_in (J.told job.now).control }
{
    job.control().map_or(&[], |control| control.host.as_slice())
}
