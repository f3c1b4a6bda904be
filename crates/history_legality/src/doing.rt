//! What the session of a job may do.

ghost use Rattle.std.specs.Prelude.{◌≡◌, ◌+◌, ◌≤◌, ◌↔◌, ◌⊎◌, true, Some, None, IsTrue, map};
ghost use Rattle.config_values.specs.Config as S;
ghost use Rattle.spool_history.specs.Events as E;
ghost use Rattle.spool_history.specs.Acts as A;
ghost use Rattle.spool_history.specs.Legal as L;
ghost use Rattle.control_file.specs.View.{contents};
ghost use Rattle.account.specs.Seen.{act_seen, octets};
ghost use Rattle.history_reader.specs.Seen.{control_seen, file_seen, job_seen};

use account::{Act, Outline};
use config_values::Config;
use control_file::Control;
use history_reader::{File, Job, all_begun, is_begun, is_open_in};
use lpd_values::{FileName, MAX_FILES};

/// Whether a job is being received.
fn is_receiving(job: &Job) -> bool
    ensures { IsTrue result ↔ L.IsReceiving (job_seen job.now) }
{
    !job.ended && !job.is_received()
}

/// Whether a job may ask for a page.
fn may_ask(config: &Config, job: &Job) -> bool
    ensures { IsTrue result ↔ L.JobMay octets config.now E.Act.Granted (job_seen job.now) }
{
    is_receiving(job)
        && is_open_in(job.files.as_slice())
        && !job.lent
        && job.granted < u64::from(config.limit_of(job.queue))
}

/// How many pages so many octets take.
fn pages_for(config: &Config, count: u64) -> u128
    ensures { result ≡ L.pages_for config.now.page_size count }
{
    let size = u128::from(config.page_size());
    (u128::from(count) + (size - 1)) / size
}

/// Whether a job has pages for so many octets more.
fn has_pages_for(config: &Config, job: &Job, count: u64) -> bool
    ensures { IsTrue result ↔ L.IsWithinLimit config.now count (job_seen job.now) }
{
    let limit = u128::from(config.limit_of(job.queue));
    let granted = u128::from(job.granted);
    granted <= limit && pages_for(config, count) <= limit - granted
}

/// Whether a data file of this name and so many octets may begin.
fn may_begin(config: &Config, job: &Job, name: &FileName, count: u64) -> bool
    ensures { IsTrue result
        ↔ L.JobMay octets config.now (E.Act.Began name.now count) (job_seen job.now) }
{
    is_receiving(job)
        && !is_open_in(job.files.as_slice())
        && !is_begun(name, job.files.as_slice())
        && job.files.len() < MAX_FILES
        && has_pages_for(config, job, count)
}

/// Whether a page is the next one of a file.
fn is_next_page(config: &Config, file: &File, number: u64, page: &Outline) -> bool
    ensures { IsTrue result
        ↔ L.IsNextPage config.now.page_size number page.now.length (file_seen file.now) }
{
    let size = u128::from(config.page_size());
    let start = u128::from(number) * size;
    let count = u128::from(file.count);
    if file.pages.len() as u64 != number || count <= start {
        return false;
    }
    let left = count - start;
    let most = if left < size { left } else { size };
    u128::from(page.length) == most
}

/// Whether a file has all its pages.
fn has_pages(config: &Config, file: &File) -> bool
    ensures { IsTrue result ↔ L.HasPages config.now.page_size (file_seen file.now) }
{
    file.pages.len() as u128 == pages_for(config, file.count)
}

/// Whether the last file has this number and is open, and the page is its next one.
fn is_open_for(config: &Config, files: &[File], place: u64, number: u64, page: &Outline) -> bool
    ensures { IsTrue result
        ↔ L.HasOpen (map file_seen files.now) place
        (L.IsNextPage config.now.page_size number page.now.length) }
{
    let Some((last, before)) = files.split_last() else {
        return false;
    };
    if before.len() as u64 != place || last.ended {
        return false;
    }
    is_next_page(config, last, number, page)
}

/// Whether the last file has this number and is open, and has all its pages.
fn is_open_at_end(config: &Config, files: &[File], place: u64) -> bool
    ensures { IsTrue result
        ↔ L.HasOpen (map file_seen files.now) place (L.HasPages config.now.page_size) }
{
    let Some((last, before)) = files.split_last() else {
        return false;
    };
    if before.len() as u64 != place || last.ended {
        return false;
    }
    has_pages(config, last)
}

/// Whether a page may be put into a file of a job.
fn may_put(config: &Config, job: &Job, place: u64, number: u64, page: &Outline) -> bool
    ensures { IsTrue result
        ↔ L.JobMay octets config.now (E.Act.Put place number page.now) (job_seen job.now) }
{
    is_receiving(job) && job.lent && is_open_for(config, job.files.as_slice(), place, number, page)
}

/// Whether a file but the last is open.
fn has_open_before_last(files: &[File]) -> bool
    ensures { result
        ≡ A.is_open_in (A.at_last (λ f. record f { ended = true }) (map file_seen files.now)) }
{
    match files.split_last() {
        None => false,
        Some((_, before)) => is_open_in(before),
    }
}

/// Whether a job is received once its last file ended.
fn is_whole_by_end(job: &Job) -> bool
    ensures { result
        ≡ A.is_whole (control_seen job.now.control) (A.at_last (λ f. record f { ended = true })
        (map file_seen job.now.files.items)) }
{
    match &job.control {
        None => false,
        Some(control) => {
            !has_open_before_last(job.files.as_slice())
                && all_begun(control.prints.as_slice(), job.files.as_slice())
        }
    }
}

/// Whether a file of a job may end, and make it whole or not.
fn may_end_file(config: &Config, job: &Job, place: u64, whole: bool) -> bool
    ensures { IsTrue result
        ↔ L.JobMay octets config.now (E.Act.FileEnded place whole) (job_seen job.now) }
{
    is_receiving(job)
        && !job.lent
        && is_open_at_end(config, job.files.as_slice(), place)
        && whole == is_whole_by_end(job)
}

/// Whether a job is received once it has this control file.
fn is_whole_by_control(job: &Job, control: &Control) -> bool
    ensures { result
        ≡ A.is_whole (Some (contents control.now)) (map file_seen job.now.files.items) }
{
    !is_open_in(job.files.as_slice()) && all_begun(control.prints.as_slice(), job.files.as_slice())
}

/// Whether this control file of a job may come, and make it whole or not.
fn may_control(job: &Job, control: &Control, whole: bool) -> bool
    ensures { IsTrue result
        ↔ L.IsReceiving (job_seen job.now) × ((job_seen job.now).control ≡ None)
        × (whole ≡ A.is_whole (Some (contents control.now)) (job_seen job.now).files) }
{
    job.control.is_none() && is_receiving(job) && whole == is_whole_by_control(job, control)
}

/// Whether a job may be aborted.
fn may_abort(job: &Job) -> bool
    ensures { IsTrue result ↔ L.IsReceiving (job_seen job.now) ⊎ ((job.now.ended ≡ true)
        × (job.now.lent ≡ true)) }
{
    is_receiving(job) || (job.ended && job.lent)
}

/// Whether a job may do what an act says.
fn job_may(config: &Config, job: &Job, act: &Act) -> bool
    ensures { IsTrue result ↔ L.JobMay octets config.now (act_seen act.now) (job_seen job.now) }
{
    match act {
        Act::Granted => may_ask(config, job),
        Act::Began { name, count } => may_begin(config, job, name, *count),
        Act::Put { file, number, page } => may_put(config, job, *file, *number, page),
        Act::FileEnded { file, is_whole } => may_end_file(config, job, *file, *is_whole),
        Act::Controlled { control, is_whole } => may_control(job, control, *is_whole),
        Act::Aborted => may_abort(job),
    }
}

/// Whether a job of this number may do what an act says.
pub(crate) fn some_job_may(config: &Config, jobs: &[Job], number: u64, act: &Act) -> bool
    ensures { IsTrue result
        ↔ L.HasJob (map job_seen jobs.now) number (L.JobMay octets config.now (act_seen act.now)) }
{
    let Some((job, rest)) = jobs.split_first() else {
        return false;
    };
    if job.number == number && job_may(config, job, act) {
        return true;
    }
    some_job_may(config, rest, number, act)
}
