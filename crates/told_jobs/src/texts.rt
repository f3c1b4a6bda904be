//! The texts that answer a question for a queue's state and a removal.

ghost use Rattle.std.specs.Prelude.{◌≡◌, ◌++◌, [], IfOk, OnOk, if◌then◌else◌, length};
ghost use Rattle.lpd_values.specs.Choice as C;
ghost use Rattle.lpd_values.specs.Texts as T;
ghost use Rattle.told_jobs.specs.Jobs.{FirstOf};

use crate::choice::{is_active, is_picked, is_shown, may_remove};
use crate::lines::{put_count, put_job_lines, put_removed_line, put_word};
use crate::told::{ToldJob, ToldJobs};
use lpd_values::Octets;
use std::alloc::{AllocError, Global};

/// What is asked of a queue's state.
#[derive(Clone, Copy)]
pub struct StateQuery<'a> {
    /// The number of the queue.
    pub queue: u32,
    /// The words that choose among its jobs; all listed ones are shown where there are none.
    pub list: &'a [Octets],
    /// Whether a line is shown for each file that a job prints.
    pub long: bool,
}

/// What the first line of a queue's state shows beside how many jobs are listed.
#[derive(Clone, Copy)]
pub struct Shown<'a> {
    /// The name of the queue.
    pub name: &'a [u8],
    /// How many printers serve it.
    pub serving: usize,
    /// How many of these are stopped.
    pub stopped: usize,
}

/// How many jobs of a queue are received and haven't ended.
pub fn listed<J: ToldJobs>(jobs: &J, queue: u32) -> usize
    ensures { result ≡ length (C.listed J.told queue (J.jobs jobs.now)) }
{
    let mut count = 0;
    for i in 0..jobs.len() {
        if jobs.job(i).is_listed(queue) {
            count += 1;
        }
    }
    count
}

/// The place of the job of a queue that is being printed and was accepted first.
pub fn active<J: ToldJobs>(jobs: &J, queue: u32) -> Option<usize>
    ensures { FirstOf (λ job. C.is_active queue (J.told job)) (J.jobs jobs.now) result }
{
    for i in 0..jobs.len() {
        if is_active(queue, jobs.job(i)) {
            return Some(i);
        }
    }
    None
}

/// Puts the lines of a job behind a text, where the answer shows it.
fn put_where_shown<J: ToldJob>(
    alloc: Global,
    text: &mut Vec<u8>,
    query: &StateQuery,
    job: &J,
) -> Result<(), AllocError>
    ensures { OnOk result (text.new.items ≡ text.old.items
        ++ (if C.is_shown query.now.queue query.now.list.now (J.told job.now)
        then T.job_lines query.now.long (J.told job.now) else [])) }
{
    if is_shown(query.queue, query.list, job) {
        put_job_lines(alloc, text, query.long, job)?;
    }
    Ok(())
}

/// Puts the lines of the jobs of a queue that a list chooses behind a text.
fn put_listing<J: ToldJobs>(
    alloc: Global,
    text: &mut Vec<u8>,
    jobs: &J,
    query: &StateQuery,
) -> Result<(), AllocError>
    ensures { OnOk result (text.new.items ≡ text.old.items
        ++ T.listing J.told query.now.queue query.now.list.now query.now.long (J.jobs jobs.now)) }
{
    for i in 0..jobs.len() {
        put_where_shown(alloc, text, query, jobs.job(i))?;
    }
    Ok(())
}

/// The lines of the jobs of a queue that a list chooses, of all listed ones where it is empty; in the long form with a line
/// for each file that a job prints.
///
/// AllocError where memory for them is refused.
pub fn listing<J: ToldJobs>(
    alloc: Global,
    jobs: &J,
    query: &StateQuery,
) -> Result<Vec<u8>, AllocError>
    ensures { IfOk result (λ text. text.items
        ≡ T.listing J.told query.now.queue query.now.list.now query.now.long (J.jobs jobs.now)) }
{
    let mut text = Vec::new(alloc);
    put_listing(alloc, &mut text, jobs, query)?;
    Ok(text)
}

/// Puts the first line of the state of a queue behind a text, of which so many jobs are listed.
fn put_head(alloc: Global, text: &mut Vec<u8>, shown: &Shown, jobs: usize) -> Result<(), AllocError>
    ensures { OnOk result (text.new.items ≡ text.old.items
        ++ T.queue_line shown.now.name.now jobs shown.now.serving shown.now.stopped) }
{
    put_word(text, b"queue ".as_slice(), shown.name)?;
    put_count(alloc, text, b" jobs ".as_slice(), jobs as u128)?;
    put_count(alloc, text, b" printers ".as_slice(), shown.serving as u128)?;
    put_count(alloc, text, b" stopped ".as_slice(), shown.stopped as u128)?;
    text.push(b'\n')?;
    Ok(())
}

/// What a queue's state is answered with, where this is shown of the queue: a line for it, and then its listing.
///
/// AllocError where memory for it is refused.
pub fn state_text<J: ToldJobs>(
    alloc: Global,
    jobs: &J,
    query: &StateQuery,
    shown: &Shown,
) -> Result<Vec<u8>, AllocError>
    ensures { IfOk result (λ text. text.items
        ≡ T.state_text J.told query.now.queue shown.now.name.now shown.now.serving shown.now.stopped
        query.now.list.now query.now.long (J.jobs jobs.now)) }
{
    let mut text = Vec::new(alloc);
    put_head(alloc, &mut text, shown, listed(jobs, query.queue))?;
    put_listing(alloc, &mut text, jobs, query)?;
    Ok(text)
}

/// Puts the line of a job behind a text, where a removal takes it.
fn put_where_taken<J: ToldJob>(
    text: &mut Vec<u8>,
    is_taken: bool,
    job: &J,
) -> Result<(), AllocError>
    ensures { OnOk result (text.new.items ≡ text.old.items
        ++ (if is_taken then T.removed_line (J.told job.now) else [])) }
{
    if is_taken {
        put_removed_line(text, job)?;
    }
    Ok(())
}

/// Puts the line of the active job of a queue behind a text, where an agent may remove it.
fn put_active<J: ToldJobs>(
    text: &mut Vec<u8>,
    jobs: &J,
    queue: u32,
    agent: &[u8],
) -> Result<(), AllocError>
    ensures { OnOk result (text.new.items ≡ text.old.items
        ++ T.removed_lines J.told (C.chosen J.told queue agent.now [] (J.jobs jobs.now))) }
{
    let Some(i) = active(jobs, queue) else {
        return Ok(());
    };
    let job = jobs.job(i);
    put_where_taken(text, may_remove(agent, job), job)
}

/// Puts a line for each job behind a text that a removal by these words takes.
fn put_picked<J: ToldJobs>(
    text: &mut Vec<u8>,
    jobs: &J,
    queue: u32,
    agent: &[u8],
    words: &[Octets],
) -> Result<(), AllocError>
    ensures { OnOk result (text.new.items ≡ text.old.items
        ++ T.removed_lines J.told (C.picked J.told queue agent.now words.now (J.jobs jobs.now))) }
{
    for i in 0..jobs.len() {
        let job = jobs.job(i);
        put_where_taken(text, is_picked(queue, agent, words, job), job)?;
    }
    Ok(())
}

/// Puts a line for each job behind a text that an agent removes by a list.
fn put_removed<J: ToldJobs>(
    text: &mut Vec<u8>,
    jobs: &J,
    queue: u32,
    agent: &[u8],
    list: &[Octets],
) -> Result<(), AllocError>
    ensures { OnOk result (text.new.items ≡ text.old.items
        ++ T.removed_lines J.told (C.chosen J.told queue agent.now list.now (J.jobs jobs.now))) }
{
    match list {
        [] => put_active(text, jobs, queue, agent),
        _ => put_picked(text, jobs, queue, agent, list),
    }
}

/// What a removal is answered with: a line for each job that the agent removes by the list, or of the active job alone where
/// it is empty; or a line that nothing was removed.
///
/// AllocError where memory for it is refused.
pub fn removal_text<J: ToldJobs>(
    alloc: Global,
    jobs: &J,
    queue: u32,
    agent: &[u8],
    list: &[Octets],
) -> Result<Vec<u8>, AllocError>
    ensures { IfOk result (λ text. text.items
        ≡ T.removal_text J.told queue agent.now list.now (J.jobs jobs.now)) }
{
    let mut text = Vec::new(alloc);
    put_removed(&mut text, jobs, queue, agent, list)?;
    if text.is_empty() {
        text.extend_from_slice(b"nothing removed\n".as_slice())?;
    }
    Ok(text)
}
