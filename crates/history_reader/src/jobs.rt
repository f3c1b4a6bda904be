//! What a history says of a job.

ghost use Rattle.std.specs.Prelude.{◌≡◌, ◌==◌, ◌≤◌, ◌<◌, ◌+◌, ◌^◌, ◌++◌, ◌∷◌, [], true, IfOk, OnOk, length, map};
ghost use Rattle.std.specs.List.{list_any};
ghost use Rattle.spool_history.specs.Acts as A;
ghost use Rattle.spool_history.specs.Now as N;
ghost use Rattle.spool_history.specs.Steps as T;
ghost use Rattle.spool_history.specs.Said as D;
ghost use Rattle.account.specs.Seen.{history, act_seen, event_seen, turn_seen};
ghost use Rattle.history_reader.specs.Seen.{file_seen, job_seen, opening_seen};

use crate::state::{File, Job, Opening};
use account::{Act, Entry, Outline, Progress, Turn};
use std::alloc::{AllocError, Global};

/// Whether a number is among these.
fn is_named(number: u64, jobs: &[u64]) -> bool
    ensures { result ≡ list_any (λ k. k == number) jobs.now }
{
    jobs.iter().any(|job| *job == number)
}

/// Puts a page at the end of the last file.
fn put_in_last(files: &mut [File], page: Outline) -> Result<(), AllocError>
    ensures { OnOk result (map file_seen files.new ≡ A.at_last (λ f. record f {
      pages = f.pages
          ++ page ∷ [];
    }) (map file_seen files.old)) }
{
    if let Some(file) = files.last_mut() {
        file.pages.push(page)?;
    }
    Ok(())
}

/// Ends the last file.
fn end_last(files: &mut [File])
    ensures { map file_seen files.new
        ≡ A.at_last (λ f. record f { ended = true }) (map file_seen files.old) }
{
    if let Some(file) = files.last_mut() {
        file.ended = true;
    }
}

impl Job {
    /// What an act makes of its job.
    fn act(&mut self, alloc: Global, act: &Act) -> Result<(), AllocError>
        requires { self.old.granted < 2 ^ 63 }
        ensures value { OnOk result (job_seen self.new
            ≡ T.acted (act_seen act.now) (job_seen self.old)) }
        ensures granted { OnOk result (self.new.granted ≤ self.old.granted + 1) }
        ensures handed { OnOk result (self.new.handed ≡ self.old.handed) }
        ensures back { OnOk result (self.new.back ≡ self.old.back) }
    {
        match act {
            Act::Granted => {
                self.granted += 1;
                self.lent = true;
            }
            Act::Began { name, count } => self.files.push(File {
                name: *name,
                count: *count,
                pages: Vec::new(alloc),
                ended: false,
            })?,
            Act::Put { page, .. } => {
                self.lent = false;
                put_in_last(self.files.as_mut_slice(), *page)?;
            }
            Act::FileEnded { .. } => end_last(self.files.as_mut_slice()),
            Act::Controlled { control, .. } => self.control = Some(control.copy(alloc)?),
            Act::Aborted => {
                self.lent = false;
                self.ended = true;
            }
        }
        Ok(())
    }

    /// What a turn of a printer makes of the job whose page it is.
    fn turn(&mut self, turn: Turn)
        requires handed { self.old.handed < 2 ^ 63 }
        requires back { self.old.back < 2 ^ 63 }
        ensures value { job_seen self.new ≡ T.turned (turn_seen turn) (job_seen self.old) }
        ensures granted { self.new.granted ≡ self.old.granted }
        ensures handed { self.new.handed ≤ self.old.handed + 1 }
        ensures back { self.new.back ≤ self.old.back + 1 }
    {
        match turn {
            Turn::Handed => self.handed += 1,
            Turn::Printed(Progress::Done) | Turn::Failed => {
                self.back += 1;
                self.ended = true;
            }
            Turn::Printed(_) => self.back += 1,
        }
    }

    /// What an entry makes of a job.
    pub fn change(&mut self, alloc: Global, entry: &Entry) -> Result<(), AllocError>
        requires granted { self.old.granted < 2 ^ 63 }
        requires handed { self.old.handed < 2 ^ 63 }
        requires back { self.old.back < 2 ^ 63 }
        ensures value { OnOk result (job_seen self.new
            ≡ T.change (event_seen entry.now) (job_seen self.old)) }
        ensures granted { OnOk result (self.new.granted ≤ self.old.granted + 1) }
        ensures handed { OnOk result (self.new.handed ≤ self.old.handed + 1) }
        ensures back { OnOk result (self.new.back ≤ self.old.back + 1) }
    {
        match entry {
            Entry::OfJob(job, act) if *job == self.number => self.act(alloc, act)?,
            Entry::AtPrinter(_, sheet, turn) if sheet.job == self.number => self.turn(*turn),
            Entry::Removed(_, jobs) if is_named(self.number, jobs.as_slice()) => self.ended = true,
            Entry::Closed => self.ended = true,
            _ => {}
        }
        Ok(())
    }
}

/// What a history says of a job that it opened.
pub fn job_in(alloc: Global, entries: &[Entry], opening: &Opening) -> Result<Job, AllocError>
    ensures value { IfOk result (λ v. job_seen v
        ≡ N.job_of (history entries.now) (opening_seen opening.now)) }
    ensures granted { IfOk result (λ v. v.granted ≤ length entries.now) }
    ensures handed { IfOk result (λ v. v.handed ≤ length entries.now) }
    ensures back { IfOk result (λ v. v.back ≤ length entries.now) }
{
    let Some((entry, before)) = entries.split_first() else {
        return Ok(Job {
            number: opening.job,
            sender: opening.sender,
            queue: opening.queue,
            granted: 0,
            lent: false,
            files: Vec::new(alloc),
            control: None,
            handed: 0,
            back: 0,
            ended: false,
        });
    };
    let mut job = job_in(alloc, before, opening)?;
    job.change(alloc, entry)?;
    Ok(job)
}
