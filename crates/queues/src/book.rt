//! The book of held jobs.

ghost use Rattle.std.specs.Prelude.{◌≡◌, ◌≢◌, ◌↔◌, ◌+◌, ◌<◌, ◌≤◌, ◌++◌, ◌∷◌, ◌^◌, [], true, None, Some, All, IsTrue, IfOk, IfSome, IfNone, OnOk, OnErr, MatchOption, IsSome, ◌-◌, length, nat_eq, remove, slice_get};
ghost use Rattle.control_file.specs.View.{contents};
ghost use Rattle.lpd_values.specs.declared.limits.TheConstants.{MAX_FILES};
ghost use Rattle.page_chain.specs.Files.{names_of, page_at};
ghost use Rattle.page_chain.specs.Changes.{CanBegin, RefusedFor, AwaitsLast, IsReady, comes_again, next_place};
ghost use Rattle.indexmap.specs.IndexMap.{get, spare};
ghost use Rattle.held_jobs.specs.Jobs.{HeldJob, last_size};
ghost use Rattle.held_jobs.specs.Moves.{lent_facts, unlent_facts, back_facts, controlled_facts, told, begun_job, closed_file, changed, with_new, put_in, received_in, handed_in, again_in, drained_in, pages_of, unnamed_of};
ghost use Rattle.held_jobs.specs.Books.{IsIdle, job_at};
ghost use Rattle.queues.specs.declared.book.TheConstants.{MAX_JOBS, MAX_PAGES};

use crate::entry::Entry;
use control_file::Control;
use held_jobs::Job;
use indexmap::IndexMap;
use lpd_values::{FileName, MAX_FILES};
use page_chain::{Chain, ChainError, Place};
use page_nodes::Nodes;
use page_pool::{FilledPage, Pool};
use slab::Slab;
use std::alloc::{AllocError, Global};
use std::marker::Model;

/// The held jobs in order of acceptance, and all their pages.
///
/// A job is named by its place in the book, from 0; `find` gives it for a number of acceptance.
#[derive(Drop)]
pub struct Book {
    alloc: Global,
    /// The jobs by their numbers of acceptance.
    jobs: IndexMap<u64, Entry>,
    nodes: Nodes,
    /// The rows of the nodes that jobs have, each with the number of its job.
    rows: Slab<u64>,
    max_jobs: usize,
    pages: usize,
    page_size: usize,
}

impl Model for Book {
    ghost use Rattle.held_jobs.specs.Books.{Books};

    ghost Value = { Books };

    ghost use Rattle.queues.specs.Inside.{book_of, IsBook};

    ghost view = { λ b. book_of b.nodes b.jobs.entries b.max_jobs b.pages b.page_size };

    ghost invariant = { λ b. IsBook b.nodes b.rows b.jobs.entries b.max_jobs b.pages b.page_size };
}

/// The most jobs that a book may have room for.
pub const MAX_JOBS: usize = 1_024;

/// The most pages that it may have room for.
pub const MAX_PAGES: usize = 65_536;

/// The most rows that there are chains for: a slab may come with more places than were asked for.
const MAX_ROWS: usize = 65_536;

impl Book {
    /// A book with no job, with room for so many jobs and for so many pages of this size in all.
    ///
    /// AllocError where memory for them is refused.
    pub fn new(
        alloc: Global,
        max_jobs: usize,
        pages: usize,
        page_size: usize,
    ) -> Result<Book, AllocError>
        requires jobs { max_jobs ≤ MAX_JOBS }
        requires pages { pages ≤ MAX_PAGES }
        ensures { IfOk result (λ b. b ≡ record {
          jobs = [];
          stored = 0;
          max_jobs = max_jobs;
          pages = pages;
          page_size = page_size;
        }) }
    {
        let rows = Slab::with_capacity(alloc, max_jobs)?;
        let count = rows.capacity();
        if count > MAX_ROWS {
            return Err(AllocError);
        }
        Ok(Book {
            alloc,
            jobs: IndexMap::with_capacity(alloc, max_jobs)?,
            nodes: Nodes::new(alloc, pages, MAX_FILES * count)?,
            rows,
            max_jobs,
            pages,
            page_size,
        })
    }

    /// The allocator of the book.
    pub(crate) fn alloc(&self) -> Global {
        self.alloc
    }

    /// How many jobs are held.
    pub fn len(&self) -> usize
        ensures { result ≡ length self.now.jobs }
    {
        self.jobs.len()
    }

    /// How many pages are in the chains of all jobs.
    pub fn stored(&self) -> usize
        ensures { result ≡ self.now.stored }
    {
        self.pages - self.nodes.free()
    }

    /// The place of the job with this number.
    pub fn find(&self, number: u64) -> Option<usize>
        ensures found { IfSome result (λ i.
            (i < length self.now.jobs) × ((job_at self.now i).facts.number ≡ number)) }
        ensures absent { IfNone result
            (All (λ (j : HeldJob). j.facts.number ≢ number) self.now.jobs) }
    {
        self.jobs.get_index_of(&number)
    }

    /// What is known of the job at a place.
    pub fn job(&self, i: usize) -> &Job
        requires { i < length self.now.jobs }
        ensures { result.now ≡ (job_at self.now i).facts }
    {
        let entry = &self.jobs[i];
        &entry.job
    }

    /// Whether a file of it is open.
    pub fn is_open(&self, i: usize) -> bool
        requires { i < length self.now.jobs }
        ensures { result ≡ (job_at self.now i).chain.is_open }
    {
        let entry = &self.jobs[i];
        entry.chain.is_open()
    }

    /// Why it would refuse a file of this name: a file has the name, else it has as many files as it may have.
    pub fn refusal(&self, i: usize, name: &FileName) -> Option<ChainError>
        requires { i < length self.now.jobs }
        ensures { MatchOption result
            (CanBegin (names_of (job_at self.now i).chain.files) MAX_FILES name.now)
            (RefusedFor (names_of (job_at self.now i).chain.files) MAX_FILES name.now) }
    {
        let entry = &self.jobs[i];
        entry.chain.refusal(name)
    }

    /// Its next place, if one is still to be handed out.
    pub fn next_place(&self, i: usize) -> Option<Place>
        requires { i < length self.now.jobs }
        ensures { result ≡ slice_get (job_at self.now i).chain.places 0 }
    {
        let entry = &self.jobs[i];
        entry.chain.next_place()
    }

    /// Whether a place of it is still to be handed out and its page is there.
    pub fn is_ready(&self, i: usize) -> bool
        requires { i < length self.now.jobs }
        ensures { IsTrue result ↔ IsReady (job_at self.now i).chain }
    {
        let entry = &self.jobs[i];
        entry.chain.is_ready(&self.nodes)
    }

    /// Whether the page of the place that was handed out last comes again.
    pub fn comes_again(&self, i: usize) -> bool
        requires { i < length self.now.jobs }
        ensures { result
            ≡ comes_again (job_at self.now i).chain.places (job_at self.now i).chain.last }
    {
        let entry = &self.jobs[i];
        entry.chain.comes_again()
    }

    /// Adds a job that was accepted, with a number that no other has.
    ///
    /// AllocError where memory for it is refused; nothing changes then. No other call but `new` takes memory for the book.
    pub fn add(&mut self, number: u64, sender: u32, queue: u32) -> Result<(), AllocError>
        requires room { length self.old.jobs < self.old.max_jobs }
        requires other { All (λ (j : HeldJob). j.facts.number ≢ number) self.old.jobs }
        ensures added { OnOk result (self.new ≡ with_new self.old number sender queue) }
        ensures unchanged { OnErr result (self.new ≡ self.old) }
    {
        self.jobs.reserve(1)?;
        let job = Job::new(self.alloc, number, sender, queue)?;
        let row = self.rows.insert_reserved(number);
        match Chain::with_room(self.alloc, row, MAX_FILES) {
            Ok(chain) => {
                insert_new(&mut self.jobs, number, Entry { job, chain, row });
                Ok(())
            }
            Err(error) => {
                self.rows.remove(row);
                Err(error)
            }
        }
    }

    /// A page was lent to a job.
    pub fn lend(&mut self, i: usize)
        requires here { i < length self.old.jobs }
        requires few { (job_at self.old i).facts.granted + 1 < 2 ^ 32 }
        ensures { self.new ≡ changed (told lent_facts) self.old i }
    {
        let entry = &mut self.jobs[i];
        entry.job.lend();
    }

    /// The page that was lent to a job came back.
    pub fn unlend(&mut self, i: usize)
        requires here { i < length self.old.jobs }
        ensures { self.new ≡ changed (told unlent_facts) self.old i }
    {
        let entry = &mut self.jobs[i];
        entry.job.unlend();
    }

    /// Begins a file of a job, which is open then and has no page.
    pub fn begin(&mut self, i: usize, name: FileName, count: u64)
        requires here { i < length self.old.jobs }
        requires idle { IsIdle (job_at self.old i).chain }
        requires free { CanBegin (names_of (job_at self.old i).chain.files) MAX_FILES name }
        requires files { length (job_at self.old i).facts.files < MAX_FILES }
        ensures { self.new ≡ changed (begun_job name count) self.old i }
    {
        let entry = &mut self.jobs[i];
        match entry.chain.begin_file(name) {
            Ok(()) => entry.job.begin(name, count),
            Err(_) => unreachable!(),
        }
    }

    /// Adds a page to the open file of a job.
    pub fn put(&mut self, i: usize, page: FilledPage)
        requires here { i < length self.old.jobs }
        requires opened { (job_at self.old i).chain.is_open ≡ true }
        requires size { page.page_size ≡ self.old.page_size }
        requires room { self.old.stored < self.old.pages }
        requires some { 0 < length (job_at self.old i).facts.files }
        requires fits { length page.octets ≤ (last_size (job_at self.old i).facts.files).left }
        requires few { (last_size (job_at self.old i).facts.files).pages + 1 < 2 ^ 64 }
        ensures { self.new ≡ put_in page self.old i }
    {
        let len = page.len() as u64;
        let entry = &mut self.jobs[i];
        entry.chain.push(&mut self.nodes, page);
        entry.job.put(len);
    }

    /// Ends the open file of a job.
    pub fn end_file(&mut self, i: usize)
        requires here { i < length self.old.jobs }
        requires opened { (job_at self.old i).chain.is_open ≡ true }
        ensures { self.new ≡ changed closed_file self.old i }
    {
        let entry = &mut self.jobs[i];
        entry.chain.end_file();
    }

    /// A job's control file came.
    pub fn set_control(&mut self, i: usize, control: Control)
        requires here { i < length self.old.jobs }
        ensures { self.new ≡ changed (told (controlled_facts (contents control))) self.old i }
    {
        let entry = &mut self.jobs[i];
        entry.job.set_control(control);
    }

    /// A job is received: the pages of the files that its control file names get places, in the order of its print lines and
    /// with their repeats, and the pages of all other files go back to the pool.
    pub fn receive(&mut self, i: usize, pool: &mut Pool)
        requires here { i < length self.old.jobs }
        requires idle { IsIdle (job_at self.old i).chain }
        requires size { pool.old.page_size ≡ self.old.page_size }
        requires control { IsSome (job_at self.old i).facts.control }
        requires room { pool.old.free + unnamed_of (job_at self.old i) ≤ pool.old.pages }
        ensures book { self.new ≡ received_in self.old i }
        ensures counted { unnamed_of (job_at self.old i) ≤ self.old.stored }
        ensures pool { pool.new
            ≡ record pool.old { free = pool.old.free + unnamed_of (job_at self.old i) } }
    {
        let entry = &mut self.jobs[i];
        match entry.job.control() {
            Some(control) => {
                let names = control.prints.as_slice();
                entry.chain.drop_unnamed(names, &mut self.nodes, pool);
            }
            None => unreachable!(),
        }
        entry.job.receive();
    }

    /// Takes out the page of a job's next place, which goes to a printer.
    pub fn hand(&mut self, i: usize) -> FilledPage
        requires here { i < length self.old.jobs }
        requires ready { IsReady (job_at self.old i).chain }
        requires few { (job_at self.old i).facts.handed + 1 < 2 ^ 64 }
        ensures page { page_at (job_at self.old i).chain.files
            (next_place (job_at self.old i).chain)
            ≡ Some result }
        ensures size { result.page_size ≡ self.old.page_size }
        ensures book { self.new ≡ handed_in self.old i }
        ensures counted { 0 < self.old.stored }
    {
        let entry = &mut self.jobs[i];
        entry.job.hand();
        entry.chain.take(&mut self.nodes)
    }

    /// A page of a job came back from a printer, and goes to the pool.
    pub fn come_back(&mut self, i: usize)
        requires here { i < length self.old.jobs }
        requires few { (job_at self.old i).facts.back + 1 < 2 ^ 64 }
        ensures { self.new ≡ changed (told back_facts) self.old i }
    {
        let entry = &mut self.jobs[i];
        entry.job.come_back();
    }

    /// The page of the place of a job that was handed out last came back from a printer, for a later place of the same page.
    pub fn come_again(&mut self, i: usize, page: FilledPage)
        requires here { i < length self.old.jobs }
        requires few { (job_at self.old i).facts.back + 1 < 2 ^ 64 }
        requires awaited { AwaitsLast (job_at self.old i).chain }
        requires size { page.page_size ≡ self.old.page_size }
        requires room { self.old.stored < self.old.pages }
        ensures { self.new ≡ again_in page self.old i }
    {
        let entry = &mut self.jobs[i];
        entry.chain.give_again(&mut self.nodes, page);
        entry.job.come_back();
    }

    /// Ends a job, and puts all its pages back into the pool: how many.
    pub fn drain(&mut self, i: usize, pool: &mut Pool) -> usize
        requires here { i < length self.old.jobs }
        requires size { pool.old.page_size ≡ self.old.page_size }
        requires room { pool.old.free + pages_of (job_at self.old i) ≤ pool.old.pages }
        ensures count { result ≡ pages_of (job_at self.old i) }
        ensures counted { result ≤ self.old.stored }
        ensures book { self.new ≡ drained_in result self.old i }
        ensures pool { pool.new ≡ record pool.old { free = pool.old.free + result } }
    {
        let free = self.nodes.free();
        let entry = &mut self.jobs[i];
        entry.chain.drain_into(&mut self.nodes, pool);
        entry.job.end();
        self.nodes.free() - free
    }

    /// Lets a job go that has no file any more.
    pub fn remove(&mut self, i: usize)
        requires here { i < length self.old.jobs }
        requires drained { (job_at self.old i).chain.files ≡ [] }
        ensures { self.new ≡ record self.old { jobs = remove self.old.jobs i } }
    {
        match self.jobs.shift_remove_index(i) {
            Some((_, entry)) => {
                self.rows.remove(entry.row);
            }
            None => unreachable!(),
        }
    }
}

/// Inserts an entry under a number that has none, where there is room.
fn insert_new(jobs: &mut IndexMap<u64, Entry>, number: u64, entry: Entry)
    requires room { 0 < spare jobs.old }
    requires other { get nat_eq jobs.old number ≡ None }
    ensures { jobs.new.entries ≡ jobs.old.entries ++ (number, entry) ∷ [] }
{
    let Ok(None) = jobs.insert(number, entry) else {
        unreachable!();
    };
}
