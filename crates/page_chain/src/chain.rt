//! The chain of the pages of one job.

ghost use Rattle.std.specs.Prelude.{◌≡◌, ◌+◌, ◌<◌, ◌≤◌, ◌↔◌, ◌^◌, true, false, [], None, Some, IsTrue, IfOk, OnOk, OnErr, MatchOption, MatchResult, slice_get, length};
ghost use Rattle.lpd_values.specs.declared.limits.TheConstants.{MAX_FILES, MAX_PRINTS};
ghost use Rattle.page_nodes.specs.Chains.{Chains, AreOfSize, total};
ghost use Rattle.page_chain.specs.Files.{Files, every_page, page_at};
ghost use Rattle.page_chain.specs.Changes.{CanBegin, RefusedFor, begun, with_page, unnamed_pages, placed, next_place, taken, comes_again, given_again, emptied, AwaitsLast, IsReady};
ghost use Rattle.page_chain.specs.Held.{Turns, Leads, HasRow, IsFreeRow, IsHeld, IsIdle, OnlyRow, names_in, places_left, shown};

use crate::drain::{drain_files, forget, key_of};
use crate::error::ChainError;
use crate::place::Place;
use crate::prints::{is_to_come, list_prints};
use crate::run::{Run, find};
use lpd_values::{FileName, MAX_PRINTS};
use page_nodes::Nodes;
use page_pool::{FilledPage, Pool};
use std::alloc::{AllocError, Global};
use std::marker::Model;

/// The files of one job, whose pages are in a row of the nodes: the file `i` has the chain `MAX_FILES * row + i`.
///
/// ```text
///            begin_file          end_file
///   no file ------------> open ------------> no file
///  is open  <------------ push, push ..      is open
///     |
///     | drop_unnamed: the pages of named files get places, the others go back to the pool
///     v
///   take ---> a page is out ---> take the next one; its page comes again? give_again before that
/// ```
///
/// Each file is a queue: the next place takes the page at its front, and a page that comes again goes
/// to its end. So after a whole pass the pages are in their order again.
#[derive(Drop)]
pub struct Chain {
    row: usize,
    files: Vec<Run>,
    is_open: bool,
    /// The files in print order, with repeats.
    prints: Vec<usize>,
    /// How many of these were printed.
    printed: usize,
    /// How many pages of the one that is being printed were handed out.
    turned: usize,
    last: Option<Place>,
    file_room: usize,
}

impl Model for Chain {
    ghost use Rattle.std.specs.Prelude.{◌≡◌, ◌<◌, ◌≤◌, ◌^◌, true, None, [], drop, vec_len, vec_capacity};
    ghost use Rattle.lpd_values.specs.declared.limits.TheConstants.{MAX_FILES, MAX_PRINTS};
    ghost use Rattle.page_chain.specs.Held.{Kept, CanPrint, HasTurned, IsOfFile};

    ghost Value = { Kept };

    ghost view = { λ c. record {
      row = c.row;
      files = c.files.items;
      is_open = c.is_open;
      prints = drop c.printed c.prints.items;
      turned = c.turned;
      last = c.last;
      file_room = c.file_room;
    } };

    ghost invariant = { λ c.
        (c.row < 2 ^ 32)
        × (c.file_room ≤ MAX_FILES)
        × (vec_len c.files ≤ c.file_room)
        × (c.file_room ≤ vec_capacity c.files)
        × (MAX_PRINTS ≤ vec_capacity c.prints)
        × (c.printed ≤ vec_len c.prints)
        × (c.is_open ≡ true → (0 < vec_len c.files)
        × (drop c.printed c.prints.items ≡ []) × (c.last ≡ None))
        × CanPrint c.files.items (drop c.printed c.prints.items) c.turned
        × IsOfFile c.files.items c.last
        × HasTurned c.files.items (drop c.printed c.prints.items) c.turned c.last };
}

impl Chain {
    /// A chain with room for so many files, whose pages will be in this row of the nodes.
    pub fn with_room(alloc: Global, row: usize, files: usize) -> Result<Chain, AllocError>
        requires rows { row < 2 ^ 32 }
        requires files { files ≤ MAX_FILES }
        ensures row { IfOk result (λ c. c.row ≡ row) }
        ensures empty { IfOk result (λ c. (nodes : Chains) → shown c nodes ≡ record {
          files = [];
          is_open = false;
          places = [];
          last = None;
          file_room = files;
        }) }
        ensures held { IfOk result (λ c. (nodes : Chains) → IsFreeRow nodes row → IsHeld c nodes) }
    {
        Ok(Chain {
            row,
            // In this order both are found sooner by the C library's allocator.
            prints: Vec::with_capacity(alloc, MAX_PRINTS)?,
            files: Vec::with_capacity(alloc, files)?,
            is_open: false,
            printed: 0,
            turned: 0,
            last: None,
            file_room: files,
        })
    }

    /// Whether a file is open.
    pub fn is_open(&self) -> bool
        ensures { result ≡ self.now.is_open }
    {
        self.is_open // the last of the files
    }

    /// Whether no file is open, no place is still to be handed out, and none was.
    pub fn is_idle(&self) -> bool
        ensures { IsTrue result ↔ IsIdle self.now }
    {
        if self.is_open || self.last.is_some() {
            return false;
        }
        self.printed == self.prints.len()
    }

    /// Why a file of this name would be refused: a file has this name, else there is no room for a
    /// file. None where it may begin.
    pub fn refusal(&self, name: &FileName) -> Option<ChainError>
        ensures { MatchOption result
            (CanBegin (names_in self.now.files) self.now.file_room name.now)
            (RefusedFor (names_in self.now.files) self.now.file_room name.now) }
    {
        if find(self.files.as_slice(), name).is_some() {
            return Some(ChainError::NameTaken);
        }
        if self.files.len() == self.file_room {
            return Some(ChainError::FilesFull);
        }
        None
    }

    /// Begins a file, which is open then and has no page. Refused as `refusal` says, and then
    /// nothing changes.
    pub fn begin_file(&mut self, name: FileName) -> Result<(), ChainError>
        requires { IsIdle self.old }
        ensures begun { OnOk result (Turns self.old self.new (begun name)) }
        ensures cause { MatchResult result
            (λ _. CanBegin (names_in self.old.files) self.old.file_room name)
            (RefusedFor (names_in self.old.files) self.old.file_room name) }
        ensures unchanged { OnErr result (self.new ≡ self.old) }
    {
        if let Some(error) = self.refusal(&name) {
            return Err(error);
        }
        self.files.push_reserved(Run { name, pages: 0 });
        self.is_open = true;
        Ok(())
    }

    /// Adds a page to the open file.
    pub fn push(&mut self, nodes: &mut Nodes, page: FilledPage)
        requires opened { self.old.is_open ≡ true }
        requires held { IsHeld self.old nodes.old }
        requires room { total nodes.old.chains < nodes.old.room }
        ensures chain { Leads self.old self.new nodes.old nodes.new
            (record (shown self.old nodes.old) {
              files = with_page (shown self.old nodes.old).files page;
            }) }
        ensures total { total nodes.new.chains ≡ total nodes.old.chains + 1 }
    {
        let last = self.files.len() - 1;
        let key = key_of(self.row, last);
        nodes.push(key, page);
        self.files[last].pages = nodes.len(key);
    }

    /// Ends the open file.
    pub fn end_file(&mut self)
        requires { self.old.is_open ≡ true }
        ensures { Turns self.old self.new (λ v. record v { is_open = false }) }
    {
        self.is_open = false; // its pages stay
    }

    /// Gives the pages of the named files places, in the order of the list and with its repeats (at
    /// most `MAX_PRINTS` names), and puts the pages of all other files back into the pool.
    pub fn drop_unnamed(&mut self, names: &[FileName], nodes: &mut Nodes, pool: &mut Pool)
        requires idle { IsIdle self.old }
        requires few { length names.now ≤ MAX_PRINTS }
        requires held { IsHeld self.old nodes.old }
        requires sizes { AreOfSize pool.old.page_size
            (unnamed_pages (shown self.old nodes.old).files names.now) }
        requires room { pool.old.free
            + length (unnamed_pages (shown self.old nodes.old).files names.now) ≤ pool.old.pages }
        ensures chain { Leads self.old self.new nodes.old nodes.new
            (placed names.now (shown self.old nodes.old)) }
        ensures pool { pool.new ≡ record pool.old {
          free = pool.old.free + length (unnamed_pages (shown self.old nodes.old).files names.now);
        } }
        ensures total { total nodes.new.chains
            + length (unnamed_pages (shown self.old nodes.old).files names.now)
            ≡ total nodes.old.chains }
    {
        list_prints(&mut self.prints, self.files.as_slice(), names);
        self.printed = 0;
        self.turned = 0;
        self.last = None;
        let kept = self.prints.as_slice();
        drain_files(self.row, self.files.len(), kept, nodes, pool);
        forget(self.files.as_mut_slice(), kept);
    }

    /// The next place, if one is still to be handed out.
    pub fn next_place(&self) -> Option<Place>
        ensures { result ≡ slice_get
            (places_left self.now.files self.now.prints self.now.turned) 0 }
    {
        let &file = self.prints.get(self.printed)?;
        Some(Place {
            file,
            number: self.turned,
        })
    }

    /// Whether a place is still to be handed out and its page is there.
    pub fn is_ready(&self, nodes: &Nodes) -> bool
        requires { IsHeld self.now nodes.now }
        ensures { IsTrue result ↔ IsReady (shown self.now nodes.now) }
    {
        match self.prints.get(self.printed) {
            Some(&file) => nodes.len(key_of(self.row, file)) > 0,
            None => false,
        }
    }

    /// The page of the next place.
    pub fn page<'a>(&self, nodes: &'a Nodes) -> &'a FilledPage
        requires held { IsHeld self.now nodes.now }
        requires ready { IsReady (shown self.now nodes.now) }
        ensures { page_at (shown self.now nodes.now).files (next_place (shown self.now nodes.now))
            ≡ Some result.now }
    {
        nodes.first(key_of(self.row, self.prints[self.printed]))
    }

    /// Takes the page of the next place out.
    pub fn take(&mut self, nodes: &mut Nodes) -> FilledPage
        requires held { IsHeld self.old nodes.old }
        requires ready { IsReady (shown self.old nodes.old) }
        ensures page { page_at (shown self.old nodes.old).files
            (next_place (shown self.old nodes.old)) ≡ Some result }
        ensures chain { Leads self.old self.new nodes.old nodes.new
            (taken (shown self.old nodes.old)) }
        ensures total { total nodes.new.chains + 1 ≡ total nodes.old.chains }
    {
        let file = self.prints[self.printed];
        let pages = self.files.as_slice()[file].pages;
        let number = self.turned;
        let page = nodes.take(key_of(self.row, file));
        self.last = Some(Place { file, number });
        self.turned = number + 1;
        if self.turned == pages {
            self.printed += 1;
            self.turned = 0;
        }
        page
    }

    /// Whether the page of the place that was handed out last comes again: a place of the same page
    /// is still to be handed out.
    pub fn comes_again(&self) -> bool
        ensures { result ≡ comes_again
            (places_left self.now.files self.now.prints self.now.turned) self.now.last }
    {
        let Some(place) = self.last else {
            return false;
        };
        let prints = &self.prints.as_slice()[self.printed..];
        is_to_come(prints, self.turned, place)
    }

    /// Whether the page of the place that was handed out last is the only one of its file that isn't
    /// there, so that it can be given again.
    pub fn awaits_last(&self, nodes: &Nodes) -> bool
        requires { IsHeld self.now nodes.now }
        ensures { IsTrue result ↔ AwaitsLast (shown self.now nodes.now) }
    {
        match self.last {
            Some(place) => {
                let pages = self.files.as_slice()[place.file].pages;
                nodes.len(key_of(self.row, place.file)) == pages - 1
            }
            None => false,
        }
    }

    /// Gives the page of the place that was handed out last back to its file, for the places of the
    /// same page that are still to be handed out.
    pub fn give_again(&self, nodes: &mut Nodes, page: FilledPage)
        requires held { IsHeld self.now nodes.old }
        requires awaited { AwaitsLast (shown self.now nodes.old) }
        requires room { total nodes.old.chains < nodes.old.room }
        ensures chain { Leads self.now self.now nodes.old nodes.new
            (given_again page (shown self.now nodes.old)) }
        ensures total { total nodes.new.chains ≡ total nodes.old.chains + 1 }
    {
        match self.last {
            Some(place) => nodes.push(key_of(self.row, place.file), page),
            None => unreachable!(),
        }
    }

    /// Puts all pages back into the pool, and ends all files.
    pub fn drain_into(&mut self, nodes: &mut Nodes, pool: &mut Pool)
        requires held { IsHeld self.old nodes.old }
        requires sizes { AreOfSize pool.old.page_size
            (every_page (shown self.old nodes.old).files) }
        requires room { pool.old.free + length (every_page (shown self.old nodes.old).files)
            ≤ pool.old.pages }
        ensures chain { Leads self.old self.new nodes.old nodes.new
            (emptied (shown self.old nodes.old)) }
        ensures free { IsFreeRow nodes.new self.old.row }
        ensures pool { pool.new ≡ record pool.old {
          free = pool.old.free + length (every_page (shown self.old nodes.old).files);
        } }
        ensures total { total nodes.new.chains
            + length (every_page (shown self.old nodes.old).files) ≡ total nodes.old.chains }
    {
        drain_files(self.row, self.files.len(), &[], nodes, pool);
        self.files.clear();
        self.is_open = false;
        self.prints.clear();
        self.printed = 0;
        self.turned = 0;
        self.last = None;
    }
}
