//! Files of jobs that have ended, which wait to be removed.
//!
//! ```text
//!   a folder is opened ---> nobody removes any <---> somebody does, each as soon as it comes to it
//! ```
//!
//! To free what a file has on a disk may take as long as a sync, and a printer that does so prints nothing meanwhile. To give it another name
//! doesn't.

ghost use Rattle.std.specs.Prelude.{◌≡◌, ◌++◌, ◌∷◌, [], ◌<◌, ◌↔◌, IsTrue, false, length, true};
ghost use Rattle.job_disk.specs.EndedFiles.{IsNext};

use std::alloc::Global;
use std::collections::VecDeque;

/// How many files wait at most: what ends beyond that is removed by whoever ends it.
const MOST_WAITING: usize = 256;

/// The files that wait to be removed, by their numbers.
#[derive(Drop)]
pub(crate) struct EndedFiles {
    numbers: VecDeque<u64>,
    /// Somebody removes them.
    is_swept: bool,
}

/// What whoever removes them does next.
#[derive(Clone, Copy)]
pub(crate) enum Sweep {
    /// It removes the file of this number.
    Remove(u64),
    /// It waits until one is there.
    Wait,
    /// It goes: none is left, and none comes.
    Leave,
}

impl EndedFiles {
    /// None waits, and nobody removes any.
    pub(crate) fn new(alloc: Global) -> EndedFiles
        ensures none { result.numbers.items ≡ [] }
        ensures unswept { result.is_swept ≡ false }
    {
        EndedFiles {
            numbers: VecDeque::new(alloc),
            is_swept: false,
        }
    }

    /// Somebody removes them from now on.
    pub(crate) fn begin(&mut self)
        ensures swept { self.new.is_swept ≡ true }
        ensures same { self.new.numbers ≡ self.old.numbers }
    {
        self.is_swept = true;
    }

    /// None comes any more: whoever removes them goes once none is left.
    pub(crate) fn end(&mut self)
        ensures unswept { self.new.is_swept ≡ false }
        ensures same { self.new.numbers ≡ self.old.numbers }
    {
        self.is_swept = false;
    }

    /// Whether one more may wait.
    pub(crate) fn takes_one(&self) -> bool
        ensures { IsTrue result
            ↔ ((self.now.is_swept ≡ true) × (length self.now.numbers.items < 256)) }
    {
        self.is_swept && self.numbers.len() < MOST_WAITING
    }

    /// The file of this number waits behind the others. False where no more may wait, or memory is refused: nothing changes then.
    pub(crate) fn add(&mut self, number: u64) -> bool
        ensures added { result ≡ true
            → (self.new.numbers.items ≡ self.old.numbers.items ++ number ∷ []) }
        ensures room { result ≡ true
            → (self.old.is_swept ≡ true) × (length self.old.numbers.items < 256) }
        ensures refused { result ≡ false → self.new.numbers.items ≡ self.old.numbers.items }
        ensures swept { self.new.is_swept ≡ self.old.is_swept }
    {
        self.takes_one() && self.numbers.push_back(number).is_ok()
    }

    /// What whoever removes them does next: the first one is taken.
    pub(crate) fn next(&mut self) -> Sweep
        ensures { IsNext self.old self.new result }
    {
        match self.numbers.pop_front() {
            Some(number) => Sweep::Remove(number),
            None if self.is_swept => Sweep::Wait,
            None => Sweep::Leave,
        }
    }
}
