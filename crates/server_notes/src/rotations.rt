//! Rotations of the account that aren't printed yet.

use log::{Log, warn};
use std::alloc::Global;
use std::mem;
use std::sync::{Mutex, Wait};

/// What is printed of a segment that was put away.
#[derive(Clone, Copy)]
pub struct Rotation {
    /// The segment's number.
    pub number: u64,
    /// Its entries.
    pub entries: u64,
}

/// Rotations that aren't printed yet.
#[derive(Drop)]
pub struct Rotations {
    rotated: Mutex<Vec<Rotation>>,
}

impl Rotations {
    /// None yet.
    pub fn new(alloc: Global) -> Rotations {
        Rotations {
            rotated: Mutex::new(Vec::new(alloc)),
        }
    }

    /// Those that aren't printed yet, which are taken out.
    pub fn take<R: Wait>(&self, rt: &R, alloc: Global) -> Vec<Rotation> {
        mem::replace(&mut *self.rotated.lock(rt), Vec::new(alloc))
    }

    /// One more.
    pub fn add<R: Log + Wait>(&self, rt: &R, rotation: Rotation) {
        if self.rotated.lock(rt).push(rotation).is_err() {
            warn!(rt; "memory was refused: a rotation isn't printed");
        }
    }
}
