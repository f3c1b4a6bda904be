//! The groups of rows.

use crate::{histories, joins};
use std::alloc::AllocError;
use std::sync::Wait;
use test_kit::{Form, Group};

/// A group of rows.
#[derive(Clone, Copy)]
pub enum Histories {
    /// Worked histories and what the plain reader says after each entry.
    Read,
    /// Histories, legal or not, and whether the plain reader finds that they leave joined after each entry.
    Joins,
}

impl Histories {
    /// All groups.
    pub const ALL: [Histories; 2] = [Histories::Read, Histories::Joins];
}

impl Group for Histories {
    fn file(&self) -> (&'static str, Form) {
        match self {
            Histories::Read => ("histories", Form::Block),
            Histories::Joins => ("joins", Form::Block),
        }
    }

    fn answer<R: AllocGlobal + Wait>(
        &self,
        rt: &R,
        told: &mut String,
        asked: &str,
    ) -> Result<(), AllocError> {
        let alloc = rt.alloc();
        match self {
            Histories::Read => histories::history(told, alloc, asked),
            Histories::Joins => joins::joins(told, alloc, asked),
        }
    }
}
