//! The groups of rows.

use crate::{cores, pieces, scripts, seats};
use std::alloc::AllocError;
use std::sync::Wait;
use test_kit::{Form, Group};

/// A group of rows.
#[derive(Clone, Copy)]
pub enum Calls {
    /// Configurations and what the program prints for them.
    Configurations,
    /// Scripts in one line and what the program prints for them.
    Lines,
    /// Scripts and what the program prints for them.
    Scripts,
    /// Octets of a session, and what the program answers and prints for them, in any pieces.
    Pieces,
    /// Calls of a core and what they answer.
    Cores,
    /// Calls of a spool that threads share, and its account.
    Seats,
}

impl Calls {
    /// All groups.
    pub const ALL: [Calls; 6] = [
        Calls::Configurations,
        Calls::Lines,
        Calls::Scripts,
        Calls::Pieces,
        Calls::Cores,
        Calls::Seats,
    ];
}

impl Group for Calls {
    fn file(&self) -> (&'static str, Form) {
        match self {
            Calls::Configurations => ("configurations", Form::Octets),
            Calls::Lines => ("lines", Form::Octets),
            Calls::Scripts => ("scripts", Form::Script),
            Calls::Pieces => ("pieces", Form::Octets),
            Calls::Cores => ("calls", Form::Block),
            Calls::Seats => ("seats", Form::Block),
        }
    }

    fn answer<R: AllocGlobal + Wait>(
        &self,
        rt: &R,
        told: &mut String,
        asked: &str,
    ) -> Result<(), AllocError> {
        let alloc = rt.alloc();
        match self {
            Calls::Configurations => scripts::configuration(told, alloc, asked),
            Calls::Lines | Calls::Scripts => scripts::script(told, alloc, asked),
            Calls::Pieces => pieces::pieces(told, alloc, asked),
            Calls::Cores => cores::calls(told, alloc, asked),
            Calls::Seats => seats::seats(told, rt, asked),
        }
    }
}
