//! The groups of rows.

use crate::{lines, sessions, status, tables};
use std::alloc::AllocError;
use std::sync::Wait;
use test_kit::{Form, Group};

/// A group of rows.
#[derive(Clone, Copy)]
pub enum Texts {
    /// Command lines, and the commands as they are written or the refusals.
    Commands,
    /// Subcommand lines, and the subcommands as they are written or the refusals.
    Subcommands,
    /// File names, with whether they are of control files, and their numbers.
    Names,
    /// Texts of control files, and the control files as they are written or the refusals.
    Controls,
    /// Lines over a control socket, and the commands as they are written.
    ControlLines,
    /// Answers over a control socket, how they end, and what comes before that.
    Answers,
    /// Octets, and how they are shown.
    Escapes,
    /// Tables of claims, whether they are safe, and a finishing order.
    Orders,
    /// Orders of the rows of a table, and whether they are finishing orders.
    Checks,
    /// Tables, and whether a page more for their second row is safe.
    Pages,
    /// Sums and differences of amounts.
    Sums,
    /// Tables of claims as they change, and what each change answers.
    Changes,
    /// Octets that a receiver reads, what it asks, and what is written.
    Sessions,
    /// Requests for the status of a server, and what they ask for.
    Requests,
    /// Octets, as they stand in a page and in a label.
    Marked,
    /// Times in milliseconds, how many fall into each bucket, and their sum.
    Times,
    /// How many looks there were, and which of them are kept.
    Looks,
}

impl Texts {
    /// All groups.
    pub const ALL: [Texts; 17] = [
        Texts::Commands,
        Texts::Subcommands,
        Texts::Names,
        Texts::Controls,
        Texts::ControlLines,
        Texts::Answers,
        Texts::Escapes,
        Texts::Orders,
        Texts::Checks,
        Texts::Pages,
        Texts::Sums,
        Texts::Changes,
        Texts::Sessions,
        Texts::Requests,
        Texts::Marked,
        Texts::Times,
        Texts::Looks,
    ];
}

impl Group for Texts {
    fn file(&self) -> (&'static str, Form) {
        match self {
            Texts::Commands => ("commands", Form::Octets),
            Texts::Subcommands => ("subcommands", Form::Octets),
            Texts::Names => ("names", Form::Octets),
            Texts::Controls => ("controls", Form::Octets),
            Texts::ControlLines => ("control_lines", Form::Octets),
            Texts::Answers => ("answers", Form::Octets),
            Texts::Escapes => ("escapes", Form::Line),
            Texts::Orders => ("orders", Form::Line),
            Texts::Checks => ("checks", Form::Line),
            Texts::Pages => ("pages", Form::Line),
            Texts::Sums => ("sums", Form::Line),
            Texts::Changes => ("changes", Form::Line),
            Texts::Sessions => ("sessions", Form::Octets),
            Texts::Requests => ("requests", Form::Octets),
            Texts::Marked => ("marked", Form::Line),
            Texts::Times => ("times", Form::Line),
            Texts::Looks => ("looks", Form::Line),
        }
    }

    fn answer<R: AllocGlobal + Wait>(
        &self,
        rt: &R,
        told: &mut String,
        asked: &str,
    ) -> Result<(), AllocError> {
        let alloc = rt.alloc();
        match self {
            Texts::Commands => lines::command(told, alloc, asked),
            Texts::Subcommands => lines::subcommand(told, alloc, asked),
            Texts::Names => lines::name(told, alloc, asked),
            Texts::Controls => lines::control(told, alloc, asked),
            Texts::ControlLines => lines::control_line(told, alloc, asked),
            Texts::Answers => lines::answer(told, alloc, asked),
            Texts::Escapes => lines::escape(told, alloc, asked),
            Texts::Orders => tables::order(told, alloc, asked),
            Texts::Checks => tables::check(told, alloc, asked),
            Texts::Pages => tables::page(told, alloc, asked),
            Texts::Sums => tables::sum(told, alloc, asked),
            Texts::Changes => tables::changes(told, alloc, asked),
            Texts::Sessions => sessions::sessions(told, alloc, asked),
            Texts::Requests => status::request(told, alloc, asked),
            Texts::Marked => status::marked(told, alloc, asked),
            Texts::Times => status::times(told, alloc, asked),
            Texts::Looks => status::looks(told, alloc, asked),
        }
    }
}
