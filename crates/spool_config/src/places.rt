//! What a configuration says that its printers print to. The key is no part of what `read` reads: it passes it over, as any other one
//! that it doesn't know.

ghost use Rattle.std.specs.Prelude.{◌≡◌, ◌≢◌, ◌+◌, ◌<◌, ◌^◌, ◌++◌, Some, Ok, Err, IfOk, IfErr, OnOk, List, MatchResult, codes, length, map, option_map, is_some};
ghost use Rattle.std.specs.List.{list_all};
ghost use Rattle.toml.specs.Data.{as_str};
ghost use Rattle.toml.specs.View.{table_view, view};
ghost use Rattle.spool_config.specs.Faults.{queue_rows};
ghost use Rattle.spool_config.specs.Places.{IsToldBehind, places_in, places_told, rows_told, texts_told, told_view, value_texts};
ghost use Rattle.spool_config.specs.declared.places.PlacesFault.TheVariants.{Memory};

use crate::reading::value_at;
use crate::settings::Key;
use std::alloc::{AllocError, Global};
use std::fmt;
use thiserror::Error;
use toml::{Table, Value};

/// The key in the table of a queue.
pub const PLACES: &str = "places";

/// What a text says that a printer prints to.
#[derive(Debug, Drop)]
pub struct ToldPlace {
    /// The number of its queue, from 1.
    pub queue: u32,
    /// Which of the queue's printers it is, from 1.
    pub nth: u32,
    /// What it prints to, as the text says it.
    pub text: String,
}

/// Why a text doesn't say what its printers print to.
#[derive(Clone, Copy, Debug, PartialEq, Eq, Error)]
pub enum PlacesFault {
    /// It isn't TOML.
    NotToml,
    /// What stands at the key is no array of texts.
    WrongType,
    /// A text says nothing that a printer may print to, or there are more of them than printers.
    OutOfRange,
    /// Memory was refused, which says nothing of the text.
    Memory,
}

/// Writes one line without its end, as a fault of a configuration is told.
impl fmt::Display for PlacesFault {
    ghost use Rattle.std.specs.Prelude.{Some};
    ghost use Rattle.spool_config.specs.Places.{places_words};

    ghost output = { λ fault. Some (places_words fault) };

    fn fmt<W: fmt::Write>(&self, f: &mut fmt::Formatter<W>) -> fmt::Result {
        f.write_str(match self {
            PlacesFault::NotToml => "fault 50 NotToml",
            PlacesFault::WrongType => "fault 52 WrongType queue.places",
            PlacesFault::OutOfRange => "fault 53 OutOfRange queue.places",
            PlacesFault::Memory => "fault 12 Memory",
        })
    }
}

impl From<AllocError> for PlacesFault {
    ghost from_gives = { λ _ fault. fault ≡ Memory };

    fn from(_error: AllocError) -> PlacesFault {
        PlacesFault::Memory
    }
}

/// Whether each of these is a text.
fn are_texts(values: &[Value]) -> bool
    ensures { result ≡ list_all (λ value. is_some (as_str value)) (map view values.now) }
{
    values.iter().all(|value| value.as_str().is_some())
}

/// What stands at `places` in the row of a queue.
fn places_in(row: &Value) -> Option<&Value>
    ensures { option_map (λ value. view value.now) result ≡ places_in (view row.now) }
{
    row.as_table()?.get(PLACES)
}

/// The texts at `places` in the row of a queue.
fn texts_in(row: &Value) -> Result<&[Value], PlacesFault>
    ensures { MatchResult result
        (λ values. value_texts (places_in (view row.now)) ≡ Ok (map view values.now))
        (λ fault. value_texts (places_in (view row.now)) ≡ Err fault) }
{
    let Some(value) = places_in(row) else {
        return Ok(&[]);
    };
    let Some(values) = value.as_array() else {
        return Err(PlacesFault::WrongType);
    };
    let values = values.as_slice();
    if !are_texts(values) {
        return Err(PlacesFault::WrongType);
    }
    if values.len() > Key::Printers.most() as usize {
        return Err(PlacesFault::OutOfRange);
    }
    Ok(values)
}

/// Puts what texts say behind what was told before: the first is for this printer of the queue.
fn push_texts(
    alloc: Global,
    told: &mut Vec<ToldPlace>,
    values: &[Value],
    queue: u32,
    nth: u32,
) -> Result<(), AllocError>
    requires { nth + length values.now < 2 ^ 32 }
    ensures { OnOk result (map told_view told.new.items
        ≡ map told_view told.old.items ++ texts_told queue nth (map view values.now)) }
{
    let Some((value, rest)) = values.split_first() else {
        return Ok(());
    };
    if let Some(text) = value.as_str() {
        let text = String::from_str(alloc, text)?;
        told.push(ToldPlace { queue, nth, text })?;
    }
    push_texts(alloc, told, rest, queue, nth + 1)
}

/// Puts what rows say behind what was told before: the first is that of the queue of this number.
fn push_rows(
    alloc: Global,
    told: &mut Vec<ToldPlace>,
    rows: &[Value],
    queue: u32,
) -> Result<(), PlacesFault>
    requires { queue + length rows.now < 2 ^ 32 }
    ensures told { OnOk result (IsToldBehind (rows_told queue (map view rows.now))
        (map told_view told.old.items) (map told_view told.new.items)) }
    ensures fault { IfErr result (λ fault. fault ≢ Memory
        → rows_told queue (map view rows.now) ≡ Err fault) }
{
    let Some((row, rest)) = rows.split_first() else {
        return Ok(());
    };
    push_texts(alloc, told, texts_in(row)?, queue, 1)?;
    push_rows(alloc, told, rest, queue + 1)
}

/// The rows of the queues; none where there is no array of them.
fn queue_rows(document: &Table) -> &[Value]
    ensures { map view result.now ≡ queue_rows (table_view document.now) }
{
    match value_at(document, Key::Queue) {
        Some(value) => match value.as_array() {
            Some(rows) => rows.as_slice(),
            None => &[],
        },
        None => &[],
    }
}

/// What the whole text of a configuration says that its printers print to, queue by queue and printer by printer.
///
/// # Errors
///
/// `NotToml`; `WrongType` for the first queue at whose `places` something else than an array of texts stands, and `OutOfRange` where that has
/// more than 16, whichever queue is the first, or there are more than 64 queues; `Memory`. Whether a text says something that a printer may print to isn't looked at.
pub fn read_places(alloc: Global, text: &[u8]) -> Result<Vec<ToldPlace>, PlacesFault>
    ensures told { IfOk result (λ told. places_told text.now ≡ Ok (map told_view told.items)) }
    ensures fault { IfErr result (λ fault. fault ≢ Memory → places_told text.now ≡ Err fault) }
{
    let document = match toml::table_from_slice(alloc, text) {
        Ok(document) => document,
        Err(error) if error.is_memory() => return Err(PlacesFault::Memory),
        Err(_) => return Err(PlacesFault::NotToml),
    };
    let rows = queue_rows(&document);
    if rows.len() > Key::Queue.most() as usize {
        return Err(PlacesFault::OutOfRange);
    }
    let mut told = Vec::new(alloc);
    push_rows(alloc, &mut told, rows, 1)?;
    Ok(told)
}
