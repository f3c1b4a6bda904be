//! What the printers of a configuration print to.

ghost use Rattle.std.specs.Prelude.{◌≡◌, IfErr, IfOk, map, option_map, string_bytes};
ghost use Rattle.printer_names.specs.Placing.{ArePlaced};
ghost use Rattle.spool_config.specs.Places.{told_view};
ghost use Rattle.word_actions.specs.Places.{IsUnplaced, place_lines, place_of, printer_line, printer_lines, shown_place};
ghost use Rattle.program_edge.specs.declared.places.PrinterPlace.{PrinterPlace};

use crate::fault::ActionFault;
use config_values::Config;
use log::{Log, info};
use printer_names::{NamedPrinter, PlacingFault, placed_printers};
use program_edge::{DefaultFile, PlacedPrinter, PrinterPlace};
use spool_config::{PlacesFault, ToldPlace};
use std::alloc::{AllocError, Global};
use std::str;

/// The part of the program that tells what each printer prints to, as the log names it.
pub const PLACE_LINES: &str = "lpd_server::places";

/// What the printers of a configuration print to: what its text tells, and these words. Answers `Places` where the configuration says what
/// it may not, `Printer` for the first word that names no printer, may name two, or names one that has a place, and `Memory`.
pub fn printers_of<'a>(
    alloc: Global,
    config: &Config,
    told: &'a [ToldPlace],
    said: &[NamedPrinter<'a>],
) -> Result<Vec<PlacedPrinter<'a>>, ActionFault>
    ensures printers { IfOk result (λ printers.
        ArePlaced config.now (map told_view told.now) said.now printers.items) }
    ensures fault { IfErr result (IsUnplaced said.now) }
{
    match placed_printers(alloc, config, told, said) {
        Ok(printers) => Ok(printers),
        Err(PlacingFault::OutOfRange) => Err(ActionFault::Places(PlacesFault::OutOfRange)),
        Err(PlacingFault::Memory) => Err(ActionFault::Memory),
        Err(fault) => {
            let text = format!(in alloc; "{fault}")?;
            Err(ActionFault::Printer(text))
        }
    }
}

/// What the printer of this number prints to, if one of these says it.
fn place_of<'a>(printers: &[PlacedPrinter<'a>], number: u32) -> Option<PrinterPlace<'a>>
    ensures { result ≡ place_of printers.now number }
{
    let said = printers.iter().find(|said| said.printer == number)?;
    Some(said.place)
}

/// What the printer of this number prints to: its place, or else its file in this directory.
fn shown_place(
    alloc: Global,
    out: &str,
    printers: &[PlacedPrinter],
    number: u32,
) -> Result<String, AllocError>
    ensures { IfOk result (λ text.
        string_bytes text ≡ shown_place out.now number (place_of printers.now number)) }
{
    match place_of(printers, number) {
        Some(place) => place.to_string(alloc),
        None => {
            let file = DefaultFile {
                directory: out,
                printer: number,
            };
            file.to_string(alloc)
        }
    }
}

/// The line, without its end, that says which queue the printer of this number serves, and what it prints to.
fn printer_line(
    alloc: Global,
    config: &Config,
    out: &str,
    printers: &[PlacedPrinter],
    number: u32,
) -> Result<Vec<u8>, AllocError>
    ensures { IfOk result (λ line.
        line.items ≡ printer_line config.now out.now printers.now number) }
{
    let head = format!(in alloc; "printer {number} ")?;
    let mut line = Vec::from_slice(alloc, head.as_bytes())?;
    line.extend_from_slice(config.name_of(config.queue_of(number)))?;
    line.push(b' ')?;
    line.extend_from_slice(shown_place(alloc, out, printers, number)?.as_bytes())?;
    Ok(line)
}

/// A line for each printer, and none where nothing is said of any.
pub(crate) fn place_lines(
    alloc: Global,
    config: &Config,
    out: &str,
    printers: &[PlacedPrinter],
) -> Result<Vec<u8>, AllocError>
    ensures { IfOk result (λ text. text.items ≡ place_lines config.now out.now printers.now) }
{
    let mut text = Vec::new(alloc);
    if printers.is_empty() {
        return Ok(text);
    }
    for index in 0..config.printer_count() {
        let line = printer_line(alloc, config, out, printers, index + 1)?;
        text.extend_from_slice(line.as_slice())?;
        text.push(b'\n')?;
    }
    Ok(text)
}

/// Tells the log what each printer of a server prints to, where anything is said of any: those of which nothing is have files in this
/// directory. AllocError where memory for a line is refused.
pub fn tell_places<R: Log>(
    rt: &R,
    alloc: Global,
    config: &Config,
    out: &str,
    printers: &[PlacedPrinter],
) -> Result<(), AllocError> {
    if printers.is_empty() {
        return Ok(());
    }
    for index in 0..config.printer_count() {
        let line = printer_line(alloc, config, out, printers, index + 1)?;
        let text = str::from_utf8(line.as_slice()).unwrap_or("");
        info!(rt; target: PLACE_LINES, "{text}");
    }
    Ok(())
}
