//! What the printers of a configuration print to.

ghost use Rattle.std.specs.List.{AllZip};
ghost use Rattle.std.specs.Prelude.{◌≡◌, ◌==◌, ◌++◌, IfErr, IfOk, List, MatchOption, MatchResult, OnOk, map};
ghost use Rattle.program_edge.specs.declared.places.PlacedPrinter.{PlacedPrinter};
ghost use Rattle.printer_names.specs.Names.{NoOne};
ghost use Rattle.printer_names.specs.Placing.{AreOfDifferentPrinters, ArePlaced, IsOfTexts, IsPlacingFault, IsSaid, IsTold, IsUnnamed, is_placed};
ghost use Rattle.spool_config.specs.Places.{told_view};

use crate::fault::PlacingFault;
use crate::named::NamedPrinter;
use crate::resolving::{NameFault, nth_printer, printer_named};
use config_values::Config;
use program_edge::{PlacedPrinter, PrinterPlace};
use spool_config::ToldPlace;
use std::alloc::Global;

/// Whether one of these is for the printer of this number.
fn has_printer(printers: &[PlacedPrinter], number: u32) -> bool
    ensures { result ≡ is_placed printers.now number }
{
    printers.iter().any(|placed| placed.printer == number)
}

/// The printer that a text of the configuration is for, and what it prints to. None where its queue has no such printer, or the text says
/// nothing that one may print to.
fn told_printer<'a>(config: &Config, told: &'a ToldPlace) -> Option<PlacedPrinter<'a>>
    ensures { MatchOption result
        ((placed : PlacedPrinter) → IsTold config.now (told_view told.now) placed → ⊥)
        (IsTold config.now (told_view told.now)) }
{
    let printer = nth_printer(config, told.queue, u64::from(told.nth))?;
    let place = PrinterPlace::read(told.text.as_str())?;
    Some(PlacedPrinter { printer, place })
}

/// The printer that a word is for, and what it prints to. `Unknown` and `Ambiguous` as `printer_named` answers.
fn said_printer<'a>(
    config: &Config,
    said: NamedPrinter<'a>,
) -> Result<PlacedPrinter<'a>, PlacingFault<'a>>
    ensures { MatchResult result (IsSaid config.now said.entry)
        (IsUnnamed config.now said.entry) }
{
    let place = said.place;
    match printer_named(config, said.name) {
        Ok(printer) => Ok(PlacedPrinter { printer, place }),
        Err(NameFault::Unknown) => Err(PlacingFault::Unknown(said)),
        Err(NameFault::Ambiguous) => Err(PlacingFault::Ambiguous(said)),
    }
}

/// What the texts of a configuration say of its printers, in order. `OutOfRange` where one says nothing of one, or two are for one, and `Memory`.
fn told_printers<'a>(
    alloc: Global,
    config: &Config,
    told: &'a [ToldPlace],
) -> Result<Vec<PlacedPrinter<'a>>, PlacingFault<'a>>
    ensures told { IfOk result (λ printers.
        AllZip (IsTold config.now) (map told_view told.now) printers.items) }
    ensures once { IfOk result (λ printers. AreOfDifferentPrinters printers.items) }
    ensures fault { IfErr result (IsOfTexts config.now (map told_view told.now)) }
{
    let mut printers = Vec::new(alloc);
    for text in told {
        let Some(placed) = told_printer(config, text) else {
            return Err(PlacingFault::OutOfRange);
        };
        // Never of the texts that one configuration has: each is for another printer.
        if has_printer(printers.as_slice(), placed.printer) {
            return Err(PlacingFault::OutOfRange);
        }
        if printers.push(placed).is_err() {
            return Err(PlacingFault::Memory);
        }
    }
    Ok(printers)
}

/// What the printers of a configuration print to: what its texts tell, and behind that what words say. A printer of which neither says
/// anything isn't among them.
///
/// # Errors
///
/// `OutOfRange` where a text of the configuration says nothing that a printer may print to, is for one that its queue doesn't have, or for the same one
/// as another text; else `Unknown`, `Ambiguous` or `Twice` with the first word whose name means no printer, may mean two, or is for one that has a
/// place: of the texts, or of a word before it; `Memory`.
pub fn placed_printers<'a>(
    alloc: Global,
    config: &Config,
    told: &'a [ToldPlace],
    said: &[NamedPrinter<'a>],
) -> Result<Vec<PlacedPrinter<'a>>, PlacingFault<'a>>
    ensures placed { IfOk result (λ printers.
        ArePlaced config.now (map told_view told.now) said.now printers.items) }
    ensures fault { IfErr result (IsPlacingFault config.now (map told_view told.now) said.now) }
{
    let mut printers = told_printers(alloc, config, told)?;
    for word in said {
        let placed = said_printer(config, *word)?;
        if has_printer(printers.as_slice(), placed.printer) {
            return Err(PlacingFault::Twice(*word));
        }
        if printers.push(placed).is_err() {
            return Err(PlacingFault::Memory);
        }
    }
    Ok(printers)
}
