//! The words that say what printers print to, and what those on the network may do.

ghost use Rattle.std.specs.List.{list_any};
ghost use Rattle.std.specs.Prelude.{◌≡◌, IfOk, IfErr};
ghost use Rattle.clap.specs.Words.{found_of, rows_of};
ghost use Rattle.program_words.specs.Refused.{HasNoPrinterLimits, HasNoPrinters};
ghost use Rattle.program_words.specs.Serving.{ArePrinterLimits, ArePrinters};
ghost use Rattle.program_words.specs.declared.word_fault.WordFault.TheVariants.{Missing};
ghost use Rattle.std.specs.Str.{bytes_eq};
ghost use Rattle.printer_names.specs.declared.named.NamedPrinter.{NamedPrinter};

use crate::values::{limit_of, texts_of};
use crate::word_fault::WordFault;
use clap::ArgMatches;
use command_tables::{Shape, Word};
use printer_names::NamedPrinter;
use program_edge::PrinterLimits;
use std::alloc::Global;

/// The option for a printer.
pub(crate) const PRINTER: Word = Word {
    id: "printer",
    shape: Shape::Repeated("PRINTER=PLACE"),
    help: "What a printer, K from 1, QUEUE or QUEUE.N, prints to: file:PATH, folder:PATH or socket://A.B.C.D[:PORT]",
};

/// Whether one of these has this name.
fn has_name(printers: &[NamedPrinter], name: &str) -> bool
    ensures { result
        ≡ list_any (λ (said : NamedPrinter). bytes_eq said.name.now name.now) printers.now }
{
    printers.iter().any(|said| said.name == name)
}

/// What single printers print to. `Printer` with the first text that says nothing of one,
/// `PrinterTwice` with the first that has the name of an earlier one, and `Memory`.
pub(crate) fn printers_of<'a>(
    alloc: Global,
    matches: &ArgMatches<'a>,
) -> Result<Vec<NamedPrinter<'a>>, WordFault>
    ensures printers { IfOk result (λ printers.
        ArePrinters (rows_of (found_of matches.now)) printers.items) }
    ensures fault { IfErr result (HasNoPrinters (rows_of (found_of matches.now))) }
{
    let mut printers = Vec::new(alloc);
    let Ok(texts) = texts_of(matches, "printer") else {
        return Ok(printers);
    };
    for text in texts {
        let Some(said) = NamedPrinter::read(text) else {
            return Err(WordFault::Printer(String::from_str(alloc, text)?));
        };
        if has_name(printers.as_slice(), said.name) {
            return Err(WordFault::PrinterTwice(String::from_str(alloc, text)?));
        }
        printers.push(said)?;
    }
    Ok(printers)
}

/// What words say of the printers on the network. `Missing` where an option is no number above 0.
pub(crate) fn printer_limits_of(matches: &ArgMatches) -> Result<PrinterLimits, WordFault>
    ensures limits { IfOk result (ArePrinterLimits (rows_of (found_of matches.now))) }
    ensures fault { IfErr result (λ fault. (fault ≡ Missing)
        × HasNoPrinterLimits (rows_of (found_of matches.now))) }
{
    Ok(PrinterLimits {
        patience_minutes: limit_of(matches, "patience")?,
        silence_seconds: limit_of(matches, "printer-silence")?,
    })
}
