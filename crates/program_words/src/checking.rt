//! The words of `check`: as `clap` is told them, and what they say.

ghost use Rattle.std.specs.Prelude.{IfErr, IfOk};
ghost use Rattle.clap.specs.Words.{found_of, rows_of};
ghost use Rattle.program_words.specs.Checking.{IsChecking};
ghost use Rattle.program_words.specs.Refused.{LacksChecking};

use crate::command::CONFIG;
use crate::printers::{PRINTER, printers_of};
use crate::serving::control_of;
use crate::values::{flag_of, text_if, text_of};
use crate::word_fault::WordFault;
use clap::ArgMatches;
use command_tables::{CommandTable, Shape, Word};
use printer_names::NamedPrinter;
use std::alloc::Global;

const MORE_OF_CHECK: &str = "\
Prints one line, as: ok pages 1024 page_size 4096 queues 2 printers 3
With --sizes two lines more for each queue, as: queue lp jobs 85, queue lp held 64
So many jobs fit into the account, each as large as the queue allows, between two moments without held jobs; and so many of them
may be held at once by a server with --keep-room, which takes any number one after another. Where a queue takes no job at all the exit
status is 2.
With --printer, whose PRINTER and PLACE `serve --help` tells, or with `places` in the configuration, a line more for each printer, with its
queue, as: printer 1 lp socket://10.0.0.9:9100
A printer without a PLACE prints to a file of the directory that `serve --out DIR` names: printer 2 lp DIR/printer-2
With --out, --control, --spool and --account at last a line for each, in this order, as:
  out DIR is there
  control PATH will be made
  spool DIR waiting 3 failed 0, or where it isn't there: spool DIR will be made
  account DIR segments 7, or where it isn't there: account DIR will be made
Nothing is made or changed. Where `serve` couldn't take DIR or PATH, as where a server answers at PATH, the fault is told
that it would have, for --out with DIR alone. Whether a file can be made in a folder isn't tried.

Examples:
  lpd_server check spool.toml
  lpd_server check spool.toml --sizes
  lpd_server check spool.toml --printer lp=socket://10.0.0.9
  lpd_server check spool.toml --out pages --control /run/hurgwaye/control --spool /var/spool/hurgwaye

The keys of a configuration: docs/OPERATING.md, and with remarks docs/example.toml.";

/// A configuration that is to be checked, and what is to be looked at beside it.
#[derive(Debug, Drop)]
pub struct Checking<'a> {
    /// The path of the configuration.
    pub config: &'a str,
    /// Whether to say how many jobs fit into the account.
    pub sizes: bool,
    /// What single printers print to: each name at most once. Where there are any, what each
    /// printer prints to is said.
    pub printers: Vec<NamedPrinter<'a>>,
    /// The directory of the printers' files, where it is said that it is there.
    pub out: Option<&'a str>,
    /// The path of a control socket, at most `MOST_CONTROL_PATH` octets, where it is said that a server could make it.
    pub control: Option<&'a str>,
    /// The folder in which a server is to keep jobs, where it is said what stands in it.
    pub spool: Option<&'a str>,
    /// The folder in which a server is to write its account, where it is said what stands in it.
    pub account: Option<&'a str>,
}

/// The command that reads a configuration.
pub(crate) const CHECK: CommandTable = CommandTable {
    name: "check",
    about: "Reads a configuration, and says what spool it is for",
    more: MORE_OF_CHECK,
    words: &[
        CONFIG,
        Word {
            id: "sizes",
            shape: Shape::Flag,
            help: "Says how many jobs fit into the account",
        },
        PRINTER,
        Word {
            id: "out",
            shape: Shape::Option("DIR"),
            help: "Says that the directory of the printers' files is there",
        },
        Word {
            id: "control",
            shape: Shape::Option("PATH"),
            help: "Says that a server could make its control socket at PATH",
        },
        Word {
            id: "spool",
            shape: Shape::Option("DIR"),
            help: "Says how many jobs wait in DIR, where a server keeps them, and how many failed",
        },
        Word {
            id: "account",
            shape: Shape::Option("DIR"),
            help: "Says how many segments of its account a server has written in DIR",
        },
    ],
};

/// What words say of a configuration that is to be checked. `Missing` where its path isn't there, `Printer` and
/// `PrinterTwice` as `printers_of` answers, `Control` as `control_of` does, and `Memory`.
pub(crate) fn checking_of<'a>(
    alloc: Global,
    matches: &ArgMatches<'a>,
) -> Result<Checking<'a>, WordFault>
    ensures read { IfOk result (IsChecking (rows_of (found_of matches.now))) }
    ensures fault { IfErr result (LacksChecking (rows_of (found_of matches.now))) }
{
    Ok(Checking {
        config: text_of(matches, "config")?,
        sizes: flag_of(matches, "sizes"),
        printers: printers_of(alloc, matches)?,
        out: text_if(matches, "out"),
        control: control_of(alloc, matches)?,
        spool: text_if(matches, "spool"),
        account: text_if(matches, "account"),
    })
}
