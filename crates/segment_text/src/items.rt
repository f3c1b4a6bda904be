//! What a line of a segment says.

ghost use Rattle.std.specs.Prelude.{◌≡◌, ◌⊎◌, MatchResult};
ghost use Rattle.segment_text.specs.Items.{item_line, item_seen, IsItem, Item, OnlyMeans, Suits};

use crate::config::parse_config;
use crate::head::{HeadPrinter, Last, Origin, Start};
use crate::read::{parse_last, parse_origin, parse_printer, parse_start};
use account::Entry;
use account_text::{LineFault, parse_entry};
use config_values::Config;
use std::alloc::Global;

/// What a line of a segment says.
#[derive(Drop)]
pub enum SegmentLine {
    /// Where the segment stands: the first line.
    Origin(Origin),
    /// What its spool is made for.
    Config(Config),
    /// What a printer prints to, in the order of the printers' numbers.
    Printer(HeadPrinter),
    /// What is before the segment.
    Start(Start),
    /// One entry, in order of writing.
    Entry(Entry),
    /// How it ends: the last line.
    Last(Last),
}

/// Which line of a segment comes next.
#[derive(Clone, Copy, Debug, PartialEq, Eq)]
pub enum Stage {
    /// The first one.
    Origin,
    /// The configuration's.
    Config,
    /// One for each of so many printers, and then that of what is before the segment.
    Printers(u32),
    /// That of an entry, or the last one.
    Entries,
    /// None.
    Over,
}

/// What a line says that may come where an entry may.
fn parse_body(alloc: Global, line: &[u8]) -> Result<SegmentLine, LineFault>
    ensures { MatchResult result
        (λ got. (line.now ≡ item_line (item_seen got))
        × Suits Stage.Entries (item_seen got)
        × OnlyMeans line.now (item_seen got))
        (λ f. (f ≡ LineFault.Memory) ⊎ ((f ≡ LineFault.Bad)
        × ((i : Item) → IsItem i → Suits Stage.Entries i → line.now ≡ item_line i → ⊥))) }
{
    match parse_entry(alloc, line) {
        Ok(entry) => Ok(SegmentLine::Entry(entry)),
        Err(LineFault::Memory) => Err(LineFault::Memory),
        Err(LineFault::Bad) => {
            let last = parse_last(alloc, line)?;
            Ok(SegmentLine::Last(last))
        }
    }
}

/// What a line says that may come behind those of the printers, or is one of them.
fn parse_printers(alloc: Global, left: u32, line: &[u8]) -> Result<SegmentLine, LineFault>
    ensures { MatchResult result
        (λ got. (line.now ≡ item_line (item_seen got))
        × Suits (Stage.Printers left) (item_seen got)
        × OnlyMeans line.now (item_seen got))
        (λ f. (f ≡ LineFault.Memory) ⊎ ((f ≡ LineFault.Bad)
        × ((i : Item) → IsItem i → Suits (Stage.Printers left) i → line.now ≡ item_line i → ⊥))) }
{
    if left == 0 {
        let start = parse_start(alloc, line)?;
        return Ok(SegmentLine::Start(start));
    }
    let printer = parse_printer(alloc, line)?;
    Ok(SegmentLine::Printer(printer))
}

/// What a line (without its LF) says that comes next at a stage.
///
/// `Bad` exactly where it is the line of nothing that can be told and comes next there; `Memory` where memory is refused.
pub fn parse_line(alloc: Global, stage: Stage, line: &[u8]) -> Result<SegmentLine, LineFault>
    ensures { MatchResult result
        (λ got. (line.now ≡ item_line (item_seen got))
        × Suits stage (item_seen got)
        × OnlyMeans line.now (item_seen got))
        (λ f. (f ≡ LineFault.Memory) ⊎ ((f ≡ LineFault.Bad)
        × ((i : Item) → IsItem i → Suits stage i → line.now ≡ item_line i → ⊥))) }
{
    match stage {
        Stage::Origin => {
            let origin = parse_origin(alloc, line)?;
            Ok(SegmentLine::Origin(origin))
        }
        Stage::Config => {
            let config = parse_config(alloc, line)?;
            Ok(SegmentLine::Config(config))
        }
        Stage::Printers(left) => parse_printers(alloc, left, line),
        Stage::Entries => parse_body(alloc, line),
        Stage::Over => Err(LineFault::Bad),
    }
}
