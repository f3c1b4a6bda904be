//! What is done with files: a configuration is checked, and what spool it is for is said; a script is run.

ghost use Rattle.std.specs.Prelude.{◌≡◌, ◌≢◌, OnOk, IfOk, IfErr, Err, Ok, Some, List, ℕ, length};
ghost use Rattle.std.specs.Prelude.{string_bytes};
ghost use Rattle.lpd_commands.specs.Ends.{Writes};
ghost use Rattle.lpd_script.specs.declared.fault.Fault.TheVariants.{ReadFile, WriteFile};
ghost use Rattle.word_actions.specs.declared.fault.ActionFault.TheVariants.{Run};
ghost use Rattle.word_actions.specs.Causes.{IsRunFault};
ghost use Rattle.word_actions.specs.Order.{Checked, IsConfigFault, IsSpoolFault, IsUnchecked, ReadsConfig, ReadsSpool};
ghost use Rattle.word_actions.specs.Order.{StopsAt, write_faults};
ghost use Rattle.word_actions.specs.Sizes.{few_text, held_line, jobs_that_fit, size_line, size_lines, sizes_result, takes_none};
ghost use Rattle.word_actions.specs.Summary.{check_text, out_of, spool_text, summary_line};
ghost use Rattle.spool_config.specs.Answers.{fault_of};
ghost use Rattle.spool_config.specs.declared.settings.ConfigFault.{ConfigFault};

use crate::fault::ActionFault;
use crate::places::{place_lines, printers_of};
use config_values::Config;
use lpd_commands::{OctetRead, OctetWrite, write_all};
use lpd_script::{read_all, run_parts};
use program_edge::PlacedPrinter;
use program_words::Checking;
use spool_config::{PlacesFault, ToldPlace, read_places};
use std::alloc::{AllocError, Global};

/// Where fewer jobs than these fit into the account, the line says that they are few.
const FEW: u64 = 50;

/// Writes a text to the output.
pub(crate) fn print<W: OctetWrite>(output: &mut W, text: &[u8]) -> Result<(), ActionFault>
    ensures written { OnOk result (Writes (W.written output.old) (W.written output.new) text.now) }
    ensures write_fault { W.faults output.new ≡ write_faults (W.faults output.old) result }
    ensures fault { IfErr result (λ fault. fault ≡ Run WriteFile) }
{
    write_all(output, text).or(Err(ActionFault::Run(lpd_script::Fault::WriteFile)))
}

/// Reads a configuration to its end. Answers the first fault: `ReadFile`, a fault of the
/// configuration, and `Memory`.
pub fn read_config<I: OctetRead>(alloc: Global, input: &mut I) -> Result<Config, ActionFault>
    ensures config { IfOk result (ReadsConfig (I.left input.old) (I.left input.new)) }
    ensures read_fault { I.faults input.new ≢ I.faults input.old → result ≡ Err (Run ReadFile) }
    ensures fault { IfErr result (IsConfigFault (I.left input.old) (I.left input.new)) }
    ensures faulty { (text : List ℕ) → I.left input.old ≡ Some text → (due : ConfigFault) →
        fault_of text ≡ Some due → StopsAt due result }
{
    let text = read_all(alloc, input)?;
    match spool_config::read(alloc, text.as_slice()) {
        Ok(config) => Ok(config),
        Err(fault) => Err(ActionFault::Run(lpd_script::Fault::Config(fault))),
    }
}

/// A configuration, and what its text says that its printers print to.
#[derive(Debug, Drop)]
pub struct ReadSpool {
    pub config: Config,
    pub told: Vec<ToldPlace>,
}

/// Reads a configuration to its end, as `read_config` does, and what it says of its printers. Answers `Places` where that is wrong, too.
pub fn read_spool<I: OctetRead>(alloc: Global, input: &mut I) -> Result<ReadSpool, ActionFault>
    ensures spool { IfOk result (ReadsSpool (I.left input.old) (I.left input.new)) }
    ensures read_fault { I.faults input.new ≢ I.faults input.old → result ≡ Err (Run ReadFile) }
    ensures fault { IfErr result (IsSpoolFault (I.left input.old) (I.left input.new)) }
    // The configuration's fault comes first.
    ensures faulty { (text : List ℕ) → I.left input.old ≡ Some text → (due : ConfigFault) →
        fault_of text ≡ Some due → StopsAt due result }
{
    let text = read_all(alloc, input)?;
    let config = match spool_config::read(alloc, text.as_slice()) {
        Ok(config) => config,
        Err(fault) => return Err(ActionFault::Run(lpd_script::Fault::Config(fault))),
    };
    match read_places(alloc, text.as_slice()) {
        Ok(told) => Ok(ReadSpool { config, told }),
        Err(PlacesFault::Memory) => Err(ActionFault::Memory),
        Err(fault) => Err(ActionFault::Places(fault)),
    }
}

/// What is said of this number of jobs where it is few.
fn few_text(jobs: u64) -> &'static str
    ensures { result.now ≡ few_text jobs }
{
    if jobs < FEW {
        ", too few: a larger account or larger pages make room"
    } else {
        ""
    }
}

/// How many jobs of a queue fit into the account between two moments without held jobs, each as large as the queue allows. The last entry
/// is that of the close.
fn jobs_that_fit(config: &Config, queue: u32) -> u64
    ensures { result ≡ jobs_that_fit config.now queue }
{
    config.account().saturating_sub(1) / config.reserve_of(queue)
}

/// Whether a queue of a configuration takes no job: the account has no room for one as large as the queue allows.
fn takes_none(config: &Config) -> bool
    ensures { result ≡ takes_none config.now (length config.now.queues) }
{
    let mut none = false;
    for place in 0..config.queues().len() {
        none = none || jobs_that_fit(config, place as u32 + 1) == 0;
    }
    none
}

/// Looks, where sizes are asked for, whether each queue takes a job. NoJobFits where one doesn't.
pub(crate) fn check_sizes(config: &Config, sizes: bool) -> Result<(), ActionFault>
    ensures { result ≡ sizes_result sizes config.now }
{
    if sizes && takes_none(config) {
        return Err(ActionFault::NoJobFits);
    }
    Ok(())
}

/// The line of a queue: how many jobs of it fit into the account between two moments without held
/// jobs, each as large as the queue allows.
fn size_line(alloc: Global, config: &Config, queue: u32) -> Result<Vec<u8>, AllocError>
    ensures { IfOk result (λ line. line.items ≡ size_line config.now queue) }
{
    let jobs = jobs_that_fit(config, queue);
    let few = few_text(jobs);
    let mut line = Vec::from_slice(alloc, b"queue ")?;
    line.extend_from_slice(config.name_of(queue))?;
    line.extend_from_slice(format!(in alloc; " jobs {jobs}{few}\n")?.as_bytes())?;
    Ok(line)
}

/// The line of a queue: how many jobs of it may be held at once, each as large as the queue allows, where the account is trimmed. That
/// is done once a quarter of it is counted for jobs that are gone.
fn held_line(alloc: Global, config: &Config, queue: u32) -> Result<Vec<u8>, AllocError>
    ensures { IfOk result (λ line. line.items ≡ held_line config.now queue) }
{
    let account = config.account();
    let jobs = (account - account / 4).saturating_sub(1) / config.reserve_of(queue);
    let mut line = Vec::from_slice(alloc, b"queue ")?;
    line.extend_from_slice(config.name_of(queue))?;
    line.extend_from_slice(format!(in alloc; " held {jobs}\n")?.as_bytes())?;
    Ok(line)
}

/// Two lines for each queue: how many jobs of it fit into the account, and how many may be held at once.
fn size_lines(alloc: Global, config: &Config) -> Result<Vec<u8>, AllocError>
    ensures { IfOk result (λ text.
        text.items ≡ size_lines config.now (length config.now.queues)) }
{
    let mut text = Vec::new(alloc);
    for place in 0..config.queues().len() {
        text.extend_from_slice(size_line(alloc, config, place as u32 + 1)?.as_slice())?;
        text.extend_from_slice(held_line(alloc, config, place as u32 + 1)?.as_slice())?;
    }
    Ok(text)
}

/// The line that says what spool there is for a configuration of these.
fn summary_line(
    alloc: Global,
    pages: u32,
    page_size: u32,
    queues: usize,
    printers: u32,
) -> Result<String, AllocError>
    ensures { IfOk result (λ line.
        string_bytes line ≡ summary_line pages page_size queues printers) }
{
    format!(in alloc;
        "ok pages {pages} page_size {page_size} queues {queues} printers {printers}\n"
    )
}

/// The line that says what spool a configuration is for, and where sizes are asked for, one for each
/// queue.
fn spool_text(alloc: Global, config: &Config, sizes: bool) -> Result<Vec<u8>, AllocError>
    ensures { IfOk result (λ text. text.items ≡ spool_text config.now sizes) }
{
    let (pages, page_size) = (config.pages(), config.page_size());
    let (queues, printers) = (config.queues().len(), config.printer_count());
    let line = summary_line(alloc, pages, page_size, queues, printers)?;
    let mut text = Vec::from_slice(alloc, line.as_bytes())?;
    if !sizes {
        return Ok(text);
    }
    text.extend_from_slice(size_lines(alloc, config)?.as_slice())?;
    Ok(text)
}

/// All that `check` prints of a configuration.
fn check_text(
    alloc: Global,
    config: &Config,
    sizes: bool,
    out: &str,
    printers: &[PlacedPrinter],
) -> Result<Vec<u8>, AllocError>
    ensures { IfOk result (λ text. text.items ≡ check_text config.now sizes out.now printers.now) }
{
    let mut text = spool_text(alloc, config, sizes)?;
    let lines = place_lines(alloc, config, out, printers)?;
    text.extend_from_slice(lines.as_slice())?;
    Ok(text)
}

/// The directory of the printers' files, as `check` names it.
fn out_of<'a>(checking: &Checking<'a>) -> &'a str
    ensures { result.now ≡ out_of checking.now.out }
{
    match checking.out {
        Some(directory) => directory,
        None => "DIR",
    }
}

/// Reads a configuration to its end, and prints what spool it is for; where sizes are asked for, also
/// how many jobs of each queue fit into the account, and may be held at once; and where anything is said of printers, what
/// each of them prints to. Answers the first fault: `ReadFile`, a fault of the configuration, `Places`,
/// `Printer` where a word names no printer, `WriteFile`, and `Memory`.
pub fn check<I: OctetRead, W: OctetWrite>(
    alloc: Global,
    config: &mut I,
    checking: &Checking,
    output: &mut W,
) -> Result<ReadSpool, ActionFault>
    ensures checked { IfOk result (Checked checking.now (I.left config.old) (I.left config.new)
        (W.written output.old) (W.written output.new)) }
    // A printer that isn't there is told before anything is printed.
    ensures missing { IfErr result
        (IsUnchecked checking.now (W.written output.old) (W.written output.new)) }
    ensures read_fault { I.faults config.new ≢ I.faults config.old → result ≡ Err (Run ReadFile) }
    ensures write_fault { W.faults output.new ≡ write_faults (W.faults output.old) result }
    // A fault of the configuration is told before anything is printed.
    ensures faulty { (text : List ℕ) → I.left config.old ≡ Some text → (due : ConfigFault) →
        fault_of text ≡ Some due →
        StopsAt due result × (W.written output.new ≡ W.written output.old) }
{
    let spool = read_spool(alloc, config)?;
    let text = {
        let (told, said) = (spool.told.as_slice(), checking.printers.as_slice());
        let printers = printers_of(alloc, &spool.config, told, said)?;
        let (sizes, out) = (checking.sizes, out_of(checking));
        check_text(alloc, &spool.config, sizes, out, printers.as_slice())?
    };
    print(output, text.as_slice())?;
    Ok(spool)
}

/// Reads a configuration and a script to their ends, and runs the script on the spool that the
/// configuration gives. Answers the first fault: `ReadFile` of either, before anything is printed,
/// then the faults of `run_parts`.
pub fn replay<I: OctetRead, J: OctetRead, W: OctetWrite>(
    alloc: Global,
    config: &mut I,
    script: &mut J,
    output: &mut W,
) -> Result<(), ActionFault>
    ensures config_fault { I.faults config.new ≢ I.faults config.old
        → result ≡ Err (Run ReadFile) }
    ensures script_fault { J.faults script.new ≢ J.faults script.old
        → result ≡ Err (Run ReadFile) }
    ensures unread { result ≡ Err (Run ReadFile) → W.written output.new ≡ W.written output.old }
    ensures write_fault { W.faults output.new ≡ write_faults (W.faults output.old) result }
    ensures fault { IfErr result IsRunFault }
    // Files that can't be read come first, then the configuration's fault, and nothing is printed.
    ensures faulty { (text : List ℕ) → I.left config.old ≡ Some text → (due : ConfigFault) →
        fault_of text ≡ Some due →
        StopsAt due result × (W.written output.new ≡ W.written output.old) }
{
    let config = read_all(alloc, config)?;
    let script = read_all(alloc, script)?;
    run_parts(alloc, config.as_slice(), script.as_slice(), output)?;
    Ok(())
}
