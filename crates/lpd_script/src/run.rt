//! The main job: a configuration and a script in, acknowledgements and pages out.
//!
//! The configuration ends at the first line that is exactly `%%`. A later `%%` is a bad line of the script, and `%%` with a carriage return is
//! not that line. BadScript comes when its line is reached, and nothing of that line is done; what earlier lines did stays printed.
//!
//! What a line prints is defined by the replies to its steps, and the replies by the trace: the number of turns of a line isn't fixed beforehand,
//! since a session goes on until it stops.

ghost use Rattle.std.specs.Prelude.{◌≡◌, ◌≢◌, ◌≤◌, ◌<◌, ◌⊎◌, ℕ, List, length, IfOk, IfErr, OnOk, OnErr, Err, Some, [], string_bytes};
ghost use Rattle.lpd_commands.specs.Ends.{MakesAtMost, Writes, most_reads};
ghost use Rattle.spool_world.specs.Worlds.{Leads};
ghost use Rattle.lpd_script.specs.declared.fault.Fault.TheVariants.{BadScript, Config, Memory, ReadFile, WriteFile};
ghost use Rattle.lpd_script.specs.Config.{TellsConfig};
ghost use Rattle.lpd_script.specs.Ends.{Collects, Prints, RunsAll, RunsParts, RunsTo};
ghost use Rattle.lpd_script.specs.Parts.{AreParts, IsCut};
ghost use Rattle.lpd_script.specs.Runner.{CannotRun, RanText};
ghost use Rattle.lpd_script.specs.Scripts.{RunsScript};
ghost use Rattle.lpd_script.specs.Status.{IsScriptFault, IsStatus};
ghost use Rattle.spool_config.specs.Answers.{fault_of};
ghost use Rattle.spool_config.specs.declared.settings.ConfigFault.{ConfigFault};
ghost use Rattle.spool_config.specs.declared.settings.ConfigFault.TheVariants.{Memory as ConfigMemory};
ghost use Rattle.lpd_script.specs.Streams.{HasGivenAll, HasGivenUp, IsReadOut, IsReadOutAfter, IsUnread};
ghost use Rattle.lpd_script.specs.Streams.{IsUntouched, IsReadingFault, write_faults};

use crate::fault::Fault;
use crate::runner::{NotRun, Runner};
use lpd_commands::{OctetRead, OctetWrite, write_all};
use program_edge::tell;
use script_lines::{LineFault, parse_line};
use std::alloc::Global;

/// How often the input is read at most.
const READS: u32 = u32::MAX;

/// How many octets are asked for by one read.
const PIECE: usize = 4_096;

/// How many octets of printed lines are collected before they are written.
const ENOUGH: usize = 16_384;

/// Reads a configuration, a line `%%` and a script from the input, and runs the script.
///
/// Where no such line comes, the script is empty. What is answered is the exit status: 0 when the script was run, 2
/// where the configuration can't be used, 3 where a line of the script can't be run, 4 where memory, the input or the
/// output failed, or where the input doesn't end in 4,294,967,295 reads. Any but 0 comes with one line that names the
/// fault, written to `faults`.
pub fn run_input<R: OctetRead, W: OctetWrite, E: OctetWrite>(
    alloc: Global,
    input: &mut R,
    output: &mut W,
    faults: &mut E,
) -> u8
    ensures status { IsStatus result }
    // Any status but 4 says that all was read, and that no read or write failed.
    ensures read_out { result ≢ 4 → IsReadOut (R.left input.new) }
    ensures read_fault { R.faults input.new ≢ R.faults input.old → result ≡ 4 }
    ensures write_fault { W.faults output.new ≢ W.faults output.old → result ≡ 4 }
    // A read that failed is the first fault: nothing was printed.
    ensures unread { R.faults input.new ≢ R.faults input.old
        → W.written output.new ≡ W.written output.old }
    ensures quiet { result ≡ 0 → IsUntouched (E.written faults.old) (E.faults faults.old)
        (E.written faults.new) (E.faults faults.new) }
    // The input is read at most 4,294,967,295 times.
    ensures reads { MakesAtMost most_reads (R.reads input.old) (R.reads input.new) }
    // What is written is what the lines of the script print, and the status says how it ended.
    ensures ran { (text : List ℕ) → R.left input.old ≡ Some text →
        RunsTo text (W.written output.old) (W.written output.new) (W.faults output.old) (W.faults output.new)
        (IsUnread (R.faults input.old) (R.faults input.new) (R.left input.old) (R.left input.new)) result }
{
    match run_all(alloc, input, output) {
        Ok(()) => 0,
        Err(fault) => {
            // There is nowhere else to tell of a fault here: the exit status says that there was one.
            let _ = tell(alloc, &fault, faults);
            fault.status()
        }
    }
}

/// Reads all of the input, and runs it.
fn run_all<R: OctetRead, W: OctetWrite>(
    alloc: Global,
    input: &mut R,
    output: &mut W,
) -> Result<(), Fault>
    ensures read_out { IsReadOutAfter (R.left input.new) result }
    ensures read_fault { R.faults input.new ≢ R.faults input.old → result ≡ Err ReadFile }
    ensures write_fault { W.faults output.new ≡ write_faults (W.faults output.old) result }
    ensures unread { result ≡ Err ReadFile → W.written output.new ≡ W.written output.old }
    ensures ran { (text : List ℕ) → R.left input.old ≡ Some text →
        RunsAll text (W.written output.old) (W.written output.new) result }
    ensures cause { result ≡ Err ReadFile →
        IsUnread (R.faults input.old) (R.faults input.new) (R.left input.old) (R.left input.new) }
    ensures reads { MakesAtMost most_reads (R.reads input.old) (R.reads input.new) }
{
    let all = read_all(alloc, input)?;
    let (config, script) = parts(all.as_slice());
    run_parts(alloc, config, script, output)
}

/// All octets of the input. Answers `ReadFile` where a read fails or the input doesn't end in 4,294,967,295 reads, and
/// `Memory`.
pub fn read_all<R: OctetRead>(alloc: Global, input: &mut R) -> Result<Vec<u8>, Fault>
    ensures all { IfOk result (λ all. HasGivenAll (R.left input.old) (R.left input.new) all.items) }
    ensures fault { IfErr result (λ fault. IsReadingFault fault) }
    ensures read_fault { R.faults input.new ≢ R.faults input.old → result ≡ Err ReadFile }
    ensures cause { result ≡ Err ReadFile →
        IsUnread (R.faults input.old) (R.faults input.new) (R.left input.old) (R.left input.new) }
    ensures given_up { result ≡ Err ReadFile →
        HasGivenUp (R.faults input.old) (R.faults input.new) (R.reads input.old) (R.reads input.new) }
    ensures reads { MakesAtMost most_reads (R.reads input.old) (R.reads input.new) }
{
    let mut all = Vec::new(alloc);
    let mut piece = [0u8; PIECE];
    for _ in 0..READS {
        let Ok(count) = input.read(&mut piece) else {
            return Err(Fault::ReadFile);
        };
        if count == 0 {
            return Ok(all);
        }
        all.extend_from_slice(&piece[..count])?;
    }
    Err(Fault::ReadFile)
}

/// Runs a script, the whole text, on the spool that a configuration gives, the whole text. Answers the first fault: of
/// the configuration, before anything is printed; `BadScript` at the first line that can't be run, once what the lines
/// before it print is written; `WriteFile` where the output can't be written; `Memory` anywhere.
pub fn run_parts<W: OctetWrite>(
    alloc: Global,
    config: &[u8],
    script: &[u8],
    output: &mut W,
) -> Result<(), Fault>
    ensures write_fault { W.faults output.new ≡ write_faults (W.faults output.old) result }
    ensures read { result ≢ Err ReadFile }
    // A configuration with a fault prints nothing, and what is told is its first fault or that memory was refused.
    ensures faulty { (due : ConfigFault) → fault_of config.now ≡ Some due →
        TellsConfig due result × (W.written output.new ≡ W.written output.old) }
    // A fault of the configuration is told only where it has it.
    ensures found { (due : ConfigFault) → result ≡ Err (Config due) → due ≢ ConfigMemory →
        fault_of config.now ≡ Some due }
    // What is written is what the script's lines print on a spool of this configuration.
    ensures ran { RunsParts config.now script.now (W.written output.old)
        (W.written output.new) result }
{
    let config = spool_config::read(alloc, config)?;
    let mut runner = Runner::new(alloc, config)?;
    run_script(&mut runner, script, output)
}

/// Runs the line of this number, and answers what it prints.
fn run_line(runner: &mut Runner, line: &[u8], number: u64) -> Result<String, Fault>
    ensures ran { IfOk result (λ text.
        RanText runner.old line.now (string_bytes text) runner.new) }
    ensures not_run { IfErr result (λ fault.
        ((fault ≡ BadScript number) × CannotRun runner.old line.now) ⊎ (fault ≡ Memory)) }
{
    let line = match parse_line(runner.alloc, line) {
        Ok(line) => line,
        Err(LineFault::Bad) => return Err(Fault::BadScript(number)),
        Err(LineFault::Memory) => return Err(Fault::Memory),
    };
    match runner.run(line) {
        Ok(text) => Ok(text),
        Err(NotRun::NamesNothing) => Err(Fault::BadScript(number)),
        Err(NotRun::Memory) => Err(Fault::Memory),
    }
}

/// Runs a script line by line. What its lines print is written before a fault is told.
fn run_script<W: OctetWrite>(
    runner: &mut Runner,
    script: &[u8],
    output: &mut W,
) -> Result<(), Fault>
    requires world { Leads [] runner.old.world }
    requires hosts { runner.old.hosts ≡ [] }
    ensures write_fault { W.faults output.new ≡ write_faults (W.faults output.old) result }
    ensures fault { IfErr result IsScriptFault }
    ensures ran { Prints (W.written output.old) (W.written output.new) result
        (λ printed. RunsScript runner.old.world.core.config script.now printed result) }
{
    let mut printed = Vec::new(runner.alloc);
    let mut number = 0u64;
    let mut rest = script;
    while !rest.is_empty() {
        let (line, after) = cut_line(rest);
        number += 1;
        rest = after;
        match run_line(runner, line, number) {
            Ok(text) => print(&mut printed, text.as_str(), output)?,
            Err(fault) => {
                write_out(&mut printed, output)?;
                return Err(fault);
            }
        }
    }
    write_out(&mut printed, output)
}

/// Prints a text. It is collected, and written once there is enough or memory is short.
fn print<W: OctetWrite>(printed: &mut Vec<u8>, text: &str, output: &mut W) -> Result<(), Fault>
    ensures printed { OnOk result (Collects (W.written output.old) printed.old.items text.now
        (W.written output.new) printed.new.items) }
    ensures write_fault { W.faults output.new ≡ write_faults (W.faults output.old) result }
    ensures fault { IfErr result (λ fault. fault ≡ WriteFile) }
{
    if printed.extend_from_slice(text.as_bytes()).is_err() {
        write_out(printed, output)?;
        return write(text.as_bytes(), output);
    }
    if printed.len() < ENOUGH {
        return Ok(());
    }
    write_out(printed, output)
}

/// Writes what was collected.
fn write_out<W: OctetWrite>(printed: &mut Vec<u8>, output: &mut W) -> Result<(), Fault>
    ensures written { OnOk result
        (Writes (W.written output.old) (W.written output.new) printed.old.items) }
    ensures emptied { printed.new.items ≡ [] }
    ensures write_fault { W.faults output.new ≡ write_faults (W.faults output.old) result }
    ensures fault { IfErr result (λ fault. fault ≡ WriteFile) }
{
    let written = write(printed.as_slice(), output);
    printed.clear();
    written
}

/// Writes all octets.
fn write<W: OctetWrite>(octets: &[u8], output: &mut W) -> Result<(), Fault>
    ensures written { OnOk result
        (Writes (W.written output.old) (W.written output.new) octets.now) }
    ensures write_fault { W.faults output.new ≡ write_faults (W.faults output.old) result }
    ensures fault { IfErr result (λ fault. fault ≡ WriteFile) }
{
    write_all(output, octets).or(Err(Fault::WriteFile))
}

/// The first line of a text, and what follows its LF.
fn cut_line(text: &[u8]) -> (&[u8], &[u8])
    ensures within { length result.1.now ≤ length text.now }
    ensures shorter { 0 < length text.now → length result.1.now < length text.now }
    ensures cut { IsCut text.now result.0.now result.1.now }
{
    for (i, octet) in text.iter().enumerate() {
        if *octet == b'\n' {
            return (&text[..i], &text[i + 1..]);
        }
    }
    (text, &[])
}

/// What stands before the first line `%%`, and what stands after it.
fn parts(text: &[u8]) -> (&[u8], &[u8])
    ensures { AreParts text.now result.0.now result.1.now }
{
    let mut rest = text;
    while !rest.is_empty() {
        let (line, after) = cut_line(rest);
        if line == b"%%".as_slice() {
            return (&text[..text.len() - rest.len()], after);
        }
        rest = after;
    }
    (text, rest)
}
