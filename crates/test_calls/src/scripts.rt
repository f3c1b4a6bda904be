//! Configurations and scripts, and what the program prints for them.

use lpd_script::run_input;
use program_edge::{StreamReader, StreamWriter};
use std::alloc::{AllocError, Global};
use test_kit::rows::octets;

/// The configuration of a script that has none of its own.
pub const CONFIG: &str =
    "pages = 4\npage_size = 8\nmax_jobs = 8\naccount = 100000\n\n[[queue]]\nname = \"lp\"\nlimit = 3\nprinters = 1\n";

/// What the program prints on this input: its lines, its fault, and its exit status in a line of its own.
pub fn run(alloc: Global, input: &[u8]) -> Result<Vec<u8>, AllocError> {
    let mut output = StreamWriter::new(Vec::new(alloc));
    let mut faults = StreamWriter::new(Vec::new(alloc));
    let mut input = StreamReader::new(input);
    let status = run_input(alloc, &mut input, &mut output, &mut faults);
    let mut told = output.into_stream();
    told.extend_from_slice(faults.into_stream().as_slice())?;
    told.extend_from_slice(format!(in alloc; "status {status}\n")?.as_bytes())?;
    Ok(told)
}

/// Appends what the program prints for this script, which may have a configuration and a line `%%` before it, or has the one above.
pub fn script(told: &mut String, alloc: Global, asked: &str) -> Result<(), AllocError> {
    let mut input = Vec::new(alloc);
    if !asked.contains("\n%%\n") {
        input.extend_from_slice(CONFIG.as_bytes())?;
        input.extend_from_slice(b"%%\n")?;
    }
    input.extend_from_slice(octets(alloc, asked)?.as_slice())?;
    write!(
        told,
        "{}",
        run(alloc, input.as_slice())?.as_slice().escape_ascii()
    )
}

/// Appends what the program prints where something else stands in the configuration, and one line asks for the free pages. A row
/// has what stands there and, after ` -> `, what is to stand in its place.
pub fn configuration(told: &mut String, alloc: Global, asked: &str) -> Result<(), AllocError> {
    let (old, new) = asked.split_once(" -> ").unwrap_or((asked, ""));
    let (before, after) = CONFIG.split_once(old).unwrap_or((CONFIG, ""));
    let mut input = Vec::from_slice(alloc, before.as_bytes())?;
    input.extend_from_slice(octets(alloc, new)?.as_slice())?;
    input.extend_from_slice(after.as_bytes())?;
    input.extend_from_slice(b"%%\nfree\n")?;
    write!(
        told,
        "{}",
        run(alloc, input.as_slice())?.as_slice().escape_ascii()
    )
}
