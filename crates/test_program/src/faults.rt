//! Readers and writers of which each call fails in turn.

use lpd_script::run_input;
use program_edge::{StreamReader, StreamWriter};
use std::alloc::Global;
use std::io;
use std::io::{Error, ErrorKind, Read, Write};
use std::process::Abort;
use std::test::Fail;
use test_kit::{Reader, Writer};

/// A configuration and a script that prints three lines.
const INPUT: &[u8] =
    b"pages = 4\npage_size = 8\nmax_jobs = 8\naccount = 100000\n[[queue]]\nname = \"lp\"\nlimit = 3\nprinters = 1\n%%\nfree\nconnect h1\nfree\n";

/// What is printed for it.
const PRINTED: &[u8] = b"free 4\nsession 1\nfree 4\n";

/// The run is told of so: its exit status, its output and its faults.
fn comes_to(rt: &impl Abort, alloc: Global, read: u64, write: u64, wanted: (u8, &[u8], &[u8])) {
    let mut output = Writer::new(alloc, 1, write);
    let mut faults = Writer::new(alloc, 1, 0);
    let mut input = Reader::new(INPUT, 10, read);
    let status = run_input(alloc, &mut input, &mut output, &mut faults);
    let (status_wanted, output_wanted, faults_wanted) = wanted;
    assert!(rt;
        status == status_wanted,
        "read {read}, write {write}: status {status}"
    );
    assert!(rt;
        output.octets.as_slice() == output_wanted,
        "read {read}, write {write}: output"
    );
    assert!(rt;
        faults.octets.as_slice() == faults_wanted,
        "read {read}, write {write}: faults"
    );
}

/// Nothing is printed where a read fails. The last of the reads finds the end.
#[test]
fn each_read_fails_in_turn(rt: HostRuntime) -> Result<(), Fail> {
    let reads = (INPUT.len() / 10 + 2) as u64;
    for read in 1..=reads {
        comes_to(&rt, rt.alloc(), read, 0, (4, b"", b"fault 71 ReadFile\n"));
    }
    comes_to(&rt, rt.alloc(), reads + 1, 0, (0, PRINTED, b""));
    Ok(())
}

/// What stands before the octet that fails is written, and nothing after it.
#[test]
fn each_write_fails_in_turn(rt: HostRuntime) -> Result<(), Fail> {
    for at in 0..PRINTED.len() {
        let fault = b"fault 73 WriteFile\n";
        comes_to(
            &rt,
            rt.alloc(),
            0,
            at as u64 + 1,
            (4, &PRINTED[..at], fault),
        );
    }
    comes_to(
        &rt,
        rt.alloc(),
        0,
        PRINTED.len() as u64 + 1,
        (0, PRINTED, b""),
    );
    Ok(())
}

/// A fault that can't be told is in the exit status.
#[test]
fn a_fault_that_cant_be_told(rt: HostRuntime) -> Result<(), Fail> {
    let alloc = rt.alloc();
    let mut output = StreamWriter::new(Vec::new(alloc));
    let mut faults = Writer::new(alloc, 1, 3);
    let mut input = StreamReader::new(b"pages = 0".as_slice());
    let status = run_input(alloc, &mut input, &mut output, &mut faults);
    assert_eq!(rt; status, 2);
    assert!(rt;
        faults.octets.as_slice() == b"fa".as_slice(),
        "two octets are written"
    );
    Ok(())
}

/// A stream that takes or gives three octets at a time, and is interrupted before each.
#[derive(Drop)]
struct Halting<'a> {
    rest: &'a [u8],
    taken: Vec<u8>,
    is_interrupted: bool,
}

impl<'a> Halting<'a> {
    /// A stream that has these octets to give, and took none.
    fn new(alloc: Global, rest: &'a [u8]) -> Halting<'a> {
        Halting {
            rest,
            taken: Vec::new(alloc),
            is_interrupted: false,
        }
    }

    /// Whether this call is interrupted: every other one is.
    fn is_cut(&mut self) -> bool {
        self.is_interrupted = !self.is_interrupted;
        self.is_interrupted
    }
}

impl Read for Halting<'_> {
    fn read(&mut self, into: &mut [u8]) -> io::Result<usize> {
        if self.is_cut() {
            return Err(Error::from(ErrorKind::Interrupted));
        }
        let count = self.rest.len().min(into.len()).min(3);
        into[..count].copy_from_slice(&self.rest[..count]);
        self.rest = &self.rest[count..];
        Ok(count)
    }
}

impl Write for Halting<'_> {
    fn write(&mut self, octets: &[u8]) -> io::Result<usize> {
        let count = octets.len().min(3);
        if self.is_cut() || self.taken.extend_from_slice(&octets[..count]).is_err() {
            return Err(Error::from(ErrorKind::Interrupted));
        }
        Ok(count)
    }

    fn flush(&mut self) -> io::Result<()> {
        Ok(())
    }
}

/// All is read and written where streams take and give few octets at a time and are interrupted.
#[test]
fn streams_that_halt(rt: HostRuntime) -> Result<(), Fail> {
    let alloc = rt.alloc();
    let mut input = StreamReader::new(Halting::new(alloc, INPUT));
    let mut output = StreamWriter::new(Halting::new(alloc, b""));
    let mut faults = StreamWriter::new(Halting::new(alloc, b""));
    let status = run_input(alloc, &mut input, &mut output, &mut faults);
    assert_eq!(rt; status, 0);
    assert!(rt; output.into_stream().taken.as_slice() == PRINTED);
    Ok(())
}
