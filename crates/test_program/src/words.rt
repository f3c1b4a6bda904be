//! The program's words, with files and a socket on loopback.

use crate::kit::{CONFIG, expect, listen, path_of, told, words_of};
use crate::word_rows::{BAD, EXAMPLE, FEW, PLACED, POINTS, SCRIPT, TOLD};
use log::{Level, Log, Logged};
use log_lines::{LineLog, LineQueue, LogForm};
use lpr_client::{Control, DataFile, FileName, Octets, is_sendable, job_bytes};
use std::alloc::Global;
use std::fs::{File, Files};
use std::io::{Read, Write};
use std::net::{Net, TcpListener, TcpStream};
use std::process::Abort;
use std::rt::Env;
use std::sync::Wait;
use std::test::Fail;
use std::thread::Threads;
use std::time::{Clock, Duration, Instant};
use std::{fs, io, thread};
use test_kit::all_lines;
use test_kit::rows::octets;

/// The input of a row: a configuration by its name, or the octets that a text stands for.
fn input_of<R: Abort + AllocGlobal>(rt: &R, text: &str) -> Vec<u8> {
    let alloc = rt.alloc();
    let named = match text {
        "-" => b"".as_slice(),
        "CONFIG" => CONFIG,
        "SCRIPT" => SCRIPT,
        "EXAMPLE" => EXAMPLE,
        "POINTS" => POINTS,
        "PLACED" => PLACED,
        "FEW" => FEW,
        _ => return octets(alloc, text).expect(rt, "memory"),
    };
    Vec::from_slice(alloc, named).expect(rt, "memory")
}

/// What the words of a row are told.
fn told_of_row<
    R: Abort
        + AllocGlobal
        + Env
        + Files<File = File>
        + Log
        + Net<Listener = TcpListener, Stream = TcpStream>,
>(rt: &R, line: &str, octets: &[u8]) -> Vec<u8> {
    let (_holder, port) = listen(rt);
    let file = path_of(rt, port);
    let script = format!(in rt.alloc(); "{}-script", file.as_str()).expect(rt, "memory");
    let (file, script) = (file.as_str(), script.as_str());
    let text = str::from_utf8(octets).unwrap_or("");
    let (first, second) = text.split_once("%%\n").unwrap_or((text, ""));
    fs::write(rt, file, first.as_bytes()).expect(rt, "a file");
    fs::write(rt, script, second.as_bytes()).expect(rt, "a file");
    let words = words_of(rt.alloc(), line, file, script).expect(rt, "memory");
    let told = told(rt, words.as_slice(), octets).expect(rt, "memory");
    fs::remove_file(rt, file).expect(rt, "a file");
    fs::remove_file(rt, script).expect(rt, "a file");
    told
}

#[test]
fn words_are_answered(rt: HostRuntime) {
    for row in TOLD.split("====\n") {
        let (line, rest) = row.split_once('\n').expect(&rt, "words");
        let (input, wanted) = rest.split_once('\n').expect(&rt, "an input");
        let input = input_of(&rt, input);
        let answer = told_of_row(&rt, line, input.as_slice());
        expect(&rt, line.as_bytes(), answer.as_slice(), wanted.as_bytes());
    }
    for line in ["--help", "--version", "-h", "control,--help"] {
        let answer = told_of_row(&rt, line, b"");
        assert!(rt; answer.as_slice().ends_with(b"\nstatus 0\n"), "{line}");
    }
    for line in BAD.trim().lines() {
        let answer = told_of_row(&rt, line, b"");
        assert!(rt; answer.as_slice().starts_with(b"error: "), "{line}");
        assert!(rt; answer.as_slice().ends_with(b"\nstatus 1\n"), "{line}");
    }
}

/// Words that end with a fault of a file or an address, the octets of `FILE`, and how the line of the log ends that says why.
const CAUSES: [(&str, &[u8], &str); 5] = [
    (
        "check,/there/is/no/such/file",
        b"",
        "/there/is/no/such/file: No such file or directory (os error 2)\n",
    ),
    (
        "replay,FILE,/there/is/no/such/script",
        CONFIG,
        "/there/is/no/such/script: No such file or directory (os error 2)\n",
    ),
    (
        "send,515,lp,1,h1,ann,/there/is/nothing",
        b"",
        "/there/is/nothing: No such file or directory (os error 2)\n",
    ),
    (
        "send,515,lp,1,h1,ann,FILE",
        b"",
        ": it has no octets, or no end\n",
    ),
    (
        "send,1,lp,1,h1,ann,FILE",
        b"hello",
        "127.0.0.1:1: Connection refused (os error 111)\n",
    ),
];

/// What the log has at this level once the words of a row have ended with a fault.
fn logged_of_row<
    R: Abort
        + AllocGlobal
        + Clock
        + Env
        + Files<File = File>
        + Log
        + Net<Listener = TcpListener, Stream = TcpStream>
        + Wait,
>(rt: &R, level: Level, line: &str, octets: &[u8]) -> String {
    let alloc = rt.alloc();
    let queue = LineQueue::new(alloc, 64, LogForm::Plain);
    let logged = Logged::new(rt, level, LineLog::new(rt, alloc, &queue));
    let told = told_of_row(&logged, line, octets);
    assert!(rt; told.as_slice().ends_with(b"status 4\n"), "{line}");
    all_lines(rt, alloc, &queue).expect(rt, "memory")
}

/// Before the fault of a file or an address the log is told at INFO which it is, and why. At WARN, as where standard error isn't a terminal,
/// it isn't.
#[test]
fn causes_are_told(rt: HostRuntime) {
    for (line, octets, wanted) in CAUSES {
        let logged = logged_of_row(&rt, Level::Info, line, octets);
        assert!(rt; logged.as_str().starts_with("[INFO  "), "{line}: {logged}");
        assert!(rt; logged.as_str().ends_with(wanted), "{line}: {logged}");
        assert_eq!(rt; logged_of_row(&rt, Level::Warn, line, octets).as_str(), "");
    }
}

/// Up to each acknowledgement, the octets of job 7 of host h1 and user ann with a file of `hello world`.
const PARTS: [&[u8]; 5] = [
    b"\x02lp\n",
    b"\x0311 dfA007h1\n",
    b"hello world\x00",
    b"\x0219 cfA007h1\n",
    b"Hh1\nPann\nfdfA007h1\n\x00",
];

/// The same with a file of `other words` behind it.
const PARTS_OF_TWO: [&[u8]; 7] = [
    b"\x02lp\n",
    b"\x0311 dfA007h1\n",
    b"hello world\x00",
    b"\x0311 dfB007h1\n",
    b"other words\x00",
    b"\x0229 cfA007h1\n",
    b"Hh1\nPann\nfdfA007h1\nfdfB007h1\n\x00",
];

/// Takes one connection, reads each part of a job and answers it by 00, but the part of this number by 1. What was read.
fn serve(
    alloc: Global,
    listener: &TcpListener,
    parts: &[&[u8]],
    refused: usize,
) -> io::Result<Vec<u8>> {
    let (mut stream, _) = listener.accept()?;
    let mut read = Vec::new(alloc);
    let mut buffer = [0u8; 64];
    for (number, part) in parts.iter().enumerate() {
        let part_read = &mut buffer[..part.len().min(64)];
        stream.read_exact(part_read)?;
        read.extend_from_slice(part_read)?;
        let answer = if number == refused { 1 } else { 0 };
        stream.write_all(&[answer])?;
        if number == refused {
            break;
        }
    }
    Ok(read)
}

/// What a server reads of the job of these parts and files where it refuses the part of this number, and what the
/// client tells.
fn sent<
    R: Abort
        + AllocGlobal
        + Env
        + Files<File = File>
        + Log
        + Net<Listener = TcpListener, Stream = TcpStream>
        + Threads
        + Sync,
>(rt: &R, parts: &[&[u8]], files: &[&[u8]], refused: usize) -> (Vec<u8>, Vec<u8>) {
    let alloc = rt.alloc();
    let (listener, port) = listen(rt);
    let path = path_of(rt, port);
    let mut line = format!(in alloc; "send,{port},lp,7,h1,ann").expect(rt, "memory");
    for (number, octets) in files.iter().enumerate() {
        let file = format!(in alloc; "{path}-{number}").expect(rt, "memory");
        fs::write(rt, file.as_str(), *octets).expect(rt, "a file");
        line = format!(in alloc; "{line},{file}").expect(rt, "memory");
    }
    let words = words_of(alloc, line.as_str(), "", "").expect(rt, "memory");
    let (listener, words) = (&listener, words.as_slice());
    let (served, told) = thread::join(
        rt,
        move || serve(alloc, listener, parts, refused),
        move || told(rt, words, b""),
    );
    for number in 0..files.len() {
        let file = format!(in alloc; "{path}-{number}").expect(rt, "memory");
        fs::remove_file(rt, file.as_str()).expect(rt, "a file");
    }
    (served.expect(rt, "a connection"), told.expect(rt, "memory"))
}

/// The octets of that job, as a client has them.
fn octets_of_job(rt: &impl Abort, alloc: Global) -> Result<Octets, Fail> {
    let name = FileName::read(b"cfA007h1")?;
    let control = Control::parse(alloc, &name, b"Hh1\nPann\nfdfA007h1\n")?;
    let files = [DataFile {
        name: FileName::read(b"dfA007h1")?,
        octets: Octets::copy_of(alloc, b"hello world")?,
    }];
    let queue = Octets::copy_of(alloc, b"lp")?;
    assert!(rt; is_sendable(alloc, &queue, &name, &control, files.as_slice())?);
    Ok(job_bytes(alloc, &queue, &name, &control, files.as_slice())?)
}

#[test]
fn jobs_are_sent(rt: HostRuntime) -> Result<(), Fail> {
    let file: [&[u8]; 1] = [b"hello world"];
    let (read, told) = sent(&rt, &PARTS, &file, 5);
    expect(&rt, b"send", told.as_slice(), b"sent 007\nstatus 0\n");
    let octets = octets_of_job(&rt, rt.alloc())?;
    expect(&rt, b"octets of send", read.as_slice(), octets.as_slice());
    let (_, told) = sent(&rt, &PARTS, &file, 1);
    let line = b"fault 60 Refused 1\nstatus 5\n";
    expect(&rt, b"send that is refused", told.as_slice(), line);
    Ok(())
}

#[test]
fn files_are_sent_in_order(rt: HostRuntime) -> Result<(), Fail> {
    let files: [&[u8]; 2] = [b"hello world", b"other words"];
    let (read, told) = sent(&rt, &PARTS_OF_TWO, &files, 7);
    expect(&rt, b"two files", told.as_slice(), b"sent 007\nstatus 0\n");
    let mut octets = Vec::new(rt.alloc());
    for part in PARTS_OF_TWO {
        octets.extend_from_slice(part)?;
    }
    expect(
        &rt,
        b"octets of two files",
        read.as_slice(),
        octets.as_slice(),
    );
    Ok(())
}

#[test]
fn nobody_listens(rt: HostRuntime) -> Result<(), Fail> {
    let begun = Instant::now(&rt)?;
    let (listener, port) = listen(&rt);
    drop(listener);
    let line = format!(in rt.alloc(); "send,{port},lp,7,h1,ann,FILE")?;
    let answer = told_of_row(&rt, line.as_str(), b"hello");
    let wanted = b"fault 72 Network\nstatus 4\n";
    expect(&rt, b"send to nobody", answer.as_slice(), wanted);
    assert!(rt; begun.elapsed(&rt)? < Duration::from_secs(1));
    // A file without octets is found first.
    let answer = told_of_row(&rt, line.as_str(), b"");
    let wanted = b"fault 71 ReadFile\nstatus 4\n";
    expect(&rt, b"send of an empty file", answer.as_slice(), wanted);
    Ok(())
}
