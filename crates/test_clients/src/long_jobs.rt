//! Jobs whose listing is long: each prints its file again and again, under a long name.

use crate::clients::{connect, is_answered, write};
use std::alloc::Global;
use std::net::{Net, TcpStream};

/// How often a job prints its file: as often as a control file has room for a name of 126 octets.
const PRINTS: usize = 63;

/// The octets of a job's two files. None where memory is refused.
fn job_octets(alloc: Global, number: u32) -> Option<String> {
    let name = format!(in alloc; "A{number:03}{:h>120}", "h").ok()?;
    let mut text = String::from_str(alloc, "Hh1\nPann\n").ok()?;
    let line = format!(in alloc; "fdf{name}\n").ok()?;
    for _ in 0..PRINTS {
        text.push_str(line.as_str()).ok()?;
    }
    let count = text.len();
    format!(in alloc; "\x02{count} cf{name}\n{text}\0\x031 df{name}\n!\0").ok()
}

/// Sends so many jobs over one connection, from the one of this number on. None where one isn't taken.
pub fn send_jobs<R: AllocGlobal + Net<Stream = TcpStream>>(
    rt: &R,
    port: u16,
    first: u32,
    count: u32,
) -> Option<()> {
    let stream = connect(rt, port)?;
    let mut octets = Vec::from_slice(rt.alloc(), b"\x02lp\n").ok()?;
    for job in 0..count {
        let job = job_octets(rt.alloc(), first.saturating_add(job))?;
        octets.extend_from_slice(job.as_bytes()).ok()?;
    }
    write(&stream, octets.as_slice())?;
    for _ in 0..=count.saturating_mul(4) {
        is_answered(&stream, &[0])?;
    }
    Some(())
}
