//! What clients do, as lines of a scene tell it.

use crate::clients::{
    ask_from, connect, is_answered, is_ended, octets_of, send, send_more, waits, write,
};
use crate::long_jobs::send_jobs;
use crate::pipe::Pipe;
use crate::terminal::Terminal;
use lpr_client::SendFault;
use std::alloc::Global;
use std::fs::{File, Files};
use std::net::{Net, Shutdown, TcpStream};
use std::sync::Wait;
use std::thread;
use std::time::{Clock, Duration};
use test_kit::rows::{number, octets, short_number, word};

/// How often it is looked for a line that comes soon, and how many milliseconds apart.
const LOOKS: u32 = 40;

const LOOK_MS: u64 = 100;

/// The octets that a text of a row stands for. None where memory is refused.
pub fn octets_in(alloc: Global, text: &str) -> Option<Vec<u8>> {
    octets(alloc, text).ok()
}

/// The clients of a server, and their connections by name.
#[derive(Drop)]
pub struct Clients<'a, R> {
    rt: &'a R,
    port: u16,
    terminal: &'a Terminal,
    pipe: &'a Option<Pipe>,
    streams: Vec<(&'a str, TcpStream)>,
}

impl<'a, R: AllocGlobal + Clock + Files<File = File> + Net<Stream = TcpStream> + Wait> Clients<
    'a,
    R,
> {
    /// Clients of the server at this port, which prints to the terminal; none has connected.
    pub fn new(
        rt: &'a R,
        port: u16,
        terminal: &'a Terminal,
        pipe: &'a Option<Pipe>,
    ) -> Clients<'a, R> {
        Clients {
            rt,
            port,
            terminal,
            pipe,
            streams: Vec::new(rt.alloc()),
        }
    }

    /// The connection of this name.
    fn stream(&self, name: &str) -> Option<&TcpStream> {
        let found = self.streams.iter().find(|stream| stream.0 == name);
        Some(&found?.1)
    }

    /// A connection of this name.
    fn keep(&mut self, name: &'a str, stream: Option<TcpStream>) -> Option<()> {
        self.streams.push((name, stream?)).ok()
    }

    /// Ends the connection of this name.
    fn end(&mut self, name: &str) -> Option<()> {
        let place = self.streams.iter().position(|stream| stream.0 == name)?;
        if place < self.streams.len() {
            self.streams.swap_remove(place);
        }
        Some(())
    }

    /// A job over a connection of its own: it is taken, or refused by an octet.
    fn job(&self, number: u32, text: &str, refused: Option<u8>) -> Option<()> {
        let stream = connect(self.rt, self.port)?;
        let sent = send(self.rt.alloc(), &stream, number, text.as_bytes())?;
        match (sent, refused) {
            (Ok(()), None) => Some(()),
            (Err(SendFault::Refused(octet)), Some(wanted)) if octet == wanted => Some(()),
            _ => None,
        }
    }

    /// As many jobs, one after another.
    fn jobs(&self, count: u32) -> Option<()> {
        for number in 0..count {
            self.job(number, "a job", None)?;
        }
        Some(())
    }

    /// The output ends with this, after some looks at most.
    fn tells(&self, text: &str, looks: u32) -> Option<()> {
        let wanted = octets_in(self.rt.alloc(), text)?;
        for _ in 0..looks {
            let told = self.terminal.text(self.rt, false)?;
            if told.as_bytes().ends_with(wanted.as_slice()) {
                return Some(());
            }
            thread::sleep(self.rt, Duration::from_millis(LOOK_MS));
        }
        None
    }

    /// What is done with a connection.
    fn act(&mut self, what: &str, name: &'a str, text: &str) -> Option<()> {
        let (rt, alloc) = (self.rt, self.rt.alloc());
        let (count, rest) = word(text);
        let (count, rest) = (short_number(count), rest.as_bytes());
        match what {
            "connect" => self.keep(name, connect(rt, self.port)),
            "send" => {
                let stream = connect(rt, self.port)?;
                let Ok(()) = send(alloc, &stream, count, rest)? else {
                    return None;
                };
                self.keep(name, Some(stream))
            }
            "deaf" => self.keep(
                name,
                ask_from(1, self.port, octets_in(alloc, text)?.as_slice()),
            ),
            "drop" => self.end(name),
            "half" => self.stream(name)?.shutdown(Shutdown::Write).ok(),
            "more" => send_more(alloc, self.stream(name)?, count, rest),
            "whole" => write(
                self.stream(name)?,
                octets_of(alloc, count, rest)?.as_slice(),
            ),
            "write" => write(self.stream(name)?, octets_in(alloc, text)?.as_slice()),
            "answered" => is_answered(self.stream(name)?, octets_in(alloc, text)?.as_slice()),
            "waits" => waits(self.stream(name)?),
            "ended" => is_ended(self.stream(name)?),
            _ => None,
        }
    }

    /// Does what a line says. None where that didn't come to pass, or where it says nothing that a client does.
    pub fn play(&mut self, line: &'a str) -> Option<()> {
        let (what, text) = word(line);
        let (first, rest) = word(text);
        match what {
            "job" => self.job(short_number(first), rest, None),
            "refused" => {
                let (number, text) = word(rest);
                let octet = (short_number(first) & 0xff) as u8;
                self.job(short_number(number), text, Some(octet))
            }
            "jobs" => self.jobs(short_number(first)),
            "long" => send_jobs(self.rt, self.port, 0, short_number(first)),
            "pause" => {
                thread::sleep(self.rt, Duration::from_millis(number(first)));
                Some(())
            }
            "empty" => match self.pipe {
                Some(pipe) => pipe.empty(self.rt),
                None => Some(()),
            },
            "tells" => self.tells(text, 1),
            "comes" => self.tells(text, LOOKS),
            _ => self.act(what, first, rest),
        }
    }
}
