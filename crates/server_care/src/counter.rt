//! What reaches a server beside its clients: what is asked at a control socket, and signals.

use control_lines::MOST_LINE;
use control_socket::{AskedLine, ControlSocket, OpenFault, Pending, Signals, SocketFile, Times};
use log::{Log, warn};
use mio::Waker;
use std::alloc::Global;
use std::fs::{File, Files};
use std::net::Net;
use std::rt::Clock;
use std::sync::Wait;
use std::thread;
use std::time::Duration;

/// The longest time between two looks at signals and the clock, in milliseconds.
const TURN_MS: u64 = 500;

/// What reaches a server beside its clients.
#[derive(Drop)]
pub struct Counter {
    control: Option<ControlSocket>,
    signals: Option<Signals>,
    waker: Option<Waker>,
}

impl Counter {
    /// Nothing does.
    pub const CLOSED: Counter = Counter {
        control: None,
        signals: None,
        waker: None,
    };

    /// The control socket at this path, where there is one, and the signals of this process, where it was started with SIGINT or
    /// SIGTERM blocked. The socket's file, if there is one, is to be removed once the server has ended.
    ///
    /// An error where the socket can't be made, or a server answers at it.
    pub fn open<H: Clock + Files<File = File> + Net>(
        host: &H,
        alloc: Global,
        path: Option<&str>,
    ) -> Result<(Counter, Option<SocketFile>), OpenFault> {
        let signals = Signals::of_process(host, alloc);
        let Some(path) = path else {
            let counter = Counter {
                signals,
                ..Counter::CLOSED
            };
            return Ok((counter, None));
        };
        let opened = ControlSocket::open(host, alloc, path, MOST_LINE, Times::default())?;
        let counter = Counter {
            control: Some(opened.socket),
            signals,
            waker: Some(opened.waker),
        };
        Ok((counter, Some(opened.file)))
    }

    /// Whether something may come.
    pub fn is_open(&self) -> bool {
        self.control.is_some() || self.signals.is_some()
    }

    /// What wakes its thread, which is taken out. None where nothing does.
    pub fn take_waker(&mut self) -> Option<Waker> {
        self.waker.take()
    }

    /// Which signals that ask for the server's end have come.
    pub fn pending(&mut self) -> Pending {
        match &mut self.signals {
            Some(signals) => signals.pending(),
            None => Pending::Neither,
        }
    }

    /// What is asked next, if anything is within half a second.
    pub fn next<R: Clock + Log + Wait>(&mut self, rt: &R) -> Option<AskedLine> {
        let Some(control) = &mut self.control else {
            thread::sleep(rt, Duration::from_millis(TURN_MS));
            return None;
        };
        match control.round(rt, Some(TURN_MS)) {
            Ok(asked) => asked,
            Err(error) => {
                warn!(rt; "the control socket can't be looked at: {error}");
                thread::sleep(rt, Duration::from_millis(TURN_MS));
                None
            }
        }
    }

    /// Answers what was asked.
    pub fn answer(&mut self, asked: &AskedLine, octets: Vec<u8>) {
        if let Some(control) = &mut self.control {
            control.answer(asked.talk, octets);
        }
    }

    /// The server has ended: those who wait for that are answered with these octets.
    pub fn end<R: Clock + Log>(self, rt: &R, answer: &[u8]) {
        let Counter { control, .. } = self;
        if let Some(control) = control {
            control.end(rt, answer);
        }
    }
}
