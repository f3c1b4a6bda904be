//! What a server asks of the system.

use log::Log;
use std::fs::{File, Files};
use std::net::{Net, TcpListener, TcpStream};
use std::rt::Clock;
use std::sync::Wait;
use std::thread::Threads;

/// What a server asks of the system: files, sockets, the clock, threads that wait, and a log.
pub trait Host: Files<File = File>
    + Net<Listener = TcpListener, Stream = TcpStream>
    + Clock
    + Log
    + Threads
    + Wait
    + Sync {}

impl<
    R: Files<File = File>
        + Net<Listener = TcpListener, Stream = TcpStream>
        + Clock
        + Log
        + Threads
        + Wait
        + Sync,
> Host for R {}
