//! A server in a thread of its own beside its clients, until it has ended.

ghost use Rattle.std.specs.Thread.{IsSend, IsSync};

use log::Log;
use lpd_daemon::{Plan, ServerFault, serve};
use std::fs::{File, Files};
use std::net::{Net, TcpListener, TcpStream};
use std::process::Abort;
use std::sync::Wait;
use std::thread;
use std::thread::Threads;
use std::time::Clock;
use test_clients::{Output, Terminal};

/// The port in the line `listening N`.
fn port_of(line: &str) -> Option<u16> {
    let number = line.strip_prefix("listening ")?.strip_suffix('\n')?;
    number.parse::<u16>().ok()
}

/// Runs a server whose output is the terminal.
pub fn run<
    R: Abort
        + AllocGlobal
        + Clock
        + Files<File = File>
        + Log
        + Net<Listener = TcpListener, Stream = TcpStream>
        + Threads
        + Wait
        + Sync,
>(rt: &R, terminal: &Terminal, plan: Plan<'_>) -> Result<(), ServerFault>
where
    R::Dir: Send + Sync,
{
    let mut output = Output::new(rt, terminal);
    let ended = serve(rt, rt.alloc(), plan, &mut output);
    terminal.end(rt);
    ended
}

/// Runs a server whose output is the terminal beside its clients, who are told its port. How it
/// ended, and what it printed after its first line, `listening PORT`.
pub fn beside<
    R: Abort
        + AllocGlobal
        + Clock
        + Files<File = File>
        + Log
        + Net<Listener = TcpListener, Stream = TcpStream>
        + Threads
        + Wait
        + Sync,
    F: FnOnce(u16) + Send,
>(rt: &R, terminal: &Terminal, plan: Plan<'_>, clients: F) -> (Result<(), ServerFault>, String)
where
    R::Dir: Send + Sync,
    requires { F.IsAlwaysCallable clients }
{
    let (text, ended) = thread::join(
        rt,
        || -> String
            requires { IsSync R.row × IsSend F.row × F.IsAlwaysCallable clients }
        {
            let first = terminal.text(rt, false).expect(rt, "a first line");
            let port = port_of(first.as_str()).expect(rt, "the server listens");
            clients(port);
            let text = terminal.text(rt, true).expect(rt, "the server ends");
            let rest = text.as_str().strip_prefix(first.as_str());
            String::from_str(rt.alloc(), rest.expect(rt, "the first line")).expect(rt, "memory")
        },
        || run(rt, terminal, plan),
    );
    (ended, text)
}
