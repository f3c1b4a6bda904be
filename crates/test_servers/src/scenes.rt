//! A server over sockets beside its clients, as the rows of `scene_rows` tell.
//!
//! A scene is a block of lines. Its first line is its name, and that of its directory. The lines up to `serve` say what there is before,
//! `serve WORD..` starts the server by the program's words, the lines behind it are what its clients do, one after another, and those
//! behind `----` what has to have come of it. Octets have the escapes of `test_kit::rows`.
//!
//! | Before | Is |
//! |---|---|
//! | `pages N`, `jobs N`, `account N`, `plotter` | how the spool differs from `Spool::SMALL`: its sizes, a second queue |
//! | `room N`, `listing N` | how many milliseconds a new job waits for room, and seconds a peer may not read what it is told |
//! | `printer TEXT`, `link PATH`, `folder`, `pipe`, `nowhere` | what the printer's file has, or is: a link, a folder, a pipe that is full, in no directory |
//! | `lines N`, `slowly N` | how many lines the output takes, and how many milliseconds each takes |
//! | `taken`, `alone` | another one listens at the port, no connection is awaited |
//!
//! | A client's | Is |
//! |---|---|
//! | `job N TEXT`, `refused K N TEXT` | a job over a connection of its own, that is taken, or refused by the octet K |
//! | `jobs N`, `long N` | as many jobs, one after another; over one connection, jobs whose listing is long |
//! | `connect C`, `half C`, `drop C` | a connection, the end of its sending, its end |
//! | `send C N TEXT`, `more C N TEXT` | a first job over a new connection, a further one over that |
//! | `whole C N TEXT`, `write C OCTETS` | the octets of a job, or any, whatever is answered |
//! | `answered C OCTETS`, `waits C`, `ended C` | what the server says, nothing for a moment, or the end |
//! | `deaf C OCTETS` | a connection over which this is asked, and whose answer nobody reads |
//! | `pause N`, `empty` | so many milliseconds, the full pipe is read |
//! | `tells OCTETS`, `comes OCTETS` | the output ends with this, now or soon |
//!
//! | Behind | Is |
//! |---|---|
//! | `ends FAULT` | how the server ended, where it didn't end well |
//! | `said OCTETS`, `first OCTETS`, `last OCTETS` | the output behind its first line, its beginning, its end |
//! | `printed OCTETS`, `piped OCTETS` | what the printer's file has, or the pipe |
//! | `faults OCTETS`, `logged OCTETS`, `log N` | the lines of faults in the log, the end of a line of it, how many lines it has |

use crate::serving::{beside, run};
use log::{Level, Log, Logged};
use log_lines::{LineLog, LineQueue, LogForm};
use lpd_daemon::{Counter, Plan, ServerFault, Settings};
use program_edge::{StreamReader, StreamWriter};
use std::fs;
use std::fs::{File, Files};
use std::net::{Ipv4Addr, Net, OpenListener, TcpListener, TcpStream};
use std::os::unix::fs::symlink;
use std::process::Abort;
use std::sync::Wait;
use std::thread::Threads;
use std::time::Clock;
use test_clients::{
    Clients, ENDLESS, Paper, Pipe, Terminal, make, octets_in, path, printed, remove,
};
use test_kit::rows::{number, short_number, word};
use test_kit::{Spool, all_lines};
use word_actions::{RunOutcome, System, printers_of, read_config};

/// How many lines may wait in a log that nobody reads before the end.
const LOG_LINES: usize = 64;

/// What a configuration says of a queue `plotter`, beside a queue `lp`.
const PLOTTER: &str = "[[queue]]\nname = \"plotter\"\nlimit = 3\nprinters = 1\n";

/// What there is before a server starts.
#[derive(Drop)]
struct Stage<'a, R> {
    rt: &'a R,
    name: &'a str,
    spool: Spool<'a>,
    room_ms: Option<u64>,
    listing_seconds: Option<u64>,
    paper: Paper,
    pipe: Option<Pipe>,
    taken: Option<TcpListener>,
    is_alone: bool,
}

impl<
    'a,
    R: Abort + AllocGlobal + Files<File = File> + Net<Listener = TcpListener, Stream = TcpStream>,
> Stage<'a, R> {
    /// A directory with nothing in it, and a small spool.
    fn new(rt: &'a R, name: &'a str) -> Stage<'a, R> {
        make(rt, name).expect(rt, "a directory");
        Stage {
            rt,
            name,
            spool: Spool::SMALL,
            room_ms: None,
            listing_seconds: None,
            paper: ENDLESS,
            pipe: None,
            taken: None,
            is_alone: false,
        }
    }

    /// Something stands in the place of the printer's file.
    fn put(&mut self, what: &str, text: &str) {
        let rt = self.rt;
        let file = path(rt.alloc(), self.name, 1).expect(rt, "memory");
        let file = file.as_str();
        match what {
            "printer" => fs::write(rt, file, text).expect(rt, "a file"),
            "link" => symlink(rt, text, file).expect(rt, "a link"),
            "folder" => fs::create_dir(rt, file).expect(rt, "a directory"),
            "pipe" => {
                let pipe = Pipe::full().expect(rt, "a pipe");
                pipe.stand_for_printer(rt, self.name).expect(rt, "a link");
                self.pipe = Some(pipe);
            }
            "nowhere" => remove(rt, self.name).expect(rt, "the directory is removed"),
            _ => panic!(rt; "{what} is nothing that is there before"),
        }
    }

    /// What a line says that there is.
    fn set(&mut self, line: &str) {
        let (what, text) = word(line);
        match what {
            "pages" => self.spool.pages = short_number(text),
            "jobs" => self.spool.jobs = short_number(text),
            "account" => self.spool.account = short_number(text),
            "plotter" => self.spool.others = PLOTTER,
            "room" => self.room_ms = Some(number(text)),
            "listing" => self.listing_seconds = Some(number(text)),
            "lines" => self.paper.lines = number(text),
            "slowly" => self.paper.pause_ms = number(text),
            "alone" => self.is_alone = true,
            "taken" => {
                let listener = TcpListener::bind(self.rt, (Ipv4Addr::LOCALHOST, 0));
                self.taken = Some(listener.expect(self.rt, "a port"));
            }
            _ => self.put(what, text),
        }
    }

    /// How a server is to run whose words say so, at a port that the system picks.
    fn settings<'b>(&self, settings: Settings<'b>) -> Settings<'b> {
        let mut settings = settings;
        settings.port = match &self.taken {
            Some(listener) => listener.local_addr().expect(self.rt, "its number").port(),
            None => 0,
        };
        if self.is_alone {
            settings.connections = Some(0);
        }
        if let Some(room_ms) = self.room_ms {
            settings.limits.room_ms = room_ms;
        }
        if let Some(seconds) = self.listing_seconds {
            settings.limits.no_job_seconds = seconds;
        }
        settings
    }
}

/// What came of a server.
#[derive(Drop)]
struct Ended<'a, R> {
    rt: &'a R,
    name: &'a str,
    /// The fault that it ended with, or nothing.
    fault: String,
    /// What it printed behind its first line.
    said: String,
    log: String,
    pipe: Option<Pipe>,
}

impl<R: Abort + AllocGlobal + Files<File = File>> Ended<'_, R> {
    /// The lines of the log that begin so, or end so where they have to.
    fn lines(&self, begins: &str, ends: &str) -> String {
        let mut lines = String::new(self.rt.alloc());
        for line in self.log.as_str().split_inclusive('\n') {
            if line.starts_with(begins) && line.ends_with(ends) {
                lines.push_str(line).expect(self.rt, "memory");
            }
        }
        lines
    }

    /// What stands in the place that a check names, as far as it is compared with what is wanted.
    fn found(&self, what: &str, wanted: &[u8]) -> Vec<u8> {
        let (rt, alloc) = (self.rt, self.rt.alloc());
        let said = self.said.as_bytes();
        let found = match what {
            "ends" => self.fault.as_bytes(),
            "said" => said,
            "first" => said.get(..wanted.len()).unwrap_or(said),
            "last" => {
                let before = said.len().saturating_sub(wanted.len());
                said.get(before..).unwrap_or(said)
            }
            "printed" => return printed(rt, self.name, 1).expect(rt, "a printer's file"),
            "piped" => {
                let pipe = self.pipe.as_ref().expect(rt, "a pipe");
                return pipe.read(rt, wanted.len()).expect(rt, "octets");
            }
            "faults" => return self.lines("fault ", "").into_bytes(),
            "logged" => {
                let text = str::from_utf8(wanted).expect(rt, "text");
                let is_there = !self.lines("", text).is_empty();
                if is_there {
                    wanted
                } else {
                    self.log.as_bytes()
                }
            }
            _ => panic!(rt; "{what} is nothing that came of it"),
        };
        Vec::from_slice(alloc, found).expect(rt, "memory")
    }

    /// Has to be as a line says.
    fn check(&self, line: &str) {
        let (rt, name) = (self.rt, self.name);
        let (what, text) = word(line);
        if let "log" = what {
            let count = self.log.as_str().lines().count() as u64;
            assert_eq!(rt; count, number(text), "{name}: {}", self.log);
            return;
        }
        let wanted = octets_in(rt.alloc(), text).expect(rt, "memory");
        let found = self.found(what, wanted.as_slice());
        assert!(rt;
            found.as_slice() == wanted.as_slice(),
            "{name}, {line}: {}",
            found.as_slice().escape_ascii()
        );
    }
}

/// The words by which a server is started, with its configuration in a file beside its directory.
fn words_of<R: Abort + AllocGlobal + Files<File = File>>(
    rt: &R,
    name: &str,
    spool: Spool,
    words: &str,
) -> Vec<String> {
    let alloc = rt.alloc();
    let config = format!(in alloc; "{name}.toml").expect(rt, "memory");
    let text = spool.text(alloc).expect(rt, "memory");
    fs::write(rt, config.as_str(), text.as_str()).expect(rt, "a file");
    let line = format!(in alloc; "lpd_server serve {config} --port 1 --out {name} {words}");
    let mut words = Vec::new(alloc);
    for word in line.expect(rt, "memory").as_str().split_whitespace() {
        let word = String::from_str(alloc, word).expect(rt, "memory");
        words.push(word).expect(rt, "memory");
    }
    words
}

/// How a server of these words is to run, but for what the stage says.
fn plan_of<
    'a,
    R: Abort
        + AllocGlobal
        + Files<File = File>
        + Log
        + Net<Listener = TcpListener, Stream = TcpStream>,
>(stage: &Stage<R>, words: &'a [String]) -> Plan<'a> {
    let rt = stage.rt;
    let alloc = rt.alloc();
    let mut input = StreamReader::new(b"".as_slice());
    let mut output = StreamWriter::new(Vec::new(alloc));
    let mut faults = StreamWriter::new(Vec::new(alloc));
    let outcome = word_actions::run(
        System { rt, host: rt },
        words,
        &mut input,
        &mut output,
        &mut faults,
    );
    let RunOutcome::Serve { config, request } = outcome else {
        panic!(rt; "it doesn't serve");
    };
    let config = read_config(alloc, &mut StreamReader::open(rt, config));
    let config = config.expect(rt, "a configuration");
    let printers = printers_of(alloc, &config, &[], request.printers.as_slice());
    let settings = Settings {
        printers: printers.expect(rt, "its printers"),
        ..request.settings
    };
    Plan {
        config,
        settings: stage.settings(settings),
        counter: Counter::CLOSED,
    }
}

/// The fault that a server ended with, or nothing.
fn text_of<R: Abort + AllocGlobal>(rt: &R, ended: Result<(), ServerFault>) -> String {
    match ended {
        Ok(()) => String::new(rt.alloc()),
        Err(fault) => format!(in rt.alloc(); "{fault}").expect(rt, "memory"),
    }
}

/// Runs the server of a stage beside its clients. One that awaits no connection is run alone, since it mustn't even listen.
fn serve<
    'a,
    R: Abort
        + AllocGlobal
        + Clock
        + Files<File = File>
        + Log
        + Net<Listener = TcpListener, Stream = TcpStream>
        + Threads
        + Wait
        + Sync,
>(stage: Stage<'a, R>, words: &str, lines: &'a str) -> Ended<'a, R>
where
    R::Dir: Send + Sync,
{
    let (rt, name) = (stage.rt, stage.name);
    let alloc = rt.alloc();
    let words = words_of(rt, name, stage.spool, words);
    let plan = plan_of(&stage, words.as_slice());
    let queue = LineQueue::new(alloc, LOG_LINES, LogForm::Plain);
    let logged = Logged::new(rt, Level::Info, LineLog::new(rt, alloc, &queue));
    let terminal = Terminal::new(alloc, stage.paper);
    let (ended, said) = if stage.is_alone {
        let ended = run(&logged, &terminal, plan);
        (ended, terminal.text(rt, true).expect(rt, "the server ends"))
    } else {
        beside(&logged, &terminal, plan, |port| {
            let mut clients = Clients::new(rt, port, &terminal, &stage.pipe);
            for line in lines.lines() {
                assert!(rt; clients.play(line).is_some(), "{name}: {line}");
            }
        })
    };
    Ended {
        rt,
        name,
        fault: text_of(rt, ended),
        said,
        log: all_lines(rt, alloc, &queue).expect(rt, "memory"),
        pipe: stage.pipe,
    }
}

/// Plays a scene, and has to find what is told behind it.
pub fn play<
    R: Abort
        + AllocGlobal
        + Clock
        + Files<File = File>
        + Log
        + Net<Listener = TcpListener, Stream = TcpStream>
        + Threads
        + Wait
        + Sync,
>(rt: &R, scene: &str)
where
    R::Dir: Send + Sync,
{
    let (name, rest) = scene.trim_start().split_once('\n').expect(rt, "a name");
    let (lines, checks) = rest.split_once("----\n").expect(rt, "what came of it");
    let (before, rest) = lines.split_once("serve ").expect(rt, "a server");
    let (words, lines) = rest.split_once('\n').unwrap_or((rest, ""));
    let mut stage = Stage::new(rt, name);
    for line in before.lines() {
        stage.set(line);
    }
    let ended = serve(stage, words, lines);
    for line in checks.lines() {
        ended.check(line);
    }
    fs::remove_file(
        rt,
        format!(in rt.alloc(); "{name}.toml")
            .expect(rt, "memory")
            .as_str(),
    )
    .expect(rt, "a file");
    let _ = fs::remove_dir_all(rt, name);
}
