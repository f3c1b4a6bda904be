//! The machine behind a receiver, phase by phase.

ghost use Rattle.std.specs.Prelude.{◌≡◌, ◌+◌, ◌-◌, ◌≤◌, ◌<◌, List, [], ◌∷◌, length, min, take, ◌++◌, Some, None, IfOk, IsTrue, IsSome, ◌↔◌, true, false, vec_len, vec_capacity, Ok, Err};
ghost use Rattle.std.specs.List.{prefix_len};
ghost use Rattle.receiver.specs.Script.{Ticket, after_line, first_block, block};
ghost use Rattle.receiver.specs.Reading.{due, start, is_inner, IsFitting, after_reply};
ghost use Rattle.receiver.specs.View.{Steps, StepsAt, EndsLine, Leaves, reply_of, IsEmptyTicket, held};
ghost use Rattle.receiver.specs.Sound.{state_of, HasCount, IsSound, IsAtLineEnd, OpensOrNot};
ghost use Rattle.receiver.specs.Idle.{IsIdle};

use crate::need::{Answer, Need};
use control_file::Control;
use lpd_commands::{Command, Sub, parse_command, parse_sub};
use lpd_values::{FileName, MAX_CONTROL_TEXT, MAX_LINE, Octets, Refusal};
use page_pool::PageTicket;
use std::alloc::{AllocError, Global};

/// This many octets without LF are too long a line.
const LINE_LIMIT: usize = MAX_LINE + 1;

/// Where the machine is in a block.
///
/// ```text
///            first line                   subcommand
/// Over <------------------ Line ---------------------------> AckLast (abort) -> Line
///  (01, 03, 04, 05)         |  \
///                           |   `-> AckControl -> Text ----> AckLast -> Line
///                           |
///                           `-> Begin -> AckBegin -> Contents <-> Page
///                                                       |
///                                                       `--> AckLast -> Line
/// any -> Refusing -> Over            a refusal is the answer
/// any -> Over                        the text is refused
/// ```
#[derive(Clone, Copy)]
pub(crate) enum Phase {
    /// A line is read.
    Line,
    /// A job was asked for; a data file is to begin.
    Begin { name: FileName, count: u64 },
    /// A data file of so many octets is to be acknowledged.
    AckBegin(u64),
    /// So many octets of a data file are unread, and then its octet 00; no page is in hand.
    Contents(u64),
    /// A page takes `piece` octets in all, and `left` come after it.
    Page { piece: usize, left: u64 },
    /// A job was asked for; a control file is to be acknowledged.
    AckControl { name: FileName, count: usize },
    /// A control text of `count` octets is read, and then its octet 00.
    Text { name: FileName, count: usize },
    /// The block's last acknowledgement is due.
    AckLast,
    /// A refusal was the answer.
    Refusing(Refusal),
    /// Nothing more is read.
    Over,
}

/// What kind of request waits for its answer.
#[derive(Clone, Copy, PartialEq, Eq)]
pub(crate) enum Owed {
    Nothing,
    Admission,
    Opening,
    Lending,
    Ending,
    Aborting,
    Plain,
}

/// The fields of a receiver. The octets of a line and of a control text lie in room that was taken at the start.
pub(crate) struct Machine {
    pub(crate) phase: Phase,
    pub(crate) owed: Owed,
    /// Whether the queue was admitted, so that subcommands follow.
    pub(crate) admitted: bool,
    /// Whether a job is in hand.
    pub(crate) job: bool,
    /// The queue of the first line, once it was asked for.
    pub(crate) queue: Octets,
    pub(crate) line: Vec<u8>,
    pub(crate) text: Vec<u8>,
    /// The page that is being filled.
    pub(crate) ticket: Option<PageTicket>,
    pub(crate) alloc: Global,
}

/// How many octets stand before the first LF.
fn inner_len(input: &[u8]) -> usize
    ensures len { result ≡ prefix_len is_inner input.now }
    ensures within { result ≤ length input.now }
{
    input.iter().take_while(|b| **b != b'\n').count()
}

/// Appends what fits below the limit, and answers how many octets did.
fn push_fitting(octets: &mut Vec<u8>, limit: usize, input: &[u8]) -> usize
    requires room { limit ≤ vec_capacity octets.old }
    requires within { vec_len octets.old ≤ limit }
    ensures count { result ≡ min (length input.now) (limit - vec_len octets.old) }
    ensures items { octets.new.items ≡ octets.old.items ++ take result input.now }
    ensures capacity { vec_capacity octets.old ≤ vec_capacity octets.new }
{
    let fitting = input.len().min(limit - octets.len());
    match octets.extend_from_slice(&input[..fitting]) {
        Ok(()) => fitting,
        Err(_) => unreachable!(),
    }
}

impl Machine {
    pub(crate) fn new(alloc: Global) -> Result<Self, AllocError>
        ensures sound { IfOk result IsSound }
        ensures at_start { IfOk result (λ m. state_of m ≡ start) }
    {
        Ok(Machine {
            phase: Phase::Line,
            owed: Owed::Nothing,
            admitted: false,
            job: false,
            queue: Octets::from_vec(Vec::new(alloc)),
            line: Vec::with_capacity(alloc, LINE_LIMIT)?,
            text: Vec::with_capacity(alloc, MAX_CONTROL_TEXT)?,
            ticket: None,
            alloc,
        })
    }

    /// One need, as `Receiver::advance`.
    pub(crate) fn advance(&mut self, input: &[u8]) -> (usize, Need)
        requires sound { IsSound self.old }
        requires nothing { self.old.owed ≡ Owed.Nothing }
        ensures sound { IsSound self.new }
        ensures step { Steps (state_of self.old) input.now result.0 result.1 (state_of self.new) }
        ensures leaves { Leaves result.1 (state_of self.new) }
    {
        let phase = self.phase;
        match phase {
            Phase::Line => self.advance_line(input),
            Phase::Begin { name, count } => {
                self.phase = Phase::AckBegin(count);
                self.owed = Owed::Plain;
                (0, Need::BeginFile { name, count })
            }
            Phase::AckBegin(count) => {
                self.phase = Phase::Contents(count);
                (0, Need::Ack)
            }
            Phase::Contents(left) => self.advance_contents(left, input),
            Phase::Page { piece, left } => self.advance_page(piece, left, input),
            Phase::AckControl { name, count } => {
                self.text.clear();
                self.phase = Phase::Text { name, count };
                (0, Need::Ack)
            }
            Phase::Text { name, count } => self.advance_text(name, count, input),
            Phase::AckLast => {
                self.line.clear();
                self.phase = Phase::Line;
                (0, Need::Ack)
            }
            Phase::Refusing(refusal) => (0, self.fault(refusal)),
            Phase::Over => (0, Need::Ended),
        }
    }

    pub(crate) fn reply(&mut self, answer: Answer)
        requires sound { IsSound self.old }
        requires fits { IsFitting (state_of self.old).owed (reply_of answer) }
        requires empty { IsEmptyTicket answer }
        ensures sound { IsSound self.new }
        ensures answered { state_of self.new ≡ after_reply (state_of self.old) (reply_of answer) }
    {
        match answer {
            Answer::Yes => {
                match self.owed {
                    Owed::Admission => self.admitted = true,
                    Owed::Opening => self.job = true,
                    Owed::Aborting => self.job = false,
                    _ => {}
                }
                self.owed = Owed::Nothing;
            }
            Answer::Ticket(ticket) => self.take_ticket(ticket),
            Answer::Later | Answer::Stored => self.owed = Owed::Nothing,
            Answer::Received => {
                self.job = false;
                self.owed = Owed::Nothing;
            }
            Answer::Refused(refusal) => {
                self.phase = Phase::Refusing(refusal);
                self.owed = Owed::Nothing;
            }
        }
    }

    pub(crate) fn owes(&self) -> bool
        ensures { IsTrue result ↔ IsSome (state_of self.now).owed }
    {
        self.owed != Owed::Nothing
    }

    pub(crate) fn has_job(&self) -> bool
        ensures { result ≡ (state_of self.now).job }
    {
        self.job
    }

    pub(crate) fn is_idle(&self) -> bool
        ensures { IsTrue result ↔ IsIdle (state_of self.now) }
    {
        match self.phase {
            Phase::Line => self.line.is_empty() && !self.job,
            _ => false,
        }
    }

    pub(crate) fn into_ticket(self) -> Option<PageTicket>
        requires { IsSound self }
        ensures { result ≡ held (state_of self).items (state_of self).tail }
    {
        let Machine {
            phase: _,
            owed: _,
            admitted: _,
            job: _,
            queue: _,
            line: _,
            text: _,
            ticket,
            alloc: _,
        } = self;
        ticket
    }

    /// Begins a page: as many octets of the file as fit, or all that are left.
    fn take_ticket(&mut self, ticket: PageTicket)
        requires sound { IsSound self.old }
        requires lending { self.old.owed ≡ Owed.Lending }
        requires empty { ticket.octets ≡ [] }
        ensures sound { IsSound self.new }
        ensures answered { state_of self.new
            ≡ after_reply (state_of self.old) (Ticket ticket.page_size) }
    {
        match self.phase {
            Phase::Contents(left) => {
                let size = ticket.page_size();
                let piece = left.min(size as u64) as usize;
                self.hold(ticket);
                self.phase = Phase::Page {
                    piece,
                    left: left - piece as u64,
                };
                self.owed = Owed::Nothing;
            }
            _ => unreachable!(),
        }
    }

    /// Keeps a ticket in hand.
    fn hold(&mut self, ticket: PageTicket)
        ensures { self.new ≡ record self.old { ticket = Some ticket } }
    {
        match self.ticket.replace(ticket) {
            Some(old) => old.surrender(),
            None => {}
        }
    }

    /// Ends the reading with a refusal.
    fn fault(&mut self, refusal: Refusal) -> Need
        ensures need { result ≡ Need.Fault refusal }
        ensures over { self.new ≡ record self.old { phase = Phase.Over } }
    {
        self.phase = Phase::Over;
        Need::Fault(refusal)
    }

    /// Between pages, or at the octet 00 after a file.
    fn advance_contents(&mut self, left: u64, input: &[u8]) -> (usize, Need)
        requires sound { IsSound self.old }
        requires nothing { self.old.owed ≡ Owed.Nothing }
        requires phase { self.old.phase ≡ Phase.Contents left }
        ensures sound { IsSound self.new }
        ensures step { StepsAt (state_of self.old) input.now result.0 result.1 (state_of self.new)
            (due (state_of self.old) input.now) }
        ensures leaves { Leaves result.1 (state_of self.new) }
    {
        if input.is_empty() {
            return (0, Need::More);
        }
        if left > 0 {
            self.owed = Owed::Lending;
            return (0, Need::Page);
        }
        if input[0] == 0 {
            self.phase = Phase::AckLast;
            self.owed = Owed::Ending;
            (1, Need::EndFile)
        } else {
            (1, self.fault(Refusal::NoZero))
        }
    }

    /// In a page, which is handed out when its last octet is there.
    fn advance_page(&mut self, piece: usize, left: u64, input: &[u8]) -> (usize, Need)
        requires sound { IsSound self.old }
        requires nothing { self.old.owed ≡ Owed.Nothing }
        requires phase { self.old.phase ≡ Phase.Page piece left }
        ensures sound { IsSound self.new }
        ensures step { Steps (state_of self.old) input.now result.0 result.1 (state_of self.new) }
        ensures leaves { Leaves result.1 (state_of self.new) }
    {
        match self.ticket.take() {
            Some(mut ticket) => {
                let missing = piece - ticket.len();
                if input.len() < missing {
                    let count = ticket.push(input);
                    self.hold(ticket);
                    (count, Need::More)
                } else {
                    let count = ticket.push(&input[..missing]);
                    self.phase = Phase::Contents(left);
                    self.owed = Owed::Plain;
                    (count, Need::Filled(ticket.seal()))
                }
            }
            None => unreachable!(),
        }
    }

    /// In a control text, or at the octet 00 after it.
    fn advance_text(&mut self, name: FileName, count: usize, input: &[u8]) -> (usize, Need)
        requires sound { IsSound self.old }
        requires nothing { self.old.owed ≡ Owed.Nothing }
        requires phase { self.old.phase ≡ Phase.Text name count }
        ensures sound { IsSound self.new }
        ensures step { Steps (state_of self.old) input.now result.0 result.1 (state_of self.new) }
        ensures leaves { Leaves result.1 (state_of self.new) }
    {
        let taken = push_fitting(&mut self.text, count, input);
        if taken == input.len() {
            return (taken, Need::More);
        }
        if input[taken] != 0 {
            return (taken + 1, self.fault(Refusal::NoZero));
        }
        match Control::parse(self.alloc, &name, self.text.as_slice()) {
            Ok(control) => {
                self.phase = Phase::AckLast;
                self.owed = Owed::Ending;
                (taken + 1, Need::Control(control))
            }
            Err(refusal) => (taken + 1, self.fault(refusal)),
        }
    }

    /// In a line. Nothing of it is looked at before its LF, or before it is too long.
    fn advance_line(&mut self, input: &[u8]) -> (usize, Need)
        requires sound { IsSound self.old }
        requires nothing { self.old.owed ≡ Owed.Nothing }
        requires phase { self.old.phase ≡ Phase.Line }
        ensures sound { IsSound self.new }
        ensures step { Steps (state_of self.old) input.now result.0 result.1 (state_of self.new) }
        ensures leaves { Leaves result.1 (state_of self.new) }
    {
        let inner = inner_len(input);
        let room = LINE_LIMIT - self.line.len();
        if inner >= room {
            return (room, self.fault(Refusal::LineTooLong));
        }
        let _ = push_fitting(&mut self.line, LINE_LIMIT, &input[..inner]);
        if inner == input.len() {
            return (inner, Need::More);
        }
        let need = self.end_line();
        (inner + 1, need)
    }

    /// What is due after the line.
    fn end_line(&mut self) -> Need
        requires ended { IsAtLineEnd self.old }
        ensures sound { IsSound self.new }
        ensures step { EndsLine (state_of self.old)
            (after_line (state_of self.old).queue self.old.job self.old.line.items)
            result (state_of self.new) }
        ensures leaves { Leaves result (state_of self.new) }
    {
        if self.admitted {
            self.end_sub()
        } else {
            self.end_command()
        }
    }

    fn end_command(&mut self) -> Need
        requires ended { IsAtLineEnd self.old }
        requires first { self.old.admitted ≡ false }
        ensures sound { IsSound self.new }
        ensures step { EndsLine (state_of self.old)
            (after_line None self.old.job self.old.line.items) result (state_of self.new) }
        ensures leaves { Leaves result (state_of self.new) }
    {
        match parse_command(self.alloc, self.line.as_slice()) {
            Ok(command) => self.begin(command),
            Err(refusal) => self.fault(refusal),
        }
    }

    /// What a first line asks.
    fn begin(&mut self, command: Command) -> Need
        requires ended { IsAtLineEnd self.old }
        requires first { self.old.admitted ≡ false }
        ensures sound { IsSound self.new }
        ensures step { EndsLine (state_of self.old) (first_block (Ok command)) result
            (state_of self.new) }
        ensures leaves { Leaves result (state_of self.new) }
    {
        match command {
            Command::Receive { queue } => match Octets::copy_of(self.alloc, queue.as_slice()) {
                Ok(copy) => {
                    self.queue = queue;
                    self.phase = Phase::AckLast;
                    self.owed = Owed::Admission;
                    Need::Queue(copy)
                }
                Err(_) => self.fault(Refusal::Memory),
            },
            Command::PrintWaiting { queue } => {
                self.end_after_answer();
                Need::Start(queue)
            }
            Command::State { queue, list, long } => {
                self.end_after_answer();
                Need::State { queue, list, long }
            }
            Command::Remove { queue, agent, list } => {
                self.end_after_answer();
                Need::Remove { queue, agent, list }
            }
        }
    }

    /// One answer is owed, and nothing is read after it.
    fn end_after_answer(&mut self)
        ensures { self.new ≡ record self.old { phase = Phase.Over; owed = Owed.Plain } }
    {
        self.phase = Phase::Over;
        self.owed = Owed::Plain;
    }

    fn end_sub(&mut self) -> Need
        requires ended { IsAtLineEnd self.old }
        requires later { self.old.admitted ≡ true }
        ensures sound { IsSound self.new }
        ensures step { EndsLine (state_of self.old)
            (after_line (Some self.old.queue) self.old.job self.old.line.items)
            result (state_of self.new) }
        ensures leaves { Leaves result (state_of self.new) }
    {
        match parse_sub(self.line.as_slice()) {
            Ok(sub) => self.begin_block(sub),
            Err(refusal) => self.fault(refusal),
        }
    }

    /// What a subcommand asks.
    fn begin_block(&mut self, sub: Sub) -> Need
        requires ended { IsAtLineEnd self.old }
        requires later { self.old.admitted ≡ true }
        requires counted { HasCount sub }
        ensures sound { IsSound self.new }
        ensures step { EndsLine (state_of self.old)
            (block self.old.job self.old.queue (Ok sub)) result (state_of self.new) }
        ensures leaves { Leaves result (state_of self.new) }
    {
        match sub {
            Sub::Abort => {
                if self.job {
                    self.phase = Phase::AckLast;
                    self.owed = Owed::Aborting;
                    Need::Abort
                } else {
                    self.line.clear();
                    Need::Ack
                }
            }
            Sub::ControlFile { count, name } => {
                if count == 0 || count > MAX_CONTROL_TEXT as u64 {
                    return self.fault(Refusal::BadLength);
                }
                let count = count as usize;
                if self.job {
                    self.text.clear();
                    self.phase = Phase::Text { name, count };
                    Need::Ack
                } else {
                    self.open(Phase::AckControl { name, count })
                }
            }
            Sub::DataFile { count, name } => {
                if self.job {
                    self.phase = Phase::AckBegin(count);
                    self.owed = Owed::Plain;
                    Need::BeginFile { name, count }
                } else {
                    self.open(Phase::Begin { name, count })
                }
            }
        }
    }

    /// Asks for a job, after which the block goes on in this phase.
    fn open(&mut self, phase: Phase) -> Need
        ensures opens { OpensOrNot self.old phase result self.new }
    {
        match Octets::copy_of(self.alloc, self.queue.as_slice()) {
            Ok(queue) => {
                self.phase = phase;
                self.owed = Owed::Opening;
                Need::Open(queue)
            }
            Err(_) => self.fault(Refusal::Memory),
        }
    }
}
