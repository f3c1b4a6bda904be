//! Whole sessions through a receiver, in any pieces: what it asks and, after a bar, what it writes.

ghost use Rattle.std.specs.Prelude.{◌≡◌, ◌≤◌, ◌<◌, length, IfOk, IfSome, Some};
ghost use Rattle.receiver.specs.Script.{Yes};
ghost use Rattle.receiver.specs.Reading.{IsFitting, Lending, Ending, Plain};

use page_pool::{FilledPage, Pool};
use receiver::{Answer, Need, Receiver};
use std::alloc::{AllocError, Global};
use test_kit::rows::octets;

/// What a session wrote, and a letter for each request, with the octets of each page.
#[derive(Drop)]
struct Shown {
    written: Vec<u8>,
    asked: Vec<u8>,
    has_file: bool,
}

fn yes(receiver: &mut Receiver, letter: u8) -> u8
    requires { IsFitting receiver.old.owed Yes }
{
    receiver.reply(Answer::Yes);
    letter
}

fn lend(receiver: &mut Receiver, pool: &mut Pool) -> u8
    requires { receiver.old.owed ≡ Some Lending }
{
    match pool.take() {
        Some(ticket) => receiver.reply(Answer::Ticket(ticket)),
        None => receiver.reply(Answer::Later),
    }
    b'P'
}

/// A file has ended. The second one makes the job whole.
fn end_file(receiver: &mut Receiver, shown: &mut Shown, letter: u8) -> u8
    requires { receiver.old.owed ≡ Some Ending }
{
    if shown.has_file {
        receiver.reply(Answer::Received);
    } else {
        receiver.reply(Answer::Stored);
    }
    shown.has_file = !shown.has_file;
    letter
}

fn keep(receiver: &mut Receiver, page: FilledPage, shown: &mut Shown) -> Result<u8, AllocError>
    requires { receiver.old.owed ≡ Some Plain }
{
    let noted = shown.asked.extend_from_slice(page.bytes());
    page.unseal().surrender();
    receiver.reply(Answer::Yes);
    noted?;
    Ok(b'F')
}

/// Answers what is asked. None where nothing is due.
fn turn(
    receiver: &mut Receiver,
    pool: &mut Pool,
    rest: &[u8],
    shown: &mut Shown,
) -> Result<Option<usize>, AllocError>
    ensures { IfOk result (λ turn. IfSome turn (λ count. count ≤ length rest.now)) }
{
    if receiver.owes() {
        return Ok(None);
    }
    let (count, need) = receiver.advance(rest);
    let letter = match need {
        Need::More | Need::Ended => return Ok(None),
        Need::Ack => {
            shown.written.push(0)?;
            return Ok(Some(count));
        }
        Need::Fault(refusal) => {
            shown.written.push(refusal.octet())?;
            return Ok(Some(count));
        }
        Need::Queue(_queue) => yes(receiver, b'Q'),
        Need::Open(_queue) => yes(receiver, b'O'),
        Need::BeginFile { name: _, count: _ } => yes(receiver, b'B'),
        Need::Page => lend(receiver, pool),
        Need::Filled(page) => keep(receiver, page, shown)?,
        Need::EndFile => end_file(receiver, shown, b'E'),
        Need::Control(_control) => end_file(receiver, shown, b'C'),
        Need::Abort => {
            shown.has_file = false;
            yes(receiver, b'A')
        }
        Need::Start(_queue) => yes(receiver, b'1'),
        Need::State {
            queue: _queue,
            list: _list,
            long: _,
        } => yes(receiver, b'3'),
        Need::Remove {
            queue: _queue,
            agent: _agent,
            list: _list,
        } => yes(receiver, b'5'),
    };
    shown.asked.push(letter)?;
    Ok(Some(count))
}

/// Feeds one piece, and answers all that is asked.
fn feed(
    receiver: &mut Receiver,
    pool: &mut Pool,
    piece: &[u8],
    shown: &mut Shown,
) -> Result<(), AllocError> {
    let mut rest = piece;
    for _ in 0..100 {
        match turn(receiver, pool, rest, shown)? {
            Some(count) => rest = &rest[count..],
            None => return Ok(()),
        }
    }
    Ok(())
}

/// Feeds the text up to the cut as one piece, and the rest in pieces of `step` octets.
fn feed_cut(
    receiver: &mut Receiver,
    pool: &mut Pool,
    text: &[u8],
    cut: usize,
    step: usize,
    shown: &mut Shown,
) -> Result<(), AllocError> {
    let (first, rest) = text.split_at(cut.min(text.len()));
    feed(receiver, pool, first, shown)?;
    for piece in rest.chunks(step.max(1)) {
        feed(receiver, pool, piece, shown)?;
    }
    Ok(())
}

/// What a session over the text asks and writes, cut so.
fn session(alloc: Global, text: &[u8], cut: usize, step: usize) -> Result<String, AllocError> {
    let Ok(mut pool) = Pool::new(alloc, 8, 8) else {
        return Err(AllocError);
    };
    let mut shown = Shown {
        written: Vec::new(alloc),
        asked: Vec::new(alloc),
        has_file: false,
    };
    let mut receiver = Receiver::new(alloc)?;
    let fed = feed_cut(&mut receiver, &mut pool, text, cut, step, &mut shown);
    if let Some(ticket) = receiver.into_ticket() {
        ticket.surrender();
    }
    fed?;
    let (asked, written) = (shown.asked.as_slice(), shown.written.as_slice());
    format!(in alloc; "{}|{}", asked.escape_ascii(), written.escape_ascii())
}

/// Appends what a session over these octets asks and writes, whole, octet by octet and in every cut into two pieces, or where that
/// isn't the same.
pub fn sessions(told: &mut String, alloc: Global, asked: &str) -> Result<(), AllocError> {
    let text = octets(alloc, asked)?;
    let whole = session(alloc, text.as_slice(), text.len(), 1)?;
    told.push_str(whole.as_str())?;
    for cut in 0..text.len() {
        let step = if cut == 0 { 1 } else { text.len() };
        let other = session(alloc, text.as_slice(), cut, step)?;
        if other.as_str() != whole.as_str() {
            write!(told, ", cut at {cut} {}", other.as_str())?;
        }
    }
    Ok(())
}
