//! The connections of a control socket, in the order in which they came.

ghost use Rattle.std.specs.Prelude.{◌≡◌, ◌<◌, ◌+◌, ◌-◌, ◌^◌, ◌↔◌, ◌++◌, ◌∷◌, [], IfOk, IfSome, IsNone, IsTrue, None, OnOk, Some, is_some, min, option_and_then, remove, vec_len};
ghost use Rattle.std.specs.List.{position};
ghost use Rattle.std.specs.Option.{option_map};
ghost use Rattle.control_socket.specs.Talks.{is_asking_talk, is_ready_talk, is_late_talk, is_asked_as};
ghost use Rattle.control_socket.specs.Talks.{is_room_among, place_of_leaving, without, number_at, line_at};
ghost use Rattle.control_socket.specs.Talks.{why_late, IsAccepted, IsNearest};
ghost use Rattle.control_socket.specs.Stages.{after};
ghost use Rattle.control_socket.specs.declared.partings.Parting.TheVariants.{PlaceTaken};

use crate::answer::AnswerRest;
use crate::line::{LineProgress, PartialLine};
use crate::partings::{Left, Parting, TalkNumber};
use crate::stages::{TalkStage, Times, earlier};
use program_edge::pass_over;
use std::alloc::{AllocError, Global};
use std::io::{ErrorKind, Read, Write};
use std::os::unix::net::UnixStream;
use std::{fmt, mem};

/// How many connections there are at most.
pub(crate) const MOST_TALKS: usize = 64;

/// How many octets are read at once.
const PIECE_OCTETS: usize = 4_096;

/// How many pieces behind a line are passed over at once.
const MOST_READS: u32 = 16;

/// What comes of a connection that was looked at.
#[derive(Clone, Copy, PartialEq, Eq)]
pub(crate) enum Fate {
    /// It goes on.
    Stays,
    /// It is answered whole.
    Done,
    /// It is closed before that.
    Leaves(Parting),
}

/// A connection.
#[derive(Drop)]
pub(crate) struct ControlTalk {
    number: TalkNumber,
    stage: TalkStage,
    stream: UnixStream,
}

/// Reads what came of a line. None where its peer has ended, or is gone. An error where memory is refused.
fn read_line(
    mut stream: &UnixStream,
    line: &mut PartialLine,
) -> Result<Option<LineProgress>, AllocError> {
    let mut octets = [0u8; PIECE_OCTETS];
    for _ in 0..u64::MAX {
        match stream.read(&mut octets) {
            Ok(0) => return Ok(None),
            Ok(count) => {
                let progress = line.add(&octets[..count])?;
                if progress != LineProgress::More {
                    return Ok(Some(progress));
                }
            }
            Err(error) if error.kind() == ErrorKind::WouldBlock => return Ok(Some(
                LineProgress::More,
            )),
            Err(error) if error.kind() == ErrorKind::Interrupted => {}
            Err(_) => return Ok(None),
        }
    }
    Ok(None)
}

/// Reads what stands behind a line: the end of a connection that has octets which nobody read is told to its peer as an error.
fn pass_behind(mut stream: &UnixStream) {
    pass_over(&mut stream, MOST_READS, |_| false);
}

/// Writes what a peer takes of its answer.
fn write_answer(mut stream: &UnixStream, answer: &mut AnswerRest) -> Fate {
    for _ in 0..u64::MAX {
        if answer.rest().is_empty() {
            return Fate::Done;
        }
        match stream.write(answer.rest()) {
            Ok(0) => return Fate::Leaves(Parting::Gone),
            Ok(count) => answer.advance(count),
            Err(error) if error.kind() == ErrorKind::WouldBlock => return Fate::Stays,
            Err(error) if error.kind() == ErrorKind::Interrupted => {}
            Err(_) => return Fate::Leaves(Parting::Gone),
        }
    }
    Fate::Stays
}

impl ControlTalk {
    /// Looks at what its peer did: reads or writes, without waiting.
    fn look(&mut self, is_gone: bool) -> Fate {
        match &mut self.stage {
            TalkStage::Asking { line, .. } => match read_line(&self.stream, line) {
                Ok(Some(LineProgress::More)) if !is_gone => Fate::Stays,
                Ok(Some(LineProgress::More) | None) => Fate::Leaves(Parting::Gone),
                Ok(Some(LineProgress::TooLong)) => Fate::Leaves(Parting::LineTooLong),
                Ok(Some(LineProgress::Whole)) => {
                    self.stage = mem::replace(&mut self.stage, TalkStage::Asked).heard(is_gone);
                    Fate::Stays
                }
                Err(AllocError) => Fate::Leaves(Parting::NoMemory),
            },
            TalkStage::Ready {
                is_gone: was_gone,
                ..
            } => {
                *was_gone = *was_gone || is_gone;
                pass_behind(&self.stream);
                Fate::Stays
            }
            TalkStage::Asked if is_gone => Fate::Leaves(Parting::Gone),
            TalkStage::Asked => {
                pass_behind(&self.stream);
                Fate::Stays
            }
            TalkStage::Answering { answer, .. } => {
                pass_behind(&self.stream);
                write_answer(&self.stream, answer)
            }
        }
    }

    /// Why it leaves where its time is over.
    fn why_late(&self) -> Parting
        ensures { result ≡ why_late self.now.stage }
    {
        if self.stage.is_asking() {
            Parting::LineLate
        } else {
            Parting::AnswerLate
        }
    }
}

/// The connections, the oldest one first.
#[derive(Drop)]
pub(crate) struct Talks {
    alloc: Global,
    list: Vec<ControlTalk>,
    accepted: u64,
    most_line: usize,
    times: Times,
}

impl Talks {
    /// None yet. An error where memory is refused.
    pub(crate) fn new(alloc: Global, most_line: usize, times: Times) -> Result<Talks, AllocError>
        ensures none { IfOk result (λ talks. talks.list.items ≡ []) }
        ensures most_line { IfOk result (λ talks. talks.most_line ≡ most_line) }
        ensures times { IfOk result (λ talks. talks.times ≡ times) }
    {
        Ok(Talks {
            alloc,
            list: Vec::with_capacity(alloc, MOST_TALKS)?,
            accepted: 0,
            most_line,
            times,
        })
    }

    /// Whether there is none.
    pub(crate) fn is_empty(&self) -> bool
        ensures { IsTrue result ↔ (vec_len self.now.list ≡ 0) }
    {
        self.list.is_empty()
    }

    /// The oldest one whose line isn't whole.
    fn oldest_asking(&self) -> Option<usize>
        ensures first { result ≡ position is_asking_talk self.now.list.items }
        ensures within { IfSome result (λ at. at < vec_len self.now.list) }
    {
        self.list.iter().position(|talk| talk.stage.is_asking())
    }

    /// The oldest one whose line is whole and wasn't handed out.
    fn oldest_ready(&self) -> Option<usize>
        ensures first { result ≡ position is_ready_talk self.now.list.items }
        ensures within { IfSome result (λ at. at < vec_len self.now.list) }
    {
        self.list.iter().position(|talk| talk.stage.is_ready())
    }

    /// The oldest one whose time is over.
    fn oldest_late(&self, now: u64) -> Option<usize>
        ensures first { result ≡ position (is_late_talk now) self.now.list.items }
        ensures within { IfSome result (λ at. at < vec_len self.now.list) }
    {
        self.list.iter().position(|talk| talk.stage.is_late(now))
    }

    /// The one of this number, where it waits for its answer.
    fn asked(&self, number: TalkNumber) -> Option<usize>
        ensures first { result ≡ position (is_asked_as number.0) self.now.list.items }
        ensures within { IfSome result (λ at. at < vec_len self.now.list) }
    {
        self.list
            .iter()
            .position(|talk| talk.number.0 == number.0 && talk.stage.is_asked())
    }

    /// Whether a line waits to be handed out.
    pub(crate) fn has_line(&self) -> bool
        ensures { result ≡ is_some (position is_ready_talk self.now.list.items) }
    {
        self.oldest_ready().is_some()
    }

    /// Whether a line isn't whole yet.
    pub(crate) fn has_asking(&self) -> bool
        ensures { result ≡ is_some (position is_asking_talk self.now.list.items) }
    {
        let oldest = self.oldest_asking();
        oldest.is_some()
    }

    /// Whether another connection may come in: a place is free, or one leaves for it.
    pub(crate) fn has_room(&self) -> bool
        ensures { result ≡ is_room_among self.now.list.items }
    {
        self.list.len() < MOST_TALKS || self.oldest_asking().is_some()
    }

    /// Takes out the connection at an index, which is closed.
    fn remove(&mut self, at: usize, why: Parting) -> Left
        requires { at < vec_len self.old.list }
        ensures list { self.new.list.items ≡ remove self.old.list.items at }
        ensures number { Some result.number ≡ number_at self.old.list.items at }
        ensures why { result.why ≡ why }
    {
        let talk = self.list.remove(at);
        let number = talk.number;
        Left { number, why }
    }

    /// Where all places are taken, the oldest connection whose line isn't whole leaves.
    pub(crate) fn make_place(&mut self) -> Option<Left>
        ensures list { self.new.list.items
            ≡ without (place_of_leaving self.old.list.items) self.old.list.items }
        ensures left { option_map (λ left. left.number) result
            ≡ option_and_then (number_at self.old.list.items) (place_of_leaving self.old.list.items) }
        ensures why { IfSome result (λ left. left.why ≡ PlaceTaken) }
    {
        if self.list.len() < MOST_TALKS {
            return None;
        }
        match self.oldest_asking() {
            Some(at) => Some(self.remove(at, Parting::PlaceTaken)),
            None => None,
        }
    }

    /// The number of the next connection, which none had before.
    pub(crate) fn next_number(&mut self) -> TalkNumber
        ensures told { result.0 ≡ self.new.accepted }
        ensures next { self.new.accepted ≡ min (self.old.accepted + 1) (2 ^ 64 - 1) }
        ensures list { self.new.list ≡ self.old.list }
    {
        self.accepted = self.accepted.saturating_add(1);
        TalkNumber(self.accepted)
    }

    /// A connection that was accepted has a place. An error where memory is refused; it is closed then.
    pub(crate) fn admit(
        &mut self,
        number: TalkNumber,
        stream: UnixStream,
        now: u64,
    ) -> Result<(), AllocError>
        ensures { OnOk result ((talk : ControlTalk)
            × (self.new.list.items ≡ self.old.list.items ++ talk ∷ [])
            × IsAccepted number (after now self.old.times.line_ms) talk) }
    {
        let stage = TalkStage::accepted(self.alloc, self.most_line, now, &self.times);
        self.list.push(ControlTalk {
            number,
            stage,
            stream,
        })?;
        Ok(())
    }

    /// Looks at what the peer of the connection at an index did.
    fn look_at(&mut self, at: usize, is_gone: bool) -> Option<Left>
        requires { at < vec_len self.old.list }
    {
        match self.list[at].look(is_gone) {
            Fate::Stays => None,
            Fate::Done => {
                self.remove(at, Parting::Gone);
                None
            }
            Fate::Leaves(why) => Some(self.remove(at, why)),
        }
    }

    /// Looks at what the peer of a connection did.
    pub(crate) fn look(&mut self, number: TalkNumber, is_gone: bool) -> Option<Left> {
        let at = self.list.iter().position(|talk| talk.number.0 == number.0)?;
        self.look_at(at, is_gone)
    }

    /// The time of each answer that was given since the last round begins.
    pub(crate) fn begin(&mut self, now: u64) {
        for talk in &mut self.list {
            talk.stage.begin(now, &self.times);
        }
    }

    /// The oldest connection whose time is over leaves.
    pub(crate) fn part_from_late(&mut self, now: u64) -> Option<Left>
        ensures list { self.new.list.items
            ≡ without (position (is_late_talk now) self.old.list.items) self.old.list.items }
        ensures left { option_map (λ left. left.number) result
            ≡ option_and_then (number_at self.old.list.items) (position (is_late_talk now) self.old.list.items) }
    {
        match self.oldest_late(now) {
            Some(at) => {
                let why = self.list[at].why_late();
                Some(self.remove(at, why))
            }
            None => None,
        }
    }

    /// The millisecond at which the first of them is late. None where none has a limit.
    pub(crate) fn nearest_limit(&self) -> Option<u64>
        ensures { IsNearest self.now.list.items (vec_len self.now.list) result }
    {
        let mut nearest = None;
        for talk in &self.list {
            nearest = earlier(nearest, talk.stage.until());
        }
        nearest
    }

    /// The next line, with its connection's number: that of the oldest connection that has one.
    pub(crate) fn next_line(&mut self) -> Option<(TalkNumber, PartialLine)>
        ensures none { IsNone result ↔ (position is_ready_talk self.old.list.items ≡ None) }
        ensures number { option_map (λ next. next.0) result
            ≡ option_and_then (number_at self.old.list.items) (position is_ready_talk self.old.list.items) }
        ensures line { option_map (λ next. next.1) result
            ≡ option_and_then (line_at self.old.list.items) (position is_ready_talk self.old.list.items) }
    {
        let at = self.oldest_ready()?;
        let talk = &mut self.list[at];
        let number = talk.number;
        let TalkStage::Ready { line, is_gone } = mem::replace(&mut talk.stage, TalkStage::Asked)
        else {
            return None;
        };
        if is_gone {
            self.remove(at, Parting::Gone);
        }
        Some((number, line))
    }

    /// Answers the connection at an index, whose line was handed out, and writes what its peer takes at once.
    fn answer_at(&mut self, at: usize, octets: Vec<u8>)
        requires { at < vec_len self.old.list }
    {
        self.list[at].stage = TalkStage::answered(octets);
        self.look_at(at, false);
    }

    /// Answers a connection whose line was handed out. Nothing happens where there is none.
    pub(crate) fn answer(&mut self, number: TalkNumber, octets: Vec<u8>)
        ensures nobody { IsNone (position (is_asked_as number.0) self.old.list.items)
            → self.new.list.items ≡ self.old.list.items }
    {
        if let Some(at) = self.asked(number) {
            self.answer_at(at, octets);
        }
    }

    /// Answers all that have asked and aren't answered yet with these octets, and closes those whose line isn't whole, or for whose
    /// answer memory is refused.
    pub(crate) fn answer_all(&mut self, octets: &[u8]) {
        self.list.retain(|talk| !talk.stage.is_asking());
        for _ in 0..MOST_TALKS {
            if self.next_line().is_none() {
                break;
            }
        }
        for _ in 0..MOST_TALKS {
            let Some(at) = self.list.iter().position(|talk| talk.stage.is_asked()) else {
                break;
            };
            match octets.to_vec(self.alloc) {
                Ok(octets) => self.answer_at(at, octets),
                Err(AllocError) => {
                    self.remove(at, Parting::NoMemory);
                }
            }
        }
    }
}
