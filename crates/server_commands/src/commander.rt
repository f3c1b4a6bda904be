//! Who does what is asked at the control socket.

use control_lines::{AnswerEnd, CommandFault, ControlCommand};
use log::Log;
use server_care::{Commands, Reply};
use server_house::{Hall, HouseLedger, HouseSeat, HouseSpool, ServerFault};
use server_jobs::{AnswerLines, JobCommander};
use server_survey::Surveyor;
use std::alloc::{AllocError, Global};
use std::fs::{File, Files};
use std::rt::Clock;
use std::sync::Wait;

/// What is answered at the end of a server that ended so, in whose folder so many jobs are left. An error where memory is refused.
pub fn end_answer(
    alloc: Global,
    ended: &Result<(), ServerFault>,
    left: u64,
) -> Result<Vec<u8>, AllocError> {
    let mut answer = AnswerLines::new(alloc);
    if left > 0 {
        answer.line(format!(in alloc; "{left} jobs wait in the folder for the next start"));
    }
    answer.end_by(ended.as_ref().err())
}

/// Who does what is asked at the control socket of a server.
#[derive(Drop)]
pub struct Commander<'h, 'a, R, E: HouseLedger> {
    pub spool: &'h HouseSpool<E>,
    pub hall: &'h Hall<'a, R>,
}

impl<'h, 'a, R, E: HouseLedger> Commander<'h, 'a, R, E> {
    /// Who looks at how the server stands.
    pub(crate) fn surveyor(&self) -> Surveyor<'h, 'a, R, E> {
        Surveyor {
            spool: self.spool,
            hall: self.hall,
        }
    }

    /// Who does with single jobs what is asked.
    pub(crate) fn of_jobs(&self) -> JobCommander<'h, 'a, R, E> {
        JobCommander {
            spool: self.spool,
            hall: self.hall,
        }
    }

    /// An answer without a line.
    pub(crate) fn no_lines(&self) -> AnswerLines {
        AnswerLines::new(self.hall.alloc)
    }
}

impl<R: Files<File = File> + Clock + Log + Wait, E: HouseLedger> Commander<'_, '_, R, E> {
    /// Tells how the spool, its sessions, its printers and its jobs stand.
    fn tell_status(&self) -> Result<Vec<u8>, AllocError> {
        let lines = self.surveyor().status()?;
        AnswerLines::of_lines(self.hall.alloc, lines).end(AnswerEnd::Done)
    }

    /// Does what a command asks for, but for a stop. The octets of its answer; an error where memory is refused.
    fn answer(
        &self,
        seat: &mut HouseSeat<E>,
        command: &ControlCommand,
    ) -> Result<Vec<u8>, AllocError> {
        match command {
            ControlCommand::Status => self.tell_status(),
            ControlCommand::Start { queue } => self.start_queue(seat, queue.as_slice()),
            ControlCommand::Hold { queue } => self.hold_queue(queue.as_slice()),
            ControlCommand::Release { queue } => self.release_queue(queue.as_slice()),
            ControlCommand::Remove { queue, whom } => {
                self.remove_jobs(seat, queue.as_slice(), whom.as_slice())
            }
            ControlCommand::CancelJob { number } => self.of_jobs().cancel_job(seat, *number),
            ControlCommand::CancelFile { number } => self.of_jobs().cancel_file(seat, *number),
            ControlCommand::Resend { number } => self.of_jobs().resend_job(*number),
            ControlCommand::ResendAll => self.of_jobs().resend_all(None),
            ControlCommand::ResendQueue { queue } => self
                .of_jobs()
                .resend_all(Some(queue.as_slice())),
            ControlCommand::Rotate => self.rotate_account(seat),
            ControlCommand::Stop { .. } | ControlCommand::StopNow => {
                self.no_lines().end(AnswerEnd::Done)
            }
        }
    }
}

impl<R: Files<File = File> + Clock + Log + Wait, E: HouseLedger> Commands<E>
    for Commander<'_, '_, R, E> {
    fn carry_out(&self, seat: &mut HouseSeat<E>, line: &[u8]) -> Result<Reply, AllocError> {
        let octets = match ControlCommand::parse(self.hall.alloc, line) {
            Ok(ControlCommand::Stop { seconds }) => return Ok(Reply::Stop { seconds }),
            Ok(ControlCommand::StopNow) => return Ok(Reply::StopNow),
            Ok(command) => self.answer(seat, &command),
            Err(CommandFault::Unknown) => self.no_lines().end(AnswerEnd::Unknown),
            Err(CommandFault::Memory) => Err(AllocError),
        };
        Ok(Reply::Answer(octets?))
    }
}
