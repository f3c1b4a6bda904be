//! What a session's jobs are told to. A job that goes beside the spool has no number of acceptance, and isn't noted before it is fed.

use crate::asked_job::AskedJob;
use control_file::Control;
use log::Log;
use lpd_values::FileName;
use noted_requests::JobNotes;
use parked_requests::BESIDE;
use server_house::Hall;
use server_notes::JobBook;
use std::fs::{File, Files};
use std::rt::Clock;
use std::sync::Wait;

/// What a session's jobs are told to: the book of its hall, where there is one.
#[derive(Drop)]
pub struct SessionNotes<'h, 'a, R> {
    hall: &'h Hall<'a, R>,
    rt: &'a R,
    book: &'h Option<JobBook>,
    /// The job that was asked for last, for the log.
    asked: Option<AskedJob>,
}

impl<'h, 'a, R> SessionNotes<'h, 'a, R> {
    /// Tells the book of this hall, if there is one.
    pub fn new(hall: &'h Hall<'a, R>) -> SessionNotes<'h, 'a, R> {
        SessionNotes {
            hall,
            rt: hall.rt,
            book: &hall.job_book,
            asked: None,
        }
    }

    /// The job that was asked for last, if one was since this was called.
    pub fn take_asked(&mut self) -> Option<AskedJob> {
        self.asked.take()
    }
}

impl<R: Files<File = File> + Clock + Log + Wait> JobNotes for SessionNotes<'_, '_, R> {
    fn asked_for(&mut self, queue: &[u8]) {
        let hall = self.hall;
        self.asked = AskedJob::new(hall.alloc, &hall.oversight.config, queue).ok();
    }

    fn file_asked(&mut self, count: u64) {
        if let Some(asked) = &mut self.asked {
            asked.add_file(count);
        }
    }

    fn opened(&mut self, job: u64, _sender: u32, queue: &[u8]) {
        if job == BESIDE {
            return;
        }
        if let Some(book) = &self.book {
            book.begin(self.rt, job, queue);
        }
    }

    fn file_began(&mut self, job: u64, name: &FileName) {
        if job == BESIDE {
            return;
        }
        if let Some(book) = &self.book {
            book.note_number(self.rt, job, name.number());
        }
    }

    fn page_came(&mut self, job: u64, octets: usize) {
        if job == BESIDE {
            return;
        }
        if let Some(book) = &self.book {
            book.note_page(self.rt, job, octets);
        }
    }

    fn controlled(&mut self, job: u64, control: &Control) {
        if let Some(asked) = &mut self.asked {
            asked.name_user(self.hall.alloc, control.user.as_slice());
        }
        if job == BESIDE {
            return;
        }
        if let Some(book) = &self.book {
            book.note_control(self.rt, job, control);
        }
    }

    fn received(&mut self, job: u64) {
        if job == BESIDE {
            return;
        }
        self.hall.note_file(job);
        if let Some(book) = &self.book {
            book.receive(self.rt, job);
        }
    }

    fn given_up(&mut self, job: u64) {
        if job == BESIDE {
            return;
        }
        if let Some(book) = &self.book {
            book.let_go(self.rt, job);
        }
    }
}
