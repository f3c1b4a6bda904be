//! What a core answers.

use crate::handed::HandedPage;
use control_file::Control;
use lpd_values::Refusal;
use page_pool::{FilledPage, PageTicket};

/// The answer to a job that asks for a page.
pub enum Asked {
    /// An empty page, which has to come back by `put` or `abort`.
    Page(PageTicket),
    /// No page is free, or the state would not be safe.
    Later,
}

/// Whether a job is whole.
#[derive(Clone, Copy, Debug, PartialEq, Eq)]
pub enum Receipt {
    /// Something of the job is still missing.
    Stored,
    /// The control file is there, and each data file that it prints has ended.
    Received,
}

/// What a printer gets.
pub enum Next {
    /// The next page, which has to come back by `printed` or `failed`.
    Handed(HandedPage),
    /// There is nothing to print.
    Nothing,
    /// A page failed at this printer, and its queue wasn't started since.
    Stopped,
    /// A page is out at this printer.
    Busy,
    /// The spool is closed.
    Closed,
}

/// A filled page that `put` refused: the job doesn't await it.
pub struct ReturnedPage {
    pub page: FilledPage,
}

/// A ticket, if there was one, that `abort` refused.
pub struct ReturnedTicket {
    pub ticket: Option<PageTicket>,
}

impl ReturnedTicket {
    /// Spends the page.
    pub fn surrender(self) {
        let ReturnedTicket { ticket } = self;
        if let Some(page) = ticket {
            page.surrender();
        }
    }
}

/// A control file that `control` refused, and why.
#[derive(Drop)]
pub struct ReturnedControl {
    pub control: Control,
    pub refusal: Refusal,
}

/// A page that isn't the one which is out at the printer.
pub struct Foreign {
    pub page: HandedPage,
}
