//! Who is told of the jobs of a session.

use control_file::Control;
use lpd_values::FileName;

/// Who is told what becomes of the jobs of a session, each by its number of acceptance. What is told has been done by then, but for what
/// is asked for and a control file, which are shown before they are handed on.
pub trait JobNotes {
    /// A job is asked for, for the queue of this name.
    fn asked_for(&mut self, queue: &[u8]);

    /// A data file of so many octets is asked for.
    fn file_asked(&mut self, count: u64);

    /// A job was accepted from this sender for the queue of this name.
    fn opened(&mut self, job: u64, sender: u32, queue: &[u8]);

    /// A data file of a job has begun, of this name.
    fn file_began(&mut self, job: u64, name: &FileName);

    /// One more page of a job has come, with N octets.
    fn page_came(&mut self, job: u64, octets: usize);

    /// A job has this control file, unless it is refused.
    fn controlled(&mut self, job: u64, control: &Control);

    /// A job has come whole.
    fn received(&mut self, job: u64);

    /// A job is given up before it was whole.
    fn given_up(&mut self, job: u64);
}
