//! A data file of a job.

use lpd_values::FileName;
use told_jobs::ToldFile;

/// A data file of a job.
#[derive(Clone, Copy)]
pub struct DataFile {
    /// Its name.
    pub name: FileName,
    /// Its length in octets.
    pub count: u64,
    /// How many of its octets are still to come.
    pub left: u64,
    /// How many pages of it have come.
    pub pages: u64,
}

impl ToldFile for DataFile {
    ghost use Rattle.held_jobs.specs.Told.{told_file};

    ghost told = { told_file };

    fn name(&self) -> &FileName {
        &self.name
    }

    fn count(&self) -> u64 {
        self.count
    }
}
