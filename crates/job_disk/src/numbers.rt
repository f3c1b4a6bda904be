//! The numbers of files.

ghost use Rattle.std.specs.Prelude.{◌≡◌};
ghost use Rattle.job_disk.specs.FileNumbers.{behind, greatest, next_behind};

use job_files::{KeptFileName, NUMBERS_END};

/// The number of the next file; None where all that jobs' files can have are used up.
#[derive(Clone, Copy)]
pub(crate) struct FileNumbers {
    next: Option<u64>,
}

/// The number behind this one, where a job's file can have it.
fn number_behind(number: u64) -> Option<u64>
    ensures { result ≡ behind number }
{
    let next = number.checked_add(1)?;
    if next < NUMBERS_END { Some(next) } else { None }
}

impl FileNumbers {
    /// The first one behind those of these files is the next. 1 where there is none.
    pub(crate) fn behind(names: &[KeptFileName]) -> FileNumbers
        ensures { result.next ≡ behind (greatest names.now) }
    {
        let greatest = names
            .iter()
            .fold(0u64, |so_far, name| so_far.max(name.number));
        FileNumbers {
            next: number_behind(greatest),
        }
    }

    /// Takes the next number, which no file has had.
    pub(crate) fn take(&mut self) -> Option<u64>
        ensures number { result ≡ self.old.next }
        ensures next { self.new.next ≡ next_behind self.old.next }
    {
        let number = self.next?;
        self.next = number_behind(number);
        Some(number)
    }
}
