//! How the files of a folder are named.

ghost use Rattle.std.specs.Prelude.{◌≡◌, ◌++◌, ℕ, List, MatchOption};
ghost use Rattle.job_files.specs.Names.{IsNoName, IsNoneOf, is_job_number, stage_word, written};

use decimals::read_decimal;
use std::fmt;
use std::fmt::{Display, Formatter, Write};

/// The first number that no job's file has, 2^63: what has it or a greater one is no job, and the numbers of new jobs don't go on behind it.
pub const NUMBERS_END: u64 = 9_223_372_036_854_775_808;

/// How far the job of a file is.
#[derive(Clone, Copy, Debug, PartialEq, Eq)]
pub enum FileStage {
    /// It was coming when its session ended, or is coming still: nobody was told that it is here.
    Temporary,
    /// It is whole, and is to be printed.
    Whole,
    /// It failed, and is to be printed only where that is asked for.
    Failed,
}

/// The name of a job's file: `N.tmp`, `N.job` or `N.failed`, with N in decimal digits that begin with 0 only where that is all.
#[derive(Clone, Copy, Debug, PartialEq, Eq)]
pub struct KeptFileName {
    /// The folder's own number of the job.
    pub number: u64,
    /// How far the job is.
    pub stage: FileStage,
}

impl FileStage {
    /// What a name ends with.
    fn word(self) -> &'static str
        ensures { result.now ≡ stage_word self }
    {
        match self {
            FileStage::Temporary => ".tmp",
            FileStage::Whole => ".job",
            FileStage::Failed => ".failed",
        }
    }
}

impl Display for KeptFileName {
    ghost use Rattle.std.specs.Prelude.{Some};

    ghost output = { λ name. Some (written name) };

    fn fmt<W: Write>(&self, f: &mut Formatter<W>) -> fmt::Result {
        write!(f, "{}{}", self.number, self.stage.word())
    }
}

/// What stands before this word at the end of octets.
fn before<'a>(octets: &'a [u8], word: &[u8]) -> Option<&'a [u8]>
    ensures { MatchOption result ((front : List ℕ) → octets.now ≡ front ++ word.now → ⊥)
        (λ front. octets.now ≡ front.now ++ word.now) }
{
    octets.strip_suffix(word)
}

impl KeptFileName {
    /// Whether a job's file can have the number.
    pub fn is_jobs(&self) -> bool
        ensures { result ≡ is_job_number self.now.number }
    {
        self.number < NUMBERS_END
    }

    /// The name of this stage that these octets are.
    fn at_stage(octets: &[u8], stage: FileStage) -> Option<KeptFileName>
        ensures { MatchOption result (IsNoneOf stage octets.now)
            (λ name. octets.now ≡ written name) }
    {
        let digits = before(octets, stage.word().as_bytes())?;
        let number = read_decimal(digits)?;
        Some(KeptFileName { number, stage })
    }

    /// The name that these octets are. None where they are that of no job's file.
    pub fn parse(octets: &[u8]) -> Option<KeptFileName>
        ensures { MatchOption result (IsNoName octets.now) (λ name. octets.now ≡ written name) }
    {
        KeptFileName::at_stage(octets, FileStage::Whole)
            .or(KeptFileName::at_stage(octets, FileStage::Temporary))
            .or(KeptFileName::at_stage(octets, FileStage::Failed))
    }
}
