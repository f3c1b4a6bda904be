//! What a job is called.

ghost use Rattle.std.specs.Prelude.{◌≡◌};
ghost use Rattle.standings.specs.Words.{client_words, name_of, name_words, number_words};

use std::fmt;

/// What a held job is called outside of the spool.
#[derive(Clone, Copy)]
pub struct JobNumbers {
    /// The number of its file in the folder that keeps jobs, where it has one.
    pub file: Option<u64>,
    /// The number that its sender gave it, once a file of it has come.
    pub client: Option<u16>,
}

/// The number by which a person names a job to the server.
#[derive(Clone, Copy)]
pub enum JobNumber {
    /// Its number of acceptance.
    Accepted(u64),
    /// That of its file in the folder that keeps jobs.
    File(u64),
}

/// A job's name for people: `job 5 (002)` or `file 7 (002)`, with its sender's number in parentheses, where that is known.
#[derive(Clone, Copy)]
pub struct JobName {
    /// Its number.
    pub number: JobNumber,
    /// The number that its sender gave it.
    pub client: Option<u16>,
}

impl JobNumbers {
    /// The name of the held job of this number of acceptance: by its file, where it has one, since that number lasts.
    pub fn name(self, job: u64) -> JobName
        ensures { result ≡ name_of self job }
    {
        let number = match self.file {
            Some(file) => JobNumber::File(file),
            None => JobNumber::Accepted(job),
        };
        JobName {
            number,
            client: self.client,
        }
    }
}

impl fmt::Display for JobNumber {
    ghost use Rattle.std.specs.Prelude.{Some};

    ghost output = { λ number. Some (number_words number) };

    fn fmt<W: fmt::Write>(&self, f: &mut fmt::Formatter<W>) -> fmt::Result {
        match self {
            JobNumber::Accepted(job) => write!(f, "job {job}"),
            JobNumber::File(file) => write!(f, "file {file}"),
        }
    }
}

/// The number that a sender gave its job, in parentheses behind a space, where it is known.
#[derive(Clone, Copy)]
struct ClientNumber(Option<u16>);

impl fmt::Display for ClientNumber {
    ghost use Rattle.std.specs.Prelude.{Some};

    ghost output = { λ number. Some (client_words number.0) };

    fn fmt<W: fmt::Write>(&self, f: &mut fmt::Formatter<W>) -> fmt::Result {
        match self.0 {
            Some(number) => write!(f, " ({number:03})"),
            None => Ok(()),
        }
    }
}

impl fmt::Display for JobName {
    ghost use Rattle.std.specs.Prelude.{Some};

    ghost output = { λ name. Some (name_words name) };

    fn fmt<W: fmt::Write>(&self, f: &mut fmt::Formatter<W>) -> fmt::Result {
        let (number, client) = (self.number, ClientNumber(self.client));
        write!(f, "{number}{client}")
    }
}
