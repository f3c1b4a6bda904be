//! Printers that don't end their connections.

ghost use Rattle.std.specs.Prelude.{◌≡◌, ◌+◌, ◌<◌, ◌≤◌, ◌↔◌, min, IsTrue, if◌then◌else◌};

/// For how many jobs in a row it is waited in vain that a printer ends its connection.
const MOST_UNENDED: u8 = 3;

/// How many jobs in a row there were for which a printer didn't end its connection in time, as far as 3.
#[derive(Clone, Copy, Debug, PartialEq, Eq)]
pub struct Unended {
    jobs: u8,
    ghost few: { jobs ≤ 3 },
}

impl Unended {
    /// There was none.
    pub fn new() -> Unended
        ensures { result.jobs ≡ 0 }
    {
        Unended { jobs: 0 }
    }

    /// Whether the end of the next job's connection is waited for: fewer than three were waited for in vain.
    pub fn is_patient(self) -> bool
        ensures { IsTrue result ↔ (self.jobs < 3) }
    {
        self.jobs < MOST_UNENDED
    }

    /// What it is after a job for which that was waited for.
    pub fn after(self, is_ended: bool) -> Unended
        ensures { result.jobs ≡ (if is_ended then 0 else min 3 (1 + self.jobs)) }
    {
        if is_ended {
            return Unended::new();
        }
        Unended {
            jobs: MOST_UNENDED.min(self.jobs + 1),
        }
    }
}
