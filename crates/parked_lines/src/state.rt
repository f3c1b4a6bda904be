//! Where a job is that is kept, as a state.

ghost use Rattle.std.specs.Prelude.{◌≡◌};
ghost use Rattle.parked_lines.specs.States.{is_fed, is_in_spool, is_outside, is_parked, is_waiting, kept, moved};

/// Where a job is that is kept in a folder.
///
/// ```text
///  opened, through the spool      kept                ends
///     |--> Coming -----------------------> Whole ---------------> gone
///     |       |                            ^   |
///     |       | turned aside       entered |   | put back
///     |       v                            |   v
///     |--> Beside ---------> Waiting ----> Fed |
///    opened, into      kept  ^   ^    fed   |  |
///    the folder alone        |   |----------|  |
///                            |    put back     |
///                            |-----------------|
/// ```
///
/// A job may end in each state: it is removed, it fails, it is done, or doesn't come to its end.
#[derive(Clone, Copy, Debug, PartialEq, Eq)]
pub enum ParkState {
    /// It comes through the spool.
    Coming,
    /// It comes into the folder alone.
    Beside,
    /// It is whole in the folder, and waits in its queue's line.
    Waiting,
    /// It is whole in the folder, and is being fed to the spool.
    Fed,
    /// The spool has it whole.
    Whole,
}

/// What happens to a job that stays among the lines. `ParkedLines::take_next` alone has one fed.
#[derive(Clone, Copy, Debug, PartialEq, Eq)]
pub enum JobMove {
    /// A job that came through the spool goes on into the folder alone.
    TurnAside,
    /// The spool has the whole of a job that was fed.
    Enter,
    /// A job that was fed, or that the spool had whole, waits again.
    PutBack,
}

impl ParkState {
    /// The state after this, or None where it doesn't happen to a job in this state.
    pub fn moved(self, change: JobMove) -> Option<ParkState>
        ensures { result ≡ moved change self }
    {
        match (change, self) {
            (JobMove::TurnAside, ParkState::Coming) => Some(ParkState::Beside),
            (JobMove::Enter, ParkState::Fed) => Some(ParkState::Whole),
            (JobMove::PutBack, ParkState::Fed | ParkState::Whole) => Some(ParkState::Waiting),
            _ => None,
        }
    }

    /// The state once the job is kept, or None where it was kept before.
    pub fn kept(self) -> Option<ParkState>
        ensures { result ≡ kept self }
    {
        match self {
            ParkState::Coming => Some(ParkState::Whole),
            ParkState::Beside => Some(ParkState::Waiting),
            _ => None,
        }
    }

    /// Whether it waits in its queue's line.
    pub fn is_waiting(self) -> bool
        ensures { result ≡ is_waiting self }
    {
        matches!(self, ParkState::Waiting)
    }

    /// Whether it is being fed.
    pub fn is_fed(self) -> bool
        ensures { result ≡ is_fed self }
    {
        matches!(self, ParkState::Fed)
    }

    /// Whether it is whole in the folder, and not in the spool: it waits, or is being fed.
    pub fn is_parked(self) -> bool
        ensures { result ≡ is_parked self }
    {
        matches!(self, ParkState::Waiting | ParkState::Fed)
    }

    /// Whether it isn't the spool's: it comes into the folder alone, waits, or is being fed.
    pub fn is_outside(self) -> bool
        ensures { result ≡ is_outside self }
    {
        matches!(
            self,
            ParkState::Beside | ParkState::Waiting | ParkState::Fed
        )
    }

    /// Whether the spool has it, or is given it: it comes through it, is being fed, or is whole there.
    pub fn is_in_spool(self) -> bool
        ensures { result ≡ is_in_spool self }
    {
        matches!(self, ParkState::Coming | ParkState::Fed | ParkState::Whole)
    }
}
