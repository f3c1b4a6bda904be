//! When connections are accepted.

ghost use Rattle.std.specs.Prelude.{◌≡◌, ◌+◌, ◌-◌, ◌^◌, min};
ghost use Rattle.control_socket.specs.Accepting.{due_at, is_due};
ghost use Rattle.control_socket.specs.declared.accepting.Accepting.TheVariants.{From};

/// How long none is accepted once one couldn't be, in milliseconds: the system may have no descriptor for it.
const PAUSE_MS: u64 = 100;

/// When connections are accepted.
#[derive(Clone, Copy)]
pub(crate) enum Accepting {
    /// When the system tells that one waits.
    WhenTold,
    /// As soon as there is room: more may wait.
    WhenRoom,
    /// Not before this millisecond.
    From(u64),
}

impl Accepting {
    /// When they are accepted again once one couldn't be, at this millisecond.
    pub(crate) fn after_failure(now: u64) -> Accepting
        ensures { result ≡ From (min (2 ^ 64 - 1) (now + 100)) }
    {
        Accepting::From(now.saturating_add(PAUSE_MS))
    }

    /// The millisecond from which on connections are accepted; None where the system tells when.
    pub(crate) fn due_at(self, has_room: bool, now: u64) -> Option<u64>
        ensures { result ≡ due_at self has_room now }
    {
        match self {
            Accepting::WhenTold => None,
            Accepting::WhenRoom => has_room.then_some(now),
            Accepting::From(moment) => Some(moment),
        }
    }

    /// Whether connections are accepted by now, where there is room.
    pub(crate) fn is_due(self, now: u64) -> bool
        ensures { result ≡ is_due self now }
    {
        match self {
            Accepting::WhenTold => false,
            Accepting::WhenRoom => true,
            Accepting::From(moment) => moment <= now,
        }
    }
}
