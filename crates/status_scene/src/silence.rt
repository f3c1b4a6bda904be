//! Peers of sessions from which nothing comes.

ghost use Rattle.std.specs.Prelude.{◌≡◌, count_by};
ghost use Rattle.status_scene.specs.Silence.{is_silent};

use status_lines::SeenSession;

/// From how many seconds on a peer is called silent.
const SILENT_SECONDS: u64 = 60;

/// Whether the peer of a session is silent: no octet of it came for a minute.
pub fn is_silent(session: &SeenSession) -> bool
    ensures { result ≡ is_silent session.now }
{
    SILENT_SECONDS <= session.silent
}

/// How many of these sessions have a peer that is silent.
pub fn silent_sessions(sessions: &[SeenSession]) -> u64
    ensures { result ≡ count_by is_silent sessions.now }
{
    sessions.iter().filter(|session| is_silent(session)).count() as u64
}
