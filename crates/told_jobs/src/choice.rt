//! Which jobs a list of words chooses.

ghost use Rattle.std.specs.Prelude.{◌≡◌};
ghost use Rattle.std.specs.List.{list_any};
ghost use Rattle.lpd_values.specs.Choice as C;

use crate::told::{ToldJob, number_of, user_of};
use crate::words::{is_number_word, is_root, names_number};
use lpd_values::Octets;

/// Whether a word chooses a job, by its number or by its user.
fn chooses<J: ToldJob>(job: &J, word: &[u8]) -> bool
    ensures { result ≡ C.chooses (J.told job.now) word.now }
{
    if is_number_word(word) {
        names_number(word, number_of(job))
    } else {
        user_of(job) == word
    }
}

/// Whether one of these words chooses a job.
fn is_chosen<J: ToldJob>(job: &J, words: &[Octets]) -> bool
    ensures { result ≡ list_any (C.chooses (J.told job.now)) words.now }
{
    words.iter().any(|word| chooses(job, word.as_slice()))
}

/// Whether a job is shown for the state of a queue.
pub(crate) fn is_shown<J: ToldJob>(queue: u32, list: &[Octets], job: &J) -> bool
    ensures { result ≡ C.is_shown queue list.now (J.told job.now) }
{
    match list {
        [] => job.is_listed(queue),
        _ => job.is_listed(queue) && is_chosen(job, list),
    }
}

/// Whether a job is listed and a place of it was handed out.
pub(crate) fn is_active<J: ToldJob>(queue: u32, job: &J) -> bool
    ensures { result ≡ C.is_active queue (J.told job.now) }
{
    job.is_listed(queue) && job.handed() != 0
}

/// Whether an agent may remove a job: its own ones, and root may remove all.
pub fn may_remove<J: ToldJob>(agent: &[u8], job: &J) -> bool
    ensures { result ≡ C.may_remove agent.now (J.told job.now) }
{
    is_root(agent) || user_of(job) == agent
}

/// Whether a word picks a job for a removal: a user's name counts only where the agent is root.
fn picks<J: ToldJob>(agent: &[u8], job: &J, word: &[u8]) -> bool
    ensures { result ≡ C.picks agent.now (J.told job.now) word.now }
{
    chooses(job, word) && (is_number_word(word) || is_root(agent))
}

/// Whether one of these words picks a job for a removal.
fn is_picked_by<J: ToldJob>(agent: &[u8], job: &J, words: &[Octets]) -> bool
    ensures { result ≡ list_any (C.picks agent.now (J.told job.now)) words.now }
{
    words.iter().any(|word| picks(agent, job, word.as_slice()))
}

/// Whether a removal by these words takes a job: it is listed, the agent may remove it, and a word picks it.
pub fn is_picked<J: ToldJob>(queue: u32, agent: &[u8], words: &[Octets], job: &J) -> bool
    ensures { result ≡ C.is_picked queue agent.now words.now (J.told job.now) }
{
    job.is_listed(queue) && may_remove(agent, job) && is_picked_by(agent, job, words)
}
