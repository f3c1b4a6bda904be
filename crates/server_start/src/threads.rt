//! Threads: those that were started are kept until all are joined.

ghost use Rattle.std.specs.Prelude.{◌≡◌, ◌++◌, ◌∷◌, [], IfErr, IfOk, false, true};

use std::thread::{JoinHandle, SpawnError, Threads};

/// Joins all threads, and keeps what they returned. What there is no memory for is let go.
pub fn join_all<R: Threads, T: Drop>(rt: &R, threads: Vec<JoinHandle<T>>, returned: &mut Vec<T>) {
    for thread in threads {
        let _ = returned.push(thread.join(rt));
    }
}

/// Keeps a thread to be joined. False where it wasn't started, or memory for its handle is refused.
pub fn keep<T: Drop, F: Drop>(
    threads: &mut Vec<JoinHandle<T>>,
    started: Result<JoinHandle<T>, SpawnError<F>>,
) -> bool
    ensures kept { IfOk started (λ thread. result ≡ true
        → threads.new.items ≡ threads.old.items ++ thread ∷ []) }
    ensures lost { IfErr started (λ fault. (result ≡ false)
        × (threads.new.items ≡ threads.old.items)) }
{
    match started {
        Ok(thread) => threads.push(thread).is_ok(),
        Err(_) => false,
    }
}
