//! Of what a history leaves no choice.

ghost use Rattle.spool_requests.specs.Decided.{AbortIsDecided, EndIsDecided, PutIsDecided, StartIsDecided};

/// The file and the page that may be put, and the file that may end, are those that a request shows.
pub fn puts_are_decided<C>()
    ensures put { PutIsDecided C }
    ensures end { EndIsDecided C }
{}

/// The end of a session aborts its job exactly where that may be aborted.
pub fn abort_is_decided<C>()
    ensures { AbortIsDecided C }
{}

/// A start shows something exactly where a printer of its queue is stopped.
pub fn start_is_decided<C>()
    ensures { StartIsDecided C }
{}
