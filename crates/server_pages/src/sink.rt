//! Why the pages of a printer aren't written, and whether its next job may be tried all the same.

ghost use Rattle.std.specs.Prelude.{◌≡◌, Option};
ghost use Rattle.std.specs.declared.io.Error.{Error};

use std::io::Error;

/// What keeps why a page wasn't written. `PrintSink` says what is counted and no more, so this is a trait beside it.
pub trait Explains {
    ghost why: { Self → Option Error };

    /// Why the last page that wasn't written wasn't; None where all were.
    fn cause(&self) -> Option<Error>
        ensures { result ≡ why self.now };

    /// Whether a page that it didn't write, since its job had been removed, says nothing of the next job.
    fn may_go_on(&self) -> bool;
}
