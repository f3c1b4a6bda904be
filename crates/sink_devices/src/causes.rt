//! Why a device failed.

ghost use Rattle.std.specs.Prelude.{◌≡◌, Option};
ghost use Rattle.std.specs.declared.io.Error.{Error};

use std::io::Error;

/// What keeps why it failed last.
pub trait Causes {
    ghost why: { Self → Option Error };

    /// Why its last call failed that did, but for the end of a connection, which is logged where it comes. None where none
    /// failed.
    fn cause(&self) -> Option<Error>
        ensures { result ≡ why self.now };
}
