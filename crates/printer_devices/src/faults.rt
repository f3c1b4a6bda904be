//! Why what a printer prints to doesn't take it.

/// A page wasn't written, or a job that was printed isn't where it should be.
#[derive(Clone, Copy, Debug, PartialEq, Eq)]
pub struct DeviceFault;
