//! The limits of the protocol's values.

/// The octets that a command line or a subcommand line may have without its LF.
pub const MAX_LINE: usize = 1023;

/// The decimal digits that a count may have.
pub const MAX_COUNT_DIGITS: usize = 19;

/// The octets that the text of a control file may have.
pub const MAX_CONTROL_TEXT: usize = 8192;

/// The data files that a job may have.
pub const MAX_FILES: usize = 52;

/// The lines of a control file that may print a file.
pub const MAX_PRINTS: usize = 99;

/// The octets that a host or a user of a control file may have.
pub const MAX_OPERAND: usize = 255;

/// The octets that a file name must have: its kind, `f`, a letter and three digits.
pub const MIN_NAME: usize = 6;

/// The octets that a file name may have.
pub const MAX_NAME: usize = 126;
