//! What is asked of an account.

use crate::grouping::Grouping;

/// An audit of segments that is asked for.
#[derive(Debug, Drop)]
pub struct AuditRequest<'a> {
    /// The paths of the segments' files, in order.
    pub files: Vec<&'a str>,
    /// The digest that the first segment has to name.
    pub after: Option<[u8; 32]>,
    /// The digest that the last one has to end in.
    pub ends: Option<[u8; 32]>,
    /// Where printers wrote: each a directory, or a printer's number, an equals sign and its path, or a place between them.
    pub printed: Vec<&'a str>,
    /// The numbers of the printers from whose folders somebody takes files away, each as decimal digits.
    pub taken: Vec<&'a str>,
    /// Whether it is asked to tell how far the audit is.
    pub progress: bool,
}

/// What was used is asked for.
#[derive(Debug, Drop)]
pub struct UsageRequest<'a> {
    /// The paths of the segments' files, in order.
    pub files: Vec<&'a str>,
    /// What it is told by.
    pub by: Grouping,
    /// Segments that ended before this time are passed over.
    pub since: Option<&'a str>,
    /// Segments that began after this time are passed over.
    pub until: Option<&'a str>,
    /// Whether it is told with commas between.
    pub csv: bool,
}
