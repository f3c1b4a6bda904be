//! Data files that are sent.
//!
//! A data file owns its octets: a struct with a file name and borrowed octets can't be put into a `Vec` by proved code today.

use lpd_commands::{FileName, Octets};

/// A data file that is sent.
#[derive(Debug, Drop)]
pub struct DataFile {
    /// Its name, which has to be one of a data file.
    pub name: FileName,
    /// Its octets, of which there has to be one at least, since a server refuses a count of 0.
    pub octets: Octets,
}
