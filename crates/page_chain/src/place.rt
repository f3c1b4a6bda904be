//! A place in the order of printing.

/// A place: which page of which file is printed there. Files count from 0 in the order in which they were begun, and pages
/// from 0 in each.
#[derive(Clone, Copy, Debug, PartialEq, Eq)]
pub struct Place {
    pub file: usize,
    pub number: usize,
}
