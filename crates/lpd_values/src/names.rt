//! Lists of file names.

ghost use Rattle.std.specs.Prelude.{◌≡◌, ◌==◌, [], ◌∷◌, ◌++◌, length, IfErr, IfOk, OnOk, OnErr};
ghost use Rattle.lpd_values.specs.Kept.{is_among};

use crate::name::FileName;
use std::alloc::{AllocError, AllocFailed, Global};
use std::marker::Model;

/// A list of file names.
#[derive(Debug, Drop)]
pub struct FileNames {
    names: Vec<FileName>,
}

impl Model for FileNames {
    ghost use Rattle.std.specs.Prelude.{ℕ, List};

    ghost Value = { List (List ℕ) };

    ghost view = { λ n. n.names.items };
}

impl FileNames {
    /// No name.
    pub fn new(alloc: Global) -> FileNames
        ensures { result ≡ [] }
    {
        FileNames {
            names: Vec::new(alloc),
        }
    }

    /// Puts a name at the end. Where memory is short the list stays as it was, and the name comes back.
    pub fn push(&mut self, name: FileName) -> Result<(), AllocFailed<FileName>>
        ensures ok { OnOk result (self.new ≡ self.old ++ name ∷ []) }
        ensures err { OnErr result (self.new ≡ self.old) }
        ensures back { IfErr result (λ e. e.value ≡ name) }
    {
        self.names.push(name)
    }

    /// The names in order.
    pub fn as_slice(&self) -> &[FileName]
        ensures { result.now ≡ self.now }
    {
        self.names.as_slice()
    }

    /// How many names there are.
    pub fn len(&self) -> usize
        ensures { result ≡ length self.now }
    {
        self.names.len()
    }

    /// Whether there is no name.
    pub fn is_empty(&self) -> bool
        ensures { result ≡ (length self.now == 0) }
    {
        self.names.is_empty()
    }

    /// A copy of the list.
    pub fn copy(&self, alloc: Global) -> Result<FileNames, AllocError>
        ensures { IfOk result (λ names. names ≡ self.now) }
    {
        Ok(FileNames {
            names: Vec::from_slice(alloc, self.names.as_slice())?,
        })
    }

    /// Whether the name stands in the list.
    pub fn contains(&self, name: &FileName) -> bool
        ensures { result ≡ is_among name.now self.now }
    {
        self.names.iter().any(|other| other == name)
    }
}
