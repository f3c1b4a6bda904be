//! What a chain itself knows of a file.

ghost use Rattle.std.specs.Prelude.{◌≡◌};
ghost use Rattle.page_chain.specs.Changes.{number_of};
ghost use Rattle.page_chain.specs.Held.{names_in};

use lpd_values::FileName;

/// A file: its name, and how many pages it was given.
#[derive(Clone, Copy)]
pub struct Run {
    pub name: FileName,
    pub pages: usize,
}

/// The number of the first file of this name.
pub fn find(files: &[Run], name: &FileName) -> Option<usize>
    ensures { result ≡ number_of (names_in files.now) name.now }
{
    for i in 0..files.len() {
        if files[i].name.octets() == name.octets() {
            return Some(i);
        }
    }
    None
}
