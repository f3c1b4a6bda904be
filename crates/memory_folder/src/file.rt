//! A file, and what a crash leaves of it.

ghost use Rattle.std.specs.Prelude.{◌≡◌, Some, None, MatchOption, false};
ghost use Rattle.memory_folder.specs.Memory.{MayLeave, left_by};

/// What a crash takes of what isn't synced.
#[derive(Clone, Copy, Debug, PartialEq, Eq)]
pub enum Crash {
    /// All of it: octets and names.
    Loses,
    /// Octets alone: each name is there. Of a file it leaves this many of the first octets, and all that are synced.
    Keeps(usize),
}

/// A file, with what is synced of it.
#[derive(Drop)]
pub struct DiskFile {
    /// Its octets.
    pub octets: Vec<u8>,
    /// How many of them are synced, from the first on.
    pub synced: usize,
    /// Whether its name as a whole file is synced.
    pub named: bool,
}

impl DiskFile {
    /// A file with these octets, of which nothing is synced.
    pub(crate) fn new(octets: Vec<u8>) -> DiskFile
        ensures { (result.octets ≡ octets) × (result.synced ≡ 0) × (result.named ≡ false) }
    {
        DiskFile {
            octets,
            synced: 0,
            named: false,
        }
    }

    /// What this crash leaves of it once it has the name of a whole file: its octets then, or no such file.
    pub fn left(&self, crash: Crash) -> Option<&[u8]>
        ensures left { MatchOption result (left_by crash self.now ≡ None)
            (λ octets. left_by crash self.now ≡ Some octets.now) }
        ensures allowed { MatchOption result (MayLeave (Some self.now) None)
            (λ octets. MayLeave (Some self.now) (Some octets.now)) }
    {
        let count = match crash {
            Crash::Loses if !self.named => return None,
            Crash::Loses => self.synced,
            Crash::Keeps(count) => count.max(self.synced),
        };
        Some(&self.octets[..count.min(self.octets.len())])
    }
}
