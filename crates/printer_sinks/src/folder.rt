//! A folder that files are published in.

ghost use Rattle.std.specs.Prelude.{◌≡◌, ℕ, Bool, true, List, Option, IfOk, OnOk, OnErr};
ghost use Rattle.printer_sinks.specs.Files.{File, Adds, MayAdd, started, extended};

/// A call on a folder failed.
#[derive(Clone, Copy, Debug, PartialEq, Eq)]
pub struct FolderFault;

/// A folder with one hidden file, and files with numbers of its own in their names.
pub trait PrinterFolder {
    /// The files that have a number, the newest first, where the type can tell them.
    ghost files: { Self → Option (List File) };

    /// The octets of the hidden file, where the type can tell them.
    ghost draft: { Self → Option (List ℕ) };

    /// Whether these were written to the disk.
    ghost is_kept: { Self → Bool };

    /// Makes a new hidden file, for a job.
    fn begin(&mut self, job: u64) -> Result<(), FolderFault>
        ensures ok { OnOk result (draft self.new ≡ started (files self.old)) }
        ensures files { files self.new ≡ files self.old };

    /// Adds octets to the hidden file.
    fn append(&mut self, octets: &[u8]) -> Result<(), FolderFault>
        ensures ok { OnOk result (draft self.new ≡ extended octets.now (draft self.old)) }
        ensures files { files self.new ≡ files self.old };

    /// Writes the hidden file's octets to the disk.
    fn sync(&mut self) -> Result<(), FolderFault>
        ensures ok { OnOk result (is_kept self.new ≡ true) }
        ensures draft { draft self.new ≡ draft self.old }
        ensures files { files self.new ≡ files self.old };

    /// Gives the hidden file a number that no file has, and writes the folder's names to the disk. Answers the number.
    fn publish(&mut self) -> Result<u64, FolderFault>
        requires { is_kept self.old ≡ true }
        ensures ok { IfOk result
            (λ number. Adds number (draft self.old) (files self.old) (files self.new)) }
        ensures err { OnErr result (MayAdd (draft self.old) (files self.old) (files self.new)) };

    /// Removes the hidden file.
    fn discard(&mut self)
        ensures { files self.new ≡ files self.old };
}
