//! The pages of files that go back to the pool.

ghost use Rattle.std.specs.Prelude.{◌≡◌, ℕ, ◌+◌, ◌*◌, ◌<◌, ◌≤◌, ◌^◌, false, [], length};
ghost use Rattle.lpd_values.specs.declared.limits.TheConstants.{MAX_FILES};
ghost use Rattle.page_nodes.specs.Chains.{AreOfSize, total};
ghost use Rattle.page_chain.specs.Changes.{is_among};
ghost use Rattle.page_chain.specs.Drained.{dropped_in, left_in, runs_kept};
ghost use Rattle.page_chain.specs.Held.{HasRow, OnlyRow, pages_in};

use crate::run::Run;
use lpd_values::MAX_FILES;
use page_nodes::Nodes;
use page_pool::Pool;

/// The number that the chain of a file has among the nodes, which have `MAX_FILES` chains for each row.
pub fn key_of(row: usize, file: usize) -> usize
    requires row { row < 2 ^ 32 }
    requires file { file < MAX_FILES }
    ensures { result ≡ MAX_FILES * row + file }
{
    MAX_FILES * row + file
}

/// Puts the pages of the first `files` files of a row back into the pool, but for those of the files whose numbers are kept.
pub fn drain_files(row: usize, files: usize, kept: &[usize], nodes: &mut Nodes, pool: &mut Pool)
    requires rows { row < 2 ^ 32 }
    requires few { files ≤ MAX_FILES }
    requires here { HasRow nodes.old row }
    requires sizes { (i : ℕ) → i < files → is_among kept.now i ≡ false
        → AreOfSize pool.old.page_size (pages_in nodes.old row i) }
    requires room { pool.old.free + dropped_in nodes.old row kept.now files ≤ pool.old.pages }
    ensures kept { (i : ℕ) → i < MAX_FILES
        → pages_in nodes.new row i ≡ left_in nodes.old row kept.now files i }
    ensures only { OnlyRow nodes.old nodes.new row }
    ensures pool { pool.new
        ≡ record pool.old { free = pool.old.free + dropped_in nodes.old row kept.now files } }
    ensures total { total nodes.new.chains + dropped_in nodes.old row kept.now files
        ≡ total nodes.old.chains }
{
    'files: for i in 0..files {
        if !kept.contains(&i) {
            nodes.drain_into(key_of(row, i), pool);
        }
    }
}

/// Notes that the files have no page any more, but for those whose numbers are kept.
pub fn forget(files: &mut [Run], kept: &[usize])
    ensures { files.new ≡ runs_kept 0 kept.now files.old }
{
    for i in 0..files.len() {
        if !kept.contains(&i) {
            files[i].pages = 0;
        }
    }
}
