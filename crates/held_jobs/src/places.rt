//! How many places the files of a job have.

ghost use Rattle.std.specs.Prelude.{◌≡◌, ◌≤◌, ◌*◌, ◌^◌, length};
ghost use Rattle.lpd_values.specs.declared.limits.TheConstants.{MAX_FILES, MAX_PRINTS};
ghost use Rattle.held_jobs.specs.Told as T;

use crate::file::DataFile;
use lpd_values::FileName;

/// How many pages the files of a name have.
fn pages_named(files: &[DataFile], name: &FileName) -> u128
    requires { length files.now ≤ MAX_FILES }
    ensures value { result ≡ T.pages_named name.now files.now }
    ensures within { result ≤ length files.now * 2 ^ 64 }
{
    let Some((first, rest)) = files.split_first() else {
        return 0;
    };
    let more = pages_named(rest, name);
    if first.name.octets() == name.octets() {
        return u128::from(first.pages) + more;
    }
    more
}

/// How many places a print list has: the pages of each file that it names, as often as it names it.
pub(crate) fn places_of(names: &[FileName], files: &[DataFile]) -> u128
    requires names { length names.now ≤ MAX_PRINTS }
    requires files { length files.now ≤ MAX_FILES }
    ensures value { result ≡ T.places_of names.now files.now }
    ensures within { result ≤ length names.now * 2 ^ 70 }
{
    let Some((first, rest)) = names.split_first() else {
        return 0;
    };
    pages_named(files, first) + places_of(rest, files)
}
