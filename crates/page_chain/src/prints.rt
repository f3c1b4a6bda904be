//! Which files are printed, in which order.

ghost use Rattle.std.specs.Prelude.{◌≡◌, ◌<◌, ◌≤◌, nat_lt, filter, length, vec_capacity};
ghost use Rattle.page_chain.specs.Changes.{is_to_come, numbers_of};
ghost use Rattle.page_chain.specs.Held.{names_in, run_at};

use crate::place::Place;
use crate::run::{Run, find};
use lpd_values::FileName;

/// The numbers of the listed files that have a page, in the order of the list and with its repeats.
pub fn list_prints(prints: &mut Vec<usize>, files: &[Run], names: &[FileName])
    requires { length names.now ≤ vec_capacity prints.old }
    ensures listed { prints.new.items ≡ filter (λ i. nat_lt 0 (run_at files.now i).pages)
        (numbers_of (names_in files.now) names.now) }
    ensures capacity { vec_capacity prints.old ≤ vec_capacity prints.new }
{
    prints.clear();
    'names: for name in names {
        if let Some(file) = find(files, name) {
            if files[file].pages > 0 {
                prints.push(file).unwrap();
            }
        }
    }
}

/// Whether a place of the same page is still to be handed out, where the files of `prints` are
/// still to be printed and the first of them has handed out `turned` pages already.
pub fn is_to_come(prints: &[usize], turned: usize, place: Place) -> bool
    ensures { result ≡ is_to_come prints.now turned place }
{
    let Some((&file, later)) = prints.split_first() else {
        return false;
    };
    file == place.file && turned <= place.number || later.contains(&place.file)
}
