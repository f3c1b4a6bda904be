//! Slots for pages, one for each node.

ghost use Rattle.std.specs.Prelude.{◌≡◌, ◌<◌, Some, None, IsSome, IfOk, length, replicate, slice_set, slice_index_or};

use page_pool::FilledPage;
use std::alloc::{AllocError, Global};

/// So many slots with no page.
pub fn no_pages(alloc: Global, count: usize) -> Result<Vec<Option<FilledPage>>, AllocError>
    ensures { IfOk result (λ slots. slots.items ≡ replicate count None) }
{
    let mut slots = Vec::with_capacity(alloc, count)?;
    'slots: for _ in 0..count {
        slots.push_reserved(None);
    }
    Ok(slots)
}

/// Puts a page into a slot that has none.
pub fn fill(slots: &mut Vec<Option<FilledPage>>, slot: usize, page: FilledPage)
    requires here { slot < length slots.old.items }
    requires empty { slice_index_or slots.old.items slot None ≡ None }
    ensures { slots.new.items ≡ slice_set slots.old.items slot (Some page) }
{
    let place = &mut slots[slot];
    match place.replace(page) {
        Some(_) => unreachable!(),
        None => {}
    }
}

/// The page in a slot.
pub fn page_in(slots: &[Option<FilledPage>], slot: usize) -> &FilledPage
    requires { IsSome (slice_index_or slots.now slot None) }
    ensures { slice_index_or slots.now slot None ≡ Some result.now }
{
    slots[slot].as_ref().unwrap()
}

/// Takes the page out of a slot.
pub fn empty(slots: &mut Vec<Option<FilledPage>>, slot: usize) -> FilledPage
    requires { IsSome (slice_index_or slots.old.items slot None) }
    ensures page { slice_index_or slots.old.items slot None ≡ Some result }
    ensures slots { slots.new.items ≡ slice_set slots.old.items slot None }
{
    slots[slot].take().unwrap()
}

/// Spends pages.
pub fn surrender_all(mut slots: Vec<Option<FilledPage>>) {
    'slots: while let Some(slot) = slots.pop() {
        if let Some(page) = slot {
            page.unseal().surrender();
        }
    }
    slots.destroy_empty();
}
