//! Values that are kept no more, of which proofs alone know.
#![tactic(auto)]

ghost use Rattle.std.specs.Prelude.{◌≡◌, List, [], ◌∷◌, ◌++◌};
ghost use Rattle.std.specs.Borrow.{ftrue};

use std::marker::{Model, PhantomData};

/// Values that were there, in order. It takes no memory, and its calls do nothing at run time.
#[derive(Drop)]
pub struct Past<A> {
    of: PhantomData<A>,
    pub ghost items: { List A },
}

impl<A> Model for Past<A> {
    ghost also_owns = { λ _. ftrue };
}

// It owns nothing.
unsafe impl<A: Send> Send for Past<A> {}

impl<A> Past<A> {
    /// Nothing was there.
    pub fn new() -> Past<A>
        ensures { result.items ≡ [] }
    {
        Past { of: PhantomData }
    }

    /// The same and one value more.
    pub fn and(&self, value: &A) -> Past<A>
        ensures { result.items ≡ self.now.items ++ value.now ∷ [] }
    {
        Past { of: PhantomData }
    }
}
