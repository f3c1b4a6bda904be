//! What the words of the contracts determine.

ghost use Rattle.ordered_safety.specs.Carried.{IsOneNumberAfterPage};
ghost use Rattle.ordered_safety.specs.Compared.{IsOneNumber, IsOneNumberOfOrder};

/// How often a decision about a table, the check of an order, or a decision on a page after a kept
/// order compares needs is one number: the contracts leave no choice of it.
pub fn tests_are_determined()
    ensures decisions { IsOneNumber }
    ensures orders { IsOneNumberOfOrder }
    ensures pages { IsOneNumberAfterPage }
{}
