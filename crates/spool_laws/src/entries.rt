//! How many entries a history may have.

ghost use Rattle.spool_laws.specs.Freeing.{HeldReserveIsEnough, WiderIsLegal};
ghost use Rattle.spool_laws.specs.Reserve.{ReserveIsEnough};

/// The entries of a history never pass the counted reserve of the base that it begins from, the reserves of the jobs
/// accepted in it, and one for the close, if that base counts an entry for each stopped printer.
pub fn reserve_is_enough<C>()
    ensures { ReserveIsEnough C }
{}

/// After a history the counted reserve may be less by all but what the held jobs have reserved and one for each stopped
/// printer: the entries that come later never pass what is counted then, and one. A job that is gone adds none.
pub fn held_reserve_is_enough<C>()
    ensures { HeldReserveIsEnough C }
{}

/// What is legal stays legal where the account may have more entries.
pub fn wider_is_legal<C>()
    ensures { WiderIsLegal C }
{}
