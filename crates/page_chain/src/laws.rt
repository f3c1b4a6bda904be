//! What holds of all chains.

ghost use Rattle.page_chain.specs.Laws.{AreCounted, EachHasPlace, OthersStay, ReturnsOfThese, ShowsNames, StaysOrReturns};

/// The pages of all files keep their places or go back to the pool: none is lost, none comes twice,
/// and each page of a file that is printed has a place.
pub fn places_or_returns()
    ensures stays_or_returns { StaysOrReturns }
    ensures each_has_place { EachHasPlace }
    ensures of_these { ReturnsOfThese }
{}

/// The pages of a chain are among those that the nodes count.
pub fn pages_are_counted()
    ensures { AreCounted }
{}

/// A call on one chain leaves every other as it was.
pub fn others_stay()
    ensures { OthersStay }
{}

/// The names of a chain's files are its own, whatever nodes hold their pages.
pub fn shows_names()
    ensures { ShowsNames }
{}
