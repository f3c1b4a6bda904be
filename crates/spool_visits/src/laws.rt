//! How printers visit jobs.

ghost use Rattle.spool_visits.specs.Visits.{VisitedByOne, VisitsEachOnce};

/// Each job is visited once, by one printer: the pages of it that a printer is handed come one after another, with none of another
/// job in between, and no other printer is handed one.
pub fn visited_once<C>()
    ensures each { VisitsEachOnce C }
    ensures alone { VisitedByOne C }
{}
