//! Histories that say less of each page.

ghost use Rattle.spool_laws.specs.Outline.{OutlineIsLegal};

/// A legal history stays legal where each page in it is replaced by what a function says of the page, as its length
/// and its digest, if that gives as many octets as the page has.
pub fn outline_is_legal<A, B>()
    ensures { OutlineIsLegal A B }
{}
