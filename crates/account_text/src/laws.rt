//! What holds of all lines.

ghost use Rattle.account_text.specs.Meant.{AreApart, AreReadBack};

/// What is written for an event that an entry can tell of is read back as the same event, so two such events never have
/// one line.
pub fn lines_are_read_back()
    ensures back { AreReadBack }
    ensures apart { AreApart }
{}
