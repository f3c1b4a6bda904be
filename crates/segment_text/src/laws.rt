//! What holds of all these lines.

ghost use Rattle.segment_text.specs.Items.{LinesHaveNoFeed, SegmentsAreInTurn};
ghost use Rattle.segment_text.specs.Meant.{ConfigIsReadBack, LastIsReadBack, OriginIsReadBack, PrinterIsReadBack, StartIsReadBack};

/// What is written is read back as the same value, so two values never have one line.
pub fn lines_are_read_back()
    ensures origin { OriginIsReadBack }
    ensures config { ConfigIsReadBack }
    ensures printer { PrinterIsReadBack }
    ensures start { StartIsReadBack }
    ensures last { LastIsReadBack }
{}

/// No line of what can be told has a line feed in it: so a text of such lines, each with its LF, is cut into them at its line
/// feeds.
pub fn lines_have_no_feed()
    ensures { LinesHaveNoFeed }
{}

/// The lines of a segment that can be told may stand behind one another: so what a `SegmentWriter` writes of them a
/// `SegmentReader` reads.
pub fn segments_are_in_turn()
    ensures { SegmentsAreInTurn }
{}
