//! What a metric's samples do.

ghost use Rattle.std.specs.Prelude.{◌≡◌};
ghost use Rattle.status_metrics.specs.Lines.{kind_word};

/// What a metric's samples do.
#[derive(Clone, Copy, Debug, PartialEq, Eq)]
pub(crate) enum SampleKind {
    /// They only grow while the server runs.
    Counter,
    /// They go up and down.
    Gauge,
    /// They count times by their lengths.
    Histogram,
}

impl SampleKind {
    pub(crate) fn word(self) -> &'static str
        ensures { result.now ≡ kind_word self }
    {
        match self {
            SampleKind::Counter => "counter",
            SampleKind::Gauge => "gauge",
            SampleKind::Histogram => "histogram",
        }
    }
}
