//! Numbers for people.

ghost use Rattle.std.specs.Prelude.{Some};
ghost use Rattle.status_page.specs.Figures.{grouped_words, share_words, size_words, span_words, unit_words};

use std::fmt;

/// A number with its thousands apart.
#[derive(Clone, Copy)]
pub(crate) struct Grouped(pub(crate) u64);

impl fmt::Display for Grouped {
    ghost output = { λ number. Some (grouped_words number.0) };

    fn fmt<W: fmt::Write>(&self, f: &mut fmt::Formatter<W>) -> fmt::Result {
        let n = self.0;
        let (millions, thousands, ones) = (n / 1_000_000, n / 1_000 % 1_000, n % 1_000);
        if n < 1_000 {
            write!(f, "{ones}")
        } else if n < 1_000_000 {
            write!(f, "{thousands},{ones:03}")
        } else {
            write!(f, "{millions},{thousands:03},{ones:03}")
        }
    }
}

/// So many parts of 1,024 of a unit, with one place behind the point.
#[derive(Clone, Copy)]
struct InUnit {
    parts: u64,
    unit: &'static str,
}

impl fmt::Display for InUnit {
    ghost output = { λ size. Some (unit_words size.parts size.unit.now) };

    fn fmt<W: fmt::Write>(&self, f: &mut fmt::Formatter<W>) -> fmt::Result {
        let tenths = self.parts.saturating_mul(10) / 1_024;
        write!(f, "{}.{} {}", tenths / 10, tenths % 10, self.unit)
    }
}

/// So many octets, in the unit that fits.
#[derive(Clone, Copy)]
pub(crate) struct Size(pub(crate) u64);

impl fmt::Display for Size {
    ghost output = { λ size. Some (size_words size.0) };

    fn fmt<W: fmt::Write>(&self, f: &mut fmt::Formatter<W>) -> fmt::Result {
        let n = self.0;
        let (parts, unit) = if n < 1_024 {
            return write!(f, "{n} B");
        } else if n < 1_048_576 {
            (n, "KiB")
        } else if n < 1_073_741_824 {
            (n / 1_024, "MiB")
        } else {
            (n / 1_048_576, "GiB")
        };
        write!(f, "{}", InUnit { parts, unit })
    }
}

/// A part of a whole in per cent, with one place behind the point. A whole of nothing is taken for one.
#[derive(Clone, Copy)]
pub(crate) struct Share {
    pub(crate) part: u64,
    pub(crate) whole: u64,
}

impl fmt::Display for Share {
    ghost output = { λ share. Some (share_words share.part share.whole) };

    fn fmt<W: fmt::Write>(&self, f: &mut fmt::Formatter<W>) -> fmt::Result {
        let thousandths = self.part.saturating_mul(1_000) / self.whole.max(1);
        write!(f, "{}.{}", thousandths / 10, thousandths % 10)
    }
}

/// So many seconds, in the two greatest units that fit.
#[derive(Clone, Copy)]
pub(crate) struct Span(pub(crate) u64);

impl fmt::Display for Span {
    ghost output = { λ span. Some (span_words span.0) };

    fn fmt<W: fmt::Write>(&self, f: &mut fmt::Formatter<W>) -> fmt::Result {
        let seconds = self.0;
        if seconds < 60 {
            write!(f, "{seconds} s")
        } else if seconds < 3_600 {
            write!(f, "{} min", seconds / 60)
        } else if seconds < 86_400 {
            write!(f, "{} h {} min", seconds / 3_600, seconds / 60 % 60)
        } else {
            write!(f, "{} d {} h", seconds / 86_400, seconds / 3_600 % 24)
        }
    }
}
