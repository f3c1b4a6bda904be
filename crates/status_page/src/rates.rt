//! Jobs and octets a minute over the last hour, as bars.

ghost use Rattle.std.specs.Prelude.{◌≡◌};
ghost use Rattle.status_page.specs.Said.{rate_between, total_at};

use crate::figures::{Grouped, Size};
use crate::plot::{HEIGHT, across, close_plot, down, open_canvas, open_plot, path, tick};
use html_page::{Attribute, AttributeName, HtmlPage, Tag, class, id};
use server_counts::Look;
use status_scene::Scene;
use std::alloc::{AllocError, Global};

/// What is counted by the minute.
#[derive(Clone, Copy)]
pub(crate) enum Rate {
    /// Jobs that were printed.
    Jobs,
    /// Their octets.
    Octets,
}

impl Rate {
    fn title(self) -> &'static str {
        match self {
            Rate::Jobs => "Jobs printed a minute, the last hour",
            Rate::Octets => "Octets printed a minute, the last hour",
        }
    }

    /// How many there were until a look.
    fn total(self, look: &Look) -> u64
        ensures { result ≡ total_at self look.now }
    {
        match self {
            Rate::Jobs => look.done,
            Rate::Octets => look.octets,
        }
    }

    /// How many there were a minute from one look to the next.
    fn between(self, earlier: &Look, later: &Look) -> u64
        ensures { result ≡ rate_between self earlier.now later.now }
    {
        let seconds = later.second.saturating_sub(earlier.second).max(1);
        let n = self.total(later).saturating_sub(self.total(earlier));
        n.saturating_mul(60) / seconds
    }

    /// How many, in words.
    fn words(self, alloc: Global, n: u64) -> Result<String, AllocError> {
        match self {
            Rate::Jobs => format!(in alloc; "{}", Grouped(n)),
            Rate::Octets => format!(in alloc; "{}", Size(n)),
        }
    }

    /// The most that there were a minute between two looks.
    fn greatest(self, hour: &[Look]) -> u64 {
        let mut greatest = 0u64;
        for pair in hour.windows(2) {
            if let [earlier, later] = pair {
                greatest = greatest.max(self.between(earlier, later));
            }
        }
        greatest
    }
}

/// The bars, as the lines of a path.
fn bars(alloc: Global, rate: Rate, hour: &[Look], greatest: u64) -> Result<String, AllocError> {
    let mut lines = String::new(alloc);
    let end = hour.last().map_or(0, |look| look.second);
    for pair in hour.windows(2) {
        if let [earlier, later] = pair {
            let (from, to) = (across(earlier.second, end), across(later.second, end));
            let top = down(rate.between(earlier, later), greatest);
            write!(lines, "M{from} {HEIGHT}V{top}H{to}V{HEIGHT}Z")?;
        }
    }
    Ok(lines)
}

/// One plot.
fn draw(alloc: Global, page: &mut HtmlPage, rate: Rate, hour: &[Look]) {
    let greatest = rate.greatest(hour);
    open_plot(page, rate.title());
    tick(page, rate.words(alloc, greatest));
    tick(page, rate.words(alloc, greatest / 2));
    tick(page, rate.words(alloc, 0));
    open_canvas(page, rate.title());
    let lines = page.text(bars(alloc, rate, hour, greatest));
    path(page, "rate", lines.as_str());
    close_plot(page);
}

/// Jobs and octets a minute over the last hour, once there are two looks.
pub(crate) fn rates(alloc: Global, page: &mut HtmlPage, scene: &Scene<'_>) {
    if scene.hour.len() < 2 {
        return;
    }
    let label = Attribute::new(AttributeName::AriaLabelledBy, "rates");
    page.open(Tag::Section, &[class("card"), label]);
    page.element(Tag::Heading2, &[id("rates")], "Printed");
    page.open(Tag::Division, &[class("pair")]);
    page.open(Tag::Division, &[]);
    draw(alloc, page, Rate::Jobs, scene.hour);
    page.close();
    page.open(Tag::Division, &[]);
    draw(alloc, page, Rate::Octets, scene.hour);
    page.close();
    page.close();
    page.close();
    page.end_line();
}
