//! Where the pages were over the last hour, as areas.

use crate::figures::Grouped;
use html_page::{Attribute, AttributeName, HtmlPage, Tag, class};
use server_counts::Look;
use std::alloc::{AllocError, Global};

/// How many seconds a plot goes back.
const SECONDS: u64 = 3_600;

/// The height of a plot.
pub(crate) const HEIGHT: u64 = 1_000;

/// Which pages an area shows, with those that are drawn over it.
#[derive(Clone, Copy)]
enum Area {
    Chained,
    Lent,
    Out,
}

impl Area {
    fn kind(self) -> &'static str {
        match self {
            Area::Chained => "chained",
            Area::Lent => "lent",
            Area::Out => "out",
        }
    }

    /// How many pages there are up to the upper edge of the area.
    fn upper(self, look: &Look) -> u64 {
        let out = look.out as u64;
        let lent = out.saturating_add(look.lent as u64);
        match self {
            Area::Chained => lent.saturating_add(look.chained as u64),
            Area::Lent => lent,
            Area::Out => out,
        }
    }
}

/// How far to the right a second stands, where this is the last.
pub(crate) fn across(second: u64, last: u64) -> u64 {
    SECONDS.saturating_sub(last.saturating_sub(second))
}

/// How far down a number stands, where this is the greatest.
pub(crate) fn down(n: u64, greatest: u64) -> u64 {
    HEIGHT.saturating_sub(n.saturating_mul(HEIGHT) / greatest.max(1))
}

/// The corners of an area.
fn corners(alloc: Global, area: Area, hour: &[Look], total: u64) -> Result<String, AllocError> {
    let mut points = String::new(alloc);
    let (Some(first), Some(last)) = (hour.first(), hour.last()) else {
        return Ok(points);
    };
    let end = last.second;
    write!(points, "{},{HEIGHT}", across(first.second, end))?;
    for look in hour {
        let (x, y) = (across(look.second, end), down(area.upper(look), total));
        write!(points, " {x},{y}")?;
    }
    write!(points, " {},{HEIGHT}", across(end, end))?;
    Ok(points)
}

/// Draws an area.
fn draw(alloc: Global, page: &mut HtmlPage, area: Area, hour: &[Look], total: u64) {
    let corners = page.text(corners(alloc, area, hour, total));
    let points = Attribute::new(AttributeName::Points, corners.as_str());
    page.element(Tag::Polygon, &[class(area.kind()), points], "");
}

/// A line or more of a drawing.
pub(crate) fn path(page: &mut HtmlPage, kind: &str, drawing: &str) {
    let drawing = Attribute::new(AttributeName::Drawing, drawing);
    page.element(Tag::Path, &[class(kind), drawing], "");
}

/// Opens a plot of this name, and its axis.
pub(crate) fn open_plot(page: &mut HtmlPage, name: &str) {
    let hidden = Attribute::new(AttributeName::AriaHidden, "true");
    page.element(Tag::Heading3, &[], name);
    page.open(Tag::Division, &[class("plot")]);
    page.open(Tag::Division, &[class("ys"), hidden]);
}

/// Words beside the axis, below those that are there.
pub(crate) fn tick(page: &mut HtmlPage, text: Result<String, AllocError>) {
    let text = page.text(text);
    page.element(Tag::Span, &[], text.as_str());
}

/// Closes the axis, and opens the canvas of a plot of this name.
pub(crate) fn open_canvas(page: &mut HtmlPage, name: &str) {
    page.close();
    let attributes = [
        Attribute::new(AttributeName::ViewBox, "0 0 3600 1000"),
        Attribute::new(AttributeName::PreserveAspectRatio, "none"),
        Attribute::new(AttributeName::Role, "img"),
        Attribute::new(AttributeName::AriaLabel, name),
    ];
    page.open(Tag::Svg, &attributes);
}

/// Closes the canvas and the plot, with its axes.
pub(crate) fn close_plot(page: &mut HtmlPage) {
    let hidden = Attribute::new(AttributeName::AriaHidden, "true");
    path(
        page,
        "grid",
        "M0 250H3600M0 500H3600M0 750H3600M900 0V1000M1800 0V1000M2700 0V1000",
    );
    path(page, "axis", "M0 0V1000H3600");
    page.close();
    page.open(Tag::Division, &[class("xs"), hidden]);
    page.element(Tag::Span, &[], "−60 min");
    page.element(Tag::Span, &[], "−45");
    page.element(Tag::Span, &[], "−30");
    page.element(Tag::Span, &[], "−15");
    page.element(Tag::Span, &[], "now");
    page.close();
    page.close();
}

/// The name of the plot.
const NAME: &str = "Pages in use, the last hour";

/// Where the pages were over the last hour, once there are two looks.
pub(crate) fn plot(alloc: Global, page: &mut HtmlPage, hour: &[Look], total: u64) {
    if hour.len() < 2 {
        return;
    }
    open_plot(page, NAME);
    for quarter in 0..5u64 {
        let n = (4 - quarter).saturating_mul(total) / 4;
        tick(page, format!(in alloc; "{}", Grouped(n)));
    }
    open_canvas(page, NAME);
    draw(alloc, page, Area::Chained, hour, total);
    draw(alloc, page, Area::Lent, hour, total);
    draw(alloc, page, Area::Out, hour, total);
    close_plot(page);
}
