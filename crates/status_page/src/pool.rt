//! The pool: where its pages are now, and where they were over the last hour.

use crate::figures::{Grouped, Share, Size};
use crate::plot::plot;
use crate::said::PagePlace;
use html_page::{Attribute, AttributeName, HtmlPage, Tag, class, id};
use spool_snapshot::Pages;
use status_scene::Scene;
use std::alloc::Global;

/// A part of the bar.
fn bar_part(alloc: Global, page: &mut HtmlPage, place: PagePlace, pages: Pages, whole: u64) {
    let part = place.count(pages) as u64;
    let width = page.text(format!(in alloc; "width:{}%", Share { part, whole }));
    let style = Attribute::new(AttributeName::Style, width.as_str());
    page.element(Tag::Mark, &[class(place.kind()), style], "");
}

/// Where the pages are, as a bar.
fn bar(alloc: Global, page: &mut HtmlPage, pages: Pages, total: u64) {
    let hidden = Attribute::new(AttributeName::AriaHidden, "true");
    page.open(Tag::Division, &[class("bar"), hidden]);
    for place in [PagePlace::Out, PagePlace::Lent, PagePlace::Chained] {
        bar_part(alloc, page, place, pages, total);
    }
    page.close();
}

/// How many pages are at one place.
fn legend_item(alloc: Global, page: &mut HtmlPage, place: PagePlace, pages: Pages) {
    let number = page.text(format!(in alloc; "{}", Grouped(place.count(pages) as u64)));
    page.open(Tag::Item, &[class(place.kind())]);
    page.element(Tag::Span, &[], place.words());
    page.element(Tag::B, &[], number.as_str());
    page.close();
}

/// Where the pages are, as a list.
fn legend(alloc: Global, page: &mut HtmlPage, pages: Pages) {
    page.open(Tag::List, &[class("legend")]);
    for place in [
        PagePlace::Out,
        PagePlace::Lent,
        PagePlace::Chained,
        PagePlace::Free,
    ] {
        legend_item(alloc, page, place, pages);
    }
    page.close();
}

/// The pool.
pub(crate) fn pool(alloc: Global, page: &mut HtmlPage, scene: &Scene<'_>) {
    let total = u64::from(scene.config.pages());
    let size = Size(u64::from(scene.config.page_size()));
    let remark = page.text(format!(in alloc; "{} pages of {size}", Grouped(total)));
    let label = Attribute::new(AttributeName::AriaLabelledBy, "pool");
    page.open(Tag::Section, &[class("card"), label]);
    page.open(Tag::Heading2, &[id("pool")]);
    page.words("Page pool ");
    page.element(Tag::Small, &[], remark.as_str());
    page.close();
    bar(alloc, page, scene.spool.pages, total);
    legend(alloc, page, scene.spool.pages);
    plot(alloc, page, scene.hour, total);
    page.close();
    page.end_line();
}
