//! The page's beginning and its end.

ghost use Rattle.std.specs.Prelude.{◌≡◌};
ghost use Rattle.status_lines.specs.Status.{spool_state};
ghost use Rattle.status_page.specs.Said.{spool_word};

use crate::figures::{Grouped, Span};
use crate::said::spool_word;
use crate::style::STYLE;
use config_values::Config;
use html_page::{Attribute, AttributeName, HtmlPage, Tag, class};
use status_lines::{queue_name, spool_state};
use status_scene::{Concern, ConcernWords, Scene, concerns};
use std::alloc::Global;

/// What is said of the page itself: it is shown anew every ten seconds.
fn head(page: &mut HtmlPage) {
    page.open(Tag::Html, &[Attribute::new(AttributeName::Lang, "en")]);
    page.open(Tag::Head, &[]);
    page.meta(&[Attribute::new(AttributeName::Charset, "utf-8")]);
    page.meta(&[
        Attribute::new(AttributeName::Name, "viewport"),
        Attribute::new(
            AttributeName::Content,
            "width=device-width, initial-scale=1",
        ),
    ]);
    page.meta(&[
        Attribute::new(AttributeName::HttpEquiv, "refresh"),
        Attribute::new(AttributeName::Content, "10"),
    ]);
    page.element(Tag::Title, &[], "Hurgwaye");
    page.style(STYLE);
    page.close();
}

/// A word on the whole server, in colour.
fn chip(page: &mut HtmlPage, kind: &str, text: &str) {
    let attributes = [class(kind), Attribute::new(AttributeName::Role, "status")];
    page.element(Tag::Paragraph, &attributes, text);
}

/// The class of what needs somebody.
fn concern_kind(concern: Concern) -> &'static str {
    match concern {
        Concern::Failed { .. } | Concern::Held { .. } => "chip wait",
        Concern::TableFull { .. }
        | Concern::AccountFull { .. }
        | Concern::PoolFull { .. }
        | Concern::Unreached { .. }
        | Concern::Stopped { .. } => "chip bad",
    }
}

/// The name of the queue that this is about; nothing where it is about none.
fn queue_of<'a>(config: &'a Config, concern: Concern) -> &'a str {
    match concern {
        Concern::PoolFull { queue, .. } => queue_name(config, queue),
        _ => "",
    }
}

/// How the spool stands, where it doesn't take jobs any more.
fn state_word(scene: &Scene<'_>) -> &'static str
    ensures { result.now
        ≡ spool_word (spool_state scene.now.spool.now.closed scene.now.outside.now.stops) }
{
    spool_word(spool_state(scene.spool.closed, scene.outside.stops))
}

/// What needs somebody, the worst first, or that every printer runs; and whether the spool takes no jobs any more.
fn chips(alloc: Global, page: &mut HtmlPage, scene: &Scene<'_>) {
    let mut is_quiet = true;
    for concern in concerns(scene) {
        if let Some(concern) = concern {
            is_quiet = false;
            let queue = queue_of(scene.config, concern);
            let text = page.text(format!(in alloc; "{}", ConcernWords { concern, queue }));
            chip(page, concern_kind(concern), text.as_str());
        }
    }
    if is_quiet {
        chip(page, "chip good", "every printer runs");
    }
    let word = state_word(scene);
    if !word.is_empty() {
        chip(page, "chip bad", word);
    }
}

/// How long the server runs, and how often its account was rotated.
fn uptime(alloc: Global, page: &mut HtmlPage, scene: &Scene<'_>) {
    let up = Span(scene.outside.uptime);
    let text = match scene.outside.segment.saturating_sub(1) {
        0 => page.text(format!(in alloc; "up {up}")),
        1 => page.text(format!(in alloc; "up {up}, account rotated once")),
        times => page.text(format!(in alloc; "up {up}, account rotated {} times", Grouped(times))),
    };
    page.element(Tag::Paragraph, &[class("meta")], text.as_str());
}

/// A link to a place.
fn link(page: &mut HtmlPage, href: &str, text: &str) {
    page.element(Tag::A, &[Attribute::new(AttributeName::Href, href)], text);
}

/// Links to the parts of the page.
fn navigation(page: &mut HtmlPage) {
    let label = Attribute::new(AttributeName::AriaLabel, "parts of this page");
    page.open(Tag::Navigation, &[label]);
    link(page, "#jobs", "jobs");
    link(page, "#queues", "queues");
    link(page, "#pool", "pool");
    link(page, "#sessions", "sessions");
    link(page, "#banker", "the banker’s table");
    page.close();
}

/// The page's beginning, up to what it is about.
pub(crate) fn begin(alloc: Global, page: &mut HtmlPage, scene: &Scene<'_>) {
    head(page);
    page.end_line();
    page.open(Tag::Body, &[]);
    page.open(Tag::Header, &[]);
    page.element(Tag::Heading1, &[], "Hurgwaye");
    page.element(Tag::Paragraph, &[class("what")], "print spool");
    chips(alloc, page, scene);
    uptime(alloc, page, scene);
    navigation(page);
    page.close();
    page.open(Tag::Main, &[]);
}

/// The page's end.
pub(crate) fn end(page: &mut HtmlPage) {
    page.close();
    page.open(Tag::Footer, &[]);
    page.words("loads anew every 10 seconds · ");
    link(page, "/metrics", "metrics");
    page.close();
}
