//! The sessions, and for how long their peers are silent.

use crate::figures::Span;
use crate::rows::{MOST_ROWS, cell, close_table, column, open_rows, open_table};
use html_page::{Attribute, AttributeName, HtmlPage, Tag, class, id};
use status_lines::SeenSession;
use status_scene::{Scene, is_silent};
use std::alloc::Global;

/// The row of a session.
fn row(alloc: Global, page: &mut HtmlPage, session: &SeenSession) {
    let peer = page.text(format!(in alloc; "{}", session.peer));
    let silent = page.text(format!(in alloc; "{}", Span(session.silent)));
    let kind = if is_silent(session) { "st stay" } else { "st" };
    page.open(Tag::Row, &[]);
    cell(page, "", peer.as_str());
    page.open(Tag::Cell, &[class(kind)]);
    if is_silent(session) {
        page.element(Tag::B, &[], "silent ");
    }
    page.words(silent.as_str());
    page.close();
    page.close();
    page.end_line();
}

/// The sessions that serve a connection.
pub(crate) fn sessions(alloc: Global, page: &mut HtmlPage, scene: &Scene<'_>) {
    let sessions = scene.outside.sessions;
    let label = Attribute::new(AttributeName::AriaLabelledBy, "sessions");
    page.open(Tag::Section, &[class("card"), label]);
    page.element(Tag::Heading2, &[id("sessions")], "Sessions");
    if sessions.is_empty() {
        page.element(Tag::Paragraph, &[class("none")], "No session is open.");
        page.close();
        return;
    }
    open_table(page, "peers", "sessions");
    column(page, "", "peer");
    column(page, "", "nothing came for");
    open_rows(page);
    for session in sessions.iter().take(MOST_ROWS) {
        row(alloc, page, session);
    }
    close_table(alloc, page, sessions.len(), "2");
    page.close();
    page.end_line();
}
