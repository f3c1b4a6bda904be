//! The banker's table: in which order all held jobs can finish.

ghost use Rattle.std.specs.Prelude.{◌≡◌};
ghost use Rattle.status_page.specs.Said.{turn_numbers};

use crate::figures::{Grouped, Share};
use crate::rows::{MOST_ROWS, close_table, column, number_cell, open_rows, open_table, row_head};
use html_page::{Attribute, AttributeName, HtmlPage, Tag, class, id};
use standings::{FinishingTurn, pages_of};
use status_scene::Scene;
use std::alloc::Global;

/// A part of a bar from the left.
fn mark(alloc: Global, page: &mut HtmlPage, kind: &str, part: u64, whole: u64) {
    let width = page.text(format!(in alloc; "width:{}%", Share { part, whole }));
    let style = Attribute::new(AttributeName::Style, width.as_str());
    page.element(Tag::Mark, &[class(kind), style], "");
}

/// What a job may still need, of what is free in its turn.
fn bar(alloc: Global, page: &mut HtmlPage, turn: &FinishingTurn, pages: u64) {
    let hidden = Attribute::new(AttributeName::AriaHidden, "true");
    page.open(Tag::Cell, &[class("wide")]);
    page.open(Tag::Division, &[class("till"), hidden]);
    mark(alloc, page, "then", turn.free, pages);
    mark(alloc, page, "need", turn.needs, pages);
    page.close();
    page.close();
}

/// The numbers of a turn: the job's claim, what it holds and may need, and what is free then.
fn turn_numbers(turn: &FinishingTurn) -> [u64; 4]
    ensures { result ≡ turn_numbers turn.now }
{
    [turn.claim(), turn.holds, turn.needs, turn.free]
}

/// The row of a turn by its place, from 0.
fn row(alloc: Global, page: &mut HtmlPage, at: usize, turn: &FinishingTurn, pages: u64) {
    let job = page.text(format!(in alloc; "{}", turn.job));
    page.open(Tag::Row, &[]);
    number_cell(alloc, page, (at as u64).saturating_add(1));
    row_head(page, job.as_str());
    for number in turn_numbers(turn) {
        number_cell(alloc, page, number);
    }
    bar(alloc, page, turn, pages);
    page.close();
    page.end_line();
}

/// The heads of the table.
fn heads(page: &mut HtmlPage) {
    column(page, "n", "turn");
    column(page, "n", "job");
    column(page, "n", "claim");
    column(page, "n", "holds");
    column(page, "n", "may need");
    column(page, "n", "free then");
    column(page, "wide", "of the pool");
}

/// The turns.
fn table(alloc: Global, page: &mut HtmlPage, turns: &[FinishingTurn], pages: u64) {
    open_table(page, "turns", "the banker’s table");
    heads(page);
    open_rows(page);
    for (at, turn) in turns.iter().take(MOST_ROWS).enumerate() {
        row(alloc, page, at, turn, pages);
    }
    close_table(alloc, page, turns.len(), "7");
}

/// What the table says.
fn words(alloc: Global, page: &mut HtmlPage, scene: &Scene<'_>) {
    let free = Grouped(u64::from(pages_of(scene.spool.claims.free())));
    let pages = Grouped(u64::from(scene.config.pages()));
    let now = page.text(format!(in alloc; " Free now: {free} of {pages} pages."));
    page.open(Tag::Paragraph, &[]);
    page.words(
        "A page is lent only while such an order remains (Habermann, 1969): each job in its turn may still need no more than is free then, finishes, and gives back what it holds. Amber is what the job may still need, of the green that is free in its turn.",
    );
    page.words(now.as_str());
    page.close();
}

/// The banker's table, folded away.
pub(crate) fn banker(alloc: Global, page: &mut HtmlPage, scene: &Scene<'_>) {
    page.open(Tag::Section, &[class("card"), id("banker")]);
    page.open(Tag::Details, &[]);
    page.open(Tag::Summary, &[]);
    page.words("The banker’s table ");
    page.element(Tag::Small, &[], "in which order every job can finish");
    page.close();
    words(alloc, page, scene);
    let noted = &scene.outside.noted;
    if let Some(turns) = noted.turns {
        table(alloc, page, turns, u64::from(scene.config.pages()));
    } else {
        let alert = Attribute::new(AttributeName::Role, "alert");
        let text = "No order was found in which every job can finish: this must not be.";
        page.element(Tag::Paragraph, &[class("chip bad"), alert], text);
    }
    page.close();
    page.close();
    page.end_line();
}
