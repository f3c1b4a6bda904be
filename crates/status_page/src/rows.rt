//! The held jobs.

use crate::figures::Grouped;
use crate::said::{JobCell, JobColumn, SenderPart, job_kind, job_word};
use html_page::{Attribute, AttributeName, HtmlPage, Tag, class, id};
use spool_snapshot::SeenJob;
use standings::{JobNumber, JobNumbers, JobStage, JobStanding, job_standing, stage_of};
use status_scene::Scene;
use std::alloc::Global;

/// How many jobs are listed: the page stays short, however many are held.
pub(crate) const MOST_ROWS: usize = 200;

/// The head of a column.
pub(crate) fn column(page: &mut HtmlPage, kind: &str, text: &str) {
    let scope = Attribute::new(AttributeName::Scope, "col");
    page.element(Tag::HeaderCell, &[scope, class(kind)], text);
}

/// The head of a row.
pub(crate) fn row_head(page: &mut HtmlPage, text: &str) {
    let scope = Attribute::new(AttributeName::Scope, "row");
    page.element(Tag::HeaderCell, &[scope, class("n")], text);
}

/// A cell with these words.
pub(crate) fn cell(page: &mut HtmlPage, kind: &str, text: &str) {
    page.element(Tag::Cell, &[class(kind)], text);
}

/// A cell with a number.
pub(crate) fn number_cell(alloc: Global, page: &mut HtmlPage, n: u64) {
    let text = page.text(format!(in alloc; "{}", Grouped(n)));
    cell(page, "n", text.as_str());
}

/// Opens a table that can be scrolled, of this name, with the row of its heads.
pub(crate) fn open_table(page: &mut HtmlPage, kind: &str, name: &str) {
    let attributes = [
        class("scroll"),
        Attribute::new(AttributeName::TabIndex, "0"),
        Attribute::new(AttributeName::Role, "region"),
        Attribute::new(AttributeName::AriaLabel, name),
    ];
    page.open(Tag::Division, &attributes);
    page.open(Tag::Table, &[class(kind)]);
    page.open(Tag::TableHead, &[]);
    page.open(Tag::Row, &[]);
}

/// Closes the row of a table's heads, and opens its rows.
pub(crate) fn open_rows(page: &mut HtmlPage) {
    page.close();
    page.close();
    page.end_line();
    page.open(Tag::TableBody, &[]);
}

/// Closes a table, with a row that tells how many more there are than are listed, of this many columns.
pub(crate) fn close_table(alloc: Global, page: &mut HtmlPage, rows: usize, columns: &str) {
    if rows > MOST_ROWS {
        let text = page.text(format!(in alloc; "and {} more", Grouped((rows - MOST_ROWS) as u64)));
        let span = Attribute::new(AttributeName::ColSpan, columns);
        page.open(Tag::Row, &[]);
        page.element(Tag::Cell, &[class("more"), span], text.as_str());
        page.close();
    }
    page.close();
    page.close();
    page.close();
}

/// Who sent a job, as its control file says it.
fn sender(page: &mut HtmlPage, job: &SeenJob) {
    if job.user.as_slice().is_empty() {
        cell(page, "who soft", "not told yet");
        return;
    }
    page.open(Tag::Cell, &[class("who")]);
    for part in [SenderPart::User, SenderPart::Host] {
        page.open(part.tag(), &[]);
        page.open(Tag::Bdi, &[]);
        page.octets(part.octets(job));
        page.close();
        page.close();
    }
    page.close();
}

/// What a job does or waits for.
fn state(alloc: Global, page: &mut HtmlPage, stage: JobStage, standing: JobStanding) {
    let remark = page.text(format!(in alloc; "{standing}"));
    page.open(Tag::Cell, &[class(job_kind(standing))]);
    page.element(Tag::B, &[], job_word(stage, standing));
    page.element(Tag::Small, &[], remark.as_str());
    page.close();
}

/// What a job is called: with its number of acceptance beside it, where it is called by its file.
fn name(alloc: Global, page: &mut HtmlPage, told: JobCell<'_>) {
    let scope = Attribute::new(AttributeName::Scope, "row");
    let text = page.text(format!(in alloc; "{told}"));
    page.open(Tag::HeaderCell, &[scope]);
    page.words(text.as_str());
    if matches!(told.name.number, JobNumber::File(_)) {
        let number = page.text(format!(in alloc; "job {}", told.job.number));
        page.element(Tag::Small, &[], number.as_str());
    }
    page.close();
}

/// The row of the job at a place.
fn row(alloc: Global, page: &mut HtmlPage, scene: &Scene<'_>, at: usize, job: &SeenJob) {
    let noted = &scene.outside.noted;
    let numbers = noted.numbers.get(at).copied().unwrap_or(JobNumbers {
        file: None,
        client: None,
    });
    let told = JobCell {
        column: JobColumn::Name,
        job,
        name: numbers.name(job.number),
        age: scene.ages.get(at).copied().unwrap_or(None),
    };
    page.open(Tag::Row, &[]);
    name(alloc, page, told);
    sender(page, job);
    page.open(Tag::Cell, &[class("q")]);
    page.open(Tag::Bdi, &[]);
    page.octets(scene.config.name_of(job.queue));
    page.close();
    page.close();
    for (column, kind) in [
        (JobColumn::Pages, "n wide"),
        (JobColumn::Size, "n wide"),
        (JobColumn::HeldFor, "n"),
    ] {
        let text = page.text(format!(in alloc; "{}", JobCell { column, ..told }));
        cell(page, kind, text.as_str());
    }
    let standing = job_standing(scene.spool, noted, scene.config.page_size(), job);
    state(alloc, page, stage_of(job), standing);
    page.close();
    page.end_line();
}

/// The heads of the table.
fn heads(page: &mut HtmlPage) {
    column(page, "", "job");
    column(page, "", "from");
    column(page, "", "queue");
    column(page, "n wide", "pages");
    column(page, "n wide", "size");
    column(page, "n", "held for");
    column(page, "", "state");
}

/// The held jobs, in order of acceptance.
pub(crate) fn jobs(alloc: Global, page: &mut HtmlPage, scene: &Scene<'_>) {
    let held = scene.spool.jobs.as_slice();
    let label = Attribute::new(AttributeName::AriaLabelledBy, "jobs");
    page.open(Tag::Section, &[class("card"), label]);
    page.open(Tag::Heading2, &[id("jobs")]);
    page.words("Jobs ");
    page.element(Tag::Small, &[], "in order of acceptance");
    page.close();
    if held.is_empty() {
        page.element(Tag::Paragraph, &[class("none")], "No job is held.");
        page.close();
        return;
    }
    open_table(page, "jobs", "jobs");
    heads(page);
    open_rows(page);
    for (at, job) in held.iter().take(MOST_ROWS).enumerate() {
        row(alloc, page, scene, at, job);
    }
    close_table(alloc, page, held.len(), "7");
    page.close();
    page.end_line();
}
