//! Numbers in large digits.

use crate::figures::{Grouped, Share};
use html_page::{HtmlPage, Tag, class};
use standings::{JobStage, jobs_at};
use status_scene::Scene;
use std::alloc::Global;

/// A value, with what it is of and a remark.
fn tile(page: &mut HtmlPage, term: &str, value: &str, remark: &str) {
    page.open(Tag::Division, &[]);
    page.element(Tag::Term, &[], term);
    page.open(Tag::Value, &[]);
    page.words(value);
    page.element(Tag::Small, &[], remark);
    page.close();
    page.close();
}

/// A number, with what it counts.
fn count(alloc: Global, page: &mut HtmlPage, term: &str, n: u64) {
    let text = page.text(format!(in alloc; "{}", Grouped(n)));
    tile(page, term, text.as_str(), "");
}

/// How many jobs are held, and how far they are.
fn jobs(alloc: Global, page: &mut HtmlPage, scene: &Scene<'_>) {
    let held = scene.spool.jobs.as_slice();
    let number = page.text(format!(in alloc; "{}", Grouped(held.len() as u64)));
    let most = page.text(format!(in alloc; " of {}", Grouped(u64::from(scene.config.max_jobs()))));
    tile(page, "jobs held", number.as_str(), most.as_str());
    let (arriving, waiting) = (
        jobs_at(held, JobStage::Arriving),
        jobs_at(held, JobStage::Waiting),
    );
    count(alloc, page, "arriving", arriving);
    count(alloc, page, "waiting for a printer", waiting);
    count(
        alloc,
        page,
        "being printed",
        jobs_at(held, JobStage::Printing),
    );
}

/// What was done since the server began.
fn totals(alloc: Global, page: &mut HtmlPage, scene: &Scene<'_>) {
    let counts = scene.counts;
    count(alloc, page, "received so far", counts.received);
    count(alloc, page, "printed so far", counts.done);
    let refused = counts.refused.iter();
    let refused = refused.fold(0u64, |sum, n| sum.saturating_add(*n));
    count(alloc, page, "refused so far", refused);
}

/// How full the account is, who is connected, and what is kept in the folder.
fn edge(alloc: Global, page: &mut HtmlPage, scene: &Scene<'_>) {
    let (part, whole) = (scene.spool.reserved, scene.config.account());
    let share = page.text(format!(in alloc; "{}", Share { part, whole }));
    tile(page, "of the account", share.as_str(), "%");
    let sessions = page.text(format!(in alloc; "{}", Grouped(scene.outside.sessions.len() as u64)));
    let lobby = page.text(format!(in alloc; " + {} waiting", Grouped(scene.outside.lobby as u64)));
    tile(page, "sessions", sessions.as_str(), lobby.as_str());
    let Some(kept) = scene.outside.kept else {
        return;
    };
    let waiting = page.text(format!(in alloc; "{}", Grouped(kept.waiting)));
    let failed = page.text(format!(in alloc; " + {} failed", Grouped(kept.failed)));
    tile(page, "kept, not fed yet", waiting.as_str(), failed.as_str());
}

/// Numbers in large digits.
pub(crate) fn tiles(alloc: Global, page: &mut HtmlPage, scene: &Scene<'_>) {
    page.open(Tag::Terms, &[class("tiles")]);
    jobs(alloc, page, scene);
    totals(alloc, page, scene);
    edge(alloc, page, scene);
    page.close();
    page.end_line();
}
