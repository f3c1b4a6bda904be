//! What is said of the whole server.

ghost use Rattle.std.specs.Prelude.{◌≡◌, ◌++◌, OnOk, string_bytes};
ghost use Rattle.status_lines.specs.Status.{placed};
ghost use Rattle.status_metrics.specs.Metrics.{account_text, edge_text, jobs_text, kept_text, needs_text, octets_text, one_if, pages_text, refusal_text, spool_text};

use crate::family::{push_counter, push_family, push_gauge, push_worded};
use crate::kind::SampleKind;
use spool_snapshot::Pages;
use status_lines::{KeptJobs, Outside};
use status_scene::{Scene, has_full_pool, silent_sessions};
use std::alloc::{AllocError, Global};

/// 1 where it is so, else 0.
fn one_if(so: bool) -> u64
    ensures { result ≡ one_if so }
{
    u64::from(so)
}

/// The name of the metric of pages.
const PAGES: &str = "hurgwaye_pages";

/// The name of the metric of kept jobs.
const KEPT: &str = "hurgwaye_kept_jobs";

/// The name of the metric of refusals.
pub(crate) const REFUSED: &str = "hurgwaye_refused_total";

/// Puts where the pages are at the end: each page of the pool is counted at one place.
#[tactic(auto, unfolding(crate::specs::Metrics::pages_text))]
pub(crate) fn push_pages(text: &mut String, pages: Pages) -> Result<(), AllocError>
    ensures { OnOk result (string_bytes text.new ≡ string_bytes text.old ++ pages_text pages) }
{
    push_family(
        text,
        PAGES,
        "Pages of the pool, by where they are.",
        SampleKind::Gauge,
    )?;
    push_worded(text, PAGES, "place", "free", pages.free as u64)?;
    push_worded(text, PAGES, "place", "chained", pages.chained as u64)?;
    push_worded(text, PAGES, "place", "lent", pages.lent as u64)?;
    push_worded(text, PAGES, "place", "out", pages.out as u64)
}

/// Puts how the spool stands at the end.
#[tactic(auto, unfolding(crate::specs::Metrics::spool_text))]
pub(crate) fn push_spool(text: &mut String, scene: &Scene<'_>) -> Result<(), AllocError>
    ensures { OnOk result (string_bytes text.new ≡ string_bytes text.old ++ spool_text scene.now) }
{
    let (config, spool, noted) = (scene.config, scene.spool, &scene.outside.noted);
    push_gauge(
        text,
        "hurgwaye_page_size_bytes",
        "Octets of a page.",
        u64::from(config.page_size()),
    )?;
    push_gauge(
        text,
        "hurgwaye_closed",
        "Whether the spool is closed.",
        one_if(spool.closed),
    )?;
    push_counter(
        text,
        "hurgwaye_jobs_accepted_total",
        "Jobs that were accepted.",
        spool.accepted,
    )?;
    push_gauge(
        text,
        "hurgwaye_jobs_limit",
        "Jobs that may be held at once.",
        u64::from(config.max_jobs()),
    )?;
    push_gauge(
        text,
        "hurgwaye_jobs_put_off",
        "Jobs whose sessions wait for a page.",
        noted.put_off.len() as u64,
    )?;
    Ok(())
}

/// Puts how the server's edge stands at the end.
#[tactic(auto, unfolding(crate::specs::Metrics::edge_text))]
pub(crate) fn push_edge(text: &mut String, outside: &Outside<'_>) -> Result<(), AllocError>
    ensures { OnOk result (string_bytes text.new ≡ string_bytes text.old ++ edge_text outside.now) }
{
    push_gauge(
        text,
        "hurgwaye_uptime_seconds",
        "Seconds since the server began.",
        outside.uptime,
    )?;
    push_gauge(
        text,
        "hurgwaye_stopping",
        "Whether the server was asked to stop.",
        one_if(outside.stops),
    )?;
    push_gauge(
        text,
        "hurgwaye_sessions",
        "Sessions that serve a connection.",
        outside.sessions.len() as u64,
    )?;
    push_gauge(
        text,
        "hurgwaye_lobby_connections",
        "Connections that wait for a session.",
        outside.lobby as u64,
    )?;
    Ok(())
}

/// Puts what became of jobs at the end.
#[tactic(auto, unfolding(crate::specs::Metrics::jobs_text))]
pub(crate) fn push_jobs(text: &mut String, scene: &Scene<'_>) -> Result<(), AllocError>
    ensures { OnOk result
        (string_bytes text.new ≡ string_bytes text.old ++ jobs_text scene.now.counts.now) }
{
    let counts = scene.counts;
    push_counter(
        text,
        "hurgwaye_jobs_received_total",
        "Jobs that came whole.",
        counts.received,
    )?;
    push_counter(
        text,
        "hurgwaye_jobs_done_total",
        "Jobs that were printed to their end.",
        counts.done,
    )?;
    push_counter(
        text,
        "hurgwaye_jobs_removed_total",
        "Jobs that were removed once they had come.",
        counts.removed,
    )?;
    push_counter(
        text,
        "hurgwaye_jobs_failed_total",
        "Jobs that a printer failed on.",
        counts.failed,
    )?;
    push_counter(
        text,
        "hurgwaye_jobs_aborted_total",
        "Jobs that were given up before they were whole.",
        counts.aborted,
    )?;
    Ok(())
}

/// Puts how many connections and octets there were at the end.
#[tactic(auto, unfolding(crate::specs::Metrics::octets_text))]
pub(crate) fn push_octets(text: &mut String, scene: &Scene<'_>) -> Result<(), AllocError>
    ensures { OnOk result
        (string_bytes text.new ≡ string_bytes text.old ++ octets_text scene.now.counts.now) }
{
    let counts = scene.counts;
    push_counter(
        text,
        "hurgwaye_connections_total",
        "Connections that were accepted.",
        counts.connections,
    )?;
    push_counter(
        text,
        "hurgwaye_received_bytes_total",
        "Octets of the jobs that came whole.",
        counts.octets_received,
    )?;
    push_counter(
        text,
        "hurgwaye_done_bytes_total",
        "Octets of the jobs that were printed to their end.",
        counts.octets_done,
    )?;
    Ok(())
}

/// Puts how full the account is at the end.
#[tactic(auto, unfolding(crate::specs::Metrics::account_text))]
pub(crate) fn push_account(text: &mut String, scene: &Scene<'_>) -> Result<(), AllocError>
    ensures { OnOk result
        (string_bytes text.new ≡ string_bytes text.old ++ account_text scene.now) }
{
    let rotations = scene.outside.segment.saturating_sub(1);
    push_gauge(
        text,
        "hurgwaye_account_reserved_entries",
        "Entries of the account that are reserved.",
        scene.spool.reserved,
    )?;
    push_gauge(
        text,
        "hurgwaye_account_limit_entries",
        "Entries that the account may have.",
        scene.config.account(),
    )?;
    push_counter(
        text,
        "hurgwaye_account_rotations_total",
        "How often the account was rotated.",
        rotations,
    )?;
    Ok(())
}

/// Puts what is in the folder that keeps the jobs, where there is one, at the end.
#[tactic(auto, unfolding(crate::specs::Metrics::kept_text))]
pub(crate) fn push_kept(text: &mut String, kept: Option<KeptJobs>) -> Result<(), AllocError>
    ensures { OnOk result (string_bytes text.new ≡ string_bytes text.old ++ kept_text kept) }
{
    let Some(kept) = kept else {
        return Ok(());
    };
    push_family(
        text,
        KEPT,
        "Jobs in the folder that keeps them, by what they wait for.",
        SampleKind::Gauge,
    )?;
    push_worded(text, KEPT, "state", "waiting", kept.waiting)?;
    push_worded(text, KEPT, "state", "failed", kept.failed)
}

/// Puts how often there was the refusal of a number at the end, where there was any.
#[tactic(auto, unfolding(crate::specs::Metrics::refusal_text))]
fn push_refusal(
    alloc: Global,
    text: &mut String,
    number: usize,
    count: u64,
) -> Result<(), AllocError>
    ensures { OnOk result
        (string_bytes text.new ≡ string_bytes text.old ++ refusal_text number count) }
{
    if count == 0 {
        return Ok(());
    }
    let word = format!(in alloc; "{number}")?;
    push_worded(text, REFUSED, "number", word.as_str(), count)
}

/// Puts how often there was which refusal at the end.
pub(crate) fn push_refusals(
    alloc: Global,
    text: &mut String,
    refused: &[u64],
) -> Result<(), AllocError>
    ensures { OnOk result
        (string_bytes text.new ≡ string_bytes text.old ++ placed refusal_text 0 refused.now) }
{
    for (i, count) in refused.iter().enumerate() {
        push_refusal(alloc, text, i, *count)?;
    }
    Ok(())
}

/// Puts at the end what is full, and who is silent.
#[tactic(auto, unfolding(crate::specs::Metrics::needs_text))]
pub(crate) fn push_needs(text: &mut String, scene: &Scene<'_>) -> Result<(), AllocError>
    ensures { OnOk result (string_bytes text.new ≡ string_bytes text.old ++ needs_text scene.now) }
{
    let is_full = one_if(has_full_pool(scene.spool, &scene.outside.noted));
    let silent = silent_sessions(scene.outside.sessions);
    push_gauge(
        text,
        "hurgwaye_pool_full",
        "Whether no page is free, or a job waits for one.",
        is_full,
    )?;
    push_gauge(
        text,
        "hurgwaye_sessions_silent",
        "Sessions of whose peer no octet came for a minute.",
        silent,
    )?;
    Ok(())
}
