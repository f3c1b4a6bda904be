//! The whole text.

ghost use Rattle.std.specs.Prelude.{◌≡◌, ◌++◌, IfOk, OnOk, string_bytes};
ghost use Rattle.status_metrics.specs.Metrics.{all_printers_text, all_queues_text, each_text, metrics_text, server_text, times_text};

use crate::family::push_family;
use crate::histogram::push_histogram;
use crate::kind::SampleKind;
use crate::queues::{OfPrinter, OfQueue, push_printers, push_queues};
use crate::server::{
    REFUSED, push_account, push_edge, push_jobs, push_kept, push_needs, push_octets, push_pages,
    push_refusals, push_spool,
};
use status_scene::Scene;
use std::alloc::{AllocError, Global};

/// Puts what is said of the whole server at the end.
#[tactic(auto, unfolding(crate::specs::Metrics::server_text))]
fn push_server(text: &mut String, scene: &Scene<'_>) -> Result<(), AllocError>
    ensures { OnOk result
        (string_bytes text.new ≡ string_bytes text.old ++ server_text scene.now) }
{
    push_pages(text, scene.spool.pages)?;
    push_spool(text, scene)?;
    push_edge(text, scene.outside)?;
    push_jobs(text, scene)?;
    push_octets(text, scene)?;
    push_account(text, scene)?;
    push_kept(text, scene.outside.kept)?;
    Ok(())
}

/// Puts what was refused, and how long jobs took, at the end.
#[tactic(auto, unfolding(crate::specs::Metrics::times_text))]
fn push_times(alloc: Global, text: &mut String, scene: &Scene<'_>) -> Result<(), AllocError>
    ensures { OnOk result
        (string_bytes text.new ≡ string_bytes text.old ++ times_text scene.now.counts.now) }
{
    push_family(
        text,
        REFUSED,
        "What was refused, by the number of the refusal.",
        SampleKind::Counter,
    )?;
    push_refusals(alloc, text, scene.counts.refused.as_slice())?;
    push_histogram(
        text,
        "hurgwaye_job_arriving_seconds",
        "Seconds from a job's acceptance until it was whole.",
        &scene.counts.arriving,
    )?;
    push_histogram(
        text,
        "hurgwaye_job_printing_seconds",
        "Seconds from when a job was whole until it was printed.",
        &scene.counts.printing,
    )?;
    Ok(())
}

/// Puts what is said of each queue at the end.
#[tactic(auto, unfolding(crate::specs::Metrics::all_queues_text))]
fn push_all_queues(alloc: Global, text: &mut String, scene: &Scene<'_>) -> Result<(), AllocError>
    ensures { OnOk result
        (string_bytes text.new ≡ string_bytes text.old ++ all_queues_text scene.now) }
{
    push_queues(alloc, text, scene, OfQueue::Jobs)?;
    push_queues(alloc, text, scene, OfQueue::Limit)?;
    push_queues(alloc, text, scene, OfQueue::Held)?;
    push_queues(alloc, text, scene, OfQueue::Refusing)?;
    push_queues(alloc, text, scene, OfQueue::Parked)?;
    Ok(())
}

/// Puts what is said of each printer at the end.
#[tactic(auto, unfolding(crate::specs::Metrics::all_printers_text))]
fn push_all_printers(alloc: Global, text: &mut String, scene: &Scene<'_>) -> Result<(), AllocError>
    ensures { OnOk result
        (string_bytes text.new ≡ string_bytes text.old ++ all_printers_text scene.now) }
{
    push_printers(alloc, text, scene, OfPrinter::Stopped)?;
    push_printers(alloc, text, scene, OfPrinter::Busy)?;
    push_printers(alloc, text, scene, OfPrinter::Unreached)?;
    push_printers(alloc, text, scene, OfPrinter::PutOff)?;
    Ok(())
}

/// Puts what is said of each queue and each printer at the end.
#[tactic(auto, unfolding(crate::specs::Metrics::each_text))]
fn push_each(alloc: Global, text: &mut String, scene: &Scene<'_>) -> Result<(), AllocError>
    ensures { OnOk result
        (string_bytes text.new ≡ string_bytes text.old ++ each_text scene.now) }
{
    push_all_queues(alloc, text, scene)?;
    push_all_printers(alloc, text, scene)?;
    Ok(())
}

/// The text for Prometheus, in its text format 0.0.4.
///
/// AllocError where memory for it is refused.
#[tactic(auto, unfolding(crate::specs::Metrics::metrics_text))]
pub fn metrics(alloc: Global, scene: &Scene<'_>) -> Result<String, AllocError>
    ensures { IfOk result (λ text. string_bytes text ≡ metrics_text scene.now) }
{
    let mut text = String::new(alloc);
    push_server(&mut text, scene)?;
    push_times(alloc, &mut text, scene)?;
    push_each(alloc, &mut text, scene)?;
    push_needs(&mut text, scene)?;
    Ok(text)
}
