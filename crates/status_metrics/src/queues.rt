//! What is said of each queue and each printer.

ghost use Rattle.std.specs.Prelude.{◌≡◌, ◌<◌, ◌^◌, ◌++◌, OnOk, string_bytes};
ghost use Rattle.status_lines.specs.Status.{placed};
ghost use Rattle.status_metrics.specs.Metrics.{of_printer, of_queue, of_stage, printer_help, printer_name, printers_text, queue_help, queue_name, queues_text, stage_word};

use crate::family::{push_family, push_of_queue};
use crate::kind::SampleKind;
use config_values::Queue;
use spool_calls::Printer;
use standings::{JobStage, is_put_off_at, is_stopped_at, is_unreached_at, jobs_of_queue_at};
use status_scene::{Scene, is_refused_at};
use std::alloc::{AllocError, Global};

/// What is said of each queue.
#[derive(Clone, Copy, Debug, PartialEq, Eq)]
pub(crate) enum OfQueue {
    Jobs,
    Limit,
    Held,
    Refusing,
    Parked,
}

impl OfQueue {
    /// The name of the metric.
    fn name(self) -> &'static str
        ensures { result.now ≡ queue_name self }
    {
        match self {
            OfQueue::Jobs => "hurgwaye_jobs",
            OfQueue::Limit => "hurgwaye_queue_limit_pages",
            OfQueue::Held => "hurgwaye_queue_held",
            OfQueue::Refusing => "hurgwaye_queue_refusing",
            OfQueue::Parked => "hurgwaye_queue_parked_jobs",
        }
    }

    /// What it says.
    fn help(self) -> &'static str
        ensures { result.now ≡ queue_help self }
    {
        match self {
            OfQueue::Jobs => "Jobs that are held, by their queue and by how far they are.",
            OfQueue::Limit => "Pages that a job of the queue may hold.",
            OfQueue::Held => "Whether the queue is held.",
            OfQueue::Refusing =>
                "Whether a job of the queue is refused for want of room in the account or the table of jobs.",
            OfQueue::Parked => "Jobs of the queue that wait in the folder.",
        }
    }
}

/// What is said of each printer.
#[derive(Clone, Copy, Debug, PartialEq, Eq)]
pub(crate) enum OfPrinter {
    Stopped,
    Busy,
    Unreached,
    PutOff,
}

impl OfPrinter {
    /// The name of the metric.
    fn name(self) -> &'static str
        ensures { result.now ≡ printer_name self }
    {
        match self {
            OfPrinter::Stopped => "hurgwaye_printer_stopped",
            OfPrinter::Busy => "hurgwaye_printer_busy",
            OfPrinter::Unreached => "hurgwaye_printer_unreached",
            OfPrinter::PutOff => "hurgwaye_printer_put_off",
        }
    }

    /// What it says.
    fn help(self) -> &'static str
        ensures { result.now ≡ printer_help self }
    {
        match self {
            OfPrinter::Stopped => "Whether the printer is stopped.",
            OfPrinter::Busy => "Whether a page is at the printer.",
            OfPrinter::Unreached =>
                "Whether a page is at the printer of which nothing goes, or it has given its job back: it isn't reached, or takes nothing.",
            OfPrinter::PutOff =>
                "Whether the printer isn't reached and its jobs wait in the folder: it is tried again.",
        }
    }
}

/// How far jobs are, as a further label.
fn stage_word(stage: JobStage) -> &'static str
    ensures { result.now ≡ stage_word stage }
{
    match stage {
        JobStage::Arriving => ",phase=\"arriving\"",
        JobStage::Waiting => ",phase=\"waiting\"",
        JobStage::Printing => ",phase=\"printing\"",
        JobStage::Ended => ",phase=\"ended\"",
    }
}

/// Puts at the end how many jobs of the queue at a place are so far.
#[tactic(auto, unfolding(crate::specs::Metrics::of_stage))]
fn push_stage(
    alloc: Global,
    text: &mut String,
    scene: &Scene<'_>,
    at: usize,
    queue: &Queue,
    stage: JobStage,
) -> Result<(), AllocError>
    requires { at < 2 ^ 63 }
    ensures { OnOk result (string_bytes text.new ≡ string_bytes text.old
        ++ of_stage scene.now at queue.now stage) }
{
    let jobs = jobs_of_queue_at(scene.spool.jobs.as_slice(), at + 1, stage);
    push_of_queue(
        alloc,
        text,
        OfQueue::Jobs.name(),
        queue.name(),
        stage_word(stage),
        jobs,
    )
}

/// Puts what is said of the queue at a place at the end.
#[tactic(auto, unfolding(crate::specs::Metrics::of_queue))]
fn push_queue(
    alloc: Global,
    text: &mut String,
    scene: &Scene<'_>,
    what: OfQueue,
    at: usize,
    queue: &Queue,
) -> Result<(), AllocError>
    requires { at < 2 ^ 63 }
    ensures { OnOk result (string_bytes text.new ≡ string_bytes text.old
        ++ of_queue scene.now what at queue.now) }
{
    match what {
        OfQueue::Jobs => {
            push_stage(alloc, text, scene, at, queue, JobStage::Arriving)?;
            push_stage(alloc, text, scene, at, queue, JobStage::Waiting)?;
            push_stage(alloc, text, scene, at, queue, JobStage::Printing)?;
            push_stage(alloc, text, scene, at, queue, JobStage::Ended)
        }
        OfQueue::Limit => {
            let limit = u64::from(queue.limit());
            push_of_queue(alloc, text, what.name(), queue.name(), "", limit)
        }
        OfQueue::Held => {
            let noted = &scene.outside.noted;
            let held = noted.held.get(at).copied().unwrap_or(false);
            push_of_queue(alloc, text, what.name(), queue.name(), "", u64::from(held))
        }
        OfQueue::Refusing => {
            let refused = is_refused_at(scene.config, scene.spool, at);
            push_of_queue(
                alloc,
                text,
                what.name(),
                queue.name(),
                "",
                u64::from(refused),
            )
        }
        OfQueue::Parked => {
            let parked = scene.outside.parked.get(at).copied().unwrap_or(0);
            push_of_queue(alloc, text, what.name(), queue.name(), "", parked)
        }
    }
}

/// Puts what is said of each queue at the end.
#[tactic(auto, unfolding(crate::specs::Metrics::queues_text))]
pub(crate) fn push_queues(
    alloc: Global,
    text: &mut String,
    scene: &Scene<'_>,
    what: OfQueue,
) -> Result<(), AllocError>
    ensures { OnOk result
        (string_bytes text.new ≡ string_bytes text.old ++ queues_text scene.now what) }
{
    push_family(text, what.name(), what.help(), SampleKind::Gauge)?;
    for (i, queue) in scene.config.queues().iter().enumerate() {
        push_queue(alloc, text, scene, what, i, queue)?;
    }
    Ok(())
}

/// Puts what is said of the printer at a place at the end.
#[tactic(auto, unfolding(crate::specs::Metrics::of_printer))]
fn push_printer(
    alloc: Global,
    text: &mut String,
    scene: &Scene<'_>,
    what: OfPrinter,
    at: usize,
    printer: &Printer,
) -> Result<(), AllocError>
    requires { at < 2 ^ 63 }
    ensures { OnOk result (string_bytes text.new ≡ string_bytes text.old
        ++ of_printer scene.now what at printer.now) }
{
    let queue = scene.config.name_of(printer.queue);
    let further = format!(in alloc; ",printer=\"{}\"", at + 1)?;
    let noted = &scene.outside.noted;
    let value = match what {
        OfPrinter::Stopped => is_stopped_at(noted.printers, at, printer),
        OfPrinter::Busy => printer.out.is_some(),
        OfPrinter::Unreached => is_unreached_at(noted.printers, at, printer),
        OfPrinter::PutOff => is_put_off_at(noted.printers, at, printer),
    };
    push_of_queue(
        alloc,
        text,
        what.name(),
        queue,
        further.as_str(),
        u64::from(value),
    )
}

/// Puts what is said of each printer at the end.
#[tactic(auto, unfolding(crate::specs::Metrics::printers_text))]
pub(crate) fn push_printers(
    alloc: Global,
    text: &mut String,
    scene: &Scene<'_>,
    what: OfPrinter,
) -> Result<(), AllocError>
    ensures { OnOk result
        (string_bytes text.new ≡ string_bytes text.old ++ printers_text scene.now what) }
{
    push_family(text, what.name(), what.help(), SampleKind::Gauge)?;
    for (i, printer) in scene.spool.printers.iter().enumerate() {
        push_printer(alloc, text, scene, what, i, printer)?;
    }
    Ok(())
}
