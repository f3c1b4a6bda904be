//! The printers: first those that need somebody, and under the jobs the queues, each with its printers.

use crate::figures::Grouped;
use crate::said::{DoubtWords, ParkedCount, PrinterRemark, PrinterWord, printer_kind};
use config_values::Queue;
use html_page::{Attribute, AttributeName, HtmlPage, Tag, class, id};
use spool_calls::Printer;
use standings::{
    PrinterStanding, cause_of, is_held, printer_standing, stopped_printers, unreached_printers,
};
use status_scene::Scene;
use std::alloc::Global;

/// How the printer at a place stands.
fn standing_at(scene: &Scene<'_>, at: usize, printer: &Printer) -> PrinterStanding {
    let noted = &scene.outside.noted;
    let is_held = is_held(noted.held, printer.queue);
    printer_standing(printer, is_held, noted.printers.get(at))
}

/// The card of the printer at a place, from 0, with the name of its queue where that isn't empty.
fn printer_card(
    alloc: Global,
    page: &mut HtmlPage,
    scene: &Scene<'_>,
    placed: (usize, &Printer),
    queue: &[u8],
) {
    let (at, printer) = placed;
    let (standing, noted) = (standing_at(scene, at, printer), &scene.outside.noted);
    let cause = cause_of(standing, noted.printers.get(at));
    let number = (at as u64).saturating_add(1);
    let name = page.text(format!(in alloc; "printer {number}"));
    let word = page.text(format!(in alloc; "{}", PrinterWord(standing)));
    let remark = page.text(format!(in alloc; "{}", PrinterRemark { standing, cause }));
    page.open(Tag::Item, &[class(printer_kind(standing))]);
    page.element(Tag::B, &[], name.as_str());
    if !queue.is_empty() {
        page.open(Tag::Bdi, &[]);
        page.octets(queue);
        page.close();
    }
    page.element(Tag::Span, &[], word.as_str());
    page.element(Tag::Small, &[], remark.as_str());
    if let Some(job) = noted.printers.get(at).and_then(|notes| notes.doubt) {
        let said = page.text(format!(in alloc; "{}", DoubtWords(job)));
        page.element(Tag::Small, &[], said.as_str());
    }
    page.close();
}

/// Whether a printer that stands so needs somebody.
fn needs_somebody(standing: PrinterStanding) -> bool {
    match standing {
        PrinterStanding::Unreached { .. }
        | PrinterStanding::PutOff { .. }
        | PrinterStanding::Stopped { .. } => true,
        PrinterStanding::Idle | PrinterStanding::Held | PrinterStanding::Printing { .. } => false,
    }
}

/// The printers that need somebody, where there are some.
pub(crate) fn troubles(alloc: Global, page: &mut HtmlPage, scene: &Scene<'_>) {
    let (printers, noted) = (scene.spool.printers.as_slice(), &scene.outside.noted);
    let stopped = stopped_printers(noted.printers, printers);
    if stopped == 0 && unreached_printers(noted.printers, printers) == 0 {
        return;
    }
    let label = Attribute::new(AttributeName::AriaLabelledBy, "troubles");
    page.open(Tag::Section, &[class("card"), label]);
    page.element(
        Tag::Heading2,
        &[id("troubles")],
        "Printers that need somebody",
    );
    page.open(Tag::List, &[class("printers")]);
    for (at, printer) in printers.iter().enumerate() {
        if needs_somebody(standing_at(scene, at, printer)) {
            let queue = scene.config.name_of(printer.queue);
            printer_card(alloc, page, scene, (at, printer), queue);
        }
    }
    page.close();
    if stopped != 0 {
        let hint =
            "A stopped printer runs again once its queue is started: by “lpd_server start PORT QUEUE”, by “control PATH start QUEUE”, or by a connection with octet 01 and the queue’s name.";
        page.element(Tag::Paragraph, &[class("hint")], hint);
    }
    page.close();
    page.end_line();
}

/// A queue's name and what is said of it.
fn title(alloc: Global, page: &mut HtmlPage, scene: &Scene<'_>, number: u32, queue: &Queue) {
    let limit = Grouped(u64::from(queue.limit()));
    let remark = page.text(format!(in alloc; "up to {limit} pages a job"));
    page.open(Tag::Heading2, &[]);
    page.open(Tag::Bdi, &[]);
    page.octets(queue.name());
    page.close();
    page.words(" ");
    page.element(Tag::Small, &[], remark.as_str());
    let (noted, parked) = (&scene.outside.noted, scene.outside.parked);
    let place = (number as usize).saturating_sub(1);
    let waiting = parked.get(place).copied().unwrap_or(0);
    if waiting != 0 {
        let said = page.text(format!(in alloc; "{}", ParkedCount(waiting)));
        page.words(" ");
        page.element(Tag::Small, &[], said.as_str());
    }
    if is_held(noted.held, number) {
        page.words(" ");
        page.element(Tag::Span, &[class("chip wait")], "held");
    }
    page.close();
}

/// The queue of this number, with those printers that serve it.
fn queue_card(alloc: Global, page: &mut HtmlPage, scene: &Scene<'_>, number: u32, queue: &Queue) {
    page.open(Tag::Section, &[class("card")]);
    title(alloc, page, scene, number, queue);
    page.open(Tag::List, &[class("printers")]);
    for (at, printer) in scene.spool.printers.iter().enumerate() {
        if printer.queue == number {
            printer_card(alloc, page, scene, (at, printer), b"");
        }
    }
    page.close();
    page.close();
    page.end_line();
}

/// The queues, in the order of the configuration.
pub(crate) fn queues(alloc: Global, page: &mut HtmlPage, scene: &Scene<'_>) {
    let label = Attribute::new(AttributeName::AriaLabel, "queues");
    page.open(Tag::Section, &[class("queues"), id("queues"), label]);
    let mut number = 0u32;
    for queue in scene.config.queues() {
        number = number.saturating_add(1);
        queue_card(alloc, page, scene, number, queue);
    }
    page.close();
}
