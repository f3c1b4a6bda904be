//! The printers of a core, and the pages that are out at them.

ghost use Rattle.std.specs.Prelude.{◌≡◌, ◌↔◌, IsTrue, IfOk, length};
ghost use Rattle.config_values.specs.Config.{printer_count};
ghost use Rattle.spool_calls.specs.Telling.{serving, stopped_in};
ghost use Rattle.spool_core.specs.Printers.{idle, IsOutAt};

use account::Sheet;
use config_values::Config;
use spool_calls::{HandedPage, Printer};
use std::alloc::{AllocError, Global};

/// Each printer, with no page out and no job begun.
pub fn idle_printers(alloc: Global, config: &Config) -> Result<Vec<Printer>, AllocError>
    ensures { IfOk result (λ v. v.items ≡ idle config.now (printer_count config.now)) }
{
    let mut printers = Vec::new(alloc);
    for before in 0..config.printer_count() {
        printers.push(Printer {
            queue: config.queue_of(before + 1),
            out: None,
            began: None,
            stopped: false,
        })?;
    }
    Ok(printers)
}

/// How many of these printers serve a queue.
pub fn count_serving(printers: &[Printer], queue: u32) -> usize
    ensures { result ≡ length (serving queue printers.now) }
{
    printers
        .iter()
        .filter(|printer| printer.queue == queue)
        .count()
}

/// How many of these printers serve a queue and are stopped.
pub fn count_stopped_in(printers: &[Printer], queue: u32) -> usize
    ensures { result ≡ length (stopped_in queue printers.now) }
{
    printers
        .iter()
        .filter(|printer| printer.queue == queue)
        .filter(|printer| printer.stopped)
        .count()
}

/// Whether the page is the one that is out.
pub fn is_out(out: &Option<Sheet>, page: &HandedPage, page_size: usize) -> bool
    ensures { IsTrue result ↔ IsOutAt out.now page.now page_size }
{
    let Some(sheet) = out else {
        return false;
    };
    sheet.job == page.job
        && sheet.place == page.place
        && sheet.page.length as usize == page.page.len()
        && sheet.page.digest == page.page.digest()
        && page.page.page_size() == page_size
}
