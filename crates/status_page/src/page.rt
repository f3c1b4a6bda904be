//! The whole page.

ghost use Rattle.std.specs.Prelude.{IfOk, string_bytes};
ghost use Rattle.html_page.specs.Parts.{IsPage};

use crate::banker::banker;
use crate::cards::{queues, troubles};
use crate::frame::{begin, end};
use crate::pool::pool;
use crate::rates::rates;
use crate::rows::jobs;
use crate::sessions::sessions;
use crate::tiles::tiles;
use html_page::HtmlPage;
use status_scene::Scene;
use std::alloc::{AllocError, Global};

/// The page for people, in HTML. What strangers sent stands in it as text alone.
///
/// AllocError where memory for it is refused.
pub fn html(alloc: Global, scene: &Scene<'_>) -> Result<String, AllocError>
    ensures { IfOk result (λ text. ∥ IsPage (string_bytes text) ∥₁) }
{
    let mut page = HtmlPage::new(alloc)?;
    begin(alloc, &mut page, scene);
    troubles(alloc, &mut page, scene);
    tiles(alloc, &mut page, scene);
    jobs(alloc, &mut page, scene);
    queues(alloc, &mut page, scene);
    pool(alloc, &mut page, scene);
    rates(alloc, &mut page, scene);
    sessions(alloc, &mut page, scene);
    banker(alloc, &mut page, scene);
    end(&mut page);
    page.into_text()
}
