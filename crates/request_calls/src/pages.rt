//! The page that a session has in hand for its job.

ghost use Rattle.std.specs.Prelude.{◌≡◌};
ghost use Rattle.request_calls.specs.Pages.{first_page};

use page_pool::PageTicket;

/// Spends a page.
pub fn spend(page: Option<PageTicket>) {
    if let Some(page) = page {
        page.surrender();
    }
}

/// The first of two pages that is there. The other is spent.
pub fn first(one: Option<PageTicket>, other: Option<PageTicket>) -> Option<PageTicket>
    ensures { result ≡ first_page one other }
{
    match one {
        Some(page) => {
            spend(other);
            Some(page)
        }
        None => other,
    }
}

/// Keeps a page, if there is one, in place of what was kept.
pub fn keep(kept: &mut Option<PageTicket>, page: Option<PageTicket>)
    ensures { kept.new ≡ first_page page kept.old }
{
    if let Some(page) = page {
        spend(kept.replace(page));
    }
}
