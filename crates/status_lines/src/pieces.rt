//! Pieces of lines.

ghost use Rattle.std.specs.Prelude.{◌≡◌, IfOk, IsUtf8, string_bytes};
ghost use Rattle.config_values.specs.Config.{queue_at};
ghost use Rattle.counts.specs.Amounts.{amount};
ghost use Rattle.status_lines.specs.Pieces.{one_line};

use config_values::Config;
use counts::Counts;
use std::alloc::{AllocError, Global};
use std::str;

/// The text with a space for each line feed, so that it is one line.
///
/// AllocError where memory for it is refused.
pub fn one_line(alloc: Global, text: &str) -> Result<String, AllocError>
    ensures { IfOk result (λ line. string_bytes line ≡ one_line text.now) }
{
    text.chars()
        .map(|c| if c == '\n' { ' ' } else { c })
        .collect(alloc)
}

/// The amount of pages.
pub(crate) fn pages_of(amounts: &Counts) -> u32
    ensures { result ≡ amount amounts.now 0 }
{
    amounts.as_slice().first().copied().unwrap_or(0)
}

/// The octets of a queue's name as text.
pub(crate) fn name_text(name: &[u8]) -> &str
    requires { IsUtf8 name.now }
    ensures { result.now ≡ name.now }
{
    str::from_utf8(name).unwrap()
}

/// The name of a queue, or nothing where no queue has this number.
pub fn queue_name(config: &Config, queue: u32) -> &str
    ensures { result.now ≡ (queue_at config.now queue).name }
{
    let Some(before) = queue.checked_sub(1) else {
        return "";
    };
    match config.queues().get(before as usize) {
        Some(found) => name_text(found.name()),
        None => "",
    }
}
