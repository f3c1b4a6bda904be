//! The base after a history that leaves no job held.

ghost use Rattle.std.specs.Prelude.{◌≡◌, ◌≤◌, ◌<◌, ◌^◌, ◌++◌, IfOk, OnOk, count_by, length, map};
ghost use Rattle.config_values.specs.Config as S;
ghost use Rattle.spool_history.specs.Now as N;
ghost use Rattle.spool_history.specs.Rotated as R;
ghost use Rattle.account.specs.declared.entry.Outline.{Outline};
ghost use Rattle.account.specs.Seen.{base_seen};
ghost use Rattle.history_reader.specs.Seen.{printer_seen, state_seen};

use crate::state::{Printer, State};
use account::Base;
use std::alloc::{AllocError, Global};

/// How many of these printers are stopped.
fn count_stopped(printers: &[Printer]) -> u64
    ensures value { result
        ≡ count_by (λ (p : N.Printer Outline). p.stopped) (map printer_seen printers.now) }
    ensures within { result ≤ length printers.now }
{
    printers.iter().filter(|printer| printer.stopped).count() as u64
}

/// Puts behind these whether each printer is stopped.
fn add_stopped(stopped: &mut Vec<bool>, printers: &[Printer]) -> Result<(), AllocError>
    ensures { OnOk result (stopped.new.items
        ≡ stopped.old.items
        ++ map (λ (p : N.Printer Outline). p.stopped) (map printer_seen printers.now)) }
{
    let Some((first, rest)) = printers.split_first() else {
        return Ok(());
    };
    stopped.push(first.stopped)?;
    add_stopped(stopped, rest)
}

/// The base after a history that leaves a spool so, with no job held: the last acceptance number, the close and the
/// stopped printers as they are, and one counted entry for each stopped printer. Fails where memory is short.
pub fn rotated(alloc: Global, state: &State) -> Result<Base, AllocError>
    requires { state.now.accepted < 2 ^ 64 }
    ensures { IfOk result (λ b. (c : S.Config) → base_seen b ≡ R.rotated (state_seen c state.now)) }
{
    let printers = state.printers.as_slice();
    let mut stopped = Vec::new(alloc);
    add_stopped(&mut stopped, printers)?;
    Ok(Base {
        accepted: state.accepted as u64,
        reserved: count_stopped(printers),
        closed: state.closed,
        stopped,
    })
}
