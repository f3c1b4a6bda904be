//! The lines of a metric.

ghost use Rattle.std.specs.Prelude.{◌≡◌, ◌++◌, OnOk, string_bytes};
ghost use Rattle.status_metrics.specs.declared.kind.SampleKind.TheVariants as kind;
ghost use Rattle.status_metrics.specs.Lines.{family_text, of_queue_text, sample_text, single_text, worded_text};

use crate::kind::SampleKind;
use html_text::{Form, push_octets};
use std::alloc::{AllocError, Global};

/// Puts at the end what a metric is: its name, what it says, and what its samples do.
#[tactic(auto, unfolding(crate::specs::Lines::family_text))]
pub(crate) fn push_family(
    text: &mut String,
    name: &str,
    help: &str,
    kind: SampleKind,
) -> Result<(), AllocError>
    ensures { OnOk result
        (string_bytes text.new ≡ string_bytes text.old ++ family_text name.now help.now kind) }
{
    let kind = kind.word();
    write!(text, "# HELP {name} {help}\n# TYPE {name} {kind}\n")
}

/// Puts a sample without labels at the end.
#[tactic(auto, unfolding(crate::specs::Lines::sample_text))]
fn push_sample(text: &mut String, name: &str, value: u64) -> Result<(), AllocError>
    ensures { OnOk result
        (string_bytes text.new ≡ string_bytes text.old ++ sample_text name.now value) }
{
    write!(text, "{name} {value}\n")
}

/// Puts a metric with one sample, which goes up and down, at the end.
#[tactic(auto, unfolding(crate::specs::Lines::single_text))]
pub(crate) fn push_gauge(
    text: &mut String,
    name: &str,
    help: &str,
    value: u64,
) -> Result<(), AllocError>
    ensures { OnOk result (string_bytes text.new
        ≡ string_bytes text.old ++ single_text name.now help.now kind.Gauge value) }
{
    push_family(text, name, help, SampleKind::Gauge)?;
    push_sample(text, name, value)
}

/// Puts a metric with one sample, which only grows, at the end.
#[tactic(auto, unfolding(crate::specs::Lines::single_text))]
pub(crate) fn push_counter(
    text: &mut String,
    name: &str,
    help: &str,
    value: u64,
) -> Result<(), AllocError>
    ensures { OnOk result (string_bytes text.new
        ≡ string_bytes text.old ++ single_text name.now help.now kind.Counter value) }
{
    push_family(text, name, help, SampleKind::Counter)?;
    push_sample(text, name, value)
}

/// Puts a sample with one label at the end, whose value is a word of this program.
#[tactic(auto, unfolding(crate::specs::Lines::worded_text))]
pub(crate) fn push_worded(
    text: &mut String,
    name: &str,
    label: &str,
    word: &str,
    value: u64,
) -> Result<(), AllocError>
    ensures { OnOk result (string_bytes text.new ≡ string_bytes text.old
        ++ worded_text name.now label.now word.now value) }
{
    write!(text, "{name}{{{label}=\"{word}\"}} {value}\n")
}

/// Puts a sample with the label of a queue of this name at the end, and with further labels.
#[tactic(auto, unfolding(crate::specs::Lines::of_queue_text))]
pub(crate) fn push_of_queue(
    alloc: Global,
    text: &mut String,
    name: &str,
    queue: &[u8],
    further: &str,
    value: u64,
) -> Result<(), AllocError>
    ensures { OnOk result (string_bytes text.new ≡ string_bytes text.old
        ++ of_queue_text name.now queue.now further.now value) }
{
    write!(text, "{name}{{queue=\"")?;
    push_octets(alloc, text, Form::Label, queue)?;
    write!(text, "\"{further}}} {value}\n")
}
