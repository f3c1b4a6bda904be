//! A job as it is sent.

ghost use Rattle.std.specs.Prelude.{IsTrue, ◌≡◌, ◌-◌, ◌^◌, length, map, min, IfOk};
ghost use Rattle.std.specs.List.{concat};
ghost use Rattle.control_file.specs.Written.{control_text};
ghost use Rattle.control_file.specs.View.{contents};
ghost use Rattle.lpr_client.specs.Parts.{job_octets};
ghost use Rattle.lpr_client.specs.Shown.{part_octets};
ghost use Rattle.lpr_client.specs.Granted.{IsAcknowledged};
ghost use Rattle.lpr_client.specs.OneJob.{ReadsAsOneJob};
ghost use Rattle.lpr_client.specs.Sendable.{is_sendable};

use crate::file::DataFile;
use crate::part::{Part, parts_of};
use control_file::Control;
use lpd_commands::{FileName, Octets};
use std::alloc::{AllocError, Global};

/// The octets of parts, one after another.
fn joined(alloc: Global, parts: &[Part]) -> Result<Octets, AllocError>
    ensures { IfOk result (λ octets. octets ≡ concat (map part_octets parts.now)) }
{
    let mut octets = Vec::new(alloc);
    for part in parts {
        let (head, tail) = part.octets();
        octets.extend_from_slice(head)?;
        octets.extend_from_slice(tail)?;
    }
    Ok(Octets::from_vec(octets))
}

/// How many octets parts have, at most the last value of a `usize`.
fn length_of(parts: &[Part]) -> usize
    ensures { result ≡ min (length (concat (map part_octets parts.now))) (2 ^ 64 - 1) }
{
    let mut length = 0usize;
    for part in parts {
        let (head, tail) = part.octets();
        length = length.saturating_add(head.len()).saturating_add(tail.len());
    }
    length
}

/// The octets that send a job to a queue: the line that asks for it, the data files in order, and last the control file
/// under this name (RFC 1179, sections 5.2, 6.2 and 6.3). AllocError where memory for them is refused.
pub fn job_bytes(
    alloc: Global,
    queue: &Octets,
    name: &FileName,
    control: &Control,
    files: &[DataFile],
) -> Result<Octets, AllocError>
    requires { IsTrue (is_sendable queue.now name.now control.now files.now) }
    ensures octets { IfOk result (λ octets.
        octets ≡ job_octets queue.now name.now (control_text (contents control.now)) files.now) }
    ensures one_job { IfOk result (λ octets.
        ReadsAsOneJob queue.now (contents control.now) files.now octets) }
    ensures granted { IfOk result (λ octets. IsAcknowledged octets) }
{
    let parts = parts_of(alloc, queue, name, control, files)?;
    joined(alloc, parts.as_slice())
}

/// How many octets send a job to a queue, as many as `job_bytes` answers, and at most the last value of a `usize`.
/// AllocError where memory for its lines is refused.
pub fn job_length(
    alloc: Global,
    queue: &Octets,
    name: &FileName,
    control: &Control,
    files: &[DataFile],
) -> Result<usize, AllocError>
    requires { IsTrue (is_sendable queue.now name.now control.now files.now) }
    ensures { IfOk result (λ octets. octets ≡ min
        (length (job_octets queue.now name.now (control_text (contents control.now)) files.now))
        (2 ^ 64 - 1)) }
{
    let parts = parts_of(alloc, queue, name, control, files)?;
    Ok(length_of(parts.as_slice()))
}
