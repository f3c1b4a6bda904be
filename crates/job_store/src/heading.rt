//! The head of a kept job's file.

ghost use Rattle.std.specs.Prelude.{◌≡◌, ◌<◌, ◌≤◌, ℕ, List, IfErr, IfOk, IfSome, length, take};
ghost use Rattle.lpd_commands.specs.Ends.{IsReadOut, Took};
ghost use Rattle.job_heads.specs.Head.{head};
ghost use Rattle.job_store.specs.Heads.{HasSender};

use job_heads::{HEAD_LENGTH, HeadFault, read_head};
use lpd_commands::{OctetFault, OctetRead};

/// Reads until the buffer is full or nothing is left, and answers how many octets it read. Fails where a read does.
fn read_full<I: OctetRead>(reader: &mut I, into: &mut [u8]) -> Result<usize, OctetFault>
    ensures within { IfOk result (λ n. n ≤ length into.new) }
    ensures took { IfOk result
        (λ n. Took (I.left reader.old) (I.left reader.new) (take n into.new)) }
    ensures out { IfOk result (λ n. n < length into.new → IsReadOut (I.left reader.new)) }
{
    let mut count = 0;
    while count < into.len() {
        let more = reader.read(&mut into[count..])?;
        if more == 0 {
            break;
        }
        count += more;
    }
    Ok(count)
}

/// Reads the head of a job, and answers its sender. What is left are the octets that the sender's host sent.
///
/// `NoHead` and `OtherVersion` as for `read_head`: `NoHead` also where fewer octets are left than a head has. Fails where a read does.
pub fn read_sender<I: OctetRead>(reader: &mut I) -> Result<Result<u32, HeadFault>, OctetFault>
    ensures { IfOk result (λ sender. HasSender (I.left reader.old) (I.left reader.new) sender) }
{
    let mut octets = [0; HEAD_LENGTH];
    let count = read_full(reader, &mut octets)?;
    if count < HEAD_LENGTH {
        return Ok(Err(HeadFault::NoHead));
    }
    Ok(read_head(&octets))
}
