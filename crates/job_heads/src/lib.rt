//! The first line of a kept job, `hurgwaye 1 7f000001`: what the file is, the version of its form, and the number of the sender in hexadecimal
//! digits. Behind it come the octets of the job as a peer would send them.
#![tactic(auto)]

ghost use Rattle.std.specs.Prelude.{◌≡◌, ◌<◌, ◌^◌, ◌++◌, ℕ, List, IfOk, OnErr, length, Err, Ok};
ghost use Rattle.job_heads.specs.Head.{head, mark, name};

#[cfg(test)]
mod tests;

/// How many octets a head has.
pub const HEAD_LENGTH: usize = 20;

/// What each head begins with.
const MARK: &[u8; 11] = b"hurgwaye 1 ";

/// What a head of any version begins with.
const NAME: &[u8; 9] = b"hurgwaye ";

/// Why octets are no head.
#[derive(Clone, Copy, Debug, PartialEq, Eq)]
pub enum HeadFault {
    /// They aren't those of a kept job.
    NoHead,
    /// They are of another version.
    OtherVersion,
}

/// The head of a job of this sender.
pub fn write_head(sender: u32) -> [u8; HEAD_LENGTH]
    ensures { result ≡ head sender }
{
    let mut octets = *b"hurgwaye 1 00000000\n";
    let _all_fits = hex::encode_to_slice(sender.to_be_bytes(), &mut octets[11..19]);
    octets
}

/// The sender of a job with this head.
///
/// `OtherVersion` where the name is followed by another version, `NoHead` for all else that no head has.
pub fn read_head(octets: &[u8; HEAD_LENGTH]) -> Result<u32, HeadFault>
    ensures read { IfOk result (λ sender. octets.now ≡ head sender) }
    ensures refused { OnErr result ((sender : ℕ) → sender < 2 ^ 32 → octets.now ≡ head sender → ⊥) }
    ensures other { result ≡ Err HeadFault.OtherVersion
        → (rest : List ℕ) × (octets.now ≡ name ++ rest) }
{
    if !octets.starts_with(MARK) {
        return Err(if octets.starts_with(NAME) {
            HeadFault::OtherVersion
        } else {
            HeadFault::NoHead
        });
    }
    let mut sender = [0; 4];
    if hex::decode_to_slice(&octets[11..19], &mut sender).is_err() {
        return Err(HeadFault::NoHead);
    }
    let sender = u32::from_be_bytes(sender);
    if write_head(sender) != *octets {
        return Err(HeadFault::NoHead);
    }
    Ok(sender)
}
