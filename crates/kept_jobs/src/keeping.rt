//! Keeping the job in hand.

ghost use Rattle.std.specs.Prelude.{◌++◌, [], ℕ, List, OnOk, Option};
ghost use Rattle.kept_jobs.specs.Folder.{Elapses, HasCause, LacksNoMore, LeavesOnly, NoMore, OrNone, SamePassed};
ghost use Rattle.kept_jobs.specs.Kept.{AllOrNone, IsInHand, IsKept};

use crate::{Folder, KeepError};

/// Takes a new job in hand, with no octets so far.
pub fn begin<F: Folder>(folder: &mut F) -> Result<(), KeepError>
    ensures in_hand { OnOk result (IsInHand (F.seen folder.new) (F.may_leave folder.new) []) }
    ensures crash { OrNone (F.may_leave folder.old) (F.may_leave folder.new) }
    ensures time { Elapses (F.moment folder.old) (F.moment folder.new) (F.left_since folder.old)
        (F.left_since folder.new) (F.may_leave folder.new) }
    ensures lacks { LacksNoMore (F.may_lack folder.old) (F.may_lack folder.new) }
    ensures passed { SamePassed (F.seen folder.old) (F.seen folder.new) }
    ensures cause { HasCause (F.faults folder.old) (F.faults folder.new) result }
{
    folder.create()
}

/// Writes octets of the job in hand: those of a page with its SHA-256.
pub fn append<F: Folder>(
    folder: &mut F,
    octets: &[u8],
    digest: Option<[u8; 32]>,
) -> Result<(), KeepError>
    ensures in_hand { OnOk result ((before : List ℕ)
        → IsInHand (F.seen folder.old) (F.may_leave folder.old) before
        → IsInHand (F.seen folder.new) (F.may_leave folder.new) (before ++ octets.now)) }
    ensures crash { NoMore (F.may_leave folder.old) (F.may_leave folder.new) }
    ensures time { Elapses (F.moment folder.old) (F.moment folder.new) (F.left_since folder.old)
        (F.left_since folder.new) (F.may_leave folder.new) }
    ensures lacks { LacksNoMore (F.may_lack folder.old) (F.may_lack folder.new) }
    ensures passed { SamePassed (F.seen folder.old) (F.seen folder.new) }
    ensures cause { HasCause (F.faults folder.old) (F.faults folder.new) result }
{
    folder.append(octets, digest)
}

/// Keeps the job in hand, whose octets are all in its temporary file. At `Ok` each crash leaves it with
/// exactly these octets. At an error a crash leaves it whole or not at all: it is to be discarded then.
pub fn keep<F: Folder>(folder: &mut F) -> Result<(), KeepError>
    ensures kept { OnOk result ((octets : List ℕ)
        → IsInHand (F.seen folder.old) (F.may_leave folder.old) octets
        → IsKept (F.seen folder.new) (F.may_leave folder.new) octets) }
    // A crash at any moment of the call leaves this job whole, or not at all.
    ensures any_moment { (octets : List ℕ)
        → IsInHand (F.seen folder.old) (F.may_leave folder.old) octets
        → LeavesOnly F.moment F.left_since folder.old folder.new (AllOrNone
        (F.seen folder.old) octets) }
    ensures time { (octets : List ℕ) → IsInHand (F.seen folder.old) (F.may_leave folder.old) octets
        → Elapses (F.moment folder.old) (F.moment folder.new) (F.left_since folder.old)
        (F.left_since folder.new) (AllOrNone (F.seen folder.old) octets) }
    ensures crash { (octets : List ℕ) → IsInHand (F.seen folder.old) (F.may_leave folder.old) octets
        → (c : Option (List ℕ)) → F.may_leave folder.new c
        → AllOrNone (F.seen folder.old) octets c }
    ensures lacks { LacksNoMore (F.may_lack folder.old) (F.may_lack folder.new) }
    ensures passed { SamePassed (F.seen folder.old) (F.seen folder.new) }
    // It doesn't give up by itself.
    ensures cause { HasCause (F.faults folder.old) (F.faults folder.new) result }
{
    folder.sync()?;
    folder.publish()?;
    // Until its name is on the disk a crash may still take it away.
    folder.sync_names()
}
