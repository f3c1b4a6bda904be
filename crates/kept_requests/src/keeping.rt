//! A session's way to a spool, with the job that it has in hand.

ghost use Rattle.std.specs.Prelude.{◌≡◌, ℕ, Option, None, Some};
ghost use Rattle.receiver.specs.Script.{AbortJob};
ghost use Rattle.spool_requests.specs.declared.answer.Answer.{Answer};
ghost use Rattle.kept_jobs.specs.Folder.{GoesOn, OldOrNone, OrNone, SamePassed};
ghost use Rattle.job_streams.specs.Stream.{Coming};
ghost use Rattle.job_hand.specs.declared.cause.Cause.{Cause};
ghost use Rattle.job_hand.specs.declared.hand.HandStage.TheVariants as stage;
ghost use Rattle.job_hand.specs.Hand.{Follows, IsDecided, Settles, settled};
ghost use Rattle.kept_requests.specs.Work.{told};

use job_hand::{Cause, Folder, Hand};
use parked_requests::Parks;
use std::alloc::Global;

/// What carries out a session's requests, with the job that the session has in hand.
#[derive(Drop)]
pub struct Keeping<Q, F: Folder> {
    pub inner: Q,
    pub hand: Hand<F>,
    /// Why the last job that was given up can't be kept; None where none was given up. A session ends at the refusal that follows.
    pub given_up: Option<Cause>,
}

impl<Q: Parks, F: Folder> Keeping<Q, F> {
    /// At the beginning of a session, with no job in hand.
    pub fn new(alloc: Global, inner: Q, folder: F) -> Keeping<Q, F>
        ensures inner { result.inner ≡ inner }
        ensures folder { result.hand.folder ≡ folder }
        ensures given_up { result.given_up ≡ None }
        ensures none { Follows F.seen F.may_leave result.hand None }
    {
        Keeping {
            inner,
            hand: Hand::new(alloc, folder),
            given_up: None,
        }
    }

    /// A file of the job of this number has come, and the spool below took it. If the job in hand was kept, it is let out: left in the
    /// folder where it goes beside the spool, and else passed on under its number. One that is still coming stays in hand.
    pub(crate) fn let_out(&mut self, job: u64)
        requires { (cause : Cause) → self.old.hand.stage ≡ stage.Broken cause → ⊥ }
        ensures inner { self.new.inner ≡ self.old.inner }
        ensures given_up { self.new.given_up ≡ self.old.given_up }
        ensures follows { (work : Option Coming) → Follows F.seen F.may_leave self.old.hand work
            → IsDecided F.seen F.may_leave self.old.hand work
            → Follows F.seen F.may_leave self.new.hand (settled work) }
        ensures settles { (work : Option Coming) → Follows F.seen F.may_leave self.old.hand work
            → IsDecided F.seen F.may_leave self.old.hand work
            → Settles (told (Q.beside self.old.inner) job) work (F.seen self.old.hand.folder)
            (F.seen self.new.hand.folder) }
        ensures crash { OrNone (F.may_leave self.old.hand.folder)
            (F.may_leave self.new.hand.folder) }
        ensures moments { (work : Option Coming) → Follows F.seen F.may_leave self.old.hand work
            → GoesOn F.moment F.left_since F.may_lack self.old.hand.folder
            self.new.hand.folder (OldOrNone (F.may_leave self.old.hand.folder)) }
    {
        if self.inner.is_beside() {
            self.hand.leave();
        } else {
            self.hand.settle(job);
        }
    }

    /// Takes away what the folder has of the job in hand, which can't be kept for this cause, and aborts it below.
    pub(crate) fn give_up(&mut self, job: u64, cause: Cause)
        ensures cause { self.new.given_up ≡ Some cause }
        ensures broken { self.new.hand.stage ≡ stage.Broken cause }
        ensures passed { SamePassed (F.seen self.old.hand.folder) (F.seen self.new.hand.folder) }
        ensures crash { OrNone (F.may_leave self.old.hand.folder)
            (F.may_leave self.new.hand.folder) }
        ensures moments { GoesOn F.moment F.left_since F.may_lack self.old.hand.folder
            self.new.hand.folder (OldOrNone (F.may_leave self.old.hand.folder)) }
        ensures aborted { (sender : ℕ) → (answer : Answer)
            × Q.carries self.old.inner sender job AbortJob answer self.new.inner }
    {
        self.given_up = Some(cause);
        self.hand.fail(cause);
        if let Err(returned) = self.inner.abort(job, None) {
            returned.surrender();
        }
    }
}
