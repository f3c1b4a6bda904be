//! That one reply is due.

ghost use Rattle.spool_trace.specs.Agree.{RepliesAgree};

/// After a right trace two right replies to one step are one, where neither is want of memory.
pub fn replies_agree()
    ensures { RepliesAgree }
{}
