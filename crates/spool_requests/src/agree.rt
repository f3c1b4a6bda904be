//! That one answer is due.

ghost use Rattle.spool_requests.specs.Agree.{AnswersAgree};

/// After a legal history two right answers to one request are one, where neither is want of memory.
pub fn answers_agree()
    ensures { AnswersAgree }
{}
