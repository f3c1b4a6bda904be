//! The kind of a request of a session.

ghost use Rattle.std.specs.Prelude.{◌≡◌, ◌∷◌, [], IsSome};
ghost use Rattle.receiver.specs.Script as script;
ghost use Rattle.receiver.specs.Script.{Request};
ghost use Rattle.receiver.specs.View.{asked, outputs};
ghost use Rattle.spool_requests.specs.Kinds.{request_kind};

use receiver::Need;
use spool_trace::RequestKind;

/// The kind of a request.
pub fn kind_of(request: &Need) -> RequestKind
    requires { IsSome (asked request.now) }
    ensures { (r : Request) → outputs request.now ≡ script.Asked r ∷ [] → result ≡ request_kind r }
{
    match request {
        Need::Queue(_) => RequestKind::Queue,
        Need::Open(_) => RequestKind::Open,
        Need::BeginFile { .. } => RequestKind::BeginFile,
        Need::Page => RequestKind::Page,
        Need::Filled(_) => RequestKind::Filled,
        Need::EndFile => RequestKind::EndFile,
        Need::Control(_) => RequestKind::Control,
        Need::Abort => RequestKind::Abort,
        Need::Start(_) => RequestKind::Start,
        Need::State { .. } => RequestKind::State,
        Need::Remove { .. } => RequestKind::Remove,
        Need::More | Need::Ack | Need::Fault(_) | Need::Ended => unreachable!(),
    }
}
