//! The first word of a command.

ghost use Rattle.std.specs.Prelude.{◌≡◌, MatchOption};
ghost use Rattle.control_lines.specs.Verbs.{verb_word};
ghost use Rattle.control_lines.specs.declared.verb.Verb.{Verb};

/// The first word of a command.
#[derive(Clone, Copy, Debug, PartialEq, Eq)]
pub(crate) enum Verb {
    Status,
    Start,
    Hold,
    Release,
    Remove,
    Cancel,
    Resend,
    Rotate,
    Stop,
}

impl Verb {
    /// The word as it is written.
    pub(crate) fn word(self) -> &'static [u8]
        ensures { result.now ≡ verb_word self }
    {
        match self {
            Verb::Status => b"status",
            Verb::Start => b"start",
            Verb::Hold => b"hold",
            Verb::Release => b"release",
            Verb::Remove => b"remove",
            Verb::Cancel => b"cancel",
            Verb::Resend => b"resend",
            Verb::Rotate => b"rotate",
            Verb::Stop => b"stop",
        }
    }

    /// The verb that a word is.
    pub(crate) fn read(word: &[u8]) -> Option<Verb>
        ensures { MatchOption result ((verb : Verb) → word.now ≡ verb_word verb → ⊥)
            (λ verb. word.now ≡ verb_word verb) }
    {
        match word {
            b"status" => Some(Verb::Status),
            b"start" => Some(Verb::Start),
            b"hold" => Some(Verb::Hold),
            b"release" => Some(Verb::Release),
            b"remove" => Some(Verb::Remove),
            b"cancel" => Some(Verb::Cancel),
            b"resend" => Some(Verb::Resend),
            b"rotate" => Some(Verb::Rotate),
            b"stop" => Some(Verb::Stop),
            _ => None,
        }
    }
}
