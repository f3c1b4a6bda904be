//! What a rotation keeps.

ghost use Rattle.spool_laws.specs.Rotating.{RotationCounts, RotationKeeps, RotationOpens};

/// A history that leaves no job held may be put away, with the base after it as the beginning of the next one: from
/// that base, with no events, the spool is where the history left it, but for its counted reserve and the jobs that its
/// printers began; the base counts each stopped printer; and a job may be opened exactly where the limits say.
pub fn rotation_keeps<C>()
    ensures keeps { RotationKeeps C }
    ensures counts { RotationCounts C }
    ensures opens { RotationOpens C }
{}
