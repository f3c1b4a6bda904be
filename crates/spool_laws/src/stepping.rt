//! Where one more event leaves a spool.

ghost use Rattle.spool_laws.specs.Stepping.{StepKeeps, StepLeads};

/// One more event that meets its conditions leaves a spool where its step leads, whatever a page holds.
pub fn step_leads<C>()
    ensures leads { StepLeads C }
    ensures keeps { StepKeeps C }
{}
