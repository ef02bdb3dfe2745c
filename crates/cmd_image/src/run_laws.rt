//! Laws of runs, and of the findings of an audit.

ghost use Rattle.cmd_image.specs.RunLaws.{LimitIsMet, RunsAreTurns, PlacesFit};

/// A run that did not end used up its limit of steps. The steps of a run are those among as many
/// turns of a machine that begins in the same state. The place of a finding has no more digits than
/// are printed.
pub fn law_runs()
    ensures limit { LimitIsMet }
    ensures turns { RunsAreTurns }
    ensures places { PlacesFit }
{}
