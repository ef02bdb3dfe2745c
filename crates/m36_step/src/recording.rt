//! Records the end of a step.

ghost use Rattle.std.specs.Prelude.{◌≡◌};
ghost use Rattle.m36_step.specs.Ended.{end_in_record};

use crate::ended::Ended;
use m36_model::StepRecord;

/// Stores the end of a step into its record.
pub(crate) fn record_end(told: &mut StepRecord, ended: &Ended)
    ensures ended { end_in_record told.new ≡ ended.now }
    ensures refs { told.new.refs ≡ told.old.refs }
    ensures ppr { told.new.ppr ≡ told.old.ppr }
{
    told.word = ended.word;
    told.at = ended.at;
    told.outcome = ended.outcome;
}
