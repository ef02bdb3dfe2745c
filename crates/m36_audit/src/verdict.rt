//! The findings of an audit.

ghost use Rattle.std.specs.Prelude.{[], ◌≡◌, ◌++◌, ◌+◌, ◌<◌, ◌≤◌};
ghost use Rattle.std.specs.Bool.{Decides};
ghost use Rattle.arrayvec.specs.ArrayVec.{array_vec_len};
ghost use Rattle.m36_model.specs.Audit.{numbered_finding};
ghost use Rattle.m36_audit.specs.Findings.{finding_pairs};

use arrayvec::ArrayVec;

/// A condition that fails, and the least place that breaks it.
#[derive(Clone, Copy, PartialEq, Eq)]
pub struct Finding {
    /// For the first, fifth and sixth condition a segment number of 15 bits; for the others a core
    /// address.
    pub place: u32,
    /// The number of the condition, 1 to 6.
    pub condition: u8,
}

impl Default for Finding {
    /// The filler for unused slots of a list of findings.
    fn default() -> Finding
        ensures { result ≡ record { place = 0; condition = 0 } }
    {
        Finding {
            place: 0,
            condition: 0,
        }
    }
}

/// The findings of an audit: one for each condition that fails, in order.
#[derive(Drop)]
pub struct Verdict {
    pub findings: ArrayVec<Finding, 6>,
}

impl Verdict {
    /// Whether there are no findings: all six conditions hold.
    pub fn has_no_findings(&self) -> bool
        ensures { Decides result (self.now.findings.items ≡ []) }
    {
        self.findings.is_empty()
    }
}

/// Adds the finding that this place breaks the condition; nothing if no place does.
pub(crate) fn note(findings: &mut ArrayVec<Finding, 6>, condition: u8, found: Option<u32>)
    requires room { array_vec_len findings.old < 6 }
    ensures listed { finding_pairs findings.new.items
        ≡ finding_pairs findings.old.items ++ numbered_finding condition found }
    ensures len { array_vec_len findings.new ≤ array_vec_len findings.old + 1 }
{
    match found {
        Some(place) => findings.push(Finding { place, condition }),
        None => {}
    }
}
