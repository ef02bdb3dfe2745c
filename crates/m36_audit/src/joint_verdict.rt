//! The findings of a joint audit.

ghost use Rattle.std.specs.Prelude.{[], ◌≡◌, ◌++◌, ◌+◌, ◌*◌, ◌<◌, ◌≤◌, Some, None};
ghost use Rattle.std.specs.Bool.{Decides};
ghost use Rattle.arrayvec.specs.ArrayVec.{array_vec_len};
ghost use Rattle.m36_model.specs.JointAudit.{joint_finding, findings_of_process};
ghost use Rattle.m36_audit.specs.Findings.{finding_pairs};
ghost use Rattle.m36_audit.specs.Joints.{all_found};

use crate::verdict::Verdict;
use arrayvec::ArrayVec;

/// A condition that fails, and the least place that breaks it.
#[derive(Clone, Copy, PartialEq, Eq)]
pub struct JointFinding {
    /// For the first, fifth and sixth condition of a process a segment number of 15 bits; for the
    /// others a core address.
    pub place: u32,
    /// The number of the process, from 0, or None for the two conditions between processes.
    pub process: Option<u8>,
    /// The number of the condition: 1 to 6 for one process, 2 and 3 between processes.
    pub condition: u8,
}

impl Default for JointFinding {
    /// The filler for unused slots of a list of findings.
    fn default() -> JointFinding
        ensures { result ≡ record { place = 0; process = None; condition = 0 } }
    {
        JointFinding {
            place: 0,
            process: None,
            condition: 0,
        }
    }
}

/// The findings of a joint audit: those of each process in order, and one for each condition
/// between processes that fails.
#[derive(Drop)]
pub struct JointVerdict {
    pub findings: ArrayVec<JointFinding, 50>,
}

impl JointVerdict {
    /// Whether there are no findings: all conditions hold.
    pub fn has_no_findings(&self) -> bool
        ensures { Decides result (self.now.findings.items ≡ []) }
    {
        self.findings.is_empty()
    }
}

/// Adds the findings of one process.
pub(crate) fn note_process(findings: &mut ArrayVec<JointFinding, 50>, process: u8, own: &Verdict)
    requires room { array_vec_len findings.old ≤ 42 }
    ensures listed { all_found findings.new.items
        ≡ all_found findings.old.items ++ findings_of_process process
        (finding_pairs own.now.findings.items) }
    ensures len { array_vec_len findings.new ≤ array_vec_len findings.old + 6 }
{
    let list = own.findings.as_slice();
    for f in list {
        findings.push(JointFinding {
            place: f.place,
            process: Some(process),
            condition: f.condition,
        });
    }
}

/// Adds the finding of a condition between processes, if there is one.
pub(crate) fn note_between(
    findings: &mut ArrayVec<JointFinding, 50>,
    condition: u8,
    found: Option<u32>,
)
    requires room { array_vec_len findings.old < 50 }
    ensures listed { all_found findings.new.items
        ≡ all_found findings.old.items ++ joint_finding condition found }
    ensures len { array_vec_len findings.new ≤ array_vec_len findings.old + 1 }
{
    match found {
        Some(place) => findings.push(JointFinding {
            place,
            process: None,
            condition,
        }),
        None => {}
    }
}
