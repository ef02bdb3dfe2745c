//! The line `denied` of a segment, if a run ended because a right to the segment was missing.

ghost use Rattle.std.specs.Prelude.{◌≡◌, None, Some, MatchOption};
ghost use Rattle.cmd_folder.specs.RunText.{is_right_violation, is_missing_right, denied_by_fault};
ghost use Rattle.cmd_folder.specs.RunText.{denied_by_end, denied_segment, denied_line_of};

use crate::finish::Finish;
use m36_acl::DeniedLines;
use m36_link::FIRST_SEGMENT;
use m36_model::{End, Fault};

// The number of the fault of a reference that is not allowed.
const ACCESS_VIOLATION: u8 = 20;

// Whether an access violation is a missing right to execute, read or write (ACV2, 4 or 6).
fn is_right_violation(acv: u8) -> bool
    ensures { result ≡ is_right_violation acv }
{
    matches!(acv, 2 | 4 | 6)
}

// Whether a fault with these numbers is an access violation for a missing right.
fn is_missing_right(number: u8, acv: u8) -> bool
    ensures { result ≡ is_missing_right number acv }
{
    number == ACCESS_VIOLATION && is_right_violation(acv)
}

// The segment to which a right was missing, if the fault is such an access violation.
fn denied_by_fault(fault: Fault) -> Option<u16>
    ensures { result ≡ denied_by_fault fault }
{
    if is_missing_right(fault.number, fault.acv) {
        Some(fault.at.seg)
    } else {
        None
    }
}

// The segment to which a right was missing, if a run ended for that.
fn denied_by_end(end: End) -> Option<u16>
    ensures { result ≡ denied_by_end end }
{
    match end {
        End::Fault(fault) => denied_by_fault(fault),
        End::Stop(_) | End::Link(_) | End::Console => None,
    }
}

// The segment to which a right was missing, if a run ended for that; None at the limit of steps.
fn denied_segment(how: Finish) -> Option<u16>
    ensures { result ≡ denied_segment how }
{
    match how {
        Finish::Over(end) => denied_by_end(end),
        Finish::Limit => None,
    }
}

// The line `denied` of a segment by its number; None if it is not in the catalog, or has no line.
#[tactic(auto, unfolding(m36_link::specs::Known::index_in_catalog))]
fn line_of_segment(denied: &DeniedLines, seg: u16) -> Option<&[u8]>
    ensures { MatchOption result (denied_line_of denied.now (Some seg) ≡ None)
        (λ line. denied_line_of denied.now (Some seg) ≡ Some line.now) }
{
    if seg < FIRST_SEGMENT {
        return None;
    }
    denied.line((seg - FIRST_SEGMENT) as usize)
}

/// The line `denied` of the segment to which a right was missing, if the run ended for that and the
/// segment has such a line.
pub fn denied_line(denied: &DeniedLines, how: Finish) -> Option<&[u8]>
    ensures { MatchOption result (denied_line_of denied.now (denied_segment how) ≡ None)
        (λ line. denied_line_of denied.now (denied_segment how) ≡ Some line.now) }
{
    line_of_segment(denied, denied_segment(how)?)
}
