//! The text of an audit.

ghost use Rattle.std.specs.Prelude.{◌≡◌, ◌≤◌, length};
ghost use Rattle.m36_text.specs.Digits.{octal_text};
ghost use Rattle.m36_audit.specs.Findings.{finding_pair};
ghost use Rattle.cmd_image.specs.AuditText.{is_of_segment, place_digits, finding_line};

use arrayvec::ArrayString;
use m36_audit::Finding;
use m36_text::{decimal, octal};

// Whether the place of a finding of this condition is a segment (for the first, the fifth and the
// sixth condition) or a core word (for the others).
fn is_of_segment(condition: u8) -> bool
    ensures { result ≡ is_of_segment condition }
{
    condition == 1 || condition == 5 || condition == 6
}

/// The place of a finding in octal: the number of a segment in five digits, or the address of a
/// core word in eight. Higher digits are cut off; by `law_runs` the place of a finding has none.
#[tactic(auto, using(crate::proofs::AuditTexts::digits_alone))]
pub fn place_text(condition: u8, place: u32) -> ArrayString<22>
    ensures text { result.bytes ≡ octal_text (place_digits condition) place }
    ensures len { length result.bytes ≤ 8 }
{
    if is_of_segment(condition) {
        octal(place as u64 % 0o100000, 5)
    } else {
        octal(place as u64 % 0o100000000, 8)
    }
}

/// The line of a finding, as `audit no A3 00000100`, without its line feed.
#[tactic(auto, unfolding(crate::specs::AuditText::finding_line))]
pub fn finding_line(finding: &Finding) -> ArrayString<160>
    ensures text { result.bytes ≡ finding_line (finding_pair finding.now) }
    ensures len { length result.bytes ≤ 39 }
{
    let mut line = ArrayString::new();
    line.push_str("audit no A");
    line.push_str(decimal(finding.condition as u64).as_str());
    line.push_str(" ");
    line.push_str(place_text(finding.condition, finding.place).as_str());
    line
}
