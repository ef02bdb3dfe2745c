//! Writes the text of a joint audit.

ghost use Rattle.std.specs.Prelude.{◌≡◌, ◌≤◌, length};
ghost use Rattle.m36_text.specs.Lines.{as_line};
ghost use Rattle.m36_audit.specs.Joints.{found_of, all_found};
ghost use Rattle.m36_program.specs.Performs.{Performs};
ghost use Rattle.m36_program.specs.Program.{quiet, done, puts_all};
ghost use Rattle.m36_program.specs.Readers.{put_one};
ghost use Rattle.cmd_procs.specs.JointText.{process_line, between_line, joint_finding_line};
ghost use Rattle.cmd_procs.specs.JointText.{joint_finding_pieces, joint_audit_pieces};

use arrayvec::ArrayString;
use cmd_image::audit_lines::place_text;
use cmd_image::findings::{put_line, put_yes};
use m36_audit::JointFinding;
use m36_status::Status;
use m36_text::{decimal, octal};
use m36_world::World;

/// The line of a finding of a process, without its line feed.
#[tactic(auto, unfolding(crate::specs::JointText::process_line))]
fn process_line(process: u8, condition: u8, place: u32) -> ArrayString<160>
    ensures text { result.bytes ≡ process_line process condition place }
    ensures len { length result.bytes ≤ 61 }
{
    let mut line = ArrayString::new();
    line.push_str("audit no ");
    line.push_str(decimal(process as u64).as_str());
    line.push_str(" A");
    line.push_str(decimal(condition as u64).as_str());
    line.push_str(" ");
    line.push_str(place_text(condition, place).as_str());
    line
}

/// The line of a finding between processes, without its line feed.
#[tactic(auto, unfolding(crate::specs::JointText::between_line), using(cmd_image::proofs::AuditTexts::word_digits))]
fn between_line(condition: u8, place: u32) -> ArrayString<160>
    ensures text { result.bytes ≡ between_line condition place }
    ensures len { length result.bytes ≤ 61 }
{
    let mut line = ArrayString::new();
    line.push_str("audit no J");
    line.push_str(decimal(condition as u64).as_str());
    line.push_str(" ");
    line.push_str(octal(place as u64 % 0o100000000, 8).as_str());
    line
}

/// The line of a finding, without its line feed.
fn joint_finding_line(finding: &JointFinding) -> ArrayString<160>
    ensures text { result.bytes ≡ joint_finding_line (found_of finding.now) }
    ensures len { length result.bytes ≤ 61 }
{
    match finding.process {
        Some(process) => process_line(process, finding.condition, finding.place),
        None => between_line(finding.condition, finding.place),
    }
}

// Puts the line of a finding.
fn put_joint_finding<W: World>(finding: &JointFinding, world: &mut W) -> Result<(), Status>
    ensures { Performs {may = quiet} (put_one (as_line (joint_finding_line (found_of finding.now))))
        result
        (W.seen world.old) (W.seen world.new) }
{
    put_line(joint_finding_line(finding), world)
}

// Puts a line for each finding.
#[tactic(auto, using(crate::proofs::JointTexts::findings_in_turn))]
fn put_joint_findings<W: World>(findings: &[JointFinding], world: &mut W) -> Result<(), Status>
    ensures { Performs {may = quiet} (puts_all (joint_finding_pieces (all_found findings.now))
        (done tt))
        result (W.seen world.old) (W.seen world.new) }
{
    for finding in findings {
        match put_joint_finding(finding, world) {
            Ok(()) => {}
            Err(status) => return Err(status),
        }
    }
    Ok(())
}

/// Puts the text of a joint audit, line by line.
#[tactic(auto, using(crate::proofs::JointTexts::joint_texts))]
pub fn put_joint_audit<W: World>(findings: &[JointFinding], world: &mut W) -> Result<(), Status>
    ensures { Performs {may = quiet} (puts_all (joint_audit_pieces (all_found findings.now))
        (done tt))
        result (W.seen world.old) (W.seen world.new) }
{
    if findings.is_empty() {
        return put_yes(world);
    }
    put_joint_findings(findings, world)
}
