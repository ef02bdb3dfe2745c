//! Puts the text of an audit line by line.

ghost use Rattle.std.specs.Prelude.{◌<◌, length};
ghost use Rattle.m36_text.specs.Lines.{as_line};
ghost use Rattle.m36_audit.specs.Findings.{finding_pair, finding_pairs};
ghost use Rattle.m36_program.specs.Performs.{Performs};
ghost use Rattle.m36_program.specs.Program.{quiet, done, puts_all};
ghost use Rattle.m36_program.specs.Readers.{put_one};
ghost use Rattle.cmd_image.specs.AuditText.{finding_line, finding_pieces, yes_line, audit_pieces};

use crate::audit_lines::finding_line;
use arrayvec::ArrayString;
use m36_audit::Finding;
use m36_program::put_piece;
use m36_status::Status;
use m36_world::World;

/// Puts a line with its line feed, in one piece.
pub fn put_line<W: World>(mut line: ArrayString<160>, world: &mut W) -> Result<(), Status>
    requires { length line.bytes < 160 }
    ensures { Performs {may = quiet} (put_one (as_line line.bytes)) result
        (W.seen world.old) (W.seen world.new) }
{
    line.push_str("\n");
    put_piece(line.as_str().as_bytes(), world)
}

// Puts the line of a finding.
fn put_finding<W: World>(finding: &Finding, world: &mut W) -> Result<(), Status>
    ensures { Performs {may = quiet} (put_one (as_line (finding_line (finding_pair finding.now))))
        result
        (W.seen world.old) (W.seen world.new) }
{
    put_line(finding_line(finding), world)
}

// Puts a line for each finding.
#[tactic(auto, using(crate::proofs::AuditPuts::findings_in_turn))]
fn put_findings<W: World>(findings: &[Finding], world: &mut W) -> Result<(), Status>
    ensures { Performs {may = quiet} (puts_all (finding_pieces (finding_pairs findings.now))
        (done tt))
        result (W.seen world.old) (W.seen world.new) }
{
    for finding in findings {
        match put_finding(finding, world) {
            Ok(()) => {}
            Err(status) => return Err(status),
        }
    }
    Ok(())
}

/// Puts the line `audit yes`.
pub fn put_yes<W: World>(world: &mut W) -> Result<(), Status>
    ensures { Performs {may = quiet} (put_one yes_line) result
        (W.seen world.old) (W.seen world.new) }
{
    let mut line = ArrayString::new();
    line.push_str("audit yes");
    put_line(line, world)
}

/// Puts the text of an audit, line by line.
#[tactic(auto, using(crate::proofs::AuditPuts::audit_texts))]
pub fn put_audit<W: World>(findings: &[Finding], world: &mut W) -> Result<(), Status>
    ensures { Performs {may = quiet} (puts_all (audit_pieces (finding_pairs findings.now))
        (done tt))
        result (W.seen world.old) (W.seen world.new) }
{
    if findings.is_empty() {
        return put_yes(world);
    }
    put_findings(findings, world)
}
