//! Laws of `procs FILE`: it has one text, and how it ends by the conditions of the joint audit.

ghost use Rattle.cmd_procs.specs.OneText.{ProcsTextLaw};
ghost use Rattle.cmd_procs.specs.ProcsEnds.{ProcsEndLaw};

/// Over the same files each call puts a prefix of the text that a call puts which ends.
pub fn law_procs_text()
    ensures { ProcsTextLaw }
{}

/// Processes have one list of findings. It is empty exactly if all conditions of the joint audit
/// hold. A call that ends puts the lines of the audit, and then those of the schedule if it is run.
/// It is impossible that no call ends.
pub fn law_procs_ends()
    ensures { ProcsEndLaw }
{}
