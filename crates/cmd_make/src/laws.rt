//! Laws of what `make` writes and puts.

ghost use Rattle.cmd_make.specs.MadeLaw.{MadeLaw};

/// What a call of `make` that ends by itself writes and puts follows from what the files of the
/// seed boot to and from the audit of its core: the lines of a run if all conditions hold, or the
/// lines of findings and no run. All such calls are the same if a condition fails, or if a run of
/// the system ends and executes no ABSA and no LDBR. In these cases, or if some run ends, it cannot
/// be that no call ends by itself.
pub fn law_made()
    ensures { MadeLaw }
{}
