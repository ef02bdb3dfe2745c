//! Laws of the commands.

ghost use Rattle.m36_top.specs.CommandLaws.{CommandLaws};

/// What each command does with what it reads.
///
/// If a file is refused, the command prints nothing and ends with that refusal, unless a call fails
/// or memory runs out. An image has one list of findings, and so have processes. It is empty
/// exactly if all conditions of the audit hold, and what is printed follows from it. A folder boots
/// at most one system, and its runs make the same turns up to the first that executes ABSA or LDBR;
/// if one run executes neither and ends with DIS, each run does. What `make` prints of a folder
/// follows from the audit of the system that it boots. `debug` takes input only in a session over
/// what it read.
///
/// `bare FILE`, `audit FILE`, `audit`, `procs FILE`, `print`, `access`, `alm` and `bind` have one
/// text each: over the same files, what a call prints, however it ends, is a first part of what any
/// call prints that ends as the program says, without a fault and without running out of memory. So
/// have `run` and `trace` if a run executes neither ABSA nor LDBR, and `debug FILE` over the same
/// bytes of input.
pub fn law_commands()
    ensures { CommandLaws }
{}
