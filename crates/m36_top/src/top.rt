//! The top call.

ghost use Rattle.std.specs.Prelude.{◌≡◌, ◌↔◌, None};
ghost use Rattle.m36_program.specs.Objects.{objects_as_world};
ghost use Rattle.m36_program.specs.Performs.{Performs};
ghost use Rattle.m36_top.specs.Words.{command_of};
ghost use Rattle.m36_top.specs.Programs.{program};
ghost use Rattle.m36_top.specs.TopCall.{WorldPerforms, TopCall, NeverFail, IsNoFault};

use crate::command::Command;
use crate::words::command_of;
use cmd_debug::{debug_folder, debug_image};
use cmd_folder::perform_folder_command;
use cmd_image::{ImageCommand, perform_image_command};
use cmd_make::perform_make;
use cmd_procs::perform_procs_command;
use cmd_tools::{assemble_file, bind_objects, print_access, print_object};
use m36_outside::{Folder, Lines, Sink, Text};
use m36_program::status_of_result;
use m36_status::Status;
use m36_world::{Borrowed, World};
use std::alloc::Global;

/// Performs a command over any world. An error is the status of the command; Ok is Done.
pub fn perform<W: World>(alloc: Global, command: &Command, world: &mut W) -> Result<(), Status>
    ensures { Performs (program command.now) result (W.seen world.old) (W.seen world.new) }
{
    match command {
        Command::Bare(file, run) => {
            perform_image_command(alloc, file.bytes(), ImageCommand::Bare(*run), world)
        }
        Command::Audit(file) => perform_image_command(
            alloc,
            file.bytes(),
            ImageCommand::Audit,
            world,
        ),
        Command::Booted(command, user) => perform_folder_command(alloc, *command, user, world),
        Command::Procs(file, unaudited) => perform_procs_command(
            alloc,
            file.bytes(),
            *unaudited,
            world,
        ),
        Command::Access(user) => print_access(alloc, user, world),
        Command::Print(name) => print_object(alloc, name.bytes(), world),
        Command::Alm(files) => assemble_file(alloc, files, world),
        Command::Bind(files) => bind_objects(alloc, files, world),
        Command::DebugFolder => debug_folder(alloc, world),
        Command::DebugImage(file) => debug_image(alloc, file.bytes(), world),
        Command::Make(seed) => perform_make(alloc, *seed, world),
    }
}

/// The simulator over a world, as [`m36`] calls it.
#[tactic(auto, using(crate::proofs::TopCalls::in_world))]
pub fn m36_in<W: World>(alloc: Global, words: &[Text], world: &mut W) -> Status
    // The command does what its program says: the events of the call, in their order, are those by
    // which the program goes to this status. For example a session prints the answers to all whole
    // lines before it takes more of the input.
    ensures performs { WorldPerforms (command_of words.now) result
        (W.seen world.old) (W.seen world.new) }

    // The status is Usage exactly if the words are no command, and then nothing changes.
    ensures usage { (result ≡ Status.Usage) ↔ (command_of words.now ≡ None) }
    ensures untouched { command_of words.now ≡ None → world.new ≡ world.old }
{
    match command_of(words) {
        Some(command) => {
            let outcome = perform(alloc, &command, world);
            status_of_result(outcome)
        }
        None => Status::Usage,
    }
}

/// The simulator: does what the words of the command line ask for, and returns how that ended.
///
/// `words` are those after the name of the program. The root doc of this crate says what each
/// command does, and `specs/Words.antt` which words it takes. In addition:
///
/// - `bare FILE`, `run` and `trace` take at most the steps of `--steps`, 100,000 by default.
/// - `run` and `trace` with `--user`: if the run ended because a right to a segment of the catalog
///   was missing, the line `denied` of that segment follows the end line.
/// - `procs FILE` prints a line for each event of the schedule, and the last line.
/// - `print NAME` and `bind NAME` read objects as packed words. `alm NAME` and `bind NAME` write
///   them so.
/// - `make SEED` prints how many segments the folder has and what the audit finds. If the audit
///   passes, it runs the system, and prints how the run ended and what it left in X1.
pub fn m36<F: Folder, L: Lines, S: Sink>(
    alloc: Global,
    words: &[Text],
    folder: &mut F,
    lines: &mut L,
    out: &mut S,
) -> Status
    // What the command does, when it ends with a fault and when with Done, what `audit yes`
    // promises, and that only some commands write files or take input: the parts of `TopCall`, each
    // by what the three objects record of the call.
    ensures call { TopCall (command_of words.now) result
        (objects_as_world F.asked F.wrote F.files F.read_faults F.write_faults L.given L.left
        L.faults
        S.taken S.written S.faults folder.old lines.old out.old)
        (objects_as_world F.asked F.wrote F.files F.read_faults F.write_faults L.given L.left
        L.faults
        S.taken S.written S.faults folder.new lines.new out.new) }

    // Over a folder, an input and an output that never fail, ReadFault and WriteFault never occur.
    ensures sure { NeverFail F.read_faults F.write_faults L.faults S.faults → IsNoFault result }

    // The status is Usage exactly if the words are no command, and then nothing changes.
    ensures usage { (result ≡ Status.Usage) ↔ (command_of words.now ≡ None) }
    ensures folder_untouched { command_of words.now ≡ None → folder.new ≡ folder.old }
    ensures sink_untouched { command_of words.now ≡ None → out.new ≡ out.old }
    ensures lines_untouched { command_of words.now ≡ None → lines.new ≡ lines.old }
{
    let mut world = Borrowed::new(folder, lines, out);
    m36_in(alloc, words, &mut world)
}
