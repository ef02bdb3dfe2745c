//! Runs a schedule: a line for each of its events, and the last line.

ghost use Rattle.std.specs.Prelude.{◌≡◌, ◌<◌, ◌++◌, ◌∷◌, []};
ghost use Rattle.m36_procs.specs.ScheduleText.{event_line, end_line};
ghost use Rattle.m36_program.specs.Gathered.{Adds, Puts};
ghost use Rattle.m36_program.specs.Performs.{Performs};
ghost use Rattle.cmd_procs.specs.ProcsProgram.{run_schedule};

use m36_model::StepRecord;
use m36_outside::{Block, Put};
use m36_procs::{Procs, end_line, event_line};
use m36_program::{add_piece, finish};
use m36_status::Status;
use m36_world::World;

// Adds the line of event n to a block, as one piece.
fn add_event<W: World>(
    process: u8,
    n: u64,
    step: &StepRecord,
    block: &mut Block,
    world: &mut W,
) -> Put
    ensures adds { Adds result block.old block.new (event_line n process step.now ∷ [])
        (W.seen world.old) (W.seen world.new) }
{
    add_piece(
        block,
        event_line(process, n, step).as_str().as_bytes(),
        world,
    )
}

// Adds the last line to a block, as one piece, and hands the block over.
fn finish_run<W: World>(events: u64, block: &mut Block, world: &mut W) -> Put
    ensures puts { Puts result (block.old ++ end_line events ∷ [])
        (W.seen world.old) (W.seen world.new) }
{
    finish(block, end_line(events).as_str().as_bytes(), world)
}

/// Runs the schedule, and puts a line for each of its events and the last line. The lines are
/// gathered in a block, which is handed over when it is full and at the end of the run. Fails only
/// with WriteFault.
#[tactic(auto, using(crate::proofs::ScheduleLoop::running))]
pub fn run<W: World>(procs: &mut Procs, world: &mut W) -> Result<(), Status>
    ensures { Performs (run_schedule procs.old) result (W.seen world.old) (W.seen world.new) }
{
    let mut block = Block::new();
    let mut step = procs.new_record();
    let events = procs.events();
    for n in 0..events {
        let process = procs.process_at(n);
        procs.event_into(process as usize, &mut step);
        match add_event(process, n as u64 + 1, &step, &mut block, world) {
            Put::Done => {}
            Put::Failed => {
                // Dropped by a call, so that the drop is proved once for its type.
                drop(block);
                return Err(Status::WriteFault);
            }
        }
    }
    let ended = finish_run(events as u64, &mut block, world);
    drop(block);
    match ended {
        Put::Done => Ok(()),
        Put::Failed => Err(Status::WriteFault),
    }
}
