//! Holds a session over the machine of an image, or over a booted system.

ghost use Rattle.std.specs.Prelude.{◌≡◌, IfOk};
ghost use Rattle.m36_program.specs.Performs.{Performs};
ghost use Rattle.cmd_folder.specs.BootedSystems.{IsFresh};
ghost use Rattle.m36_debug.specs.Session.{machine_relations};
ghost use Rattle.m36_debug.specs.SessionProgram.{stdin_name, session};
ghost use Rattle.cmd_debug.specs.DebugProgram.{on_image, on_library, debug_image, debug_folder};
ghost use Rattle.cmd_debug.specs.Held.{new_history};

use crate::ending::{ended_by, stdin_name};
use cmd_folder::read_system;
use cmd_image::machine::machine_of;
use cmd_image::reading::read_state;
use m36_back::Past;
use m36_debug::debug;
use m36_image::Image;
use m36_outside::Text;
use m36_status::Status;
use m36_step::{Machine, Stepper};
use m36_super::Super;
use m36_word::NoMemory;
use m36_world::World;
use std::alloc::Global;

// Holds a session over a machine. `name` is the name of the standard input, for S1.
fn hold_session<M: Stepper, W: World>(
    alloc: Global,
    name: Text,
    machine: &mut M,
    world: &mut W,
) -> Result<(), Status>
    requires { name ≡ stdin_name }
    ensures { Performs (session (machine_relations M.regs M.content M.next M.went) machine.old)
        result
        (W.seen world.old) (W.seen world.new) }
{
    ended_by(debug(alloc, machine, world), name)
}

// The machine of an image, which can go back. The image's core is moved into it and not copied.
// Fails only with `NoMemory`.
fn past_of(alloc: Global, image: Image) -> Result<Past<Machine>, NoMemory>
    ensures { IfOk result (λ past. past ≡ new_history image) }
{
    let machine = machine_of(image);
    match Past::new(alloc, machine) {
        Ok(past) => Ok(past),
        Err(_) => Err(NoMemory),
    }
}

// Holds a session over the machine of an image.
#[tactic(auto, using(crate::proofs::DebugSteps::holding))]
fn hold_image_session<W: World>(alloc: Global, image: Image, world: &mut W) -> Result<(), Status>
    ensures { Performs (on_image image) result (W.seen world.old) (W.seen world.new) }
{
    let name = match stdin_name(alloc) {
        Ok(name) => name,
        Err(_) => return Err(Status::NoMemory),
    };
    let mut past = match past_of(alloc, image) {
        Ok(past) => past,
        Err(_) => return Err(Status::NoMemory),
    };
    hold_session(alloc, name, &mut past, world)
}

// Holds a session over a booted system.
#[tactic(auto, using(crate::proofs::DebugSteps::holding))]
fn hold_system_session<W: World>(
    alloc: Global,
    mut system: Super,
    world: &mut W,
) -> Result<(), Status>
    requires { IsFresh system }
    ensures { Performs (on_library system.lib) result (W.seen world.old) (W.seen world.new) }
{
    match stdin_name(alloc) {
        Ok(name) => hold_session(alloc, name, &mut system, world),
        Err(_) => Err(Status::NoMemory),
    }
}

/// Performs `debug FILE` over any world: reads the image, and holds a session over its machine. An
/// error is the status of the command.
pub fn debug_image<W: World>(alloc: Global, name: &[u8], world: &mut W) -> Result<(), Status>
    ensures { Performs (debug_image name.now) result (W.seen world.old) (W.seen world.new) }
{
    match read_state(alloc, name, world) {
        Ok(image) => hold_image_session(alloc, image, world),
        Err(status) => Err(status),
    }
}

/// Performs `debug` over any world: boots the folder, and holds a session over its system. An error
/// is the status of the command.
pub fn debug_folder<W: World>(alloc: Global, world: &mut W) -> Result<(), Status>
    ensures { Performs debug_folder result (W.seen world.old) (W.seen world.new) }
{
    match read_system(alloc, &None, world) {
        Ok(booted) => hold_system_session(alloc, booted.system, world),
        Err(status) => Err(status),
    }
}
