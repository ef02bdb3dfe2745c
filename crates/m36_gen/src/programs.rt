//! The sources of the programs and of the gate.

ghost use Rattle.std.specs.Prelude.{◌≡◌, ◌<◌, ◌++◌, IfOk, OnOk};
ghost use Rattle.m36_gen.specs.Lines.{program_count};
ghost use Rattle.m36_gen.specs.Sources.{entry_lines, adding_lines, storing_lines, loop_lines};
ghost use Rattle.m36_gen.specs.Sources.{following_line};
ghost use Rattle.m36_gen.specs.Sources.{source_text, stop_lines, stop_text};

use crate::draws::Draws;
use crate::lines::{put_line, put_line_with_name, put_line_with_number, segment_name};
use m36_outside::Text;
use m36_word::NoMemory;
use std::alloc::Global;

/// The number of programs.
pub const PROGRAMS: u64 = 64;

// Adds the lines before the loop of a program.
#[tactic(auto, unfolding(crate::specs::Sources::entry_lines), using(crate::proofs::Parts::together))]
fn put_entry(text: &mut Text) -> Result<(), NoMemory>
    ensures { OnOk result (text.new ≡ text.old ++ entry_lines) }
{
    put_line(text, b" entry start")?;
    put_line(text, b"start: epaq 0,ic")?;
    put_line(text, b" lprp4 pr7|22,*au")
}

// Adds the beginning of the loop, which adds to X1.
#[tactic(auto, unfolding(crate::specs::Sources::adding_lines), using(crate::proofs::Parts::together))]
fn put_adding(text: &mut Text, draws: Draws) -> Result<(), NoMemory>
    ensures { OnOk result (text.new ≡ text.old ++ adding_lines draws) }
{
    put_line_with_number(text, b" epp1 d_$+", draws.offset, b"")?;
    put_line_with_number(text, b" eax2 ", draws.count, b"")?;
    put_line_with_number(text, b"loop: eax1 ", draws.add, b",x1")
}

// Adds the end of the loop, which stores each sum in the data.
fn put_storing(text: &mut Text) -> Result<(), NoMemory>
    ensures { OnOk result (text.new ≡ text.old ++ storing_lines) }
{
    put_line(text, b" stx1 pr1|0,x2")?;
    put_line(text, b" eax2 -1,x2")?;
    put_line(text, b" tnz loop")
}

// Adds the loop of a program.
#[tactic(auto, unfolding(crate::specs::Sources::loop_lines), using(crate::proofs::Parts::together))]
fn put_loop(text: &mut Text, draws: Draws) -> Result<(), NoMemory>
    ensures { OnOk result (text.new ≡ text.old ++ loop_lines draws) }
{
    put_adding(text, draws)?;
    put_storing(text)
}

// Adds the line after the loop of program `i`.
#[tactic(auto, unfolding(crate::specs::Sources::following_line))]
fn put_following(text: &mut Text, i: u64) -> Result<(), NoMemory>
    requires { i < program_count }
    ensures { OnOk result (text.new ≡ text.old ++ following_line i) }
{
    if i == PROGRAMS - 1 {
        put_line(text, b" call6 stop_$stop")
    } else {
        put_line_with_name(text, b" tra ", segment_name(i + 1).bytes(), b"$start")
    }
}

/// The source of program `i`, counted from 0.
#[tactic(auto, unfolding(crate::specs::Sources::source_text))]
pub fn source(alloc: Global, i: u64, draws: Draws) -> Result<Text, NoMemory>
    requires { i < program_count }
    ensures { IfOk result (λ text. text ≡ source_text i draws) }
{
    let mut text = Text::new(alloc);
    put_entry(&mut text)?;
    put_loop(&mut text, draws)?;
    put_following(&mut text, i)?;
    put_line(&mut text, b" end")?;
    Ok(text)
}

// Adds the lines of the gate.
fn put_stop(text: &mut Text) -> Result<(), NoMemory>
    ensures { OnOk result (text.new ≡ text.old ++ stop_lines) }
{
    put_line(text, b" entry stop")?;
    put_line(text, b"stop: dis 0")?;
    put_line(text, b" entrybound")
}

/// The source of the gate that stops the machine.
#[tactic(auto, unfolding(crate::specs::Sources::stop_text))]
pub fn stop_source(alloc: Global) -> Result<Text, NoMemory>
    ensures { IfOk result (λ text. text ≡ stop_text) }
{
    let mut text = Text::new(alloc);
    put_stop(&mut text)?;
    put_line(&mut text, b" end")?;
    Ok(text)
}
