//! The boot text.

ghost use Rattle.std.specs.Prelude.{◌≡◌, ◌≤◌, ◌++◌, IfOk, OnOk};
ghost use Rattle.m36_gen.specs.BootText.{segment_line, program_line, program_lines, boot_text};

use crate::lines::{put_line, put_line_with_name, segment_name};
use crate::programs::PROGRAMS;
use m36_outside::Text;
use m36_word::NoMemory;
use std::alloc::Global;

// Adds the line of a segment whose file has the same name. `has` is its kind, mode and brackets.
#[tactic(auto, using(crate::proofs::Parts::segment_put))]
fn put_segment(text: &mut Text, name: &[u8], has: &[u8]) -> Result<(), NoMemory>
    ensures { OnOk result (text.new ≡ text.old ++ segment_line name.now has.now) }
{
    text.append(b"segment >gen ")?;
    text.append(name)?;
    text.append(b" ")?;
    text.append(name)?;
    text.append(b" ")?;
    put_line(text, has)
}

// Adds the line of the segment of program `i`.
#[tactic(auto, unfolding(crate::specs::BootText::program_line))]
fn put_program(text: &mut Text, i: u64) -> Result<(), NoMemory>
    ensures { OnOk result (text.new ≡ text.old ++ program_line i) }
{
    put_segment(text, segment_name(i).bytes(), b"object re 4 4 4")
}

// Adds the lines of the segments of the first `count` programs.
#[tactic(auto, using(crate::proofs::OneMore::of_lines))]
fn put_programs(text: &mut Text, count: u64) -> Result<(), NoMemory>
    ensures { OnOk result (text.new ≡ text.old ++ program_lines count) }
{
    for i in 0..count {
        put_program(text, i)?;
    }
    Ok(())
}

/// The boot text, which is the same for each seed.
#[tactic(auto, unfolding(crate::specs::BootText::boot_text))]
pub fn boot_text(alloc: Global) -> Result<Text, NoMemory>
    ensures { IfOk result (λ text. text ≡ boot_text) }
{
    let mut text = Text::new(alloc);
    put_line(&mut text, b"frames 32")?;
    put_line(&mut text, b"work >gen")?;
    put_programs(&mut text, PROGRAMS)?;
    put_segment(&mut text, b"d_", b"data rw 4 4 4")?;
    put_segment(&mut text, b"stop_", b"gate rep 0 0 4")?;
    put_line_with_name(&mut text, b"start 4 ", segment_name(0).bytes(), b"$start")?;
    Ok(text)
}
