//! Writes the lines of the registers.

ghost use Rattle.std.specs.Prelude.{ℕ, ◌≡◌, ◌≤◌, ◌<◌, ◌+◌, ◌*◌, ◌^◌, ◌++◌, [], ◌∷◌, length};
ghost use Rattle.std.specs.Prelude.{slice_index};
ghost use Rattle.std.specs.List.{flat_map};
ghost use Rattle.m36_debug.specs.Putting.{pending, PutsPieces};
ghost use Rattle.m36_debug.specs.SessionTexts.{a_line, index_text, x_line, pointer_line};
ghost use Rattle.m36_debug.specs.SessionTexts.{pointer_lines, regs_lines};

use crate::putting::put_text;
use arrayvec::ArrayString;
use m36_desc::Ptr;
use m36_model::{At, Regs};
use m36_outside::{Block, Put};
use m36_text::octal;
use m36_trace::{put_address, put_indicators};
use m36_world::World;

// Writes A, Q and the indicators.
#[tactic(auto, unfolding(crate::specs::SessionTexts::a_line))]
fn put_a<W: World>(block: &mut Block, world: &mut W, regs: &Regs) -> Put
    ensures { PutsPieces result (a_line regs.now ∷ [])
        (pending block.old (W.seen world.old))
        (pending block.new (W.seen world.new)) }
{
    let mut text: ArrayString<80> = ArrayString::new();
    text.push_str("a ");
    text.push_str(octal(regs.a.value(), 12).as_str());
    text.push_str(" q ");
    text.push_str(octal(regs.q.value(), 12).as_str());
    text.push_str(" ind ");
    put_indicators(&mut text, &regs.ind);
    put_text(block, world, text)
}

// Appends the index registers, each after a space.
fn push_indexes(text: &mut ArrayString<80>, indexes: &[u32])
    requires width { (k : ℕ) → slice_index indexes.now k < 2 ^ 18 }
    requires room { length text.old.bytes + 7 * length indexes.now ≤ 80 }
    ensures text { text.new.bytes ≡ text.old.bytes ++ flat_map index_text indexes.now }
    ensures len { length text.new.bytes ≡ length text.old.bytes + 7 * length indexes.now }
{
    for x in indexes {
        text.push_str(" ");
        text.push_str(octal(*x as u64, 6).as_str());
    }
}

// Writes the index registers.
#[tactic(auto, unfolding(crate::specs::SessionTexts::x_line))]
fn put_x<W: World>(block: &mut Block, world: &mut W, regs: &Regs) -> Put
    ensures { PutsPieces result (x_line regs.now ∷ [])
        (pending block.old (W.seen world.old))
        (pending block.new (W.seen world.new)) }
{
    let mut text = ArrayString::new();
    text.push_str("x");
    push_indexes(&mut text, &regs.x);
    put_text(block, world, text)
}

// Writes a pointer register, with its number.
#[tactic(auto, unfolding(crate::specs::SessionTexts::pointer_line))]
fn put_pointer<W: World>(block: &mut Block, world: &mut W, n: u32, pointer: &Ptr) -> Put
    requires { n < 8 }
    ensures { PutsPieces result (pointer_line n pointer.now ∷ [])
        (pending block.old (W.seen world.old))
        (pending block.new (W.seen world.new)) }
{
    let mut text: ArrayString<80> = ArrayString::new();
    text.push_str("pr");
    text.push_str(octal(n as u64, 1).as_str());
    text.push_str(" ");
    put_address(
        &mut text,
        At {
            word: pointer.word,
            seg: pointer.seg,
            ring: pointer.ring,
        },
    );
    text.push_str(" ");
    text.push_str(octal(pointer.bit as u64, 2).as_str());
    put_text(block, world, text)
}

// Writes pointer registers, numbered from 0.
#[tactic(auto, using(crate::proofs::PutLaws::pointers))]
fn put_pointers<W: World>(block: &mut Block, world: &mut W, pointers: &[Ptr]) -> Put
    requires { length pointers.now ≤ 8 }
    ensures { PutsPieces result (pointer_lines 0 pointers.now)
        (pending block.old (W.seen world.old))
        (pending block.new (W.seen world.new)) }
{
    let mut n: u32 = 0;
    for pointer in pointers {
        match put_pointer(block, world, n, pointer) {
            Put::Done => {}
            Put::Failed => return Put::Failed,
        }
        n += 1;
    }
    Put::Done
}

// Writes the pointer registers, a line each.
fn put_pr<W: World>(block: &mut Block, world: &mut W, regs: &Regs) -> Put
    ensures { PutsPieces result (pointer_lines 0 regs.now.pr)
        (pending block.old (W.seen world.old))
        (pending block.new (W.seen world.new)) }
{
    put_pointers(block, world, &regs.pr)
}

/// Writes the answer to `regs`: all registers.
pub(crate) fn put_regs<W: World>(block: &mut Block, world: &mut W, regs: &Regs) -> Put
    ensures { PutsPieces result (regs_lines regs.now)
        (pending block.old (W.seen world.old))
        (pending block.new (W.seen world.new)) }
{
    match put_a(block, world, regs) {
        Put::Done => {}
        Put::Failed => return Put::Failed,
    }
    match put_x(block, world, regs) {
        Put::Done => {}
        Put::Failed => return Put::Failed,
    }
    put_pr(block, world, regs)
}
