//! Disassembly: the text of a word as an instruction.

ghost use Rattle.std.specs.Prelude.{◌≡◌, ◌+◌, ◌*◌, ◌≤◌, ◌<◌, ◌^◌, ◌++◌, length, codes};
ghost use Rattle.m36_text.specs.Digits.{decimal_text};
ghost use Rattle.m36_list.specs.Disassembly.{disassembly, octal_constant, address_text};
ghost use Rattle.m36_list.specs.Disassembly.{signed_text};

use crate::modifiers::modifier_text;
use arrayvec::ArrayString;
use m36_inst::{Inst, name_of};
use m36_text::{decimal, octal};
use m36_word::Word;

/// The text of a word as an instruction: name, address and modifier. It is `oct` and twelve digits
/// if no instruction has the operation code, the inhibit bit is on, or the tag is an IT tag other
/// than `sd`, `i`, `ad`, `di` and `id`. It has at most 24 bytes.
#[tactic(auto, unfolding(crate::specs::Disassembly::disassembly))]
pub fn disassemble(w: Word) -> ArrayString<32>
    ensures text { result.bytes ≡ disassembly w }
    ensures len { length result.bytes ≤ 24 }
{
    let inst = Inst::of_word(w);
    if inst.inhibit {
        return constant(w);
    }
    match (name_of(inst.code, inst.bit27), modifier_text(inst.tag)) {
        (Some(name), Some(modifier)) => instruction(name.as_str(), &inst, modifier),
        _ => constant(w),
    }
}

// The text of a word that is not shown as an instruction: `oct` and twelve octal digits.
fn constant(w: Word) -> ArrayString<32>
    ensures text { result.bytes ≡ octal_constant w }
    ensures len { length result.bytes ≡ 16 }
{
    let mut line = ArrayString::new();
    line.push_str("oct ");
    line.push_str(octal(w.value(), 12).as_str());
    line
}

// The name, a space, the address and the modifier.
fn instruction(name: &str, inst: &Inst, modifier: &str) -> ArrayString<32>
    requires name { length name.now ≤ 8 }
    requires modifier { length modifier.now ≤ 4 }
    ensures text { result.bytes ≡ name.now ++ codes " " ++ address_text inst.now ++ modifier.now }
    ensures len { length result.bytes ≤ 24 }
{
    let mut line = ArrayString::new();
    line.push_str(name);
    line.push_str(" ");
    put_address(&mut line, inst);
    line.push_str(modifier);
    line
}

// Adds the address, or the pointer register and the signed offset from it.
fn put_address(line: &mut ArrayString<32>, inst: &Inst)
    requires room { length line.old.bytes + 11 ≤ 32 }
    ensures text { line.new.bytes ≡ line.old.bytes ++ address_text inst.now }
    ensures len { length line.new.bytes ≤ length line.old.bytes + 11 }
{
    if inst.by_pr {
        line.push_str("pr");
        line.push((b'0' + (inst.y >> 15) as u8) as char);
        line.push_str("|");
        put_offset(line, inst.y % (1 << 15));
    } else {
        put_number(line, inst.y);
    }
}

// Adds the text in decimal of a signed number of 15 bits, in two's complement.
#[tactic(auto, unfolding(crate::specs::Disassembly::signed_text))]
fn put_offset(line: &mut ArrayString<32>, offset: u32)
    requires offset { offset < 2 ^ 15 }
    requires room { length line.old.bytes + 7 ≤ 32 }
    ensures text { line.new.bytes ≡ line.old.bytes ++ signed_text offset }
    ensures len { length line.new.bytes ≤ length line.old.bytes + 7 }
{
    if offset < 1 << 14 {
        put_number(line, offset);
    } else {
        line.push_str("-");
        put_number(line, (1 << 15) - offset);
    }
}

// Adds a number in decimal.
#[tactic(auto, using(crate::proofs::Lengths::short_decimal))]
fn put_number(line: &mut ArrayString<32>, v: u32)
    requires fits { v < 2 ^ 18 }
    requires room { length line.old.bytes + 6 ≤ 32 }
    ensures text { line.new.bytes ≡ line.old.bytes ++ decimal_text v }
    ensures len { length line.new.bytes ≤ length line.old.bytes + 6 }
{
    line.push_str(decimal(v as u64).as_str());
}
