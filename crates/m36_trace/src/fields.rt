//! Appends the fields of a trace line to a line that has room for them.

ghost use Rattle.std.specs.Prelude.{◌≡◌, ◌+◌, ◌≤◌, ◌<◌, ◌^◌, ◌++◌, length};
ghost use Rattle.m36_text.specs.Digits.{octal_text, decimal_text, word_text};
ghost use Rattle.m36_trace.specs.TraceLine.{segment_word_text, instruction_text, address_text};
ghost use Rattle.m36_trace.specs.TraceLine.{operand_text, final_text, letter, indicators_text};
ghost use Rattle.m36_trace.specs.TraceLine.{fault_text};
ghost use Rattle.m36_trace.specs.TraceLine.{stop_text, outcome_text};

use crate::digits::{place_digits, put_characters, ring_digit, word_digits};
use arrayvec::ArrayString;
use m36_model::{At, Fault, Final, Ind, Outcome, Stop};
use m36_text::decimal;
use m36_word::Word;

/// The number of the access violation fault.
const ACCESS_VIOLATION: u8 = 20;

/// Appends a ring, in one digit.
#[tactic(auto, using(m36_text::proofs::DigitLaws::octal_ascii))]
pub fn put_ring<const CAP: usize>(line: &mut ArrayString<CAP>, ring: u8)
    requires ring { ring < 2 ^ 3 }
    requires room { length line.old.bytes < CAP }
    ensures text { line.new.bytes ≡ line.old.bytes ++ octal_text 1 ring }
    ensures len { length line.new.bytes ≡ length line.old.bytes + 1 }
{
    put_characters(line, &ring_digit(ring));
}

/// Appends a word, in twelve digits.
#[tactic(auto, using(m36_text::proofs::DigitLaws::octal_ascii))]
pub fn put_word(line: &mut ArrayString<160>, word: Word)
    requires room { length line.old.bytes + 12 ≤ 160 }
    ensures text { line.new.bytes ≡ line.old.bytes ++ word_text word }
    ensures len { length line.new.bytes ≡ length line.old.bytes + 12 }
{
    put_characters(line, &word_digits(word));
}

/// Appends a segment number and a word number to any text that has room for them.
#[tactic(auto, using(crate::proofs::Ascii::place_is_ascii))]
pub fn put_place<const CAP: usize>(line: &mut ArrayString<CAP>, seg: u16, word: u32)
    requires seg { seg < 2 ^ 15 }
    requires word { word < 2 ^ 18 }
    requires room { length line.old.bytes + 12 ≤ CAP }
    ensures text { line.new.bytes ≡ line.old.bytes ++ segment_word_text seg word }
    ensures len { length line.new.bytes ≡ length line.old.bytes + 12 }
{
    put_characters(line, &place_digits(seg, word));
}

/// Appends the instruction's word, or a dash if there is none.
pub fn put_instruction(line: &mut ArrayString<160>, word: Option<Word>)
    requires room { length line.old.bytes + 12 ≤ 160 }
    ensures text { line.new.bytes ≡ line.old.bytes ++ instruction_text word }
    ensures len { length line.new.bytes ≤ length line.old.bytes + 12 }
{
    match word {
        Some(word) => put_word(line, word),
        None => line.push_str("-"),
    }
}

/// Appends an address with its ring to any text that has room for it.
pub fn put_address<const CAP: usize>(line: &mut ArrayString<CAP>, at: At)
    requires room { length line.old.bytes + 14 ≤ CAP }
    ensures text { line.new.bytes ≡ line.old.bytes ++ address_text at }
    ensures len { length line.new.bytes ≡ length line.old.bytes + 14 }
{
    put_ring(line, at.ring);
    line.push_str(":");
    put_place(line, at.seg, at.word);
}

/// Appends the final address or the direct operand, or a dash if no address was formed.
pub fn put_final(line: &mut ArrayString<160>, end: Option<Final>)
    requires room { length line.old.bytes + 14 ≤ 160 }
    ensures text { line.new.bytes ≡ line.old.bytes ++ final_text end }
    ensures len { length line.new.bytes ≤ length line.old.bytes + 14 }
{
    match end {
        Some(end) => put_operand(line, end.at, end.direct),
        None => line.push_str("-"),
    }
}

/// Appends an address, or an equals sign and the direct operand.
pub fn put_operand(line: &mut ArrayString<160>, at: At, direct: Option<Word>)
    requires room { length line.old.bytes + 14 ≤ 160 }
    ensures text { line.new.bytes ≡ line.old.bytes ++ operand_text at direct }
    ensures len { length line.new.bytes ≤ length line.old.bytes + 14 }
{
    match direct {
        Some(word) => {
            line.push_str("=");
            put_word(line, word);
        }
        None => put_address(line, at),
    }
}

/// Appends the letter of an indicator that is on, or a point for one that is off.
pub fn put_indicator<const CAP: usize>(line: &mut ArrayString<CAP>, name: &str, on: bool)
    requires one { length name.now ≡ 1 }
    requires room { length line.old.bytes < CAP }
    ensures text { line.new.bytes ≡ line.old.bytes ++ letter name.now on }
    ensures len { length line.new.bytes ≡ length line.old.bytes + 1 }
{
    line.push_str(if on { name } else { "." });
}

/// Appends the six indicators to any text that has room for them.
pub fn put_indicators<const CAP: usize>(line: &mut ArrayString<CAP>, ind: &Ind)
    requires room { length line.old.bytes + 6 ≤ CAP }
    ensures text { line.new.bytes ≡ line.old.bytes ++ indicators_text ind.now }
    ensures len { length line.new.bytes ≡ length line.old.bytes + 6 }
{
    put_indicator(line, "z", ind.zero);
    put_indicator(line, "n", ind.negative);
    put_indicator(line, "c", ind.carry);
    put_indicator(line, "o", ind.overflow);
    put_indicator(line, "m", ind.mask);
    put_indicator(line, "t", ind.tally);
}

/// Appends a decimal number.
pub fn put_decimal(line: &mut ArrayString<160>, v: u64)
    requires room { length line.old.bytes + 20 ≤ 160 }
    ensures text { line.new.bytes ≡ line.old.bytes ++ decimal_text v }
    ensures len { length line.new.bytes ≤ length line.old.bytes + 20 }
{
    line.push_str(decimal(v).as_str());
}

/// Appends the number of a fault and, for an access violation, its own number after a point.
pub fn put_fault(line: &mut ArrayString<160>, fault: Fault)
    requires room { length line.old.bytes + 47 ≤ 160 }
    ensures text { line.new.bytes ≡ line.old.bytes ++ fault_text fault }
    ensures len { length line.new.bytes ≤ length line.old.bytes + 47 }
{
    line.push_str("fault ");
    put_decimal(line, fault.number as u64);
    if fault.number == ACCESS_VIOLATION {
        line.push_str(".");
        put_decimal(line, fault.acv as u64);
    }
}

/// The name of a stop.
pub fn stop_name(stop: Stop) -> &'static str
    ensures text { result.now ≡ stop_text stop }
    ensures len { length result.now ≤ 14 }
{
    match stop {
        Stop::Dis => "dis",
        Stop::Operation => "stop operation",
        Stop::Tag => "stop tag",
    }
}

/// Appends the outcome.
pub fn put_outcome(line: &mut ArrayString<160>, outcome: Outcome)
    requires room { length line.old.bytes + 47 ≤ 160 }
    ensures text { line.new.bytes ≡ line.old.bytes ++ outcome_text outcome }
    ensures len { length line.new.bytes ≤ length line.old.bytes + 47 }
{
    match outcome {
        Outcome::Next => line.push_str("next"),
        Outcome::Faulted(fault) => put_fault(line, fault),
        Outcome::Stopped(stop) => line.push_str(stop_name(stop)),
    }
}
