//! The line of a console service.

ghost use Rattle.std.specs.Prelude.{◌≡◌, ◌+◌, ◌≤◌, ◌++◌, length};
ghost use Rattle.m36_turns.specs.TurnLines.{is_escaped, console_character, console_line_of};

use crate::append::append;
use arrayvec::ArrayVec;
use m36_step::ConsoleNote;
use m36_text::octal;

// Whether a character is printed as a backslash and three octal digits: a backslash itself, and
// every character outside octal 40 to 176.
fn is_escaped(character: u8) -> bool
    ensures { result ≡ is_escaped character }
{
    character == b'\\' || character <= 31 || 127 <= character
}

// Appends a character as it is, or as a backslash and three octal digits.
#[tactic(auto, unfolding(crate::specs::TurnLines::console_character))]
fn put_character(line: &mut ArrayVec<u8, 1040>, character: u8)
    requires { length line.old.items + 4 ≤ 1040 }
    ensures text { line.new.items ≡ line.old.items ++ console_character character }
    ensures len { length line.new.items ≤ length line.old.items + 4 }
{
    if is_escaped(character) {
        append(line, b"\\");
        append(line, octal(character as u64, 3).as_str().as_bytes());
    } else {
        append(line, &[character]);
    }
}

/// The line of a console service, without a line feed. It has at most 1,032 bytes.
#[tactic(auto, unfolding(crate::specs::TurnLines::console_line_of), using(crate::proofs::Lines::put_on))]
pub fn console_line(note: &ConsoleNote) -> ArrayVec<u8, 1040>
    ensures text { result.items ≡ console_line_of note.now }
    ensures len { length result.items ≤ 1032 }
{
    let characters = note.bytes.as_slice();
    let mut line = ArrayVec::new();
    append(&mut line, b"console ");
    let mut rest = characters;
    while let [character, others @ ..] = rest {
        put_character(&mut line, *character);
        rest = others;
    }
    line
}
