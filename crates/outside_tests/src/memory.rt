//! Files, input and output in memory, with calls that fail. Expected values were worked out by
//! hand.

use crate::answers::{Expected, reads};
use m36_outside::{
    Block, Folder, Lines, MemFolder, MemLines, MemSink, Piece, Put, Sink, SureLines, Text,
    WriteAnswer,
};
use m36_word::NoMemory;
use std::alloc::Global;
use std::process::Abort;

/// Adds two bytes one by one, and then six at once.
fn grow(text: &mut Text) -> Result<(), NoMemory> {
    for byte in [b'm', b'3'] {
        text.push(byte)?;
    }
    text.append(b"6 bare")
}

/// Whether a text that grew has these bytes.
fn has_grown(alloc: Global, bytes: &[u8]) -> Result<bool, NoMemory> {
    let mut text = Text::new(alloc);
    let grown = grow(&mut text);
    let told = text.bytes() == bytes;
    drop(text);
    grown?;
    Ok(told)
}

#[test]
fn text_grows_at_its_end(rt: HostRuntime) -> Result<(), NoMemory> {
    let same = Text::from_bytes(rt.alloc(), b"m36 bare")?;
    let grown = has_grown(rt.alloc(), same.bytes());
    let told = same.bytes() == b"m36 bare".as_slice();
    drop(same);
    assert!(rt; grown? && told);
    Ok(())
}

/// A call of a folder, with its expected answer.
#[derive(Clone, Copy)]
enum Call<'a> {
    /// The name of a file, and the answer of a read.
    Reads(&'a [u8], Expected<'a>),
    /// The name of a file, its new content, and the answer of a write.
    Writes(&'a [u8], &'a [u8], WriteAnswer),
}

/// Calls of a folder with the file `boot`. The second read fails, and so do the first write and the
/// third.
const CALLS: &[Call] = &[
    Call::Reads(b"boot", Expected::Content(b"frames 24\n")),
    Call::Reads(b"boot", Expected::Failed),
    Call::Reads(b"boo", Expected::Absent),
    Call::Writes(b"main", b"x", WriteAnswer::Failed),
    Call::Reads(b"main", Expected::Absent),
    Call::Writes(b"main", b"y", WriteAnswer::Written),
    Call::Writes(b"main", b"z", WriteAnswer::Failed),
    Call::Reads(b"main", Expected::Content(b"y")),
    Call::Writes(b"boot", b"frames 25\n", WriteAnswer::Written),
    Call::Reads(b"boot", Expected::Content(b"frames 25\n")),
    Call::Reads(b"main", Expected::Content(b"y")),
];

/// Whether a call gives its expected answer.
fn is_answered(alloc: Global, folder: &mut MemFolder, call: &Call) -> bool {
    match call {
        Call::Reads(name, due) => reads(folder, alloc, name, *due),
        Call::Writes(name, content, answer) => folder.write(alloc, name, content) == *answer,
    }
}

fn calls_are_answered(
    rt: &impl Abort,
    alloc: Global,
    folder: &mut MemFolder,
) -> Result<(), NoMemory> {
    folder.add(b"boot", b"frames 24\n")?;
    for (place, call) in CALLS.iter().enumerate() {
        assert!(rt; is_answered(alloc, folder, call), "call {place}");
    }
    Ok(())
}

#[test]
fn listed_calls_fail(rt: HostRuntime) -> Result<(), NoMemory> {
    let mut folder = MemFolder::new(rt.alloc(), &[2], &[1, 3])?;
    let answered = calls_are_answered(&rt, rt.alloc(), &mut folder);
    drop(folder);
    answered
}

/// The answers of an input whose second call fails, and their bytes. An input that never fails
/// gives the same without that row.
const PIECES: &[(Piece, &[u8])] = &[
    (Piece::Got(7), b"step\nqu"),
    (Piece::Failed, b""),
    (Piece::Got(3), b"it\n"),
    (Piece::End, b""),
];

/// Whether the next piece is this one.
fn gives<L: Lines>(lines: &mut L, (want, bytes): (Piece, &[u8])) -> bool {
    let mut buffer = [0; 7];
    lines.next_piece(&mut buffer) == want && buffer.starts_with(bytes)
}

#[test]
fn input_gives_pieces(rt: HostRuntime) -> Result<(), NoMemory> {
    let mut lines = MemLines::new(rt.alloc(), b"step\nquit\n", &[2])?;
    let mut sure = SureLines::new(rt.alloc(), b"step\nquit\n")?;
    for piece in PIECES {
        assert!(rt; gives(&mut lines, *piece), "{:?}", piece.1);
        assert!(rt;
            piece.0 == Piece::Failed || gives(&mut sure, *piece),
            "{:?}",
            piece.1
        );
    }
    Ok(())
}

/// Pieces put to an output with room for five bytes, whose second put fails, and the answers.
const PUTS: &[(&[u8], Put)] = &[
    (b"abc", Put::Done),
    (b"x", Put::Failed),
    (b"d", Put::Done),
    (b"efg", Put::Failed),
    (b"", Put::Done),
];

fn has_written(out: &MemSink, bytes: &[u8]) -> bool {
    out.bytes() == bytes
}

fn puts_are_answered(rt: &impl Abort, out: &mut MemSink) {
    for (piece, want) in PUTS {
        assert!(rt; out.put(piece) == *want, "{piece:?}");
    }
}

#[test]
fn output_fails_past_its_room(rt: HostRuntime) -> Result<(), NoMemory> {
    let mut out = MemSink::new(rt.alloc(), 5, &[2])?;
    puts_are_answered(&rt, &mut out);
    let told = has_written(&out, b"abcde");
    drop(out);
    assert!(rt; told);
    Ok(())
}

/// What is written after each of three blocks of three pieces, in an output with room for nine
/// bytes whose third put fails.
const BLOCKS: &[&[u8]] = &[b"a\nb\n", b"a\nb\na\nb\nc", b"a\nb\na\nb\nc"];

/// Whether three pieces can be added to a block, and handing over the block then fails.
fn block_fails(out: &mut MemSink) -> bool {
    let mut block = Block::new();
    for piece in [b"a\n", b"b\n", b"c\n"] {
        if block.add(piece, out) != Put::Done {
            return false;
        }
    }
    block.hand_over(out) == Put::Failed
}

fn blocks_fail(out: &mut MemSink) -> bool {
    for written in BLOCKS {
        if !block_fails(out) || !has_written(out, written) {
            return false;
        }
    }
    true
}

#[test]
fn output_takes_blocks_piece_by_piece(rt: HostRuntime) -> Result<(), NoMemory> {
    let mut out = MemSink::new(rt.alloc(), 9, &[3])?;
    let told = blocks_fail(&mut out);
    drop(out);
    assert!(rt; told);
    Ok(())
}
