//! A function over any world, and a caller that lends it a folder, an input and an output.

ghost use Rattle.std.specs.Prelude.{ℕ, [], ◌∷◌, ◌++◌, ◌≡◌, List, MatchResult};
ghost use Rattle.m36_outside.specs.Passing.{TakesLines};
ghost use Rattle.m36_world.specs.Follow.{Follow};
ghost use Rattle.m36_world.specs.CallEvents.{put_events};

use crate::answers::{Expected, is_expected};
use m36_outside::{
    Block, Folder, Lines, MemFolder, MemLines, MemSink, Piece, Put, ReadAnswer, Sink, SureFolder,
    SureLines, WriteAnswer,
};
use m36_word::NoMemory;
use m36_world::{Borrowed, Event, Outside, World};
use std::alloc::Global;

/// Reads a file and puts its content.
fn show<W: World>(alloc: Global, name: &[u8], world: &mut W) -> Result<Put, ReadAnswer>
    ensures { MatchResult result
        (λ put. (bytes : List ℕ) × Follow
        (Event.FileRead name.now (ReadAnswer.Read bytes) ∷ put_events put bytes)
        (W.seen world.old) (W.seen world.new))
        (λ answer. Follow
        (Event.FileRead name.now answer ∷ []) (W.seen world.old) (W.seen world.new)) }
{
    match world.read(alloc, name) {
        ReadAnswer::Read(text) => Ok(world.put(text.bytes())),
        other => Err(other),
    }
}

/// As `show`, over three objects of the caller. The contract says what happened to each of them.
fn show_from<F: Folder, L: Lines, S: Sink>(
    alloc: Global,
    name: &[u8],
    folder: &mut F,
    input: &mut L,
    output: &mut S,
) -> Result<Put, ReadAnswer>
    ensures through { MatchResult result
        (λ put. (bytes : List ℕ)
        × (F.asked folder.new ≡ F.asked folder.old ++ (name.now, ReadAnswer.Read bytes) ∷ [])
        × TakesLines put (S.taken output.old) (S.taken output.new) (bytes ∷ []))
        (λ answer. (F.asked folder.new ≡ F.asked folder.old ++ (name.now, answer) ∷ [])
        × (S.taken output.new ≡ S.taken output.old)) }
    ensures wrote { F.wrote folder.new ≡ F.wrote folder.old }
    ensures given { L.given input.new ≡ L.given input.old }
{
    let mut world = Borrowed::new(folder, input, output);
    show(alloc, name, &mut world)
}

/// The output's room in bytes, the number of the put that fails (0 for none), the expected answer,
/// and what is written.
const ROOMS: &[(usize, u32, Put, &[u8])] = &[
    (8, 0, Put::Done, b"dis\n"),
    (3, 0, Put::Failed, b"dis"),
    (8, 1, Put::Failed, b""),
];

/// Whether a file is shown as the row says, and an absent file is not shown.
fn is_shown(
    alloc: Global,
    folder: &mut SureFolder,
    input: &mut SureLines,
    row: &(usize, u32, Put, &[u8]),
) -> Result<bool, NoMemory> {
    folder.add(b"a", b"dis\n")?;
    let (room, fail, want, written) = row;
    let mut output = MemSink::new(alloc, *room, &[*fail])?;
    let first = show_from(alloc, b"a", folder, input, &mut output);
    let second = show_from(alloc, b"b", folder, input, &mut output);
    let holds = output.bytes() == *written
        && matches!(&first, Ok(put) if *put == *want)
        && matches!(&second, Err(answer) if is_expected(answer, Expected::Absent));
    drop(first);
    drop(second);
    drop(output);
    Ok(holds)
}

fn is_row_met(alloc: Global, row: &(usize, u32, Put, &[u8])) -> Result<bool, NoMemory> {
    let mut folder = SureFolder::new(alloc)?;
    let holds = match SureLines::new(alloc, b"") {
        Ok(mut input) => {
            let holds = is_shown(alloc, &mut folder, &mut input, row);
            drop(input);
            holds
        }
        Err(cause) => Err(cause),
    };
    drop(folder);
    holds
}

#[test]
fn lent_objects_hold_what_was_done(rt: HostRuntime) -> Result<(), NoMemory> {
    for row in ROOMS {
        assert!(rt;
            is_row_met(rt.alloc(), row)?,
            "room {} fail {}",
            row.0,
            row.1
        );
    }
    Ok(())
}

/// A folder whose first write fails, an input whose second call fails, and an output with room for
/// 15 bytes.
fn failing_world(alloc: Global) -> Result<Outside<MemFolder, MemLines, MemSink>, NoMemory> {
    let folder = MemFolder::new(alloc, &[], &[1])?;
    match MemLines::new(alloc, b"step\nquit\n", &[2]) {
        Ok(input) => match MemSink::new(alloc, 15, &[]) {
            Ok(output) => Ok(Outside::new(folder, input, output)),
            Err(cause) => {
                drop(folder);
                drop(input);
                Err(cause)
            }
        },
        Err(cause) => {
            drop(folder);
            Err(cause)
        }
    }
}

/// Takes a piece of input and puts it. Returns whether both succeeded.
fn echo_piece<W: World>(world: &mut W) -> bool {
    let mut buffer = [0; 4];
    match world.next_piece(&mut buffer) {
        Piece::Got(len) => world.put(&buffer[..len]) == Put::Done,
        _ => false,
    }
}

/// Whether the second of four calls fails, and the others put their pieces.
fn echoes<W: World>(world: &mut W) -> bool {
    for want in [true, false, true, true] {
        if echo_piece(world) != want {
            return false;
        }
    }
    true
}

/// Puts three pieces as one block.
fn put_three<W: World>(world: &mut W) -> Put {
    let mut block = Block::new();
    for piece in [b"a\n", b"b\n", b"c\n"] {
        block.push(piece);
    }
    world.put_block(&block)
}

/// Whether the first write of a file fails, the second succeeds, and a read gives its content.
fn keeps_a_file<W: World>(alloc: Global, world: &mut W) -> bool {
    if world.write(alloc, b"x", b"1") != WriteAnswer::Failed {
        return false;
    }
    if world.write(alloc, b"x", b"2") != WriteAnswer::Written {
        return false;
    }
    let answer = world.read(alloc, b"x");
    let holds = is_expected(&answer, Expected::Content(b"2"));
    drop(answer);
    holds
}

#[test]
fn an_owned_world_has_all_five_calls(rt: HostRuntime) -> Result<(), NoMemory> {
    let mut world = failing_world(rt.alloc())?;
    let echoed = echoes(&mut world);
    let put = put_three(&mut world);
    let kept = keeps_a_file(rt.alloc(), &mut world);
    let written = world.output().bytes() == b"step\nquit\na\nb\nc".as_slice();
    drop(world);
    assert!(rt; echoed);
    assert!(rt; put == Put::Failed);
    assert!(rt; kept && written);
    Ok(())
}
