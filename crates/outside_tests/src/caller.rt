//! A function over any folder and sink: it reads one file and puts two lines. Its contract follows
//! from the contracts of the traits alone.

ghost use Rattle.std.specs.Prelude.{ℕ, [], ◌∷◌, ◌++◌, ◌≡◌, List, Some, IfSome, IfOk, IfErr};
ghost use Rattle.std.specs.Prelude.{MatchResult};
ghost use Rattle.m36_outside.specs.Passing.{TakesLines};
ghost use Rattle.m36_outside.specs.Put.{PutResult, PutHasCause};
ghost use Rattle.m36_outside.specs.ReadAnswer.{ReadResult, ReadHasCause};

use crate::answers::{Expected, is_expected};
use m36_outside::{Folder, MemFolder, MemSink, Put, ReadAnswer, Sink, SureFolder, SureSink};
use m36_word::NoMemory;
use std::alloc::Global;

/// The last line.
const END: &[u8] = b"end\n";

/// Puts a file's content as a line, and then the last line.
///
/// `through` holds for any folder and sink: one file was asked for, and the sink took the two
/// lines, or the part of them that its answer allows. `says` is for a folder whose files are in its
/// view: the first line is the content of the file, and what is written grew by the lines.
fn put_file<F: Folder, S: Sink>(
    alloc: Global,
    name: &[u8],
    folder: &mut F,
    out: &mut S,
) -> Result<Put, ReadAnswer>
    ensures through { MatchResult result
        (λ put. (bytes : List ℕ)
        × (F.asked folder.new ≡ F.asked folder.old ++ (name.now, ReadAnswer.Read bytes) ∷ [])
        × TakesLines put (S.taken out.old) (S.taken out.new) (bytes ∷ END.now ∷ []))
        (λ answer. (F.asked folder.new ≡ F.asked folder.old ++ (name.now, answer) ∷ [])
        × (S.taken out.new ≡ S.taken out.old)) }
    ensures says { IfSome (F.files folder.old) (λ files. MatchResult result
        (λ put. (bytes : List ℕ) × (files name.now ≡ Some bytes)
        × PutResult put (S.written out.old) (S.written out.new) (bytes ++ END.now))
        (λ answer. ReadResult answer (files name.now) × (S.written out.new ≡ S.written out.old))) }
    ensures read_cause { IfErr result (λ answer.
        ReadHasCause answer (F.read_faults folder.old) (F.read_faults folder.new)) }
    ensures write_cause { IfOk result (λ put.
        PutHasCause put (S.faults out.old) (S.faults out.new)) }
{
    match folder.read(alloc, name) {
        ReadAnswer::Read(text) => Ok(put_lines(text.bytes(), out)),
        other => Err(other),
    }
}

/// Puts a line, and then the last line.
fn put_lines<S: Sink>(line: &[u8], out: &mut S) -> Put
    ensures through { TakesLines result
        (S.taken out.old) (S.taken out.new) (line.now ∷ END.now ∷ []) }
    ensures says { PutResult result (S.written out.old) (S.written out.new) (line.now ++ END.now) }
    ensures cause { PutHasCause result (S.faults out.old) (S.faults out.new) }
{
    match out.put(line) {
        Put::Done => {}
        Put::Failed => return Put::Failed,
    }
    match out.put(END) {
        Put::Done => Put::Done,
        Put::Failed => Put::Failed,
    }
}

/// The output's room in bytes, the number of the put that fails (0 for none), the expected answer,
/// and what is written.
const ROOMS: &[(usize, u32, Put, &[u8])] = &[
    (8, 0, Put::Done, b"dis\nend\n"),
    (7, 0, Put::Failed, b"dis\nend"),
    (8, 1, Put::Failed, b""),
    (8, 2, Put::Failed, b"dis\n"),
];

/// Whether a call of `put_file` returns what is expected.
fn comes_to<F: Folder, S: Sink>(
    alloc: Global,
    name: &[u8],
    folder: &mut F,
    out: &mut S,
    want: Result<Put, Expected>,
) -> bool {
    let answer = put_file(alloc, name, folder, out);
    let told = match (&answer, want) {
        (Ok(put), Ok(want)) => *put == want,
        (Err(answer), Err(due)) => is_expected(answer, due),
        _ => false,
    };
    drop(answer);
    told
}

/// Whether the first of two calls gives the answer of the row, the second fails because the
/// folder's second read fails, and after each the output is that of the row.
fn answers(
    alloc: Global,
    folder: &mut MemFolder,
    row: &(usize, u32, Put, &[u8]),
) -> Result<bool, NoMemory> {
    folder.add(b"a", b"dis\n")?;
    let (room, fail, want, written) = row;
    let mut out = MemSink::new(alloc, *room, &[*fail])?;
    let mut told = true;
    for want in [Ok(*want), Err(Expected::Failed)] {
        told = told && comes_to(alloc, b"a", folder, &mut out, want) && out.bytes() == *written;
    }
    drop(out);
    Ok(told)
}

fn is_row_met(alloc: Global, row: &(usize, u32, Put, &[u8])) -> Result<bool, NoMemory> {
    let mut folder = MemFolder::new(alloc, &[2], &[])?;
    let told = answers(alloc, &mut folder, row);
    drop(folder);
    told
}

#[test]
fn gives_a_prefix(rt: HostRuntime) -> Result<(), NoMemory> {
    for row in ROOMS {
        assert!(rt;
            is_row_met(rt.alloc(), row)?,
            "room {} fail {}",
            row.0,
            row.1
        );
    }
    Ok(())
}

/// Whether a file is put as a whole, and a second file is absent.
fn puts_whole(alloc: Global, folder: &mut SureFolder) -> Result<bool, NoMemory> {
    folder.add(b"a", b"dis\n")?;
    let mut out = SureSink::new();
    let mut told = true;
    for (name, want) in [(b"a", Ok(Put::Done)), (b"b", Err(Expected::Absent))] {
        told = told && comes_to(alloc, name, folder, &mut out, want);
    }
    Ok(told)
}

#[test]
fn gives_the_whole(rt: HostRuntime) -> Result<(), NoMemory> {
    let mut folder = SureFolder::new(rt.alloc())?;
    let told = puts_whole(rt.alloc(), &mut folder);
    drop(folder);
    assert!(rt; told?);
    Ok(())
}
