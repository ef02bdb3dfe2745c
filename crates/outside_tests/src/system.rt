//! Files of the current directory, devices, standard output and standard input. The standard input
//! is empty in tests.

use crate::answers::{Expected, reads};
use m36_outside::{
    Block, DirFolder, FILE_LIMIT, Folder, Lines, Piece, Put, Sink, StdLines, StdSink, WriteAnswer,
};
use std::alloc::{AllocError, Global};
use std::fs::{self, Files};
use std::io;
use std::os::unix::fs::symlink;
use std::process::Abort;
use std::test::Fail;

/// Whether a file, absent at first, can be written with each content and read back. A read of the
/// last one is refused: it is longer than the longest file that can be read.
fn keeps<'a, F: Folder>(
    folder: &mut F,
    alloc: Global,
    largest: &'a [u8],
    too_large: &'a [u8],
) -> bool {
    let name = b"m36_outside_file";
    let rows = [
        (
            b"bare words\n".as_slice(),
            Expected::Content(b"bare words\n"),
        ),
        (b"", Expected::Content(b"")),
        (b"\0\xff", Expected::Content(b"\0\xff")),
        (largest, Expected::Content(largest)),
        (too_large, Expected::TooLarge),
    ];
    let mut told = reads(folder, alloc, name, Expected::Absent);
    for (content, due) in rows {
        told = told
            && folder.write(alloc, name, content) == WriteAnswer::Written
            && reads(folder, alloc, name, due);
    }
    told
}

fn directory_keeps<R: Files + Drop>(
    rt: R,
    alloc: Global,
    largest: &[u8],
    too_large: &[u8],
) -> bool {
    let mut folder = DirFolder::new(rt);
    let told = keeps(&mut folder, alloc, largest, too_large);
    drop(folder);
    told
}

#[test]
fn folder_keeps_a_file(rt: HostRuntime) -> Result<(), Fail> {
    let files = rt.clone()?;
    let large = vec![in rt.alloc(); b'x'; FILE_LIMIT + 1]?;
    // The file is still there if an earlier run was killed.
    let _ = fs::remove_file(&rt, "m36_outside_file");
    let told = directory_keeps(files, rt.alloc(), &large[1..], &large);
    drop(large);
    fs::remove_file(&rt, "m36_outside_file")?;
    assert!(rt; told);
    Ok(())
}

/// Names, and the answers of reads. The first four are no names of files, so the file is absent.
/// The last two are refused by the operating system: a directory, and a name with a zero byte.
const NAMES: &[(&[u8], Expected)] = &[
    (b"", Expected::Absent),
    (b"/dev/null", Expected::Absent),
    (b"./x", Expected::Absent),
    (b"\xff", Expected::Absent),
    (b".", Expected::Failed),
    (b"a\0b", Expected::Failed),
];

/// Asserts that a read of each name gives the expected answer, and that a write fails.
fn names_are_refused<F: Folder>(rt: &impl Abort, folder: &mut F, alloc: Global) {
    for (name, due) in NAMES {
        assert!(rt;
            reads(folder, alloc, name, *due)
                && folder.write(alloc, name, b"x") == WriteAnswer::Failed,
            "{name:?}"
        );
    }
}

#[test]
fn folder_refuses_names(rt: HostRuntime) -> Result<(), Fail> {
    let mut folder = DirFolder::new(rt.clone()?);
    names_are_refused(&rt, &mut folder, rt.alloc());
    drop(folder);
    Ok(())
}

/// Targets of a symbolic link: a file, a name without a file, the device that takes every byte, and
/// the device that is always full.
const LINKED: &[&str] = &[
    "m36_outside_source",
    "m36_outside_gone",
    "/dev/null",
    "/dev/full",
];

/// Whether a write to the name of a link replaces the link and leaves its target alone.
fn link_is_replaced<F: Folder>(
    rt: &impl Files,
    alloc: Global,
    folder: &mut F,
    to: &str,
) -> io::Result<bool> {
    fs::write(rt, "m36_outside_source", b"source\n")?;
    // The link is still there if an earlier run was killed.
    let _ = fs::remove_file(rt, "m36_outside_link");
    symlink(rt, to, "m36_outside_link")?;
    let told = folder.write(alloc, b"m36_outside_link", b"object\n") == WriteAnswer::Written
        && !fs::symlink_metadata(rt, "m36_outside_link")?.is_symlink()
        && reads(
            folder,
            alloc,
            b"m36_outside_link",
            Expected::Content(b"object\n"),
        )
        && reads(
            folder,
            alloc,
            b"m36_outside_source",
            Expected::Content(b"source\n"),
        )
        && reads(folder, alloc, b"m36_outside_gone", Expected::Absent);
    fs::remove_file(rt, "m36_outside_link")?;
    fs::remove_file(rt, "m36_outside_source")?;
    Ok(told)
}

fn links_are_replaced<F: Folder>(
    rt: &(impl Abort + Files),
    alloc: Global,
    folder: &mut F,
) -> io::Result<()> {
    for to in LINKED {
        assert!(rt; link_is_replaced(rt, alloc, folder, to)?, "{to}");
    }
    Ok(())
}

#[test]
fn folder_replaces_links(rt: HostRuntime) -> Result<(), Fail> {
    let mut folder = DirFolder::new(rt.clone()?);
    let answered = links_are_replaced(&rt, rt.alloc(), &mut folder);
    drop(folder);
    answered?;
    Ok(())
}

/// Whether a write uses the third spare name if files with the first two exist, and leaves these
/// files alone.
fn spares_are_kept<F: Folder>(rt: &impl Files, alloc: Global, folder: &mut F) -> io::Result<bool> {
    let name = b"m36_outside_spared";
    for spare in [".m36-000", ".m36-001"] {
        fs::write(rt, spare, b"kept\n")?;
    }
    let told = folder.write(alloc, name, b"object\n") == WriteAnswer::Written
        && reads(folder, alloc, name, Expected::Content(b"object\n"))
        && reads(folder, alloc, b".m36-000", Expected::Content(b"kept\n"))
        && reads(folder, alloc, b".m36-001", Expected::Content(b"kept\n"))
        && reads(folder, alloc, b".m36-002", Expected::Absent);
    for file in [".m36-000", ".m36-001", "m36_outside_spared"] {
        fs::remove_file(rt, file)?;
    }
    Ok(told)
}

/// Whether a write to the name of a directory fails, leaves the directory, and leaves no spare
/// file.
fn failure_changes_nothing<F: Folder>(
    rt: &impl Files,
    alloc: Global,
    folder: &mut F,
) -> io::Result<bool> {
    // The directory is still there if an earlier run was killed.
    let _ = fs::remove_dir(rt, "m36_outside_directory");
    fs::create_dir(rt, "m36_outside_directory")?;
    let told = folder.write(alloc, b"m36_outside_directory", b"x") == WriteAnswer::Failed
        && fs::symlink_metadata(rt, "m36_outside_directory")?.is_dir()
        && reads(folder, alloc, b".m36-000", Expected::Absent);
    fs::remove_dir(rt, "m36_outside_directory")?;
    Ok(told)
}

#[test]
fn folder_uses_a_spare_file(rt: HostRuntime) -> Result<(), Fail> {
    let mut folder = DirFolder::new(rt.clone()?);
    let kept = spares_are_kept(&rt, rt.alloc(), &mut folder);
    let same = failure_changes_nothing(&rt, rt.alloc(), &mut folder);
    drop(folder);
    assert!(rt; kept?);
    assert!(rt; same?);
    Ok(())
}

/// Whether two pieces and the same block twice are put without a failure.
fn puts<S: Sink>(out: &mut S) -> bool {
    let mut block = Block::new();
    let mut told = block.add(b"end dis 2\n", out) == Put::Done;
    for piece in [b"end dis 2\n".as_slice(), b""] {
        told = told && out.put(piece) == Put::Done;
    }
    told && block.hand_over(out) == Put::Done && out.put_block(&block) == Put::Done
}

#[test]
fn output_puts(rt: HostRuntime) -> Result<(), AllocError> {
    let mut out = StdSink::new(rt.clone()?);
    let told = puts(&mut out);
    drop(out);
    assert!(rt; told);
    Ok(())
}

#[test]
fn input_ends(rt: HostRuntime) -> Result<(), AllocError> {
    let mut lines = StdLines::new(rt.clone()?);
    let told = lines.next_piece(&mut [0; 8]);
    drop(lines);
    assert_eq!(rt; told, Piece::End);
    Ok(())
}
