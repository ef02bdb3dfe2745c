//! Booted images of a catalog with two segments, and folders that cannot be booted.

ghost use Rattle.std.specs.Prelude.{IfOk};
ghost use Rattle.m36_page.specs.Residence.{HasFrames, AgreesWithCore};

use crate::running::{text_of, words_of};
use m36_boot::{BootFault, Image, lay};
use m36_dir::Catalog;
use m36_super::{are_short, files_of};
use m36_word::{NoMemory, Words};
use std::alloc::Global;

// The object of an empty source.
const EMPTY: [u64; 18] = [
    0o000000000000,
    0o000000000000,
    0o000000000000,
    0o000010000000,
    0o000000000000,
    0o000000000000,
    0o000000000000,
    0o000000000000,
    0o000000000000,
    0o000000000000,
    0o000000000000,
    0o000000000001,
    0o000000000000,
    0o000000000002,
    0o000002000010,
    0o000012000001,
    0o000000000000,
    0o000013000000,
];

// Version 1: the entry `go`, the static word `cnt`, and links to `b$x` and to its own entry `go`.
const CALLER: [u64; 42] = [
    0o400010054100,
    0o400012235120,
    0o400014235120,
    0o000002000002,
    0o000006000002,
    0o000004000010,
    0o000000000012,
    0o000000000001,
    0o000010000013,
    0o000004000014,
    0o000015000000,
    0o000005000000,
    0o000012000002,
    0o002147157000,
    0o003143156164,
    0o001142000000,
    0o001170000000,
    0o000000000000,
    0o000012000002,
    0o000000000000,
    0o000000000000,
    0o000000000000,
    0o000000000000,
    0o000000000000,
    0o000000000000,
    0o000000000005,
    0o000000000000,
    0o777766000046,
    0o000006000020,
    0o777764000046,
    0o000010000000,
    0o000000000003,
    0o000000021000,
    0o000001021000,
    0o000002021000,
    0o000000000001,
    0o000000000003,
    0o000003000016,
    0o000021000016,
    0o000037000004,
    0o000001000000,
    0o000043000000,
];

/// The file of the second segment.
#[derive(Clone, Copy)]
enum Second {
    /// The words of the first segment's file.
    Same,
    /// An object without an entry.
    Empty,
    /// No words, so no object.
    Nothing,
}

const MAIN: &str = "segment >udd>demo main main object re 4 4 5";

const DATA: &str = "segment >udd>demo main main data re 4 4 5";

const CLOSED: &str = "segment >udd>demo main main object rw 4 4 5";

/// The first, fourth and last line of a boot text, the second file, and the first reason for which
/// the folder does not boot.
const REFUSED: [(&str, &str, &str, Second, BootFault); 9] = [
    (
        "frames 23",
        DATA,
        "start 4 none$go",
        Second::Nothing,
        BootFault::U1,
    ),
    (
        "frames 24",
        DATA,
        "start 4 none$go",
        Second::Nothing,
        BootFault::U4(65),
    ),
    (
        "frames 24",
        DATA,
        "start 4 none$go",
        Second::Empty,
        BootFault::U2(65),
    ),
    (
        "frames 24",
        DATA,
        "start 4 none$go",
        Second::Same,
        BootFault::U3,
    ),
    (
        "frames 24",
        DATA,
        "start 4 main$go",
        Second::Same,
        BootFault::U4(64),
    ),
    (
        "frames 24",
        CLOSED,
        "start 4 main$go",
        Second::Same,
        BootFault::U3,
    ),
    (
        "frames 24",
        MAIN,
        "start 5 main$go",
        Second::Same,
        BootFault::U3,
    ),
    (
        "frames 24",
        MAIN,
        "start 3 main$go",
        Second::Same,
        BootFault::U3,
    ),
    (
        "frames 24",
        MAIN,
        "start 4 main$b",
        Second::Same,
        BootFault::U3,
    ),
];

/// Addresses and words of core, if the start is `main$cnt` in ring 4 and the second segment is a
/// gate of ring 0.
const CORE: [(usize, u64); 16] = [
    (0, 0),
    (24, 0o000120004444),
    (25, 0o017775100000),
    (40, 0o000160004444),
    (41, 0o377775100000),
    (128, 0o000440004454),
    (129, 0o000026100000),
    (130, 0o000444000054),
    (131, 0o000026000001),
    (132, 0),
    (2048, 0),
    (5120, 1),
    (5135, 1),
    (5136, 0),
    (18432, 1),
    (18433, 0),
];

/// A segment number, a word number, and the word there, in the same image.
const SEGMENT_WORDS: [(u16, u32, Option<u64>); 18] = [
    (8, 22, Some(0o000020000043)),
    (12, 21, Some(0)),
    (12, 22, Some(0o000024400043)),
    (12, 23, Some(0)),
    (12, 16383, Some(0)),
    (12, 16384, None),
    (16, 64, Some(0)),
    (20, 63, Some(0)),
    (20, 64, Some(0o000024002000)),
    (20, 65, Some(0)),
    (20, 1025, Some(0o000012000002)),
    (20, 1034, Some(0o777766000046)),
    (20, 262143, Some(0)),
    (64, 0, Some(0o400010054100)),
    (64, 41, Some(0o000043000000)),
    (64, 1023, Some(0)),
    (64, 1024, None),
    (66, 0, None),
];

// Functions return the tables, so that no proof looks into them.
fn caller() -> &'static [u64] {
    &CALLER
}

fn empty() -> &'static [u64] {
    &EMPTY
}

fn refused() -> &'static [(&'static str, &'static str, &'static str, Second, BootFault)] {
    &REFUSED
}

fn core_words() -> &'static [(usize, u64)] {
    &CORE
}

fn segment_words() -> &'static [(u16, u32, Option<u64>)] {
    &SEGMENT_WORDS
}

fn second_of(alloc: Global, second: Second) -> Result<Words, NoMemory> {
    match second {
        Second::Same => words_of(alloc, caller()),
        Second::Empty => words_of(alloc, empty()),
        Second::Nothing => words_of(alloc, &[]),
    }
}

// The words of the two files.
fn words_of_both(alloc: Global, second: Second) -> Result<Vec<Words>, NoMemory> {
    let mut words = Vec::new(alloc);
    words.push(words_of(alloc, caller())?)?;
    words.push(second_of(alloc, second)?)?;
    Ok(words)
}

pub(crate) fn read(alloc: Global, text: &[u8]) -> Result<Catalog, BootFault> {
    if text.len() > 1000 {
        return Err(BootFault::NoMemory);
    }
    match Catalog::read(alloc, text) {
        Ok(catalog) => Ok(catalog),
        Err(_) => Err(BootFault::NoMemory),
    }
}

// The catalog of a boot text with two segments. The second is a gate in a library.
fn catalog(alloc: Global, frames: &str, main: &str, start: &str) -> Result<Catalog, BootFault> {
    let lines = [
        frames,
        "work >udd>demo",
        "library >sss",
        main,
        "segment >sss con_ con_ gate re 0 0 5",
        start,
    ];
    let text = text_of(alloc, &lines)?;
    read(alloc, text.bytes())
}

// The booted image of such a catalog.
fn laid(
    alloc: Global,
    frames: &str,
    main: &str,
    start: &str,
    second: Second,
) -> Result<Image, BootFault>
    ensures reads { IfOk result (λ image. AgreesWithCore image.pager image.core) }
    ensures frames { IfOk result (λ image. HasFrames image.pager image.core) }
{
    let catalog = catalog(alloc, frames, main, start)?;
    let words = words_of_both(alloc, second)?;
    if words.len() != catalog.count() || !are_short(&words) {
        return Err(BootFault::NoMemory);
    }
    let files = files_of(alloc, words)?;
    lay(alloc, &catalog, files.as_slice())
}

#[test]
fn first_causes(rt: HostRuntime) {
    let alloc = rt.alloc();
    for (frames, main, start, second, fault) in refused() {
        let told = laid(alloc, frames, main, start, *second).err();
        assert!(rt; told == Some(*fault));
    }
}

// A word of a segment, as a number.
fn number_at(image: &Image, seg: u16, word: u32) -> Option<u64>
    requires frames { HasFrames image.now.pager image.now.core }
    requires reads { AgreesWithCore image.now.pager image.now.core }
{
    let word = image.pager.content(&image.core, seg, word)?;
    Some(word.value())
}

// A word of core, as a number.
fn core_number(image: &Image, a: usize) -> Option<u64> {
    let word = image.core.words().get(a)?;
    Some(word.value())
}

fn has_core_words(image: &Image) -> bool {
    for (a, number) in core_words() {
        if core_number(image, *a) != Some(*number) {
            return false;
        }
    }
    true
}

fn has_segment_words(image: &Image) -> bool
    requires frames { HasFrames image.now.pager image.now.core }
    requires reads { AgreesWithCore image.now.pager image.now.core }
{
    for (seg, word, number) in segment_words() {
        if number_at(image, *seg, *word) != *number {
            return false;
        }
    }
    true
}

fn has_start(image: &Image) -> bool {
    let regs = &image.regs;
    let entry = regs.ppr;
    entry.psr == 20 && entry.prr == 4 && entry.ic == 1032
}

#[test]
fn words_of_an_image(rt: HostRuntime) {
    match laid(
        rt.alloc(),
        "frames 24",
        MAIN,
        "start 4 main$cnt",
        Second::Same,
    ) {
        Ok(image) => {
            assert!(rt; has_core_words(&image));
            assert!(rt; has_segment_words(&image));
            assert!(rt; has_start(&image));
        }
        Err(_) => assert!(rt; false),
    }
}
