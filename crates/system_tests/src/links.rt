//! Links of small objects: the pairs that they become, and links that are refused.

use m36_dir::{Catalog, CatalogFault};
use m36_link::{File, Known, LinkFault, PlacedSection, link_laws};
use m36_model::{At, LinkCode};
use m36_outside::Text;
use m36_text::Name;
use m36_word::{NoMemory, Word, Words};
use obj36::{Link, Section};
use std::alloc::Global;
use std::test::Fail;

/// Version 2: the entry `go` at word 0 of the text, `lab` at word octal 10 of the text, `cnt` at
/// word 0 of six static words, and the links `*static$cnt`, `*text$lab`, `*static$lab`,
/// `*link$lab+1`, `d$+3,x1`, `q$val` and `q$nope`.
const M: [u64; 83] = [
    0o400010235120,
    0o400012235120,
    0o400014235120,
    0o400016235120,
    0o400020235120,
    0o400022235120,
    0o400024235120,
    0o000000616000,
    0o000000000007,
    0o000002000003,
    0o000010000007,
    0o000004000010,
    0o000000000026,
    0o000006000000,
    0o000010000027,
    0o000000000003,
    0o000000000030,
    0o000005000002,
    0o000030000000,
    0o000005000000,
    0o000027000000,
    0o000005000002,
    0o000027000000,
    0o000005000001,
    0o000027000001,
    0o000003000031,
    0o000000000003,
    0o000004000032,
    0o000033000000,
    0o000004000032,
    0o000034000000,
    0o002147157000,
    0o003154141142,
    0o003143156164,
    0o001144000000,
    0o001161000000,
    0o003166141154,
    0o004156157160,
    0o145000000000,
    0o000000000000,
    0o000010000007,
    0o000000000000,
    0o000000000000,
    0o000000000000,
    0o000000000000,
    0o000000000000,
    0o000000000000,
    0o777770000046,
    0o000010000000,
    0o777766000046,
    0o000012000000,
    0o777764000046,
    0o000014000000,
    0o777762000046,
    0o000016000000,
    0o777760000046,
    0o000020000011,
    0o777756000046,
    0o000022000000,
    0o777754000046,
    0o000024000000,
    0o000000000005,
    0o000000000001,
    0o000000000002,
    0o000000000003,
    0o000000000004,
    0o000000000006,
    0o000000000007,
    0o000000021000,
    0o000001021000,
    0o000002021000,
    0o000003021000,
    0o000004021000,
    0o000005021000,
    0o000006021000,
    0o000000000002,
    0o000000000011,
    0o000011000036,
    0o000047000026,
    0o000075000006,
    0o000103000010,
    0o000000000000,
    0o000113000000,
];

/// Version 1: `val` at word 1 of two words of text.
const Q: [u64; 23] = [
    0o000000000001,
    0o000000000002,
    0o000002000001,
    0o000000000000,
    0o000000000000,
    0o000001000004,
    0o003166141154,
    0o000000000000,
    0o000010000000,
    0o000000000000,
    0o000000000000,
    0o000000000000,
    0o000000000000,
    0o000000000000,
    0o000000000000,
    0o000000000000,
    0o000000000001,
    0o000000000002,
    0o000002000005,
    0o000007000010,
    0o000017000001,
    0o000000000000,
    0o000020000000,
];

/// The map of the long file. Its symbol section is at word 261,115, and the map at word 261,116.
const MAP: [u64; 8] = [
    0o000000000002,
    0o000000000002,
    0o000002000005,
    0o000007000010,
    0o000017775754,
    0o775773000001,
    0o000000000000,
    0o775774000000,
];

/// Words that are no object.
const TWO: [u64; 2] = [1, 2];

const OWN: &[u8] = b"segment a q q object re 4 4 4\n";

/// The word of a link in the linkage segment of ring 4, and the pair that it becomes. `q` has the
/// line `OWN`, and its linkage section is laid in ring 4 after that of `m`: by the last row but
/// one, while the last row finds it there.
const PAIRS: [(u32, u64, u64); 7] = [
    (0o2010, 0o000024400043, 0o002026000000),
    (0o2012, 0o000100400043, 0o000010000000),
    (0o2014, 0o000024400043, 0o002036000000),
    (0o2016, 0o000024400043, 0o002011000000),
    (0o2020, 0o000102400043, 0o000003000011),
    (0o2022, 0o000101400043, 0o000001000000),
    (0o2022, 0o000101400043, 0o000001000000),
];

/// The file of a segment.
#[derive(Clone, Copy)]
enum Kind {
    /// The words of `M`.
    Caller,
    /// The words of `Q`.
    Small,
    /// No object.
    Plain,
    /// Version 2, with too many static words: its section has no room beside that of `m`.
    Long,
}

/// The number of static words of the long file. With the 8 words of its linkage section, 261,108
/// words would be laid from word 1,052 on.
const STATICS: usize = 261_100;

/// The line of `q` in the boot text, its file, the word and the ring of a link in the linkage
/// segment of ring 4, and the code with which the link is refused.
const REFUSED: [(&[u8], Kind, u32, u8, LinkCode); 12] = [
    (OWN, Kind::Small, 0o2011, 4, LinkCode::L1),
    (OWN, Kind::Small, 0o2026, 4, LinkCode::L1),
    (OWN, Kind::Small, 0o2010, 5, LinkCode::L1),
    (
        b"segment b q q object re 4 4 4\n",
        Kind::Small,
        0o2022,
        4,
        LinkCode::L2,
    ),
    (OWN, Kind::Small, 0o2024, 4, LinkCode::L3),
    (
        b"segment a q q data re 4 4 4\n",
        Kind::Small,
        0o2022,
        4,
        LinkCode::L3,
    ),
    (
        b"segment a q q object re 0 0 3\n",
        Kind::Small,
        0o2022,
        4,
        LinkCode::L4,
    ),
    (
        b"segment a q q data rw 3 3 5\n",
        Kind::Small,
        0o2022,
        4,
        LinkCode::L4,
    ),
    (OWN, Kind::Plain, 0o2022, 4, LinkCode::L5(1)),
    (OWN, Kind::Long, 0o2022, 4, LinkCode::L6(1052, 261_108)),
    (
        b"segment a q q object r 0 3 5\n",
        Kind::Plain,
        0o2022,
        4,
        LinkCode::L4,
    ),
    (
        b"segment a q q object re 0 3 5\n",
        Kind::Plain,
        0o2024,
        4,
        LinkCode::L5(1),
    ),
];

// Functions return the tables, so that no proof looks into them.
fn words_of_m() -> &'static [u64] {
    &M
}

fn words_of_q() -> &'static [u64] {
    &Q
}

fn map_of_long() -> &'static [u64] {
    &MAP
}

fn no_object() -> &'static [u64] {
    &TWO
}

fn pairs() -> &'static [(u32, u64, u64)] {
    &PAIRS
}

fn refused() -> &'static [(&'static [u8], Kind, u32, u8, LinkCode)] {
    &REFUSED
}

fn push_all(words: &mut Words, table: &[u64]) -> Result<(), NoMemory> {
    for word in table {
        words.push(Word::low(*word))?;
    }
    Ok(())
}

fn read(alloc: Global, words: Words) -> Result<File, NoMemory> {
    if words.slice().len() > 300_000 {
        return Err(NoMemory);
    }
    File::read(alloc, words)
}

fn file(alloc: Global, table: &[u64]) -> Result<File, NoMemory> {
    let mut words = Words::new(alloc);
    push_all(&mut words, table)?;
    read(alloc, words)
}

// The text, definition and linkage sections of `q`, zeros, and a map of version 2.
fn long_file(alloc: Global) -> Result<File, NoMemory> {
    let mut words = Words::new(alloc);
    for word in words_of_q().iter().take(15) {
        words.push(Word::low(*word))?;
    }
    for _ in 0..STATICS + 1 {
        words.push(Word::ZERO)?;
    }
    push_all(&mut words, map_of_long())?;
    read(alloc, words)
}

fn file_of(alloc: Global, kind: Kind) -> Result<File, NoMemory> {
    match kind {
        Kind::Caller => file(alloc, words_of_m()),
        Kind::Small => file(alloc, words_of_q()),
        Kind::Plain => file(alloc, no_object()),
        Kind::Long => long_file(alloc),
    }
}

// The files of `m`, `q` and `d`.
fn files(alloc: Global, kind: Kind) -> Result<Vec<File>, NoMemory> {
    let mut files = Vec::new(alloc);
    for kind in [Kind::Caller, kind, Kind::Plain] {
        files.push(file_of(alloc, kind)?)?;
    }
    Ok(files)
}

// The catalog of the segments `m`, `q` and `d`, where `line` is the line of `q`.
fn catalog(alloc: Global, line: &[u8]) -> Result<Catalog, CatalogFault> {
    let text = text_of(alloc, line)?;
    if text.bytes().len() > 1000 {
        return Err(CatalogFault::NoMemory);
    }
    Catalog::read(alloc, text.bytes())
}

fn text_of(alloc: Global, line: &[u8]) -> Result<Text, NoMemory> {
    let mut text = Text::new(alloc);
    for part in [
        b"frames 24\nwork a\nsegment a m m object re 4 4 4\n".as_slice(),
        line,
        b"segment a d d data r 4 4 4\nstart 4 m$go\n",
    ] {
        text.append(part)?;
    }
    Ok(text)
}

fn entry_of_m() -> Link {
    Link {
        name: Name::new(b"m").unwrap_or_default(),
        entry: Name::new(b"go").unwrap_or_default(),
        expr: 0,
        kind: 4,
        section: Section::Text,
        modifier: 0,
    }
}

// Starts `m` in ring 4.
fn start(
    alloc: Global,
    known: &mut Known,
    catalog: &Catalog,
    files: &[File],
) -> Result<(), LinkFault> {
    link_laws();
    let link = entry_of_m();
    let snap = known.resolve_from(alloc, catalog, files, 4, &link, catalog.work())?;
    known.accept(&snap)?;
    Ok(())
}

// After `m` was started in ring 4: its linkage section of 28 words is laid at word octal 2000.
fn started(alloc: Global, catalog: &Catalog, files: &[File]) -> Result<Known, LinkFault> {
    let mut known = Known::new(alloc, catalog)?;
    start(alloc, &mut known, catalog, files)?;
    Ok(known)
}

// A word of the linkage segment of ring 4, referred to in `ring`.
fn place(word: u32, ring: u8) -> At {
    At {
        word: word % 0o10000,
        seg: 0o24,
        ring: ring % 8,
    }
}

// Whether a link is snapped, and becomes this pair.
fn leads(
    alloc: Global,
    known: &mut Known,
    (catalog, files): (&Catalog, &[File]),
    (word, even, odd): (u32, u64, u64),
) -> Result<bool, LinkFault> {
    link_laws();
    let snap = known.resolve(alloc, catalog, files, place(word, 4))?;
    known.accept(&snap)?;
    let pair = snap.pair;
    Ok(pair.even.value() == even && pair.odd.value() == odd)
}

// Whether exactly the linkage sections of `m` and `q` are laid.
fn are_laid(laid: &[PlacedSection]) -> bool {
    let m = PlacedSection {
        base: 0o2000,
        size: 28,
        seg: 0o100,
        ring: 4,
    };
    let q = PlacedSection {
        base: 1052,
        size: 8,
        seg: 0o101,
        ring: 4,
    };
    laid == [m, q].as_slice()
}

// Whether each link of `PAIRS` becomes its pair, and the linkage sections are laid afterwards.
fn lead(alloc: Global, catalog: &Catalog, files: &[File]) -> Result<bool, LinkFault> {
    let mut known = started(alloc, catalog, files)?;
    for row in pairs() {
        if !leads(alloc, &mut known, (catalog, files), *row)? {
            return Ok(false);
        }
    }
    Ok(are_laid(known.laid()))
}

// The code with which a link is refused after `m` was started.
fn code_over(alloc: Global, catalog: &Catalog, files: &[File], at: At) -> Option<LinkCode> {
    let Ok(known) = started(alloc, catalog, files) else {
        return None;
    };
    match known.resolve(alloc, catalog, files, at) {
        Err(LinkFault::Refused(code, _)) => Some(code),
        _ => None,
    }
}

// As `code_over`, if `q` has this line and this file.
fn code_of(alloc: Global, line: &[u8], kind: Kind, at: At) -> Option<LinkCode> {
    let Ok(catalog) = catalog(alloc, line) else {
        return None;
    };
    match files(alloc, kind) {
        Ok(files) => code_over(alloc, &catalog, &files, at),
        Err(_) => None,
    }
}

#[test]
fn links_lead_to_their_words(rt: HostRuntime) -> Result<(), Fail> {
    let alloc = rt.alloc();
    let catalog = catalog(alloc, OWN)?;
    let files = files(alloc, Kind::Small)?;
    assert!(rt; lead(alloc, &catalog, &files)?);
    Ok(())
}

#[test]
fn links_are_refused_by_their_first_code(rt: HostRuntime) {
    for (line, kind, word, ring, expected) in refused() {
        let code = code_of(rt.alloc(), line, *kind, place(*word, *ring));
        assert!(rt; code == Some(*expected));
    }
}
