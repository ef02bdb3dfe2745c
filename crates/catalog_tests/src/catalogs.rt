//! Catalogs: boot texts that are read or refused, and lookups.

use m36_dir::{Catalog, CatalogFault, Mode, SegKind, Segment};
use m36_outside::Text;
use m36_word::NoMemory;
use std::alloc::Global;
use std::test::Fail;

// The lines of a correct boot text. The other texts are variants of it.
const FRAMES: &str = "frames 24";

const WORK: &str = "work >udd>demo";

const LIBRARY: &str = "library >sss";

const MAIN: &str = "segment >udd>demo main main object re 4 4 4";

const CONSOLE: &str = "segment >sss con_ con_ gate rep 0 0 5";

const START: &str = "start 4 main$start";

const LINES: &[&str] = &[FRAMES, WORK, LIBRARY, MAIN, CONSOLE, START];

// The text of these lines. Each gets a line feed, except that a line that ends with `%` gets none
// and loses the `%`.
fn text_of(alloc: Global, lines: &[&str]) -> Result<Text, NoMemory> {
    let mut text = Text::new(alloc);
    for line in lines {
        match line.as_bytes() {
            [cut @ .., b'%'] => text.append(cut)?,
            whole => {
                text.append(whole)?;
                text.push(b'\n')?;
            }
        }
    }
    Ok(text)
}

fn read(alloc: Global, lines: &[&str]) -> Result<Catalog, CatalogFault> {
    let text = text_of(alloc, lines)?;
    let bytes = text.bytes();
    if bytes.len() >= 4294967296 {
        return Err(CatalogFault::NoMemory);
    }
    Catalog::read(alloc, bytes)
}

// The fault of a boot text with these lines, if it is refused.
fn told(alloc: Global, lines: &[&str]) -> Option<CatalogFault> {
    read(alloc, lines).err()
}

/// The index of the line that is changed, the new line, and the fault of the text if it is refused.
const CHANGED: &[(usize, &str, Option<CatalogFault>)] = &[
    (0, "frames 0024", None),
    (0, "frames 00000000000000000000000024", None),
    (0, "frames 8192", None),
    (0, "frames 0", Some(CatalogFault::D1(1))),
    (0, "frames 8193", Some(CatalogFault::D1(1))),
    (0, "frames +24", Some(CatalogFault::D1(1))),
    (0, "frames 24\r", Some(CatalogFault::D1(1))),
    (0, "frames  24", Some(CatalogFault::D1(1))),
    (
        3,
        "segment >udd>demo main main object re 5 4 4",
        Some(CatalogFault::D4(4)),
    ),
    (
        3,
        "segment >udd>demo main main object er 4 4 4",
        Some(CatalogFault::D3(2)),
    ),
    (
        3,
        "segment >udd>demo .x main object re 4 4 4",
        Some(CatalogFault::D3(2)),
    ),
    (3, "junk", Some(CatalogFault::D3(2))),
    (
        3,
        "segment >udd>demo main x gate null 4 4 5",
        Some(CatalogFault::D4(4)),
    ),
    (3, "segment >udd>demo main x data null 4 4 4", None),
    (
        4,
        "segment >sss con_ con_ gate rp 0 0 5",
        Some(CatalogFault::D4(5)),
    ),
    (
        4,
        "segment >sss con_ con_ gate rep 0 5 5",
        Some(CatalogFault::D4(5)),
    ),
    (4, "segment >sss con_ con_ object p 0 5 5", None),
    (
        4,
        "segment >sss con_ con_ object rep 0 0 8",
        Some(CatalogFault::D3(3)),
    ),
    (5, "start 4 main$", Some(CatalogFault::D1(6))),
    (5, "start 4 main$a$b", Some(CatalogFault::D1(6))),
    (5, "start 8 main$start", Some(CatalogFault::D1(6))),
    (5, "start 04 main$start", Some(CatalogFault::D1(6))),
    (5, "start 4  main$start", Some(CatalogFault::D1(6))),
    (5, "start 4 main$start ", Some(CatalogFault::D1(6))),
    (5, "start 4 main$start%", Some(CatalogFault::D1(6))),
];

// `LINES` with one line replaced.
fn changed(alloc: Global, place: usize, line: &'static str) -> Result<Vec<&'static str>, NoMemory> {
    let mut lines = Vec::new(alloc);
    for (i, old) in LINES.iter().enumerate() {
        lines.push(if i == place { line } else { *old })?;
    }
    Ok(lines)
}

#[test]
fn texts_with_one_line_changed(rt: HostRuntime) -> Result<(), NoMemory> {
    for (place, line, code) in CHANGED {
        let lines = changed(rt.alloc(), *place, line)?;
        assert!(rt; told(rt.alloc(), &lines) == *code, "{line}");
    }
    Ok(())
}

/// The line that a letter of `OTHERS` means.
fn line_of(letter: u8) -> &'static str {
    match letter {
        b'F' => FRAMES,
        b'W' => WORK,
        b'L' => LIBRARY,
        b'M' => MAIN,
        b'C' => CONSOLE,
        b'S' => START,
        b'a' => "name a",
        b'b' => "name b",
        b'c' => "name c",
        b'd' => "name d",
        b'e' => "name e",
        b'f' => "name f",
        b'g' => "name g",
        b'h' => "name h",
        b'm' => "name main",
        b's' => "name start",
        b'x' => "name x",
        b'A' => "segment >a main main object re 4 4 4",
        b'B' => "segment >udd>demo x x data r 4 4 4",
        b'E' => "segment >udd>other main main object re 4 4 4",
        b'K' => "segment >udd>demo main main object re 4 4 4%",
        b'N' => "library >none",
        b'P' => {
            "segment >abcdefghi>abcdefghi>abcdefghi>abcdefghi>abcdefghi>abcdefghi>abc x x data r 4 4 4"
        }
        b'Q' => {
            "segment >abcdefghi>abcdefghi>abcdefghi>abcdefghi>abcdefghi>abcdefghi>abcd x x data r 4 4 4"
        }
        _ => "",
    }
}

fn lines_of(alloc: Global, letters: &str) -> Result<Vec<&'static str>, NoMemory> {
    let mut lines = Vec::new(alloc);
    for letter in letters.as_bytes() {
        lines.push(line_of(*letter))?;
    }
    Ok(lines)
}

/// A text by the letters of its lines (`.` is an empty line), and its fault if it is refused.
const OTHERS: &[(&str, Option<CatalogFault>)] = &[
    ("", Some(CatalogFault::D6(1))),
    ("F", Some(CatalogFault::D6(2))),
    ("FW", Some(CatalogFault::D3(2))),
    ("FLWMCS", Some(CatalogFault::D1(2))),
    ("FWWMS", Some(CatalogFault::D1(3))),
    ("FWMLCS", Some(CatalogFault::D1(4))),
    ("FWK", Some(CatalogFault::D3(2))),
    ("FWASB", Some(CatalogFault::D1(5))),
    ("FWLMC", Some(CatalogFault::D6(6))),
    ("FWLMMCS", Some(CatalogFault::D2(5))),
    ("FWLMmCS", Some(CatalogFault::D2(5))),
    ("FWLMECS", None),
    ("FWLxMCS", Some(CatalogFault::D1(4))),
    ("FWLMCS.", Some(CatalogFault::D1(7))),
    ("FWLMCPS", None),
    ("FWLMCQS", Some(CatalogFault::D1(6))),
    ("FWLMabcdefgCS", None),
    ("FWLMabcdefghCS", Some(CatalogFault::D5(12))),
    ("FWLMabcdefgaCS", Some(CatalogFault::D2(12))),
];

#[test]
fn texts_with_other_lines(rt: HostRuntime) -> Result<(), NoMemory> {
    for (letters, code) in OTHERS {
        let lines = lines_of(rt.alloc(), letters)?;
        assert!(rt; told(rt.alloc(), &lines) == *code, "{letters}");
    }
    Ok(())
}

/// The number of libraries of a text, the letter of the line after them, and the fault of the text
/// if it is refused.
const LIBRARIES: &[(u32, u8, Option<CatalogFault>)] = &[
    (15, b'L', None),
    (16, b'L', Some(CatalogFault::D5(19))),
    (16, b'N', Some(CatalogFault::D3(19))),
];

// The lines of a text with `count` libraries and then the line of `letter`.
fn with_libraries(alloc: Global, count: u32, letter: u8) -> Result<Vec<&'static str>, NoMemory> {
    let mut lines = lines_of(alloc, "FW")?;
    for _ in 0..count {
        lines.push(LIBRARY)?;
    }
    for last in [line_of(letter), MAIN, CONSOLE, START] {
        lines.push(last)?;
    }
    Ok(lines)
}

#[test]
fn libraries(rt: HostRuntime) -> Result<(), NoMemory> {
    for (count, letter, code) in LIBRARIES {
        let lines = with_libraries(rt.alloc(), *count, *letter)?;
        assert!(rt; told(rt.alloc(), &lines) == *code, "{count}");
    }
    Ok(())
}

// A catalog in which `main` has the second name `start`.
fn sought(alloc: Global) -> Result<Catalog, Fail> {
    let lines = lines_of(alloc, "FWLCMsS")?;
    Ok(read(alloc, &lines)?)
}

fn is_headed(catalog: &Catalog) -> bool {
    catalog.frames() == 24
        && catalog.work() == 1
        && catalog.directory(catalog.work()) == b">udd>demo".as_slice()
        && catalog.libraries() == [0u16].as_slice()
}

fn is_started(catalog: &Catalog) -> bool {
    let start = catalog.start();
    start.ring == 4
        && start.name.bytes() == b"main".as_slice()
        && start.entry.bytes() == b"start".as_slice()
}

#[test]
fn heads(rt: HostRuntime) -> Result<(), Fail> {
    let catalog = sought(rt.alloc())?;
    assert!(rt; is_headed(&catalog));
    assert!(rt; is_started(&catalog));
    Ok(())
}

/// The number of a directory, a name, and the number of the segment that is found.
const FOUND: &[(u16, &[u8], Option<usize>)] = &[
    (0, b"con_", Some(0)),
    (1, b"main", Some(1)),
    (1, b"start", Some(1)),
    (0, b"main", None),
    (2, b"main", None),
];

#[test]
fn look_ups(rt: HostRuntime) -> Result<(), Fail> {
    let catalog = sought(rt.alloc())?;
    for (dir, name, found) in FOUND {
        assert!(rt; catalog.find(*dir, name) == *found, "{dir} {name:?}");
    }
    Ok(())
}

const EXECUTED_AND_WRITTEN: Mode = Mode {
    readable: false,
    executable: true,
    writable: true,
    privileged: false,
};

fn is_main(segment: &Segment) -> bool {
    segment.dir == 1
        && segment.kind == SegKind::Object
        && segment.mode == EXECUTED_AND_WRITTEN
        && segment.r3 == 4
        && segment.names.items().len() == 2
}

#[test]
fn rights_that_are_set(rt: HostRuntime) -> Result<(), Fail> {
    let mut catalog = sought(rt.alloc())?;
    assert_eq!(rt; catalog.count(), 2);
    catalog.set_rights(1, false, true, true);
    assert!(rt; is_main(catalog.segment(1)));
    Ok(())
}
