//! Bare images: one that is read, single lines, and lines that are refused.

use m36_core::Core;
use m36_image::{
    Image, ImageCode, ImageFault, Refusal, at_line, core_line, put_line_into_core, read_image,
};
use m36_outside::Text;
use m36_word::NoMemory;
use std::alloc::Global;
use std::process::Abort;

// First lines of an image: none, and then one more each time.
const NOTHING: &[u8] = b"";

const CORE: &[u8] = b"core 1\n";

const DBR: &[u8] = b"core 1\ndbr 000000000000 000000200000\n";

const START: &[u8] = b"core 1\ndbr 000000000000 000000200000\nstart 00001 0 000000\n";

/// The rest of an image, the code of its refusal, and the number of the refused line.
type Refused<'a> = (&'a [u8], ImageCode, u32);

/// In place of the first line.
const OF_CORE: &[Refused] = &[
    (b"", ImageCode::I1, 1),
    (b"\n", ImageCode::I1, 1),
    (b"core\n", ImageCode::I1, 1),
    (b"core \n", ImageCode::I1, 1),
    (b"core  1\n", ImageCode::I1, 1),
    (b"core 1 \n", ImageCode::I1, 1),
    (b" core 1\n", ImageCode::I1, 1),
    (b"core 1x\n", ImageCode::I1, 1),
    (b"core 1\r\n", ImageCode::I1, 1),
    (b"Core 1\n", ImageCode::I1, 1),
    (b"core 1", ImageCode::I1, 1),
    (b"core 0\n", ImageCode::I2, 1),
    (b"core 16385\n", ImageCode::I2, 1),
    (b"core 18446744073709551617\n", ImageCode::I2, 1),
];

/// After the line `core`.
const OF_DBR: &[Refused] = &[
    (b"", ImageCode::I1, 2),
    (b"dbr 000000000000 000000200000", ImageCode::I1, 2),
    (b"dbr 00000000000 000000200000\n", ImageCode::I1, 2),
    (b"dbr 000000000008 000000200000\n", ImageCode::I1, 2),
    (b"dbr 000000000000\n", ImageCode::I1, 2),
    (b"dbr 000000000000 000000200000 0\n", ImageCode::I1, 2),
    (b"start 00001 0 000000\n", ImageCode::I1, 2),
];

/// After the lines `core` and `dbr`.
const OF_START: &[Refused] = &[
    (b"", ImageCode::I1, 3),
    (b"start 1 0 000000\n", ImageCode::I1, 3),
    (b"start 00001 8 000000\n", ImageCode::I1, 3),
    (b"start 00001 0 0000000\n", ImageCode::I1, 3),
    (b"start 00001 0\n", ImageCode::I1, 3),
];

/// After the lines `core`, `dbr` and `start`. Core has 1,024 words; its last address is octal 1777.
const OF_WORDS: &[Refused] = &[
    (b"core 1\n", ImageCode::I1, 4),
    (b"at 00000010\n", ImageCode::I1, 4),
    (b"at 00000010 \n", ImageCode::I1, 4),
    (b"at 0000010 000000000001\n", ImageCode::I1, 4),
    (b"at 00000010 00000000001\n", ImageCode::I1, 4),
    (b"at 00002000 000000000001", ImageCode::I1, 4),
    (
        b"at 00000010 000000000001  000000000002\n",
        ImageCode::I1,
        4,
    ),
    (
        b"at 00000010 000000000001 000000000002 000000000003 000000000004 000000000005 000000000006 000000000007 000000000010 000000000011\n",
        ImageCode::I1,
        4,
    ),
    (b"at 00002000 000000000001\n", ImageCode::I3, 4),
    (b"at 00001777 000000000001 000000000002\n", ImageCode::I3, 4),
    (
        b"at 00000010 000000000001 000000000002\nat 00000011 000000000003\n",
        ImageCode::I3,
        5,
    ),
    (
        b"at 00000010 000000000001\nat 00000007 000000000003\nat 1\n",
        ImageCode::I3,
        5,
    ),
    (
        b"at 00001777 000000000001\nat 00000010 8\n",
        ImageCode::I1,
        5,
    ),
];

// The refusal of a text, if it is refused. A text of over 1000 bytes answers `NoMemory`.
fn refusal(alloc: Global, text: &[u8]) -> Result<Option<Refusal>, NoMemory> {
    if text.len() > 1000 {
        return Err(NoMemory);
    }
    match read_image(alloc, text) {
        Ok(_) => Ok(None),
        Err(ImageFault::Refused(refusal)) => Ok(Some(refusal)),
        Err(ImageFault::NoMemory) => Err(NoMemory),
    }
}

fn refuses(alloc: Global, front: &[u8], row: &Refused) -> Result<bool, NoMemory> {
    let (rest, code, line) = row;
    let expected = Refusal {
        line: *line,
        code: *code,
    };
    let mut text = Text::from_bytes(alloc, front)?;
    text.append(rest)?;
    Ok(refusal(alloc, text.bytes())? == Some(expected))
}

fn refuse(rt: &impl Abort, alloc: Global, front: &[u8], rows: &[Refused]) -> Result<(), NoMemory> {
    for row in rows {
        assert!(rt; refuses(alloc, front, row)?, "{:?}", row.0);
    }
    Ok(())
}

#[test]
fn refuses_lines(rt: HostRuntime) -> Result<(), NoMemory> {
    refuse(&rt, rt.alloc(), NOTHING, OF_CORE)?;
    refuse(&rt, rt.alloc(), CORE, OF_DBR)?;
    refuse(&rt, rt.alloc(), DBR, OF_START)?;
    refuse(&rt, rt.alloc(), START, OF_WORDS)
}

const IMAGE: &[u8] = b"core 0002
dbr 000000400004 000010300000
start 12345 6 012345
at 00000000 000000000001
at 00003776 000000000002 777777777777
";

/// Some words of the core of `IMAGE`.
const WORDS: &[(u32, u64)] = &[(0, 1), (1, 0), (0o3776, 2), (0o3777, 0o777777777777)];

fn has_words(core: &Core, words: &[(u32, u64)]) -> bool {
    for (address, word) in words {
        if *address >= core.len() || core.peek(*address).value() != *word {
            return false;
        }
    }
    true
}

fn is_right(image: &Image) -> bool {
    let (ppr, dbr) = (image.regs.ppr, image.regs.dbr);
    image.core.len() == 2048
        && has_words(&image.core, WORDS)
        && (ppr.psr, ppr.prr, ppr.ic) == (0o12345, 6, 0o12345)
        && (dbr.addr, dbr.bnd) == (0o40, 1)
}

fn is_read(alloc: Global) -> bool {
    match read_image(alloc, IMAGE) {
        Ok(image) => is_right(&image),
        Err(_) => false,
    }
}

#[test]
fn reads_an_image(rt: HostRuntime) {
    assert!(rt; is_read(rt.alloc()));
}

const LINE: &[u8] = b"at 00000017 000000000005";

fn is_word_17() -> bool {
    match at_line(LINE) {
        Some(placed) => placed.first == 0o17 && placed.words.as_slice().len() == 1,
        None => false,
    }
}

#[test]
fn reads_single_lines(rt: HostRuntime) {
    assert_eq!(rt; core_line(b"core 16384"), Ok(16384));
    assert!(rt; is_word_17());
}

/// The first free address before a line, the line, and the first free address after it.
const ENDS: &[(u32, &[u8], Result<u32, ImageCode>)] = &[
    (0o17, LINE, Ok(0o20)),
    (0o20, LINE, Err(ImageCode::I3)),
    (0, b"at", Err(ImageCode::I1)),
];

#[test]
fn puts_single_lines(rt: HostRuntime) -> Result<(), NoMemory> {
    let mut core = Core::new(rt.alloc(), 1)?;
    for (next, line, end) in ENDS {
        assert!(rt;
            put_line_into_core(&mut core, *next, line) == *end,
            "{next}"
        );
    }
    Ok(())
}
