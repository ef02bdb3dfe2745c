//! Small images that each break one or two of the audit's conditions, and some that break none.

use Segment::{Code, Disordered, Paged, Stack, Text, Whole};
use m36_audit::{Verdict, audit};
use m36_core::Core;
use m36_desc::{Dbr, Ptw, Sdw};
use m36_word::{NoMemory, Word};
use std::alloc::Global;

/// A segment that is present. The three numbers of the first variants are its number, the address
/// of its first word or its page table, and its bound field (one less than its blocks of 16 words).
#[derive(Clone, Copy)]
enum Segment {
    /// An unpaged segment of ring 4 that may be read and written.
    Whole(u32, u32, u16),
    /// As `Whole`, but paged.
    Paged(u32, u32, u16),
    /// As `Whole`, with the brackets 4 3 4, which are out of order.
    Disordered(u32, u32, u16),
    /// Segment 0 with these first two brackets. It may be read, and written if the flag says so.
    Stack(u8, u8, bool),
    /// Segment 1 of 16 words at octal 40, which rings up to 5 may call: at every word if the flag
    /// is set, otherwise it is a gate.
    Code(bool),
    /// As `Code(true)`, but it may only be read.
    Text,
}

/// An image of three frames: its descriptor segment, its segments, its page table words (address
/// and frame of the page), and the expected findings (condition and place).
struct Image<'a>(Base, &'a [Segment], &'a [(u32, u8)], &'a [(u8, u32)]);

/// The form and the place of the descriptor segment.
#[derive(Clone, Copy)]
enum Base {
    /// Unpaged at core word 0, with eight descriptors.
    Eight,
    /// Paged, with eight descriptors and its page table at octal 100.
    Directory,
    /// Paged, with two pages and its page table at octal 100.
    TwoPages,
    /// Paged, with a page table that is a word of one of its own descriptors.
    Inside,
}

/// The descriptor segment base register. The stacks are segments 0 to 7.
fn dbr(base: Base) -> Dbr {
    let (addr, bnd, unpaged) = match base {
        Base::Eight => (0, 0, true),
        Base::Directory => (0o100, 0, false),
        Base::TwoPages => (0o100, 0o177, false),
        Base::Inside => (0o2003, 0, false),
    };
    Dbr {
        addr,
        bnd,
        stack: 0,
        unpaged,
    }
}

/// The number of a segment, and its descriptor.
fn described(segment: Segment) -> (u32, Sdw) {
    let outer = Sdw {
        addr: 0o40,
        bound: 0,
        limit: 0,
        r1: 4,
        r2: 4,
        r3: 4,
        fc: 0,
        f: true,
        readable: true,
        executable: false,
        writable: true,
        privileged: false,
        unpaged: true,
        no_gate: true,
        cached: false,
    };
    match segment {
        Whole(number, addr, bound) => (number, lying(outer, addr, bound, true)),
        Paged(number, addr, bound) => (number, lying(outer, addr, bound, false)),
        Disordered(number, addr, bound) => {
            let sdw = Sdw { r2: 3, ..outer };
            (number, lying(sdw, addr, bound, true))
        }
        Stack(r1, r2, writable) => {
            let sdw = Sdw {
                addr: 0o200,
                r1: r1 % 8,
                r2: r2 % 8,
                writable,
                ..outer
            };
            (0, sdw)
        }
        Code(no_gate) => (1, called(outer, true, no_gate)),
        Text => (1, called(outer, false, true)),
    }
}

fn lying(sdw: Sdw, addr: u32, bound: u16, unpaged: bool) -> Sdw {
    Sdw {
        addr: addr % 0o100000000,
        bound: bound % 0o40000,
        unpaged,
        ..sdw
    }
}

fn called(sdw: Sdw, executable: bool, no_gate: bool) -> Sdw {
    Sdw {
        r1: 0,
        r2: 0,
        r3: 5,
        executable,
        writable: false,
        no_gate,
        ..sdw
    }
}

/// The page table word of a page in `frame`.
fn page_table_word(frame: u8) -> Word {
    let ptw = Ptw {
        addr: 16 * frame as u32,
        fc: 0,
        used: false,
        modified: false,
        f: true,
    };
    ptw.to_words()
}

fn put(core: &mut Core, place: u32, word: Word) {
    if place < core.len() {
        core.poke(place, word);
    }
}

/// Writes the tables of an image to core. Descriptors of a paged descriptor segment are in frame 1.
fn put_tables(core: &mut Core, unpaged: bool, segments: &[Segment], pages: &[(u32, u8)]) {
    let first = if unpaged { 0 } else { 0o2000 };
    for segment in segments {
        let (number, sdw) = described(*segment);
        let pair = sdw.to_words();
        let place = first + 2 * (number % 8);
        put(core, place, pair.even);
        put(core, place + 1, pair.odd);
    }
    for (place, frame) in pages {
        put(core, *place, page_table_word(*frame));
    }
}

/// Whether the verdict has exactly these findings, as conditions and places.
fn are_found(verdict: &Verdict, expected: &[(u8, u32)]) -> bool {
    for (finding, (condition, place)) in verdict.findings.iter().zip(expected) {
        if finding.condition != *condition || finding.place != *place {
            return false;
        }
    }
    verdict.findings.len() == expected.len() && verdict.has_no_findings() == expected.is_empty()
}

/// Images without page tables.
const WHOLE_SEGMENTS: &[Image] = &[
    // The least image; two segments with the brackets 4 3 4.
    Image(Base::Eight, &[Whole(1, 0o40, 0)], &[], &[]),
    Image(
        Base::Eight,
        &[Disordered(2, 0o40, 0), Disordered(5, 0o60, 0)],
        &[],
        &[(1, 2)],
    ),
    // Outer rings may call the segment at every word, and ring 0 has no stack; then ring 0 has a
    // stack; then the segment is a gate.
    Image(Base::Eight, &[Code(true)], &[], &[(5, 1), (6, 1)]),
    Image(
        Base::Eight,
        &[Stack(0, 0, true), Code(true)],
        &[],
        &[(5, 1)],
    ),
    Image(Base::Eight, &[Stack(0, 0, true), Code(false)], &[], &[]),
    // The stack cannot be written, or has the brackets 0 4 4. A segment that may not be executed
    // needs no stack.
    Image(
        Base::Eight,
        &[Stack(0, 0, false), Code(false)],
        &[],
        &[(6, 1)],
    ),
    Image(
        Base::Eight,
        &[Stack(0, 4, true), Code(false)],
        &[],
        &[(6, 1)],
    ),
    Image(Base::Eight, &[Text], &[], &[]),
    // Adjacent segments; segments that overlap; and the same where the first has brackets out of
    // order, which are found instead.
    Image(
        Base::Eight,
        &[Whole(1, 0o40, 0), Whole(2, 0o60, 0)],
        &[],
        &[],
    ),
    Image(
        Base::Eight,
        &[Whole(1, 0o40, 1), Whole(2, 0o77, 0)],
        &[],
        &[(4, 0o77)],
    ),
    Image(
        Base::Eight,
        &[Disordered(1, 0o40, 1), Whole(2, 0o77, 0)],
        &[],
        &[(1, 1)],
    ),
    // A segment on descriptors of absent segments; one at the last addresses, past the end of core,
    // which goes on at address 0.
    Image(Base::Eight, &[Whole(1, 0o14, 0)], &[], &[(3, 0o14)]),
    Image(Base::Eight, &[Whole(1, 0o77777770, 0)], &[], &[(3, 0)]),
];

/// Images with page tables.
const TABLES: &[Image] = &[
    // A segment on a page table, a page table on the descriptors, and twice two pages in one frame.
    Image(
        Base::Eight,
        &[Paged(1, 0o100, 0), Whole(2, 0o100, 0)],
        &[(0o100, 2)],
        &[(3, 0o100)],
    ),
    Image(Base::Eight, &[Paged(1, 0o10, 0)], &[], &[(2, 0o10)]),
    Image(
        Base::Eight,
        &[Paged(1, 0o100, 0), Paged(2, 0o101, 0)],
        &[(0o100, 2), (0o101, 2)],
        &[(4, 0o4000)],
    ),
    Image(
        Base::Eight,
        &[Paged(1, 0o100, 64)],
        &[(0o100, 2), (0o101, 2)],
        &[(4, 0o4000)],
    ),
    // Two page tables that share a word, whose page is absent.
    Image(
        Base::Eight,
        &[Paged(1, 0o100, 0), Paged(2, 0o100, 0)],
        &[],
        &[(2, 0o100)],
    ),
    // A segment beside the page table of the descriptor segment, and one on it; then that page
    // table is a word of a descriptor.
    Image(Base::Directory, &[Whole(1, 0o40, 0)], &[(0o100, 1)], &[]),
    Image(
        Base::Directory,
        &[Whole(1, 0o100, 0)],
        &[(0o100, 1)],
        &[(3, 0o100)],
    ),
    Image(Base::Inside, &[], &[(0o2003, 1)], &[(2, 0o2003)]),
    // Two pages of descriptors in one frame, so that two descriptor words are one core word; then
    // the second page is absent.
    Image(Base::TwoPages, &[], &[(0o100, 1), (0o101, 1)], &[]),
    Image(Base::TwoPages, &[], &[(0o100, 1)], &[]),
    // The second page is past the end of core.
    Image(Base::TwoPages, &[], &[(0o100, 1), (0o101, 3)], &[]),
];

/// Whether the audit of core has exactly these findings.
fn finds(alloc: Global, core: &Core, dbr: Dbr, expected: &[(u8, u32)]) -> Result<bool, NoMemory> {
    let verdict = audit(alloc, core, dbr)?;
    let told = are_found(&verdict, expected);
    drop(verdict);
    Ok(told)
}

/// Whether the audit of an image has the expected findings.
fn is_found(alloc: Global, image: &Image) -> Result<bool, NoMemory> {
    let Image(base, segments, pages, findings) = image;
    let dbr = dbr(*base);
    let mut core = Core::new(alloc, 3)?;
    put_tables(&mut core, dbr.unpaged, segments, pages);
    let told = finds(alloc, &core, dbr, findings);
    // Dropped by a call, so that the drop is proved once for its type; also above.
    drop(core);
    told
}

#[test]
fn findings_of_images(rt: HostRuntime) -> Result<(), NoMemory> {
    for (n, image) in WHOLE_SEGMENTS.iter().enumerate() {
        assert!(rt; is_found(rt.alloc(), image)?, "image {n}");
    }
    Ok(())
}

#[test]
fn findings_of_tables(rt: HostRuntime) -> Result<(), NoMemory> {
    for (n, image) in TABLES.iter().enumerate() {
        assert!(rt; is_found(rt.alloc(), image)?, "image {n}");
    }
    Ok(())
}
