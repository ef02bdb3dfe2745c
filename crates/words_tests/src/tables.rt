//! Lookups in small descriptor segments and page tables. A place is the address of a word in core.

ghost use Rattle.std.specs.Prelude.{◌<◌, ◌^◌};

use m36_core::Core;
use m36_desc::{Dbr, Ptw, Sdw};
use m36_model::Refusal;
use m36_tables::{
    content, descriptor, descriptor_place, directory_at, has_ordered_brackets, is_within_bound,
    page_at, page_frame, page_table_word, place, segment_count, word_in_core, word_place,
};
use m36_word::{NoMemory, Pair, Word};
use std::alloc::Global;

/// An unpaged descriptor segment at core word 0, with eight descriptors.
const WHOLE: Dbr = Dbr {
    addr: 0,
    bnd: 0,
    stack: 0,
    unpaged: true,
};

/// A paged descriptor segment, whose page table is at core word octal 100.
const PAGED: Dbr = Dbr {
    addr: 0o100,
    bnd: 0,
    stack: 0,
    unpaged: false,
};

/// A segment of ring `r1` with `bound` + 1 blocks of 16 words.
fn segment(addr: u32, bound: u16, r1: u8, unpaged: bool) -> Sdw
    requires addr { addr < 2 ^ 24 }
    requires bound { bound < 2 ^ 14 }
    requires ring { r1 < 2 ^ 3 }
{
    Sdw {
        addr,
        bound,
        limit: 0,
        r1,
        r2: 4,
        r3: 4,
        fc: 3,
        f: true,
        readable: true,
        executable: true,
        writable: true,
        privileged: false,
        unpaged,
        no_gate: true,
        cached: false,
    }
}

/// The page table word of a page in `frame`, or of an absent page.
fn page(frame: Option<u8>) -> Word {
    let ptw = Ptw {
        addr: 16 * frame.unwrap_or(0) as u32,
        fc: 2,
        used: false,
        modified: false,
        f: frame.is_some(),
    };
    ptw.to_words()
}

/// Core of two frames, with six descriptors from the core word `descriptors` on. The page table
/// of segment 2 is at octal 200. Core word octal 2017 is 7.
fn image(alloc: Global, descriptors: u32) -> Result<Core, NoMemory> {
    let absent = Sdw {
        f: false,
        ..segment(0, 0, 4, true)
    };
    let segments = [
        segment(0, 0, 4, true),
        segment(0o2000, 0, 4, true),
        segment(0o200, 127, 4, false),
        segment(0o2000, 0, 5, true),
        absent,
        segment(0o4000, 0, 4, true),
    ];
    let mut core = Core::new(alloc, 2)?;
    let mut next = descriptors;
    for sdw in segments.iter() {
        let pair = sdw.to_words();
        put(&mut core, next, pair.even);
        put(&mut core, next.wrapping_add(1), pair.odd);
        next = next.wrapping_add(2);
    }
    put(&mut core, 0o100, page(Some(1)));
    put(&mut core, 0o200, page(Some(1)));
    put(&mut core, 0o201, page(None));
    put(&mut core, 0o2017, Word::low(7));
    Ok(core)
}

fn put(core: &mut Core, place: u32, word: Word) {
    if place < core.len() {
        core.poke(place, word);
    }
}

/// A place, or the number of a fault and of its access violation (0 if there is none).
type PlaceOrFault = Result<u32, (u8, u8)>;

fn told(place: Result<u32, Refusal>) -> PlaceOrFault {
    match place {
        Ok(place) => Ok(place),
        Err(refusal) => Err((refusal.number, refusal.acv)),
    }
}

/// A segment, a word of it, and the place of that word.
const PLACES: &[(u16, u32, PlaceOrFault)] = &[
    (1, 0, Ok(0o2000)),
    (1, 0o17, Ok(0o2017)),
    (1, 0o20, Err((20, 15))),
    (2, 5, Ok(0o2005)),
    (2, 0o2000, Err((18, 0))),
    (2, 0o4000, Err((20, 15))),
    (3, 0, Err((20, 0))),
    (4, 0, Err((19, 0))),
    (5, 0, Err((1, 0))),
    (8, 0, Err((20, 15))),
];

/// A segment, a word of it, and the value of that word, if it is in core.
const CONTENTS: &[(u16, u32, Option<u64>)] = &[
    (1, 0o17, Some(7)),
    (2, 0o17, Some(7)),
    (2, 0o2017, None),
];

fn has_places(core: &Core) -> bool {
    for (seg, word, expected) in PLACES {
        if told(place(core, WHOLE, *seg % 0o100000, *word % 0o1000000)) != *expected {
            return false;
        }
    }
    true
}

fn has_content(core: &Core, seg: u16, word: u32, expected: Option<u64>) -> bool {
    match content(core, WHOLE, seg % 0o100000, word % 0o1000000) {
        Some(found) => expected == Some(found.value()),
        None => expected == None,
    }
}

fn has_contents(core: &Core) -> bool {
    for (seg, word, expected) in CONTENTS {
        if !has_content(core, *seg, *word, *expected) {
            return false;
        }
    }
    true
}

#[test]
fn places_of_words(rt: HostRuntime) -> Result<(), NoMemory> {
    let core = image(rt.alloc(), 0)?;
    let told = has_places(&core) && has_contents(&core);
    // Dropped by a call, so that the drop is proved once for its type; also below.
    drop(core);
    assert!(rt; told);
    Ok(())
}

/// The descriptor of segment 2 of the image.
fn paged_segment() -> Sdw {
    segment(0o200, 127, 4, false)
}

#[test]
fn addresses_of_tables(rt: HostRuntime) {
    let sdw = paged_segment();
    assert!(rt; segment_count(PAGED) == 8 && directory_at(PAGED, 2) == 0o100);
    assert!(rt;
        has_ordered_brackets(&sdw)
            && is_within_bound(&sdw, 0o3777)
            && !is_within_bound(&sdw, 0o4000)
    );
    assert!(rt; page_at(&sdw, 1) == 0o201);
}

fn has_descriptor(core: &Core, sdw: Sdw) -> bool {
    descriptor_place(core, PAGED, 2) == Ok(0o2004) && descriptor(core, PAGED, 2) == Ok(sdw)
}

fn has_page_table(core: &Core) -> bool {
    page_table_word(core, 0o201) == Some(Ptw::of_words(page(None)))
        && page_table_word(core, 0o4000) == None
}

fn has_pages(core: &Core, sdw: &Sdw) -> bool {
    told(page_frame(core, sdw, 0)) == Ok(0o2000) && told(page_frame(core, sdw, 1)) == Err((18, 0))
}

fn has_word(core: &Core, sdw: &Sdw) -> bool {
    word_place(core, sdw, 3) == Ok(0o2003) && word_in_core(core, sdw, 3) == Ok(0o2003)
}

#[test]
fn words_of_tables(rt: HostRuntime) -> Result<(), NoMemory> {
    let core = image(rt.alloc(), 0o2000)?;
    let sdw = paged_segment();
    let is_described = has_descriptor(&core, sdw) && has_page_table(&core);
    let told = is_described && has_pages(&core, &sdw) && has_word(&core, &sdw);
    drop(core);
    assert!(rt; told);
    Ok(())
}
