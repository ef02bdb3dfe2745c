//! Tests of the associative memories of a walk: what they keep, in which order, and what empties
//! them.
//!
//! The expected content is computed here by the rule alone. Each memory is a list of 16 keys, and a
//! key that is used moves to its front. A reference uses the descriptor of its segment and, unless
//! it is refused, the page table word of its page.

ghost use Rattle.std.specs.Prelude.{◌<◌, ◌≤◌, ◌^◌};

use crate::walk::Walk;
use m36_core::Core;
use m36_desc::{Dbr, Ptw, Sdw};
use m36_model::At;
use m36_word::{NoMemory, Word};
use std::alloc::Global;

/// The descriptor segment is contiguous, at core word 0, and has descriptors of 64 segments.
const WHOLE: Dbr = Dbr {
    addr: 0,
    bnd: 7,
    stack: 1,
    unpaged: true,
};

/// The same descriptors, found through the page table word at octal 400.
const PAGED: Dbr = Dbr {
    addr: 0o400,
    bnd: 7,
    stack: 1,
    unpaged: false,
};

/// No key.
const NONE: u32 = u32::MAX;

/// The page table of segment 62 begins at the descriptor of segment 60.
const ODD_ONE: u16 = 62;

/// The core address of the page table of a segment.
fn table_of(seg: u16) -> u32
    requires { seg < 64 }
    ensures { result < 2 ^ 10 }
{
    if seg == ODD_ONE {
        return 120;
    }
    0o200 + 2 * seg as u32
}

/// A segment of two pages, in ring 4.
fn descriptor_of(seg: u16) -> Sdw
    requires { seg < 64 }
{
    Sdw {
        addr: table_of(seg),
        bound: 127,
        limit: 0,
        r1: 4,
        r2: 4,
        r3: 4,
        fc: 0,
        f: true,
        readable: true,
        executable: true,
        writable: true,
        privileged: false,
        unpaged: false,
        no_gate: true,
        cached: false,
    }
}

/// A page table word for a frame.
fn frame(number: u32) -> Ptw
    requires { number < 4 }
{
    Ptw {
        addr: 16 * number,
        fc: 0,
        used: false,
        modified: false,
        f: true,
    }
}

// Writes a word, if the address is in core.
fn put(core: &mut Core, place: u32, word: Word) {
    if place < core.len() {
        core.poke(place, word);
    }
}

/// The tables, in frame 0, of 64 segments whose pages are frames 1 and 2.
fn put_tables(core: &mut Core) {
    put(core, 0o400, frame(0).to_words());
    for seg in 0..64 {
        let words = descriptor_of(seg).to_words();
        put(core, 2 * seg as u32, words.even);
        put(core, 2 * seg as u32 + 1, words.odd);
        if seg != ODD_ONE {
            put(core, table_of(seg), frame(1).to_words());
            put(core, table_of(seg) + 1, frame(2).to_words());
        }
    }
}

// A walk over a core of four frames that has the tables of `put_tables`.
fn walk_of(alloc: Global, dbr: Dbr) -> Result<Walk, NoMemory> {
    let mut core = Core::new(alloc, 4)?;
    put_tables(&mut core);
    Ok(Walk::new(core, dbr))
}

/// The segments whose descriptors are kept, the most recently used first.
fn segments_kept(walk: &mut Walk) -> [u32; 16] {
    let mut keys = [NONE; 16];
    for i in 0..16 {
        if let Some(seg) = walk.memories.segment_of_rank(i) {
            keys[i] = seg as u32;
        }
    }
    keys
}

/// The addresses of the page table words that are kept, the most recently used first.
fn tables_kept(walk: &mut Walk) -> [u32; 16] {
    let mut keys = [NONE; 16];
    for i in 0..16 {
        if let Some(a) = walk.memories.table_word_of_rank(i) {
            keys[i] = a;
        }
    }
    keys
}

/// Records a use of a key in the expected order: the key moves to the front, and a 17th is dropped.
fn move_to_front(order: &mut [u32; 16], key: u32) {
    let mut carried = key;
    for kept in order.iter_mut() {
        let next = *kept;
        *kept = carried;
        if next == key {
            return;
        }
        carried = next;
    }
}

/// What both memories have to keep.
#[derive(Drop)]
struct Orders {
    segments: [u32; 16],
    tables: [u32; 16],
}

// What empty memories keep.
fn empty_orders() -> Orders {
    Orders {
        segments: [NONE; 16],
        tables: [NONE; 16],
    }
}

/// Whether the memories keep exactly this, in this order.
fn keeps(walk: &mut Walk, orders: &Orders) -> bool {
    segments_kept(walk) == orders.segments && tables_kept(walk) == orders.tables
}

/// A word of a segment.
fn at(seg: u16, word: u32, ring: u8) -> At
    requires seg { seg < 2 ^ 15 }
    requires word { word < 2 ^ 18 }
    requires ring { ring < 8 }
{
    At { word, seg, ring }
}

/// Fetches as a step does: from the page that was fetched from last, from another page in front, or
/// by the tables.
fn fetch_quickly(walk: &mut Walk, place: At) {
    if walk.quick_fetch(place).is_some() || walk.quick_fetch_elsewhere(place).is_some() {
        return;
    }
    drop(walk.fetch(place));
}

/// Reads a word as a step does: from a page in front, or by the tables.
fn read_quickly(walk: &mut Walk, place: At) {
    if walk.quick_read(place).is_none() {
        drop(walk.read(place, 1));
    }
}

/// Checks a word to be written, as a step does: in a page in front, or by the tables.
fn claim_quickly(walk: &mut Walk, place: At) {
    if walk.quick_write(place).is_none() {
        drop(walk.claim_place(place, 1));
    }
}

/// A reference of one of ten kinds. The last two are refused: by the ring, and by the bound.
fn refer(walk: &mut Walk, kind: u32, seg: u16, word: u32)
    requires seg { seg < 64 }
    requires word { word < 2 ^ 11 }
{
    let place = at(seg, word, 4);
    match kind {
        0 => drop(walk.fetch(place)),
        1 => fetch_quickly(walk, place),
        2 => drop(walk.read(place, 0)),
        3 => read_quickly(walk, place),
        4 => drop(walk.write(place, Word::low(kind as u64))),
        5 => claim_quickly(walk, place),
        6 => drop(walk.read_pair(place, seg)),
        7 => drop(walk.read_block(place, seg)),
        8 => drop(walk.read(at(seg, word, 5), seg)),
        _ => drop(walk.read(at(seg, word + 2048, 4), seg)),
    }
}

/// A reference, and what it uses by the rule.
fn refer_by_rule(walk: &mut Walk, orders: &mut Orders, kind: u32, seg: u16, word: u32)
    requires seg { seg < 64 }
    requires word { word < 2 ^ 11 }
{
    refer(walk, kind, seg, word);
    move_to_front(&mut orders.segments, seg as u32);
    if kind < 8 {
        move_to_front(&mut orders.tables, table_of(seg) + word / 1024);
    }
}

/// The next of a sequence of pseudorandom numbers.
fn next(number: &mut u32) -> u32 {
    *number = number.wrapping_mul(1_664_525).wrapping_add(1_013_904_223);
    *number / 65_536
}

/// The number of segments that random references go to: so few that all are kept, some more than
/// are kept, or far more.
#[derive(Clone, Copy)]
enum Spread {
    Few,
    Some,
    Many,
}

// The number of segments that random references go to; each memory has 16 entries.
fn number_of_segments(spread: Spread) -> u32
    ensures some { 0 < result }
    ensures most { result ≤ 60 }
{
    match spread {
        Spread::Few => 3,
        Spread::Some => 18,
        Spread::Many => 60,
    }
}

/// Makes this many random references.
fn refer_at_random(
    walk: &mut Walk,
    orders: &mut Orders,
    lot: &mut u32,
    count: u32,
    spread: Spread,
) {
    let segments = number_of_segments(spread);
    for _ in 0..count {
        let kind = next(lot) % 10;
        let seg = (next(lot) % segments) as u16;
        let word = next(lot) % 2048;
        refer_by_rule(walk, orders, kind, seg, word);
    }
}

#[test]
fn keep_what_was_read_and_are_emptied(rt: HostRuntime) -> Result<(), NoMemory> {
    let mut walk = walk_of(rt.alloc(), WHOLE)?;
    let mut orders = empty_orders();
    assert!(rt; keeps(&mut walk, &orders));
    assert!(rt; walk.read(at(4, 1, 4), 0) == Ok(Word::ZERO));
    assert!(rt; walk.read(at(5, 1, 4), 0) == Ok(Word::ZERO));
    assert!(rt; walk.read(at(4, 1, 4), 0) == Ok(Word::ZERO));
    orders.segments[0] = 4;
    orders.segments[1] = 5;
    orders.tables[0] = 0o210;
    orders.tables[1] = 0o212;
    assert!(rt; keeps(&mut walk, &orders));
    assert!(rt; walk.core_mut().len() == 4096);
    assert!(rt; keeps(&mut walk, &empty_orders()));
    Ok(())
}

#[test]
fn keep_what_was_used_last(rt: HostRuntime) -> Result<(), NoMemory> {
    let mut lot = 1;
    for dbr in [WHOLE, PAGED] {
        for spread in [Spread::Few, Spread::Some, Spread::Many] {
            let mut walk = walk_of(rt.alloc(), dbr)?;
            let mut orders = empty_orders();
            for turn in 0..200 {
                refer_at_random(&mut walk, &mut orders, &mut lot, turn % 40, spread);
                assert!(rt; keeps(&mut walk, &orders), "after turn {turn}");
            }
        }
    }
    Ok(())
}

/// Writes the word at an address again with its own value.
fn rewrite(walk: &mut Walk, place: u32) {
    if place < walk.core().len() {
        let word = walk.core().peek(place);
        walk.store(place, word);
    }
}

/// Reads words of segments 4 and 5, and then writes the word at an address again with its own
/// value.
fn walk_after_rewrite(alloc: Global, dbr: Dbr, place: u32) -> Result<Walk, NoMemory> {
    let mut walk = walk_of(alloc, dbr)?;
    refer(&mut walk, 2, 5, 1);
    refer(&mut walk, 2, 4, 1);
    rewrite(&mut walk, place);
    Ok(walk)
}

/// What is kept after these two reads.
fn orders_after_two_reads() -> Orders {
    let mut orders = empty_orders();
    orders.segments[0] = 4;
    orders.segments[1] = 5;
    orders.tables[0] = 0o210;
    orders.tables[1] = 0o212;
    orders
}

#[test]
fn are_emptied_by_a_write_of_a_table_word(rt: HostRuntime) -> Result<(), NoMemory> {
    // The words of the two descriptors, the page table words that were read, and the one through
    // which the descriptors were found.
    for place in [8, 9, 10, 11, 0o210, 0o212, 0o400] {
        let mut walk = walk_after_rewrite(rt.alloc(), PAGED, place)?;
        assert!(rt; keeps(&mut walk, &empty_orders()), "at {place}");
    }
    // Words of a descriptor and page table words that were not read, and words of the pages.
    for place in [12, 0o211, 0o214, 0o2000, 0o2001, 0o4000] {
        let mut walk = walk_after_rewrite(rt.alloc(), PAGED, place)?;
        assert!(rt; keeps(&mut walk, &orders_after_two_reads()), "at {place}");
    }
    let mut walk = walk_after_rewrite(rt.alloc(), WHOLE, 0o400)?;
    assert!(rt; keeps(&mut walk, &orders_after_two_reads()));
    Ok(())
}

#[test]
fn stay_as_they_are_when_a_word_of_an_entry_that_went_is_written(
    rt: HostRuntime,
) -> Result<(), NoMemory> {
    let mut walk = walk_of(rt.alloc(), WHOLE)?;
    let mut orders = empty_orders();
    for seg in 4..30 {
        refer_by_rule(&mut walk, &mut orders, 2, seg, 1);
    }
    // The descriptors of segments 14 to 29 are kept, and those of 4 to 13 are not.
    for place in [8, 27, 0o210, 0o232] {
        rewrite(&mut walk, place);
        assert!(rt; keeps(&mut walk, &orders), "at {place}");
    }
    rewrite(&mut walk, 28);
    assert!(rt; keeps(&mut walk, &empty_orders()));
    Ok(())
}

#[test]
fn are_emptied_by_the_register_and_by_a_mark(rt: HostRuntime) -> Result<(), NoMemory> {
    let mut walk = walk_after_rewrite(rt.alloc(), WHOLE, 0o2000)?;
    walk.set_dbr(WHOLE);
    assert!(rt; keeps(&mut walk, &empty_orders()));
    // The page table word of segment 62 is the even word of the descriptor of segment 60.
    refer(&mut walk, 2, 60, 1);
    assert!(rt; segments_kept(&mut walk)[0] == 60);
    refer(&mut walk, 2, ODD_ONE, 1);
    assert!(rt; keeps(&mut walk, &empty_orders()));
    Ok(())
}
