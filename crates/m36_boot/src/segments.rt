//! The descriptors and the words of segments.

ghost use Rattle.std.specs.Prelude.{◌≡◌, ◌+◌, ◌*◌, ◌/◌, ◌<◌, ◌≤◌, ◌^◌, ◌⊎◌, length, IfOk, IfSome};
ghost use Rattle.std.specs.Prelude.{true};
ghost use Rattle.m36_desc.specs.Access.{has_ordered_brackets};
ghost use Rattle.m36_model.specs.BootedCore.{table_words, table_at, booted_segments};
ghost use Rattle.obj36_parts.specs.ObjectSegment.{segment_limit};
ghost use Rattle.m36_link.specs.Known.{first_segment};
ghost use Rattle.m36_boot.specs.Segments.{AreShort, first_stack, after_ring_segments};
ghost use Rattle.m36_boot.specs.Segments.{paged_descriptor, ring_descriptor, catalog_descriptor};
ghost use Rattle.m36_boot.specs.Segments.{booted_sdw, stack_words, lot_of, linkage_words};
ghost use Rattle.m36_boot.specs.Segments.{booted_words};
ghost use Rattle.m36_boot.specs.Refusals.{IsLimit, AreLimits};

use crate::objects::file;
use m36_desc::{ITS_TAG, Sdw};
use m36_dir::{Catalog, SegKind, Segment};
use m36_link::{FIRST_LINKAGE, FIRST_SEGMENT, File, LOT_WORDS, NewSection};
use m36_word::{NoMemory, Word, Words};
use obj36_parts::sections::{copy_of_words, push_all, push_zeros};
use std::alloc::Global;

/// The number of the stack of ring 0.
pub(crate) const FIRST_STACK: u16 = 8;

// The first number after those of the linkage segments.
const AFTER_RING_SEGMENTS: u16 = 24;

/// The core address of the page table of a segment; each has 256 words.
pub(crate) fn table_at(seg: u16) -> u32
    requires { seg < booted_segments }
    ensures { result ≡ table_at seg }
{
    2048 + 256 * seg as u32
}

// ---- descriptors

// The descriptor of a paged segment whose last block of 16 words is `last`, with no mode on.
fn paged_descriptor(seg: u16, last: u16) -> Sdw
    requires seg { seg < booted_segments }
    requires last { last < 2 ^ 14 }
    ensures { result ≡ paged_descriptor seg last }
{
    Sdw {
        addr: table_at(seg),
        bound: last,
        limit: 0,
        r1: 0,
        r2: 0,
        r3: 0,
        fc: 0,
        f: true,
        readable: false,
        executable: false,
        writable: false,
        privileged: false,
        unpaged: false,
        no_gate: true,
        cached: false,
    }
}

// The descriptor of a stack or a linkage segment.
#[tactic(auto, using(crate::proofs::Orders::in_order_by))]
fn ring_descriptor(seg: u16, ring: u8, pages: u16) -> Sdw
    requires seg { seg < booted_segments }
    requires ring { ring < 8 }
    requires some { 1 ≤ pages }
    requires most { pages ≤ table_words }
    ensures value { result ≡ ring_descriptor seg ring pages }
    ensures ordered { has_ordered_brackets result ≡ true }
{
    let mut sdw = paged_descriptor(seg, 64 * pages - 1);
    sdw.r1 = ring;
    sdw.r2 = ring;
    sdw.r3 = ring;
    sdw.readable = true;
    sdw.writable = true;
    sdw
}

// The descriptor of a segment of the catalog, with this call limiter.
#[tactic(auto, using(crate::proofs::Orders::in_order_by))]
fn catalog_descriptor(seg: u16, segment: &Segment, words: &[Word], limit: u16) -> Sdw
    requires seg { seg < booted_segments }
    requires words { length words.now ≤ segment_limit }
    requires limit { IsLimit limit }
    requires read_bracket { segment.now.r1 ≤ segment.now.r2 }
    requires call_bracket { segment.now.r2 ≤ segment.now.r3 }
    ensures value { result ≡ catalog_descriptor seg segment.now words.now limit }
    ensures ordered { has_ordered_brackets result ≡ true }
{
    let mut sdw = paged_descriptor(seg, (words.len().saturating_sub(1) / 16) as u16);
    sdw.r1 = segment.r1;
    sdw.r2 = segment.r2;
    sdw.r3 = segment.r3;
    sdw.readable = segment.mode.readable;
    sdw.executable = segment.mode.executable;
    sdw.writable = segment.mode.writable;
    sdw.privileged = segment.mode.privileged;
    sdw.no_gate = segment.kind != SegKind::Gate;
    sdw.limit = limit;
    sdw
}

/// The descriptor of a segment; None if the image has no such segment.
#[tactic(auto, unfolding(crate::specs::Segments::booted_sdw))]
pub(crate) fn descriptor(catalog: &Catalog, files: &[File], limits: &[u16], seg: u16) -> Option<Sdw>
    requires files { length files.now ≡ length catalog.now.segments }
    requires short { AreShort files.now }
    requires limits { AreLimits catalog.now files.now (length catalog.now.segments) limits.now }
    requires seg { seg < first_segment + length catalog.now.segments }
    ensures value { result ≡ booted_sdw catalog.now files.now seg }
    ensures ordered { IfSome result (λ d. has_ordered_brackets d ≡ true) }
{
    let _ = catalog.count();
    if seg < FIRST_STACK {
        None
    } else if seg < FIRST_LINKAGE {
        Some(ring_descriptor(seg, (seg - FIRST_STACK) as u8, 16))
    } else if seg < AFTER_RING_SEGMENTS {
        Some(ring_descriptor(seg, (seg - FIRST_LINKAGE) as u8, 256))
    } else if seg < FIRST_SEGMENT {
        None
    } else {
        let i = (seg - FIRST_SEGMENT) as usize;
        let words = file(files, i).words();
        Some(catalog_descriptor(seg, catalog.segment(i), words, limits[i]))
    }
}

// ---- words

// The word with these two halves.
fn word_of_halves(left: u32, right: u32) -> Word
    requires left { left < 2 ^ 18 }
    requires right { right < 2 ^ 18 }
    ensures { result ≡ left * 2 ^ 18 + right }
{
    Word::low(((left as u64) << 18) + right as u64)
}

// The words of the stack of a ring: words 22 and 23 are an ITS pair to its linkage segment, and
// those before them are zero. Words after these are zero without being listed.
#[tactic(auto, unfolding(crate::specs::Segments::stack_words))]
fn stack_words(alloc: Global, ring: u8) -> Result<Words, NoMemory>
    requires { ring < 8 }
    ensures { IfOk result (λ words. words ≡ stack_words ring) }
{
    let mut words = Words::new(alloc);
    push_zeros(&mut words, 22)?;
    words.push(word_of_halves(
        FIRST_LINKAGE as u32 + ring as u32,
        ((ring as u32) << 15) + ITS_TAG as u32,
    ))?;
    words.push(Word::ZERO)?;
    Ok(words)
}

// The LOT of a ring in which one linkage section is laid.
fn lot_of(alloc: Global, lay: &NewSection) -> Result<Words, NoMemory>
    ensures { IfOk result (λ words. words ≡ lot_of lay.now) }
{
    let mut words = Words::new(alloc);
    push_zeros(&mut words, lay.seg as u64)?;
    words.push(lay.lot_word())?;
    push_zeros(
        &mut words,
        (LOT_WORDS - 1).saturating_sub(lay.seg as u32) as u64,
    )?;
    Ok(words)
}

// The words of the linkage segment of a ring: the LOT and the linkage section, if one is laid for
// this ring; otherwise none.
#[tactic(auto, unfolding(crate::specs::Segments::linkage_words))]
fn linkage_words(alloc: Global, lay: &Option<NewSection>, ring: u8) -> Result<Words, NoMemory>
    ensures { IfOk result (λ words. words ≡ linkage_words lay.now ring) }
{
    match lay {
        Some(lay) if ring == lay.ring => {
            let mut words = lot_of(alloc, lay)?;
            push_all(&mut words, lay.words.slice())?;
            Ok(words)
        }
        _ => Ok(Words::new(alloc)),
    }
}

/// The words of a segment of the image, in which this linkage section is laid.
#[tactic(auto, unfolding(crate::specs::Segments::booted_words))]
pub(crate) fn words_of(
    alloc: Global,
    files: &[File],
    lay: &Option<NewSection>,
    seg: u16,
) -> Result<Words, NoMemory>
    requires short { AreShort files.now }
    requires seg { seg < first_segment + length files.now }
    requires rings { first_stack ≤ seg }
    requires given { (seg < after_ring_segments) ⊎ (first_segment ≤ seg) }
    ensures { IfOk result (λ words. words ≡ booted_words files.now lay.now seg) }
{
    if seg < FIRST_LINKAGE {
        stack_words(alloc, (seg - FIRST_STACK) as u8)
    } else if seg < AFTER_RING_SEGMENTS {
        linkage_words(alloc, lay, (seg - FIRST_LINKAGE) as u8)
    } else {
        copy_of_words(alloc, file(files, (seg - FIRST_SEGMENT) as usize).words())
    }
}
