//! Where a booted machine starts.

ghost use Rattle.std.specs.Prelude.{◌≡◌, ◌+◌, ◌<◌, ◌^◌, option_copied};
ghost use Rattle.m36_boot.specs.Start.{start_link, start_answer, start_segment, may_start};
ghost use Rattle.m36_boot.specs.Start.{section_base, start_regs};
ghost use Rattle.m36_boot.specs.Refusals.{is_object, start_answer_if, start_of, StartResult};
ghost use Rattle.m36_link.specs.Known.{nothing_known};
ghost use Rattle.m36_model.specs.Pointers.{pointer};

use crate::fault::BootFault;
use crate::segments::FIRST_STACK;
use m36_desc::{Dbr, Its, Ptr};
use m36_dir::{Catalog, SegKind, Segment, Start};
use m36_link::{FIRST_LINKAGE, File, Known, LinkFault, NewSection, Snap, object_in, segment_of};
use m36_model::{Ind, Ppr, Regs};
use m36_word::Word;
use obj36::{Link, Object, Section};
use std::alloc::Global;

// ---- the link

// The link to the start.
fn start_link(start: &Start) -> Link
    ensures { result ≡ start_link start.now }
{
    Link {
        name: start.name.copied(),
        entry: start.entry.copied(),
        expr: 0,
        kind: 4,
        section: Section::Text,
        modifier: 0,
    }
}

// Whether a segment is an object segment or a gate, and its file is an object.
fn is_object(segment: Option<&Segment>, object: Option<&Object>) -> bool
    ensures { result ≡ is_object (option_copied segment.entry) (option_copied object.entry) }
{
    match (segment, object) {
        (Some(segment), Some(_)) => segment.kind != SegKind::Plain,
        _ => false,
    }
}

// Whether a segment may be executed in a ring.
fn may_start(ring: u8, segment: Option<&Segment>) -> bool
    ensures { result ≡ may_start ring (option_copied segment.entry) }
{
    match segment {
        Some(segment) => segment.mode.executable && segment.r1 <= ring && ring <= segment.r2,
        None => false,
    }
}

// The answer to the link to the start, if it may be executed, where no ring knows any name yet.
#[tactic(auto, unfolding(crate::specs::Start::start_answer))]
fn start_answer_if(
    alloc: Global,
    known: &Known,
    catalog: &Catalog,
    files: &[File],
    may: bool,
) -> Result<Snap, BootFault>
    requires { known.now ≡ nothing_known }
    ensures { StartResult result (start_answer_if may (start_answer catalog.now files.now)) }
{
    if !may {
        return Err(BootFault::U3);
    }
    let start = catalog.start();
    let link = start_link(start);
    match known.resolve_from(alloc, catalog, files, start.ring, &link, catalog.work()) {
        Ok(snap) => Ok(snap),
        Err(LinkFault::Refused(_, _)) => Err(BootFault::U3),
        Err(LinkFault::NoMemory) => Err(BootFault::NoMemory),
    }
}

/// The answer to the link to the start. The error is the first fault of the start, or `NoMemory`.
#[tactic(auto, unfolding(crate::specs::Refusals::start_of, crate::specs::Start::start_segment))]
pub(crate) fn start_of(alloc: Global, catalog: &Catalog, files: &[File]) -> Result<Snap, BootFault>
    ensures { StartResult result (start_of catalog.now files.now) }
{
    let known = Known::new(alloc, catalog)?;
    let start = catalog.start();
    let Some(seg) = known.search(catalog, start.ring, start.name.bytes(), catalog.work()) else {
        return Err(BootFault::U3);
    };
    let segment = segment_of(catalog, seg);
    if !is_object(segment, object_in(files, seg)) {
        return Err(BootFault::U4(seg));
    }
    start_answer_if(
        alloc,
        &known,
        catalog,
        files,
        may_start(start.ring, segment),
    )
}

// ---- registers

// A pointer register that points to this word, with bit number 0.
fn pointer(seg: u16, ring: u8, word: u32) -> Ptr
    requires seg { seg < 2 ^ 15 }
    requires ring { ring < 8 }
    requires word { word < 2 ^ 18 }
    ensures { result ≡ pointer seg ring word }
{
    Ptr {
        word,
        seg,
        ring,
        bit: 0,
    }
}

// The place in its linkage segment of a section that is laid; 0 if there is none.
fn section_base(lay: &Option<NewSection>) -> u32
    ensures value { result ≡ section_base lay.now }
    ensures bound { result < 2 ^ 18 }
{
    match lay {
        Some(lay) => lay.base,
        None => 0,
    }
}

/// The section that is laid for a start.
pub(crate) fn section_of(snap: &Snap) -> &Option<NewSection>
    ensures { result.now ≡ snap.now.lay }
{
    &snap.lay
}

// The registers at a start in a ring.
#[tactic(auto, unfolding(crate::specs::Start::start_regs))]
fn start_regs(ring: u8, snap: &Snap) -> Regs
    requires { ring < 8 }
    ensures { result ≡ start_regs ring snap.now }
{
    let none = pointer(0, ring, 0);
    let section = pointer(FIRST_LINKAGE + ring as u16, ring, section_base(&snap.lay));
    let frame = pointer(FIRST_STACK + ring as u16, ring, 64);
    let stack = pointer(FIRST_STACK + ring as u16, ring, 0);
    let entry = Its::of_words(snap.pair);
    Regs {
        a: Word::ZERO,
        q: Word::ZERO,
        x: [0; 8],
        pr: [none, none, none, none, section, none, frame, stack],
        dbr: Dbr {
            addr: 0,
            bnd: 127,
            stack: 1,
            unpaged: true,
        },
        ppr: Ppr {
            ic: entry.word,
            psr: entry.seg,
            prr: ring,
        },
        ind: Ind {
            zero: false,
            negative: false,
            carry: false,
            overflow: false,
            mask: false,
            tally: false,
        },
    }
}

/// The registers at the start of a catalog.
pub(crate) fn regs_of(catalog: &Catalog, snap: &Snap) -> Regs
    ensures { result ≡ start_regs catalog.now.start.ring snap.now }
{
    let start = catalog.start();
    start_regs(start.ring, snap)
}
