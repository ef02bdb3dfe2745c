//! Chooses the frame whose page is evicted.

ghost use Rattle.std.specs.Prelude.{◌≡◌, ◌+◌, ◌≤◌, ◌<◌, true, false, length, slice_index, Some};
ghost use Rattle.std.specs.Prelude.{None, IsSome, IfSome, IfNone};
ghost use Rattle.m36_desc.specs.Descriptors.{ptw_of};
ghost use Rattle.m36_page.specs.Changes.{refers_to_page, is_pinned};
ghost use Rattle.m36_page.specs.Choice.{IsUnpinned, ArePinned, IsHeldSpot, ClearsMarksAt};
ghost use Rattle.m36_page.specs.Choice.{AreInCore};

use crate::residence::ptw_in_core;
use m36_core::Core;
use m36_model::Reference;
use m36_word::Word;

// The number of words of a page.
const PAGE: u32 = 1024;

// Whether a reference is to this page, given by its segment and its page number.
fn refers_to_page(held: (u16, u16), reference: &Reference) -> bool
    ensures { result ≡ refers_to_page held reference.now }
{
    let at = reference.at;
    at.seg == held.0 && at.word / PAGE == held.1 as u32
}

// Whether one of the references is to this page.
fn is_page_pinned(references: &[Reference], held: (u16, u16)) -> bool
    ensures { result ≡ is_pinned references.now (Some held) }
{
    references
        .iter()
        .any(|reference| refers_to_page(held, reference))
}

/// Whether a frame holds a page that one of the references is to.
pub(crate) fn is_pinned(references: &[Reference], holder: Option<(u16, u16)>) -> bool
    ensures { result ≡ is_pinned references.now holder }
{
    match holder {
        None => false,
        Some(held) => is_page_pinned(references, held),
    }
}

/// The first frame in `from .. to` that holds no page of the references.
pub(crate) fn unpinned_between(
    holders: &[Option<(u16, u16)>],
    references: &[Reference],
    from: usize,
    to: usize,
) -> Option<usize>
    requires { to ≤ length holders.now }
    ensures found { IfSome result (IsUnpinned references.now holders.now) }
    ensures none { IfNone result (ArePinned references.now holders.now from to) }
{
    for k in from..to {
        if !is_pinned(references, holders[k]) {
            return Some(k);
        }
    }
    None
}

/// The first frame from `from` on, and then from 0 on, that holds no page of the references; None
/// exactly if each frame holds one.
pub(crate) fn unpinned_from(
    holders: &[Option<(u16, u16)>],
    references: &[Reference],
    from: usize,
) -> Option<usize>
    requires { from ≤ length holders.now }
    ensures found { IfSome result (IsUnpinned references.now holders.now) }
    ensures none { IfNone result (ArePinned references.now holders.now 0 (length holders.now)) }
{
    match unpinned_between(holders, references, from, holders.len()) {
        Some(k) => Some(k),
        None => unpinned_between(holders, references, 0, from),
    }
}

// The value of the used mark in a page table word.
const USED: u64 = 512;

// The maximum number of frames that the hand looks at before it takes one that was used.
const MOST_PASSED: usize = 64;

// Whether a page table word has its used mark set.
fn is_used(core: &Core, spot: u32) -> bool
    requires { spot < length core.now }
    ensures { result ≡ (ptw_of (slice_index core.now spot)).used }
{
    let ptw = ptw_in_core(core, spot);
    ptw.used
}

// Clears the used mark of the page table word at a core address, and returns whether it was set.
#[tactic(auto, using(crate::proofs::Frames::unused, crate::proofs::Frames::marked_none))]
fn clear_used(core: &mut Core, spot: u32) -> bool
    requires { spot < length core.old }
    ensures { ClearsMarksAt core.old core.new (λ a. a ≡ spot) }
{
    if !is_used(core, spot) {
        return false;
    }
    let word = core.peek(spot);
    core.poke(spot, Word::low(word.value() - USED));
    true
}

// Whether the hand passes over a frame: its page is pinned, or was used. The mark of an unpinned
// page that was used is cleared.
#[tactic(auto, using(crate::proofs::Frames::marked_none))]
fn is_skipped(
    core: &mut Core,
    references: &[Reference],
    holder: Option<(u16, u16)>,
    spot: u32,
) -> bool
    requires { IsSome holder → spot < length core.old }
    ensures free { result ≡ false → is_pinned references.now holder ≡ false }
    ensures marks { ClearsMarksAt core.old core.new
        (λ a. IsSome holder × (is_pinned references.now holder ≡ false) × (a ≡ spot)) }
{
    if is_pinned(references, holder) {
        return true;
    }
    match holder {
        None => false,
        Some(_) => clear_used(core, spot),
    }
}

// The first frame in `from .. to` that the hand does not pass over. `spots` has for each frame the
// core address of the page table word of its page.
#[tactic(auto, using(crate::proofs::Frames::marked_none))]
fn unused_between(
    core: &mut Core,
    references: &[Reference],
    holders: &[Option<(u16, u16)>],
    spots: &[u32],
    from: usize,
    to: usize,
) -> Option<usize>
    requires to { to ≤ length holders.now }
    requires count { length spots.now ≡ length holders.now }
    requires inside { AreInCore holders.now spots.now core.old }
    ensures found { IfSome result (IsUnpinned references.now holders.now) }
    ensures marks { ClearsMarksAt core.old core.new
        (IsHeldSpot references.now holders.now spots.now) }
{
    for k in from..to {
        if !is_skipped(core, references, holders[k], spots[k]) {
            return Some(k);
        }
    }
    None
}

// As `unused_between`, from the hand on and around the frames, for at most 64 of them.
fn unused_from(
    core: &mut Core,
    references: &[Reference],
    holders: &[Option<(u16, u16)>],
    spots: &[u32],
    hand: usize,
) -> Option<usize>
    requires hand { hand ≤ length holders.now }
    requires count { length spots.now ≡ length holders.now }
    requires inside { AreInCore holders.now spots.now core.old }
    ensures found { IfSome result (IsUnpinned references.now holders.now) }
    ensures marks { ClearsMarksAt core.old core.new
        (IsHeldSpot references.now holders.now spots.now) }
{
    let ahead = MOST_PASSED.min(holders.len() - hand);
    if let Some(k) = unused_between(core, references, holders, spots, hand, hand + ahead) {
        return Some(k);
    }
    let behind = (MOST_PASSED - ahead).min(hand);
    unused_between(core, references, holders, spots, 0, behind)
}

/// Chooses a frame that holds no page of the references. A hand goes around the frames; it passes
/// over pages that were used, and clears their used marks. None exactly if each frame holds a page
/// of the references.
#[tactic(auto, using(crate::proofs::Frames::marked_none))]
pub(crate) fn choose(
    core: &mut Core,
    references: &[Reference],
    holders: &[Option<(u16, u16)>],
    spots: &[u32],
    hand: usize,
) -> Option<usize>
    requires hand { hand ≤ length holders.now }
    requires count { length spots.now ≡ length holders.now }
    requires inside { AreInCore holders.now spots.now core.old }
    ensures found { IfSome result (IsUnpinned references.now holders.now) }
    ensures none { IfNone result (ArePinned references.now holders.now 0 (length holders.now)) }
    ensures same { IfNone result (core.new ≡ core.old) }
    ensures marks { ClearsMarksAt core.old core.new
        (IsHeldSpot references.now holders.now spots.now) }
{
    let Some(free) = unpinned_from(holders, references, hand) else {
        return None;
    };
    match unused_from(core, references, holders, spots, hand) {
        Some(k) => Some(k),
        None => Some(free),
    }
}
