//! What a page in front answers, by the descriptor of its segment: how many of its words, and for
//! which rings.

ghost use Rattle.std.specs.Prelude.{ℕ, ◌≡◌, ◌+◌, ◌/◌, ◌%◌, ◌<◌, ◌≤◌, ◌^◌, Bool, true, None, length};
ghost use Rattle.m36_desc.specs.Access.{first_violation, read_rows, write_rows, fetch_rows};
ghost use Rattle.m36_model.specs.Store.{is_within_bound};
ghost use Rattle.m36_associative.specs.Right.{page_key, IsPageRights};

use crate::front::{Page, key_of};
use m36_core::Core;
use m36_desc::Sdw;
use m36_tables::has_ordered_brackets;

/// The number of words of a page, from the first one on, that are within the bound and in a core of
/// `size` words. The page begins at address `base`.
fn end_of(size: u32, sdw: &Sdw, page: u32, base: u32) -> u16
    requires { page < 256 }
    ensures most { result ≤ 1024 }
    ensures inside { 0 < result → base + result ≤ size }
    ensures bound { (w : ℕ) → w / 1024 ≡ page → w % 1024 < result → is_within_bound sdw.now w
        ≡ true }
{
    let bound = 16 * (sdw.bound as u32 + 1);
    let within = bound.saturating_sub(1024 * page);
    let inside = size.saturating_sub(base);
    within.min(inside).min(1024) as u16
}

/// The ring below which rings may read, whatever segment executes; 0 if none may.
#[tactic(auto, using(crate::proofs::Faces::may_read))]
fn read_below(sdw: &Sdw) -> u8
    ensures { (ring : ℕ) (same : Bool) → ring < result
        → first_violation (read_rows sdw.now ring same) ≡ None }
{
    if has_ordered_brackets(sdw) && sdw.readable {
        sdw.r2 + 1
    } else {
        0
    }
}

/// The ring below which rings may write a page; 0 if none may, or if its modified bit is off.
#[tactic(auto, using(crate::proofs::Faces::may_write))]
fn write_below(sdw: &Sdw, modified: bool) -> u8
    ensures allowed { (ring : ℕ) → ring < result → first_violation (write_rows sdw.now ring)
        ≡ None }
    ensures modified { 0 < result → modified ≡ true }
{
    if has_ordered_brackets(sdw) && sdw.writable && modified {
        sdw.r1 + 1
    } else {
        0
    }
}

/// The ring below which rings that are not below R1 may fetch; 0 if none may.
#[tactic(auto, using(crate::proofs::Faces::may_fetch))]
fn fetch_below(sdw: &Sdw) -> u8
    ensures { (ring : ℕ) → sdw.now.r1 ≤ ring → ring < result
        → first_violation (fetch_rows sdw.now ring) ≡ None }
{
    if has_ordered_brackets(sdw) && sdw.executable {
        sdw.r2 + 1
    } else {
        0
    }
}

/// The page in front for the page that has a word. It begins at address `base`, and `modified` is
/// its modified bit.
pub(crate) fn page_of(
    core: &Core,
    sdw: &Sdw,
    seg: u16,
    word: u32,
    base: u32,
    modified: bool,
) -> Page
    requires seg { seg < 2 ^ 15 }
    requires word { word < 2 ^ 18 }
    ensures key { result.key ≡ page_key seg (word / 1024) }
    ensures base { result.base ≡ base }
    ensures modified { 0 < result.write_below → modified ≡ true }
    ensures page_rights { IsPageRights (length core.now) sdw.now (word / 1024) result }
{
    Page {
        key: key_of(seg, word),
        base,
        end: end_of(core.len(), sdw, word / 1024, base),
        read_below: read_below(sdw),
        write_below: write_below(sdw, modified),
        fetch_below: fetch_below(sdw),
        r1: sdw.r1,
        privileged: sdw.privileged,
    }
}
