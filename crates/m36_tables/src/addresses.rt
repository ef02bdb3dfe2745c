//! Addresses of table words, and the lengths of tables and segments.

ghost use Rattle.std.specs.Prelude.{◌≡◌, ◌<◌, ◌^◌};
ghost use Rattle.m36_model.specs.Place.{wrapped_address, directory_at, page_at};
ghost use Rattle.m36_model.specs.Store.{is_within_bound};
ghost use Rattle.m36_tables.specs.Tables.{IsSegmentCount};

use m36_desc::{Dbr, Sdw};

/// The number of segments that a process can have: segment numbers have 15 bits.
pub const SEGMENTS: u16 = 1 << 15;

/// An address modulo 2^24, since sums of addresses wrap.
#[inline(always)]
pub fn wrapped_address(a: u32) -> u32
    ensures value { result ≡ wrapped_address a }
    ensures bound { result < 2 ^ 24 }
{
    a % (1 << 24)
}

/// The number of segments for which the descriptor segment has room for a descriptor, at most
/// `SEGMENTS`.
pub fn segment_count(dbr: Dbr) -> u16
    ensures { IsSegmentCount dbr result }
{
    let descriptors = 8 * (dbr.bnd as u32 + 1);
    if descriptors < SEGMENTS as u32 {
        descriptors as u16
    } else {
        SEGMENTS
    }
}

/// The address of the page table word, of a paged descriptor segment, for the page that has the
/// descriptor of segment `seg`.
#[inline(always)]
pub fn directory_at(dbr: Dbr, seg: u16) -> u32
    requires { seg < 2 ^ 15 }
    ensures value { result ≡ directory_at dbr seg }
    ensures bound { result < 2 ^ 24 }
{
    wrapped_address(dbr.addr + 2 * seg as u32 / 1024)
}

/// The address of a segment's page table word for page `page`.
#[inline(always)]
pub fn page_at(sdw: &Sdw, page: u32) -> u32
    requires { page < 256 }
    ensures value { result ≡ page_at sdw.now page }
    ensures bound { result < 2 ^ 24 }
{
    wrapped_address(sdw.addr + page)
}

/// Whether word `word` is within the bound of its segment.
#[inline(always)]
pub fn is_within_bound(sdw: &Sdw, word: u32) -> bool
    ensures { result ≡ is_within_bound sdw.now word }
{
    word / 16 <= sdw.bound as u32
}
