//! Values and functions that several modules of this crate use.

ghost use Rattle.std.specs.Prelude.{◌<◌, ◌^◌};

use m36_core::Core;
use m36_desc::{Dbr, Ptr};
use m36_model::{At, Ind};
use m36_word::Word;

/// An unpaged descriptor segment at core word 0, with 128 descriptors.
pub const DBR: Dbr = Dbr {
    addr: 0,
    bnd: 0o17,
    stack: 1,
    unpaged: true,
};

pub const NO_INDICATORS: Ind = Ind {
    zero: false,
    negative: false,
    carry: false,
    overflow: false,
    mask: false,
    tally: false,
};

pub fn pointer(seg: u16, ring: u8, word: u32) -> Ptr
    requires seg { seg < 2 ^ 15 }
    requires ring { ring < 8 }
    requires word { word < 2 ^ 18 }
{
    Ptr {
        word,
        seg,
        ring,
        bit: 0,
    }
}

pub fn at(seg: u16, word: u32, ring: u8) -> At
    requires seg { seg < 2 ^ 15 }
    requires word { word < 2 ^ 18 }
    requires ring { ring < 8 }
{
    At { word, seg, ring }
}

/// Writes words to core at their addresses. An address past the end is skipped.
pub fn put(core: &mut Core, words: &[(u32, u64)]) {
    for (place, word) in words {
        if *place < core.len() {
            core.poke(*place, Word::low(*word));
        }
    }
}
