//! The entries of the two memories.

ghost use Rattle.std.specs.Prelude.{◌≡◌, Contains};
ghost use Rattle.m36_associative.specs.declared.kept.SdwEntry.{SdwEntry};
ghost use Rattle.m36_associative.specs.declared.kept.PtwEntry.{PtwEntry};

use m36_desc::{Ptw, Sdw};

/// The number of entries of each memory.
pub(crate) const ENTRIES: usize = 16;

/// A kept descriptor, by its segment.
#[derive(Clone, Copy)]
pub struct SdwEntry {
    /// The segment number plus 1, or 0 if the entry is empty.
    pub(crate) key: u32,
    pub(crate) sdw: Sdw,
}

/// A kept page table word, by its address.
#[derive(Clone, Copy)]
pub struct PtwEntry {
    /// The address plus 1, or 0 if the entry is empty.
    pub(crate) key: u32,
    pub(crate) ptw: Ptw,
}

/// An empty entry for a descriptor.
fn no_sdw() -> SdwEntry
    ensures { result.key ≡ 0 }
{
    SdwEntry {
        key: 0,
        sdw: Sdw {
            addr: 0,
            bound: 0,
            limit: 0,
            r1: 0,
            r2: 0,
            r3: 0,
            fc: 0,
            f: false,
            readable: false,
            executable: false,
            writable: false,
            privileged: false,
            unpaged: false,
            no_gate: false,
            cached: false,
        },
    }
}

/// An empty entry for a page table word.
fn no_ptw() -> PtwEntry
    ensures { result.key ≡ 0 }
{
    PtwEntry {
        key: 0,
        ptw: Ptw {
            addr: 0,
            fc: 0,
            used: false,
            modified: false,
            f: false,
        },
    }
}

/// A memory of descriptors with no entries.
pub(crate) fn no_sdws() -> [SdwEntry; 16]
    ensures { (e : SdwEntry) → Contains result e → e.key ≡ 0 }
{
    [no_sdw(); 16]
}

/// A memory of page table words with no entries.
pub(crate) fn no_ptws() -> [PtwEntry; 16]
    ensures { (e : PtwEntry) → Contains result e → e.key ≡ 0 }
{
    [no_ptw(); 16]
}
