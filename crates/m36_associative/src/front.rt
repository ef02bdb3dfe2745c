//! The pages in front.

ghost use Rattle.std.specs.Prelude.{Contains, ◌≡◌, ◌/◌, ◌<◌, ◌^◌};
ghost use Rattle.m36_associative.specs.Right.{page_key};
ghost use Rattle.m36_associative.specs.declared.front.Page.{Page};

/// The number of pages in front.
pub(crate) const PAGES: usize = 16;

/// A page in front, which answers references. Its words are contiguous in core.
#[derive(Clone, Copy)]
pub struct Page {
    /// 256 times its segment number, plus its page number, plus 1; 0 if the place is empty.
    pub(crate) key: u32,
    /// The core address of its first word.
    pub(crate) base: u32,
    /// The number of its words, from the first one on, that are within the bound and in core.
    pub(crate) end: u16,
    /// Rings below this one may read it, whatever segment executes.
    pub(crate) read_below: u8,
    /// Rings below this one may write it, and its marks are set for a write.
    pub(crate) write_below: u8,
    /// Rings below this one and not below `r1` may fetch from it.
    pub(crate) fetch_below: u8,
    /// R1 of its segment.
    pub(crate) r1: u8,
    /// Its segment may execute privileged instructions.
    pub(crate) privileged: bool,
}

/// The page that instructions are fetched from, and the ring.
#[derive(Clone, Copy)]
pub(crate) struct Fetching {
    /// The clock at the last fetch from it. The fetch came after the use in front at this time.
    pub(crate) hit: u64,
    /// The word number of its first word in the segment.
    pub(crate) first: u32,
    /// The core address of its first word.
    pub(crate) base: u32,
    /// The number of its words, from the first one on, that are fetched in this way; 0 if there is
    /// no page.
    pub(crate) len: u32,
    pub(crate) seg: u16,
    pub(crate) ring: u8,
    /// Its place in front.
    pub(crate) slot: u8,
    /// Its segment may execute privileged instructions.
    pub(crate) privileged: bool,
}

/// The value of an empty place in front.
pub(crate) fn no_page() -> Page
    ensures { result.key ≡ 0 }
{
    Page {
        key: 0,
        base: 0,
        end: 0,
        read_below: 0,
        write_below: 0,
        fetch_below: 0,
        r1: 0,
        privileged: false,
    }
}

/// A front without pages.
pub(crate) fn no_pages() -> [Page; 16]
    ensures { (p : Page) → Contains result p → p.key ≡ 0 }
{
    [no_page(); 16]
}

/// No page to fetch from.
pub(crate) fn no_fetching() -> Fetching
    ensures { result.len ≡ 0 }
{
    Fetching {
        hit: 0,
        first: 0,
        base: 0,
        len: 0,
        seg: 0,
        ring: 0,
        slot: 0,
        privileged: false,
    }
}

/// The key of the page that has a word.
#[inline(always)]
pub(crate) fn key_of(seg: u16, word: u32) -> u32
    requires seg { seg < 2 ^ 15 }
    requires word { word < 2 ^ 18 }
    ensures { result ≡ page_key seg (word / 1024) }
{
    seg as u32 * 256 + word / 1024 + 1
}

/// The place in front for the page that has a word.
#[inline(always)]
pub(crate) fn slot_of(seg: u16, word: u32) -> usize
    requires seg { seg < 2 ^ 15 }
    requires word { word < 2 ^ 18 }
    ensures { result < 16 }
{
    (seg as usize + (word / 1024) as usize) % PAGES
}
