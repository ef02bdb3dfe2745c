//! The times at which entries and pages were last used. They decide which entry a new one replaces.
//!
//! A page in front answers without its entries being looked up. So an entry has the time of its own
//! last use, and the places in front that have its pages. The times of its pages are read only when
//! the entry may be replaced, and when they leave the front.

ghost use Rattle.std.specs.Prelude.{◌<◌, IfSome};

use crate::front::{Fetching, PAGES};
use crate::kept::ENTRIES;

/// The number that stands for "no entry".
pub(crate) const NO_ENTRY: u8 = 16;

/// The use of the entries of one memory.
#[derive(Clone, Copy)]
pub(crate) struct Entries {
    /// The time of the last use of each entry, without later uses of its pages in front; 0 if it is
    /// empty.
    times: [u64; 16],
    /// The places in front that have pages of each entry, one bit each.
    fronts: [u16; 16],
    /// The entry of each page in front, or `NO_ENTRY`.
    of: [u8; 16],
    /// The entry that was found or filled last.
    pub(crate) last: u8,
}

/// The times of both memories and of the front.
#[derive(Clone, Copy)]
pub(crate) struct Uses {
    /// Advances by 2 with each use. A fetch from the page that is fetched from has a time between
    /// two uses.
    pub(crate) clock: u64,
    /// The time of the last use of each page in front, or 0 if it was not used since it entered.
    pub(crate) pages: [u64; 16],
    pub(crate) sdws: Entries,
    pub(crate) ptws: Entries,
}

/// The index of the least of these times.
fn index_of_least(times: &[u64; 16]) -> usize
    ensures { result < 16 }
{
    let mut at = 0;
    let mut least = times[0];
    for i in 1..16 {
        if times[i] < least {
            at = i;
            least = times[i];
        }
    }
    at
}

impl Entries {
    // No entry was used yet, and no page in front has an entry.
    fn none() -> Entries {
        Entries {
            times: [0; 16],
            fronts: [0; 16],
            of: [NO_ENTRY; 16],
            last: 0,
        }
    }

    /// Records a use of entry `e` at this time.
    fn touch(&mut self, e: usize, time: u64)
        requires { e < 16 }
    {
        self.times[e] = time;
        self.last = e as u8;
    }

    /// Records that the page at place `i` leaves the front: it no longer belongs to its entry. The
    /// entry gets the time of the page's last use if that is later than its own.
    fn remove_from_front(&mut self, i: usize, time: u64)
        requires { i < 16 }
    {
        let e = self.of[i] as usize;
        if e >= ENTRIES {
            return;
        }
        if self.times[e] < time {
            self.times[e] = time;
        }
        self.fronts[e] &= !(1 << i as u16);
        self.of[i] = NO_ENTRY;
    }

    /// Adds the page at place `i` in front to the entry that was found last.
    fn enter(&mut self, i: usize)
        requires { i < 16 }
    {
        let e = self.last as usize % ENTRIES;
        self.fronts[e] |= 1 << i as u16;
        self.of[i] = e as u8;
    }

    /// Sets the time of an entry to that of the latest use of it or of its pages in front. Returns
    /// whether a page was used later than the entry itself.
    fn update_entry_time(&mut self, e: usize, pages: &[u64; 16]) -> bool
        requires { e < 16 }
    {
        let before = self.times[e];
        let mut newest = before;
        let mut left = self.fronts[e];
        for _ in 0..PAGES {
            if left > 0 {
                let time = pages[left.trailing_zeros() as usize % PAGES];
                left &= left - 1;
                if newest < time {
                    newest = time;
                }
            }
        }
        self.times[e] = newest;
        before < newest
    }

    /// The entry that was used least recently, or an empty one.
    fn least_recent(&mut self, pages: &[u64; 16]) -> usize
        ensures { result < 16 }
    {
        for _ in 0..ENTRIES {
            let e = index_of_least(&self.times);
            if !self.update_entry_time(e, pages) {
                return e;
            }
        }
        index_of_least(&self.times)
    }
}

impl Entries {
    /// Sets the time of each entry to that of the latest use of it or of its pages in front.
    fn update_all_times(&mut self, pages: &[u64; 16]) {
        for e in 0..ENTRIES {
            let _ = self.update_entry_time(e, pages);
        }
    }

    /// The number of entries that were used after entry `e`.
    fn used_after(&self, e: usize) -> usize
        requires { e < 16 }
    {
        let time = self.times[e];
        let mut count = 0usize;
        for other in self.times.iter() {
            if time < *other {
                count = count.wrapping_add(1);
            }
        }
        count
    }

    /// The entry with this rank in the order of use: 0 for the one that was used last. None if
    /// fewer entries are filled. The times have to be up to date (`update_all_times`).
    fn entry_of_rank(&self, rank: usize) -> Option<usize>
        ensures { IfSome result (λ e. e < 16) }
    {
        for e in 0..ENTRIES {
            if self.times[e] > 0 && self.used_after(e) == rank {
                return Some(e);
            }
        }
        None
    }
}

impl Uses {
    /// No uses.
    pub(crate) fn none() -> Uses {
        Uses {
            clock: 0,
            pages: [0; 16],
            sdws: Entries::none(),
            ptws: Entries::none(),
        }
    }

    /// Advances the clock, and returns the new time.
    #[inline(always)]
    fn tick(&mut self) -> u64 {
        self.clock = self.clock.wrapping_add(2);
        self.clock
    }

    /// Records a use of the page at place `i` in front.
    #[inline(always)]
    pub(crate) fn touch_page(&mut self, i: usize)
        requires { i < 16 }
    {
        self.clock = self.clock.wrapping_add(2);
        self.pages[i] = self.clock;
    }

    /// Records the last use of the page that is fetched from: after the use of a page at its time,
    /// and before the next use.
    pub(crate) fn note_fetch(&mut self, fetching: &Fetching) {
        if fetching.len == 0 {
            return;
        }
        let i = fetching.slot as usize % PAGES;
        let hit = fetching.hit.wrapping_add(1);
        if self.pages[i] < hit {
            self.pages[i] = hit;
        }
    }

    /// Records a use of a descriptor.
    pub(crate) fn touch_sdw(&mut self, e: usize)
        requires { e < 16 }
    {
        let time = self.tick();
        self.sdws.touch(e, time);
    }

    /// Records a use of a page table word.
    pub(crate) fn touch_ptw(&mut self, e: usize)
        requires { e < 16 }
    {
        let time = self.tick();
        self.ptws.touch(e, time);
    }

    /// Records that the page at place `i` leaves the front, and passes its time on to its entries.
    pub(crate) fn remove_from_front(&mut self, i: usize)
        requires { i < 16 }
    {
        let time = self.pages[i];
        self.pages[i] = 0;
        self.sdws.remove_from_front(i, time);
        self.ptws.remove_from_front(i, time);
    }

    /// Records that all pages leave the front.
    pub(crate) fn remove_all_from_front(&mut self) {
        for i in 0..PAGES {
            self.remove_from_front(i);
        }
    }

    /// Adds the page at place `i` in front to the descriptor that was found last and, if it is
    /// paged, to the page table word that was found last.
    pub(crate) fn enter(&mut self, i: usize, paged: bool)
        requires { i < 16 }
    {
        self.sdws.enter(i);
        if paged {
            self.ptws.enter(i);
        }
    }

    /// The entry of the descriptor that was used least recently, or an empty one.
    pub(crate) fn least_recent_sdw(&mut self) -> usize
        ensures { result < 16 }
    {
        self.sdws.least_recent(&self.pages)
    }

    /// As `least_recent_sdw`, for page table words.
    pub(crate) fn least_recent_ptw(&mut self) -> usize
        ensures { result < 16 }
    {
        self.ptws.least_recent(&self.pages)
    }

    /// The places in front that have pages of a descriptor, one bit each.
    pub(crate) fn front_places_of_sdw(&self, e: usize) -> u16
        requires { e < 16 }
    {
        self.sdws.fronts[e]
    }

    /// The places in front that have pages of a page table word, one bit each.
    pub(crate) fn front_places_of_ptw(&self, e: usize) -> u16
        requires { e < 16 }
    {
        self.ptws.fronts[e]
    }

    /// The entry of the descriptor with this rank in the order of use: 0 for the one that was used
    /// last. None if fewer descriptors are kept.
    pub(crate) fn sdw_of_rank(&mut self, rank: usize) -> Option<usize>
        ensures { IfSome result (λ e. e < 16) }
    {
        self.sdws.update_all_times(&self.pages);
        self.sdws.entry_of_rank(rank)
    }

    /// As `sdw_of_rank`, for page table words.
    pub(crate) fn ptw_of_rank(&mut self, rank: usize) -> Option<usize>
        ensures { IfSome result (λ e. e < 16) }
    {
        self.ptws.update_all_times(&self.pages);
        self.ptws.entry_of_rank(rank)
    }
}
