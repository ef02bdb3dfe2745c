//! Paging. Segments 5 and 6 have two pages each and their page tables at core words 0 and 16.
//! Frames 1 and 2 of core take pages.

ghost use Rattle.std.specs.Prelude.{◌≡◌, IfOk, length};
ghost use Rattle.m36_page.specs.Residence.{HasFrames, AgreesWithCore};

use m36_core::Core;
use m36_model::{At, Kind, Reference, Refs};
use m36_page::{PageTable, Pager, Pinned, are_placed};
use m36_word::{NoMemory, Word, Words};
use std::alloc::Global;

// A page table of two pages whose words are `count` successive numbers from `from` on.
fn table(alloc: Global, seg: u16, at: u32, from: u64, count: u64) -> Result<PageTable, NoMemory> {
    let mut words = Words::new(alloc);
    for i in 0..count {
        words.push(Word::low(from.wrapping_add(i)))?;
    }
    Ok(PageTable {
        words,
        at,
        seg,
        pages: 2,
    })
}

fn tables(alloc: Global) -> Result<Vec<PageTable>, NoMemory> {
    let mut tables = Vec::new(alloc);
    tables.push(table(alloc, 5, 0, 5000, 1030)?)?;
    tables.push(table(alloc, 6, 16, 60000, 2048)?)?;
    Ok(tables)
}

// A reference to a word of a segment.
fn reference(place: (u16, u32)) -> Reference {
    let (seg, word) = place;
    Reference {
        at: At {
            word: word % 262144,
            seg: seg % 32768,
            ring: 4,
        },
        kind: Kind::Read,
        count: 1,
    }
}

// References to two words.
fn references(first: (u16, u32), second: (u16, u32)) -> Refs {
    let mut refs = Refs::new();
    refs.push(reference(first));
    refs.push(reference(second));
    refs
}

/// The address and the number of pages of a second table, the first frame for pages, and whether
/// both tables are placed correctly.
const PLACES: &[(u32, u16, u32, bool)] = &[
    (16, 2, 1, true),
    (1, 2, 1, false),
    (1022, 2, 1, true),
    (1023, 2, 1, false),
    (2, 1, 0, false),
];

fn are_placed_at(alloc: Global, at: u32, pages: u16, first: u32) -> Result<bool, NoMemory> {
    let mut tables = Vec::new(alloc);
    tables.push(table(alloc, 5, 0, 0, 1)?)?;
    let mut other = table(alloc, 6, at, 0, 1)?;
    other.pages = pages;
    tables.push(other)?;
    Ok(are_placed(first, &tables))
}

#[test]
fn tables_in_places(rt: HostRuntime) -> Result<(), NoMemory> {
    for (at, pages, first, placed) in PLACES {
        assert!(rt;
            are_placed_at(rt.alloc(), *at, *pages, *first)? == *placed,
            "{at}"
        );
    }
    Ok(())
}

// The segment has more words than its two pages.
#[test]
fn tables_of_many_words(rt: HostRuntime) -> Result<(), NoMemory> {
    let mut long = Vec::new(rt.alloc());
    long.push(table(rt.alloc(), 5, 0, 0, 2049)?)?;
    assert!(rt; !are_placed(1, &long));
    Ok(())
}

/// A pager and its core.
#[derive(Drop)]
struct Paged {
    pager: Pager,
    core: Core,
}

// A pager whose pages are all absent, with its core.
fn laid(alloc: Global) -> Result<Paged, NoMemory>
    ensures reads { IfOk result (λ p. AgreesWithCore p.pager p.core) }
    ensures frames { IfOk result (λ p. HasFrames p.pager p.core) }
    ensures first { IfOk result (λ p. p.pager.first ≡ 1) }
    ensures count { IfOk result (λ p. length p.pager.holders ≡ 2) }
{
    let tables = tables(alloc)?;
    if !are_placed(1, &tables) {
        return Err(NoMemory);
    }
    let pager = Pager::new(alloc, 1, 2, &tables)?;
    let mut core = Core::new(alloc, 3)?;
    pager.lay(&mut core);
    Ok(Paged { pager, core })
}

// The value of a core word.
fn core_number(core: &Core, place: usize) -> Option<u64> {
    let word = core.words().get(place)?;
    Some(word.value())
}

// The value of a word of a segment.
fn number_at(paged: &Paged, seg: u16, word: u32) -> Option<u64>
    requires frames { HasFrames paged.now.pager paged.now.core }
    requires reads { AgreesWithCore paged.now.pager paged.now.core }
{
    let word = paged.pager.content(&paged.core, seg, word)?;
    Some(word.value())
}

/// A segment and a page of it, two words that the step refers to, and whether the page can be
/// brought in.
type Bringing = (u16, u16, (u16, u32), (u16, u32), Result<(), Pinned>);

const BRINGINGS: &[Bringing] = &[
    (5, 0, (6, 0), (6, 1024), Ok(())),
    (6, 1, (5, 7), (5, 7), Ok(())),
    (5, 1, (5, 7), (6, 1024), Err(Pinned)),
    (5, 1, (5, 7), (5, 7), Ok(())),
    (5, 0, (5, 1030), (5, 7), Ok(())),
];

// Whether bringing in a page has the result of the row.
fn brings(paged: &mut Paged, row: &Bringing) -> bool
    requires frames { HasFrames paged.old.pager paged.old.core }
    requires reads { AgreesWithCore paged.old.pager paged.old.core }
    ensures frames { HasFrames paged.new.pager paged.new.core }
    ensures reads { AgreesWithCore paged.new.pager paged.new.core }
{
    let (seg, page, first, second, due) = *row;
    if !paged.pager.has_page(seg, page) {
        return false;
    }
    let refs = references(first, second);
    paged.pager.bring(&mut paged.core, seg, page, &refs) == due
}

fn brings_all(paged: &mut Paged) -> bool
    requires frames { HasFrames paged.old.pager paged.old.core }
    requires reads { AgreesWithCore paged.old.pager paged.old.core }
    ensures frames { HasFrames paged.new.pager paged.new.core }
    ensures reads { AgreesWithCore paged.new.pager paged.new.core }
{
    for row in BRINGINGS {
        if !brings(paged, row) {
            return false;
        }
    }
    true
}

// Sets a word of a segment. Returns whether there is such a word.
fn sets(paged: &mut Paged, seg: u16, word: u32, number: u64) -> bool
    requires frames { HasFrames paged.old.pager paged.old.core }
    requires reads { AgreesWithCore paged.old.pager paged.old.core }
    ensures frames { HasFrames paged.new.pager paged.new.core }
    ensures reads { AgreesWithCore paged.new.pager paged.new.core }
{
    let Ok(page) = u16::try_from(word / 1024) else {
        return false;
    };
    if !paged.pager.has_page(seg, page) {
        return false;
    }
    paged
        .pager
        .set(&mut paged.core, seg, word, Word::low(number));
    true
}

/// A segment, a word of it, and its value.
const SEGMENT_WORDS: &[(u16, u32, Option<u64>)] = &[
    (5, 0, Some(5000)),
    (5, 1024, Some(6024)),
    (5, 1025, Some(8)),
    (5, 1029, Some(6029)),
    (5, 1030, Some(0)),
    (5, 2048, None),
    (6, 0, Some(60000)),
    (6, 1025, Some(7)),
    (6, 2047, Some(62047)),
    (7, 0, None),
];

fn has_words(paged: &Paged) -> bool
    requires frames { HasFrames paged.now.pager paged.now.core }
    requires reads { AgreesWithCore paged.now.pager paged.now.core }
{
    for (seg, word, number) in SEGMENT_WORDS {
        if number_at(paged, *seg, *word) != *number {
            return false;
        }
    }
    true
}

// Whether core has three frames, and the second and third begin with these words.
fn has_frames(core: &Core, first: u64, second: u64) -> bool {
    core.len() == 3072
        && core_number(core, 1024) == Some(first)
        && core_number(core, 2048) == Some(second)
}

#[test]
fn pages_in_turn(rt: HostRuntime) -> Result<(), NoMemory> {
    let mut paged = laid(rt.alloc())?;
    assert!(rt; core_number(&paged.core, 17) == Some(1));
    assert!(rt; brings_all(&mut paged));
    assert!(rt; has_frames(&paged.core, 5000, 6024));
    assert!(rt; sets(&mut paged, 6, 1025, 7));
    assert!(rt; sets(&mut paged, 5, 1025, 8));
    assert!(rt; has_words(&paged));
    Ok(())
}

// Whether page 1 of segment 6 is in frame 1 with its changed word, by core and the page table word.
fn is_in(core: &Core) -> bool {
    core.len() == 3072 && core_number(core, 1025) == Some(9) && core_number(core, 17) != Some(1)
}

// Whether that page is absent, and still has its changed word.
fn is_away(paged: &Paged) -> bool
    requires frames { HasFrames paged.now.pager paged.now.core }
    requires reads { AgreesWithCore paged.now.pager paged.now.core }
{
    paged.core.len() == 3072
        && core_number(&paged.core, 17) == Some(1)
        && number_at(paged, 6, 1025) == Some(9)
}

// Whether a page with a changed word is brought in with it, and evicted with it.
fn is_put_away(paged: &mut Paged) -> bool
    requires frames { HasFrames paged.old.pager paged.old.core }
    requires reads { AgreesWithCore paged.old.pager paged.old.core }
    requires first { paged.old.pager.first ≡ 1 }
    requires count { length paged.old.pager.holders ≡ 2 }
{
    if !paged.pager.has_page(6, 1) {
        return false;
    }
    paged.pager.set(&mut paged.core, 6, 1025, Word::low(9));
    if !paged.pager.has_page(6, 1) {
        return false;
    }
    let brought = paged.pager.bring(&mut paged.core, 6, 1, &Refs::new());
    if brought.is_err() || !is_in(&paged.core) {
        return false;
    }
    paged.pager.evict(&mut paged.core, 1);
    is_away(paged)
}

#[test]
fn page_put_away(rt: HostRuntime) -> Result<(), NoMemory> {
    let mut paged = laid(rt.alloc())?;
    assert!(rt; is_put_away(&mut paged));
    Ok(())
}

/// A page that is brought in for a step without references, and the frames afterwards.
struct Choice {
    // The address of a page table word whose used mark is set first.
    used: Option<u32>,
    seg: u16,
    page: u16,
    // The first words of the two frames afterwards.
    first: u64,
    second: u64,
}

/// Two pages fill the frames. The first of them is then used, so it is passed over once, and
/// evicted the next time. The last page takes the frame after that, to which the hand has moved on.
const CHOICES: &[Choice] = &[
    Choice {
        used: None,
        seg: 5,
        page: 0,
        first: 5000,
        second: 0,
    },
    Choice {
        used: None,
        seg: 5,
        page: 1,
        first: 5000,
        second: 6024,
    },
    Choice {
        used: Some(0),
        seg: 6,
        page: 0,
        first: 5000,
        second: 60000,
    },
    Choice {
        used: None,
        seg: 6,
        page: 1,
        first: 61024,
        second: 60000,
    },
    Choice {
        used: None,
        seg: 5,
        page: 1,
        first: 61024,
        second: 6024,
    },
];

// The used mark of a page table word.
const USED: u64 = 512;

// Sets a used mark, as a reference to the page does. Returns false if there is no such core word,
// or the mark is set already.
#[tactic(auto, using(crate::proofs::Marks::used_reads))]
fn use_page(paged: &mut Paged, place: u32) -> bool
    requires frames { HasFrames paged.old.pager paged.old.core }
    requires reads { AgreesWithCore paged.old.pager paged.old.core }
    ensures frames { HasFrames paged.new.pager paged.new.core }
    ensures reads { AgreesWithCore paged.new.pager paged.new.core }
{
    if place >= paged.core.len() {
        return false;
    }
    let word = paged.core.peek(place).value();
    if word / USED % 2 != 0 {
        return false;
    }
    paged.core.poke(place, Word::low(word + USED));
    true
}

fn is_used_first(paged: &mut Paged, used: Option<u32>) -> bool
    requires frames { HasFrames paged.old.pager paged.old.core }
    requires reads { AgreesWithCore paged.old.pager paged.old.core }
    ensures frames { HasFrames paged.new.pager paged.new.core }
    ensures reads { AgreesWithCore paged.new.pager paged.new.core }
{
    match used {
        Some(place) => use_page(paged, place),
        None => true,
    }
}

// Whether bringing in a page leaves the frames as the row says.
fn chooses(paged: &mut Paged, row: &Choice) -> bool
    requires frames { HasFrames paged.old.pager paged.old.core }
    requires reads { AgreesWithCore paged.old.pager paged.old.core }
    ensures frames { HasFrames paged.new.pager paged.new.core }
    ensures reads { AgreesWithCore paged.new.pager paged.new.core }
{
    if !is_used_first(paged, row.used) || !paged.pager.has_page(row.seg, row.page) {
        return false;
    }
    let brought = paged
        .pager
        .bring(&mut paged.core, row.seg, row.page, &Refs::new());
    brought.is_ok() && has_frames(&paged.core, row.first, row.second)
}

// The index of the first row of `CHOICES` that does not hold.
fn first_wrong(paged: &mut Paged) -> Option<usize>
    requires frames { HasFrames paged.old.pager paged.old.core }
    requires reads { AgreesWithCore paged.old.pager paged.old.core }
{
    for (i, row) in CHOICES.iter().enumerate() {
        if !chooses(paged, row) {
            return Some(i);
        }
    }
    None
}

#[test]
fn used_page_passed_over(rt: HostRuntime) -> Result<(), NoMemory> {
    let mut paged = laid(rt.alloc())?;
    let wrong = first_wrong(&mut paged);
    assert!(rt; wrong.is_none(), "row {wrong:?}");
    Ok(())
}
