//! Resolves links.

ghost use Rattle.std.specs.Prelude.{◌≡◌, ◌<◌, ◌≤◌, find, length, option_copied, IfOk};
ghost use Rattle.m36_link.specs.Known.{segment_of, object_in, laid_words};
ghost use Rattle.m36_link.specs.Links.{link_from, link_in, holds_link, section_at};
ghost use Rattle.m36_link.specs.Snap.{outer_target, directory_of, target_of_link, words_to_lay};
ghost use Rattle.m36_link.specs.Snap.{section_with_words, snap_of_target, outer_snap, snap_of};
ghost use Rattle.m36_link.specs.Snap.{SnapResult};
ghost use Rattle.obj36_parts.specs.ObjectSegment.{segment_limit};

use crate::file::{File, file_of, index_in_catalog, object_in};
use crate::known::Known;
use crate::laid::{FIRST_LINKAGE, NewSection, PlacedSection};
use crate::snap::{LinkFault, Snap};
use crate::target::{Target, own_target, segment_target};
use m36_dir::{Catalog, Segment};
use m36_model::{At, LinkCode};
use m36_word::{NoMemory, Words};
use obj36::{Link, Object, Section};
use obj36_parts::names::kind_has_name;
use obj36_parts::sections::push_all;
use std::alloc::Global;

// ---- the link at a place

// The link whose even word is at `word`, if the first link is at `first`.
#[tactic(auto, unfolding(crate::specs::Links::link_from))]
fn link_from(first: u64, word: u64, links: &[Link]) -> Option<&Link>
    ensures { option_copied result ≡ link_from first word links.now }
{
    if first <= word && (word - first) % 2 == 0 {
        links.get(((word - first) / 2) as usize)
    } else {
        None
    }
}

// The link of a laid section whose even word is word `word` of the linkage segment.
#[tactic(auto, unfolding(crate::specs::Links::link_in))]
fn link_in(files: &[File], word: u32, section: PlacedSection) -> Option<&Link>
    ensures { option_copied result ≡ link_in files.now word section }
{
    match object_in(files, section.seg) {
        Some(object) => link_from(
            section.base as u64 + object.parts().first_link(),
            word as u64,
            object.links(),
        ),
        None => None,
    }
}

// Whether a laid section is in this ring and has a link whose even word is at `word`.
fn holds_link(files: &[File], ring: u8, word: u32, section: PlacedSection) -> bool
    ensures { result ≡ holds_link files.now ring word section }
{
    section.ring == ring && link_in(files, word, section).is_some()
}

// The section of a ring that has a link at a word.
fn section_with(
    laid: &[PlacedSection],
    files: &[File],
    ring: u8,
    word: u32,
) -> Option<PlacedSection>
    ensures { result ≡ find (holds_link files.now ring word) laid.now }
{
    laid.iter()
        .copied()
        .find(|section| holds_link(files, ring, word, *section))
}

// The section that has the link at a place.
#[tactic(auto, unfolding(crate::specs::Links::section_at))]
fn section_at(laid: &[PlacedSection], files: &[File], at: At) -> Option<PlacedSection>
    ensures { result ≡ section_at laid.now files.now at }
{
    if at.seg == FIRST_LINKAGE + at.ring as u16 {
        section_with(laid, files, at.ring, at.word)
    } else {
        None
    }
}

// ---- its target

/// The segment with a number; None if the catalog has none.
#[tactic(auto, unfolding(crate::specs::Known::segment_of))]
pub fn segment_of(catalog: &Catalog, seg: u16) -> Option<&Segment>
    ensures { option_copied result ≡ segment_of catalog.now seg }
{
    match index_in_catalog(seg) {
        Some(i) if i < catalog.count() => Some(catalog.segment(i)),
        _ => None,
    }
}

// The number of the directory of a segment.
fn directory_of(catalog: &Catalog, seg: u16) -> u16
    ensures { result ≡ directory_of (segment_of catalog.now seg) }
{
    match segment_of(catalog, seg) {
        Some(segment) => segment.dir,
        None => 0,
    }
}

// The target of a link of type 3 or 4, which is searched from a directory.
#[tactic(auto, unfolding(crate::specs::Snap::outer_target))]
fn outer_target(
    known: &Known,
    catalog: &Catalog,
    files: &[File],
    ring: u8,
    link: &Link,
    from: u16,
) -> Result<Target, LinkCode>
    requires { ring < 8 }
    ensures { result ≡ outer_target known.now catalog.now files.now ring link.now from }
{
    let Some(seg) = known.search(catalog, ring, link.name.bytes(), from) else {
        return Err(LinkCode::L2);
    };
    let Some(segment) = segment_of(catalog, seg) else {
        return Err(LinkCode::L2);
    };
    let Some(file) = file_of(files, seg) else {
        return Err(LinkCode::L2);
    };
    segment_target(&known.sections(), ring, seg, segment, file, link)
}

// The target of a link of an object whose section is laid.
#[tactic(auto, unfolding(crate::specs::Snap::target_of_link))]
fn target_of_link(
    known: &Known,
    catalog: &Catalog,
    files: &[File],
    ring: u8,
    section: PlacedSection,
    object: &Object,
    link: &Link,
) -> Result<Target, LinkCode>
    requires ring { ring < 8 }
    requires size { length (laid_words object.now) ≤ segment_limit }
    ensures { result ≡ target_of_link known.now catalog.now files.now ring section object.now
        link.now }
{
    if kind_has_name(link.kind as u64) {
        let from = directory_of(catalog, section.seg);
        outer_target(known, catalog, files, ring, link, from)
    } else {
        own_target(ring, section, object, link)
    }
}

// ---- the answer

// The words that are laid for an object.
#[tactic(auto, unfolding(crate::specs::Known::laid_words))]
fn laid_words(alloc: Global, object: &Object) -> Result<Words, NoMemory>
    ensures { IfOk result (λ words. words ≡ laid_words object.now) }
{
    let mut words = Words::new(alloc);
    push_all(&mut words, object.section(Section::Linkage))?;
    push_all(&mut words, object.section(Section::Static))?;
    Ok(words)
}

// The words that are laid for a segment.
fn words_to_lay(alloc: Global, files: &[File], seg: u16) -> Result<Words, NoMemory>
    ensures { IfOk result (λ words. words ≡ words_to_lay (object_in files.now seg)) }
{
    match object_in(files, seg) {
        Some(object) => laid_words(alloc, object),
        None => Ok(Words::new(alloc)),
    }
}

// The section that has to be laid, with its words.
fn section_with_words(
    alloc: Global,
    files: &[File],
    lay: Option<PlacedSection>,
) -> Result<Option<NewSection>, NoMemory>
    ensures { IfOk result (λ lays. lays ≡ section_with_words files.now lay) }
{
    match lay {
        Some(section) => {
            let words = words_to_lay(alloc, files, section.seg)?;
            Ok(Some(NewSection {
                words,
                base: section.base,
                seg: section.seg,
                ring: section.ring,
            }))
        }
        None => Ok(None),
    }
}

// The answer, given the target of the link.
fn snap_of_target(
    alloc: Global,
    files: &[File],
    ring: u8,
    link: &Link,
    landing: Result<Target, LinkCode>,
) -> Result<Snap, LinkFault>
    requires { ring < 8 }
    ensures { SnapResult result (snap_of_target files.now ring link.now landing) }
{
    match landing {
        Ok(landing) => Ok(Snap {
            lay: section_with_words(alloc, files, landing.lay)?,
            link: link.copied(),
            pair: landing.pair,
            target: landing.target,
            ring,
        }),
        Err(code) => Err(LinkFault::Refused(code, Some(link.copied()))),
    }
}

impl Known {
    /// Resolves a link of type 3 or 4 in a ring; its name is searched from a directory. Nothing
    /// changes.
    #[tactic(auto, unfolding(crate::specs::Snap::outer_snap))]
    pub fn resolve_from(
        &self,
        alloc: Global,
        catalog: &Catalog,
        files: &[File],
        ring: u8,
        link: &Link,
        from: u16,
    ) -> Result<Snap, LinkFault>
        requires { ring < 8 }
        ensures { SnapResult result (outer_snap self.now catalog.now files.now ring link.now from) }
    {
        let landing = outer_target(self, catalog, files, ring, link, from);
        snap_of_target(alloc, files, ring, link, landing)
    }

    /// Resolves the link at a place, for the ring of the place. The result is the first of these
    /// codes that applies, or the pair, with the section that has to be laid. Nothing changes.
    ///
    /// - L1: the place is not the even word of a link in a section that is laid in the ring.
    /// - L2: no segment is found.
    /// - L4: the ring may not use the segment.
    /// - L5: it is an object or a gate by its kind, and its file is not an object.
    /// - L3: it does not define the entry; plain words define none.
    /// - L6: there is no room for its section.
    #[tactic(auto, unfolding(crate::specs::Snap::snap_of))]
    pub fn resolve(
        &self,
        alloc: Global,
        catalog: &Catalog,
        files: &[File],
        at: At,
    ) -> Result<Snap, LinkFault>
        ensures { SnapResult result (snap_of self.now catalog.now files.now at) }
    {
        let Some(section) = section_at(self.laid(), files, at) else {
            return Err(LinkFault::Refused(LinkCode::L1, None));
        };
        let (Some(object), Some(link)) = (
            object_in(files, section.seg),
            link_in(files, at.word, section),
        ) else {
            return Err(LinkFault::Refused(LinkCode::L1, None));
        };
        let landing = target_of_link(self, catalog, files, at.ring, section, object, link);
        snap_of_target(alloc, files, at.ring, link, landing)
    }
}
