//! The places of the words of components in the bound object.

ghost use Rattle.std.specs.Prelude.{◌≡◌, ◌+◌, ◌*◌, ◌^◌, ◌<◌, ◌≤◌};
ghost use Rattle.m36_relocate.specs.Layout.{denoted, denoted_in_version_1, denoted_in_version_2};
ghost use Rattle.m36_relocate.specs.Layout.{denoted_past_head, denoted_in_linkage, IsBelow};
ghost use Rattle.m36_relocate.specs.Layout.{first_link, first_static, section_place};
ghost use Rattle.m36_relocate.specs.Layout.{static_word_place, bound_place_of, relocated_place};
ghost use Rattle.m36_relocate.specs.Layout.{static_number, bound_number_of, relocated_number};
ghost use Rattle.obj36_parts.specs.ObjectSegment.{rounded_up_to_even, head_words};

use obj36_parts::Section;
use obj36_parts::sections::HEAD_WORDS;
use std::marker::Model;

/// The numbers by which the words of an object are laid out.
#[derive(Clone, Copy)]
pub struct Shape {
    /// The number of static words.
    pub statics: u64,
    /// The number of links.
    pub links: u64,
    /// Whether the object has version 2.
    pub newer: bool,
}

impl Model for Shape {
    ghost use Rattle.std.specs.Prelude.{◌<◌, ◌^◌};
    ghost use Rattle.m36_relocate.specs.Fields.{ShapeFields};

    ghost Value = { ShapeFields };

    ghost view = { λ s. record { newer = s.newer; statics = s.statics; links = s.links } };

    ghost invariant = { λ s. (s.statics < 2 ^ 61) × (s.links < 2 ^ 61) };

    ghost inverse = { λ s. record { statics = s.statics; links = s.links; newer = s.newer } };
}

/// Where the words of a component begin in the bound object.
#[derive(Clone, Copy)]
pub struct Bases {
    /// The offset of the first word of its text.
    pub text: u64,
    /// The number of its first static word, among all static words.
    pub statics: u64,
    /// The number of links before its own.
    pub links: u64,
}

impl Model for Bases {
    ghost use Rattle.std.specs.Prelude.{◌<◌, ◌^◌};
    ghost use Rattle.m36_relocate.specs.Fields.{BasesFields};

    ghost Value = { BasesFields };

    ghost view = { λ b. record { text = b.text; statics = b.statics; links = b.links } };

    ghost invariant = { λ b. (b.text < 2 ^ 60) × (b.statics < 2 ^ 60) × (b.links < 2 ^ 60) };

    ghost inverse = { λ b. record { text = b.text; statics = b.statics; links = b.links } };
}

/// How the places of a component are relocated to those of the bound object.
#[derive(Clone, Copy)]
pub struct Relocation {
    /// The shape of the bound object.
    pub frame: Shape,
    /// The shape of the component.
    pub shape: Shape,
    /// Where the words of the component begin.
    pub bases: Bases,
}

/// The word that a place of an object denotes.
#[derive(Clone, Copy)]
pub enum Denoted {
    /// This word of the text.
    TextWord(u64),
    /// This static word.
    StaticWord(u64),
    /// This word of the links, counted from the first link.
    LinkWord(u64),
    /// This word of the head of the linkage section.
    HeadWord(u64),
}

/// A place of the bound object.
#[derive(Clone, Copy)]
pub struct BoundPlace {
    /// The offset in the section; 18 bits.
    pub offset: u32,
    /// The section.
    pub section: Section,
}

// What offset `v` of the linkage section, past its head, denotes in an object of version 1: there
// the static words come first, and then the links.
fn denoted_in_version_1(statics: u64, v: u64) -> Denoted
    requires head { head_words ≤ v }
    requires statics { statics < 2 ^ 61 }
    requires small { v < 2 ^ 18 }
    ensures value { result ≡ denoted_in_version_1 statics v }
    ensures small { IsBelow (2 ^ 18) result }
{
    let first = HEAD_WORDS + statics;
    if v < first {
        Denoted::StaticWord(v - HEAD_WORDS)
    } else {
        Denoted::LinkWord(v - first)
    }
}

// What offset `v` past the head denotes in an object of version 2: there the links come first. The
// static words have a section of their own, whose offsets count on after the links.
fn denoted_in_version_2(links: u64, v: u64) -> Denoted
    requires head { head_words ≤ v }
    requires links { links < 2 ^ 61 }
    requires small { v < 2 ^ 18 }
    ensures value { result ≡ denoted_in_version_2 links v }
    ensures small { IsBelow (2 ^ 18) result }
{
    let end = HEAD_WORDS + 2 * links;
    if v < end {
        Denoted::LinkWord(v - HEAD_WORDS)
    } else {
        Denoted::StaticWord(v - end)
    }
}

// What an offset of the linkage section past its head denotes, for either version.
fn denoted_past_head(s: &Shape, v: u64) -> Denoted
    requires head { head_words ≤ v }
    requires small { v < 2 ^ 18 }
    ensures value { result ≡ denoted_past_head s.now v }
    ensures small { IsBelow (2 ^ 18) result }
{
    if s.newer {
        denoted_in_version_2(s.links, v)
    } else {
        denoted_in_version_1(s.statics, v)
    }
}

// What an offset of the linkage section denotes.
fn denoted_in_linkage(s: &Shape, v: u64) -> Denoted
    requires small { v < 2 ^ 18 }
    ensures value { result ≡ denoted_in_linkage s.now v }
    ensures small { IsBelow (2 ^ 18) result }
{
    if v < HEAD_WORDS {
        Denoted::HeadWord(v)
    } else {
        denoted_past_head(s, v)
    }
}

// The word that an offset in a section denotes.
#[tactic(auto, unfolding(crate::specs::Layout::denoted))]
fn denoted_word(s: &Shape, section: Section, v: u64) -> Denoted
    requires small { v < 2 ^ 18 }
    ensures value { result ≡ denoted s.now section v }
    ensures small { IsBelow (2 ^ 18) result }
{
    match section {
        Section::Text => Denoted::TextWord(v),
        Section::Linkage => denoted_in_linkage(s, v),
        Section::Symbol => Denoted::HeadWord(v),
        Section::Static => Denoted::StaticWord(v),
    }
}

/// The least even number that is not below n.
pub fn rounded_up_to_even(n: u64) -> u64
    requires { n < 2 ^ 62 }
    ensures value { result ≡ rounded_up_to_even n }
    ensures bound { result ≤ n + 1 }
{
    n + n % 2
}

// The offset of the first link in the linkage section of an object of this shape.
fn first_link(f: &Shape) -> u64
    ensures value { result ≡ first_link f.now }
    ensures bound { result < 2 ^ 61 + 8 }
{
    if f.newer {
        HEAD_WORDS
    } else {
        HEAD_WORDS + f.statics
    }
}

// The offset of the first static word, counted from the head of the linkage section. In version 2,
// where static words are in their own section, it is the offset after the links.
fn first_static(f: &Shape) -> u64
    ensures value { result ≡ first_static f.now }
    ensures bound { result < 2 ^ 62 + 16 }
{
    if f.newer {
        HEAD_WORDS + 2 * f.links
    } else {
        HEAD_WORDS
    }
}

/// A place of a section, with the offset modulo 2^18.
pub fn section_place_at(section: Section, offset: u64) -> BoundPlace
    ensures value { result ≡ section_place section offset }
    ensures bound { result.offset < 2 ^ 18 }
{
    BoundPlace {
        offset: (offset % (1 << 18)) as u32,
        section,
    }
}

// The place of static word `w` of an object of this shape, with `w` counted from 0.
fn static_word_place(f: &Shape, w: u64) -> BoundPlace
    requires { w < 2 ^ 62 }
    ensures value { result ≡ static_word_place f.now w }
    ensures bound { result.offset < 2 ^ 18 }
{
    if f.newer {
        section_place_at(Section::Static, w)
    } else {
        section_place_at(Section::Linkage, HEAD_WORDS + w)
    }
}

// The place in the bound object of a word of a component that begins at `b`.
fn bound_place_of(f: &Shape, b: &Bases, m: Denoted) -> BoundPlace
    requires { IsBelow (2 ^ 18) m }
    ensures value { result ≡ bound_place_of f.now b.now m }
    ensures bound { result.offset < 2 ^ 18 }
{
    match m {
        Denoted::TextWord(v) => section_place_at(Section::Text, b.text + v),
        Denoted::StaticWord(w) => static_word_place(f, b.statics + w),
        Denoted::LinkWord(k) => section_place_at(Section::Linkage, first_link(f) + 2 * b.links + k),
        Denoted::HeadWord(v) => section_place_at(Section::Linkage, v),
    }
}

/// The place in the bound object of a place of a component.
#[tactic(auto, unfolding(crate::specs::Layout::relocated_place))]
pub fn relocated_place(m: &Relocation, section: Section, v: u64) -> BoundPlace
    requires { v < 2 ^ 18 }
    ensures value { result ≡ relocated_place m.now section v }
    ensures bound { result.offset < 2 ^ 18 }
{
    bound_place_of(&m.frame, &m.bases, denoted_word(&m.shape, section, v))
}

// The number by which a relocated part refers to static word `w`. It is counted from the head of
// the linkage section, except in the static section, where it is `w`.
fn static_number(f: &Shape, target: Section, w: u64) -> u64
    requires { w < 2 ^ 61 }
    ensures value { result ≡ static_number f.now target w }
    ensures bound { result < 2 ^ 63 }
{
    match target {
        Section::Static => w,
        _ => first_static(f) + w,
    }
}

// The number by which a relocated part with this target refers to a word of a component in the
// bound object.
fn bound_number_of(f: &Shape, b: &Bases, target: Section, m: Denoted) -> u64
    requires { IsBelow (2 ^ 18) m }
    ensures value { result ≡ bound_number_of f.now b.now target m }
    ensures bound { result < 2 ^ 63 }
{
    match m {
        Denoted::TextWord(v) => b.text + v,
        Denoted::StaticWord(w) => static_number(f, target, b.statics + w),
        Denoted::LinkWord(k) => first_link(f) + 2 * b.links + k,
        Denoted::HeadWord(v) => v,
    }
}

/// A number in a relocated part, for the bound object: the number of the same word there. `v` has
/// 18 bits.
#[tactic(auto, unfolding(crate::specs::Layout::relocated_number))]
pub fn relocated_number(m: &Relocation, target: Section, v: u64) -> u64
    requires { v < 2 ^ 18 }
    ensures value { result ≡ relocated_number m.now target v }
    ensures bound { result < 2 ^ 63 }
{
    bound_number_of(
        &m.frame,
        &m.bases,
        target,
        denoted_word(&m.shape, target, v),
    )
}
