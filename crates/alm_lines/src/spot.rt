//! The place of a line, as a location counter for each section.

ghost use Rattle.std.specs.Prelude.{[], ◌∷◌, ◌++◌, ◌≡◌, ◌^◌, ◌<◌, length, IfOk};
ghost use Rattle.alm_lines.specs.Sums.{balance, IsTerm};
ghost use Rattle.alm_lines.specs.Spots.{start, count, place, here};
ghost use Rattle.alm_lines.specs.Spots.{plus_words, with_section, size_of, next_spot};
ghost use Rattle.alm_lines.specs.Spots.{next_line_spot, end_of};
ghost use Rattle.alm_lines.specs.Spots.{HasRoomForLines, IsOneLineFurther};

use crate::arguments::{first_symbol, second_number, section_in, words_of_args};
use crate::sum::{Balance, NOTHING, Sum, absolute};
use alm_parse::{Arg, Line36, LineEffect};
use m36_word::NoMemory;
use obj36_parts::Section;
use obj36_parts::sections::HEAD_WORDS;
use std::alloc::Global;
use std::marker::Model;

/// The place of a line: its section, and how many words the lines above it place in each section.
/// There are fewer than 2^96 - 8, since fewer than 2^32 lines place fewer than 2^64 words each.
/// `inner` counts the static words of the linkage section, `outer` those of a static section.
/// `uses_inner` and `uses_outer` say whether a `use` line above selects these sections.
#[derive(Clone, Copy, PartialEq, Eq)]
pub struct LocationCounter {
    pub text: u128,
    pub inner: u128,
    pub outer: u128,
    pub section: Section,
    pub uses_inner: bool,
    pub uses_outer: bool,
}

impl Model for LocationCounter {
    ghost use Rattle.std.specs.Prelude.{◌<◌, ◌-◌, ◌^◌};
    ghost use Rattle.alm_lines.specs.SpotFields.{LocationCounter};

    ghost Value = { LocationCounter };

    ghost view = { λ s. record {
      text = s.text;
      inner = s.inner;
      outer = s.outer;
      section = s.section;
      uses_inner = s.uses_inner;
      uses_outer = s.uses_outer;
    } };

    ghost invariant = { λ s.
        (s.text < 2 ^ 96 - 8) × (s.inner < 2 ^ 96 - 8) × (s.outer < 2 ^ 96 - 8) };

    ghost inverse = { λ s. record {
      text = s.text;
      inner = s.inner;
      outer = s.outer;
      section = s.section;
      uses_inner = s.uses_inner;
      uses_outer = s.uses_outer;
    } };
}

/// The number 1: a section that counts once.
const ONCE: Balance = Balance { up: 1, down: 0 };

// A number as an integer.
fn natural_as_integer(place: u128) -> Balance
    ensures { result ≡ balance place 0 }
{
    Balance { up: place, down: 0 }
}

impl LocationCounter {
    /// The place of the first line.
    pub fn start() -> LocationCounter
        ensures { result ≡ start }
    {
        LocationCounter {
            text: 0,
            inner: 0,
            outer: 0,
            section: Section::Text,
            uses_inner: false,
            uses_outer: false,
        }
    }

    /// The number of words that the lines above place in the section.
    pub fn count(self) -> u128
        ensures { result ≡ count self }
    {
        let section = self.section;
        match section {
            Section::Text => self.text,
            Section::Linkage => self.inner,
            Section::Symbol => 0,
            Section::Static => self.outer,
        }
    }

    /// The offset in the section. The static words of the linkage section begin after its head.
    pub fn place(self) -> u128
        ensures value { result ≡ place self }
        ensures bound { result < 2 ^ 96 }
    {
        let section = self.section;
        match section {
            Section::Text => self.text,
            Section::Linkage => self.inner + HEAD_WORDS as u128,
            Section::Symbol => 0,
            Section::Static => self.outer,
        }
    }

    /// The sum of a label of the line.
    pub fn here(self) -> Sum
        ensures value { result ≡ here self }
        ensures small { IsTerm result }
    {
        let section = self.section;
        match section {
            Section::Text => Sum {
                value: natural_as_integer(self.text),
                text: ONCE,
                inner: NOTHING,
                outer: NOTHING,
                unknown: false,
            },
            Section::Linkage => Sum {
                value: natural_as_integer(self.inner + HEAD_WORDS as u128),
                text: NOTHING,
                inner: ONCE,
                outer: NOTHING,
                unknown: false,
            },
            Section::Symbol => absolute(0),
            Section::Static => Sum {
                value: natural_as_integer(self.outer),
                text: NOTHING,
                inner: NOTHING,
                outer: ONCE,
                unknown: false,
            },
        }
    }

    /// The place after `n` more words in the section.
    #[inline(always)]
    pub fn plus_words(self, n: u64) -> LocationCounter
        requires { HasRoomForLines 1 self }
        ensures value { result ≡ plus_words self n }
        ensures near { IsOneLineFurther self result }
    {
        let section = self.section;
        match section {
            Section::Text => LocationCounter {
                text: self.text + n as u128,
                ..self
            },
            Section::Linkage => LocationCounter {
                inner: self.inner + n as u128,
                ..self
            },
            Section::Symbol => self,
            Section::Static => LocationCounter {
                outer: self.outer + n as u128,
                ..self
            },
        }
    }

    /// The place after a `use` line that selects this section.
    pub fn with_section(self, section: Section) -> LocationCounter
        ensures value { result ≡ with_section self section }
        ensures near { IsOneLineFurther self result }
    {
        match section {
            Section::Text => LocationCounter {
                section: Section::Text,
                ..self
            },
            Section::Linkage => LocationCounter {
                section: Section::Linkage,
                uses_inner: true,
                ..self
            },
            Section::Symbol => self,
            Section::Static => LocationCounter {
                section: Section::Static,
                uses_outer: true,
                ..self
            },
        }
    }
}

/// The number of words that a line places. `at` is its offset in its section. Fails only with
/// `NoMemory`.
pub fn size_of(alloc: Global, deed: LineEffect, args: &[Arg], at: u128) -> Result<u64, NoMemory>
    ensures { IfOk result (λ n. n ≡ size_of deed args.now at) }
{
    match deed {
        LineEffect::Instruction(_, _) | LineEffect::Zero => Ok(1),
        LineEffect::Words => Ok(words_of_args(alloc, args)?.slice().len() as u64),
        LineEffect::Block => Ok(second_number(args)),
        LineEffect::Even => Ok((at % 2) as u64),
        LineEffect::Nothing
        | LineEffect::Entry
        | LineEffect::Segdef
        | LineEffect::Equ
        | LineEffect::Use
        | LineEffect::Bound => Ok(0),
    }
}

// The place after the words of a line with this operation.
fn plus_words_of_line(
    alloc: Global,
    spot: LocationCounter,
    deed: LineEffect,
    args: &[Arg],
) -> Result<LocationCounter, NoMemory>
    requires { HasRoomForLines 1 spot }
    ensures value { IfOk result (λ after.
        after ≡ plus_words spot (size_of deed args.now (place spot))) }
    ensures near { IfOk result (IsOneLineFurther spot) }
{
    let size = size_of(alloc, deed, args, spot.place())?;
    Ok(spot.plus_words(size))
}

// The place of the next line, for an operation that is no instruction. Not inlined, since most
// lines are instructions.
#[inline(never)]
fn next_line_other(
    alloc: Global,
    text: &[u8],
    spot: LocationCounter,
    line: &Line36,
) -> Result<LocationCounter, NoMemory>
    requires { HasRoomForLines 1 spot }
    ensures value { IfOk result (λ after.
        after ≡ next_spot text.now line.now.deed line.now.args spot) }
    ensures near { IfOk result (IsOneLineFurther spot) }
{
    let deed = line.deed;
    let args = line.args.items();
    match deed {
        LineEffect::Use => Ok(spot.with_section(section_in(text, first_symbol(args)))),
        LineEffect::Nothing
        | LineEffect::Entry
        | LineEffect::Segdef
        | LineEffect::Equ
        | LineEffect::Bound => Ok(spot),
        LineEffect::Instruction(_, _) | LineEffect::Zero => Ok(spot.plus_words(1)),
        LineEffect::Words | LineEffect::Block | LineEffect::Even => plus_words_of_line(
            alloc, spot, deed, args,
        ),
    }
}

/// The place of the next line. Fails only with `NoMemory`.
#[inline(always)]
#[tactic(auto, unfolding(crate::specs::Spots::next_line_spot))]
pub fn next_line_spot(
    alloc: Global,
    text: &[u8],
    spot: LocationCounter,
    line: &Line36,
) -> Result<LocationCounter, NoMemory>
    requires { HasRoomForLines 1 spot }
    ensures value { IfOk result (λ after. after ≡ next_line_spot text.now spot line.now) }
    ensures near { IfOk result (IsOneLineFurther spot) }
{
    match line.deed {
        LineEffect::Instruction(_, _) => Ok(spot.plus_words(1)),
        LineEffect::Nothing
        | LineEffect::Entry
        | LineEffect::Segdef
        | LineEffect::Equ
        | LineEffect::Use
        | LineEffect::Words
        | LineEffect::Zero
        | LineEffect::Block
        | LineEffect::Even
        | LineEffect::Bound => next_line_other(alloc, text, spot, line),
    }
}

/// The place after the last line. Fails only with `NoMemory`.
#[tactic(auto, using(crate::proofs::Rooms::rooms), unfolding(crate::specs::Spots::end_of))]
pub fn end_of(alloc: Global, text: &[u8], lines: &[Line36]) -> Result<LocationCounter, NoMemory>
    requires { length lines.now < 2 ^ 32 }
    ensures value { IfOk result (λ spot. spot ≡ end_of text.now start lines.now) }
    ensures room { IfOk result (HasRoomForLines 0) }
{
    let mut spot = LocationCounter::start();
    let mut rest = lines;
    while let [line, more @ ..] = rest {
        spot = next_line_spot(alloc, text, spot, line)?;
        rest = more;
    }
    Ok(spot)
}
