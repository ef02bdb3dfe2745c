//! Parses the lines of a bind file in order, up to the first that has no form or is out of order.

ghost use Rattle.std.specs.Prelude.{◌≡◌, ◌+◌, ◌++◌, ◌<◌, ◌≤◌, ◌^◌, [], length, IfOk, OnOk};
ghost use Rattle.m36_bindfile.specs.BindFile.{parsed_bind_lines, lines_from, lacks_line_feed};
ghost use Rattle.m36_bindfile.specs.BindFile.{has_object, bind_lines, with_component};
ghost use Rattle.m36_bindfile.specs.BindFile.{component_names, names_or_fault, BindResult};
ghost use Rattle.m36_text.specs.Once.{appended_if_new};
ghost use Rattle.m36_text.specs.Texts.{are_same};

use crate::fault::BindFault;
use crate::forms::{is_object_line, line_after};
use crate::line::{BindLine, BindLines};
use indexmap::IndexSet;
use m36_text::{HashSeed, Name, Names, first_line, first_open_line};
use m36_word::NoMemory;
use std::alloc::Global;

// Whether a line is an `object` line. A last line that lacks its line feed counts.
#[tactic(auto, using(crate::proofs::BindLoops::object_found, crate::proofs::BindLoops::object_more, crate::proofs::BindLoops::object_none))]
fn has_object(text: &[u8]) -> bool
    ensures { result ≡ has_object text.now }
{
    let mut rest = text;
    while let Some((line, behind)) = first_open_line(rest) {
        if is_object_line(line) {
            return true;
        }
        rest = behind;
    }
    false
}

// The number of the line after these.
fn next_number(above: &BindLines) -> u32
    requires { length above.now + 1 < 2 ^ 32 }
    ensures { result ≡ length above.now + 1 }
{
    above.items().len() as u32 + 1
}

// Whether the text has a last line that lacks its line feed.
fn lacks_line_feed(rest: &[u8]) -> bool
    ensures { result ≡ lacks_line_feed rest.now }
{
    !rest.is_empty()
}

// The parsed lines of a text, or B1 at the first line that has no form, is out of order or lacks
// its line feed.
fn lines_in(alloc: Global, text: &[u8]) -> Result<BindLines, BindFault>
    requires { length text.now < 2 ^ 32 }
    ensures says { BindResult result (lines_from [] (parsed_bind_lines text.now)) }
    ensures few { IfOk result (λ lines. length lines ≤ length text.now) }
{
    let mut above = BindLines::new(alloc);
    let mut rest = text;
    while let Some((line, behind)) = first_line(rest) {
        match line_after(&above, line) {
            Some(next) => above.push(next)?,
            None => return Err(BindFault::B1(next_number(&above))),
        }
        rest = behind;
    }
    if lacks_line_feed(rest) {
        Err(BindFault::B1(next_number(&above)))
    } else {
        Ok(above)
    }
}

/// The lines of a bind file, or B1 with a line number. There are at most as many lines as the text
/// has bytes. The text has fewer than 2^32 bytes.
#[tactic(auto, unfolding(crate::specs::BindFile::bind_lines))]
pub fn read_lines(alloc: Global, text: &[u8]) -> Result<BindLines, BindFault>
    requires { length text.now < 2 ^ 32 }
    ensures says { BindResult result (bind_lines text.now) }
    ensures few { IfOk result (λ lines. length lines ≤ length text.now) }
{
    if has_object(text) {
        lines_in(alloc, text)
    } else {
        Err(BindFault::B1(1))
    }
}

// Adds a name, unless the list has it.
fn add_name(
    names: &mut Names,
    seen: &mut IndexSet<Name, HashSeed>,
    name: &Name,
) -> Result<(), NoMemory>
    requires { seen.old.keys ≡ names.old }
    ensures names { OnOk result (names.new ≡ appended_if_new (are_same name.now) names.old
        name.now) }
    ensures seen { OnOk result (seen.new.keys ≡ names.new) }
{
    if seen.insert(name.copied())? {
        names.push(name.copied())?;
    }
    Ok(())
}

// Adds the component of a line, if it is an `object` line and names a new one.
fn add_component(
    names: &mut Names,
    seen: &mut IndexSet<Name, HashSeed>,
    line: &BindLine,
) -> Result<(), NoMemory>
    requires { seen.old.keys ≡ names.old }
    ensures names { OnOk result (names.new ≡ with_component names.old line.now) }
    ensures seen { OnOk result (seen.new.keys ≡ names.new) }
{
    match line {
        BindLine::Object(name) => add_name(names, seen, name),
        _ => Ok(()),
    }
}

// The names of the components, each once. They are hashed with this seed.
#[tactic(auto, unfolding(crate::specs::BindFile::with_components))]
fn names_in(alloc: Global, seed: HashSeed, lines: &[BindLine]) -> Result<Names, NoMemory>
    ensures { IfOk result (λ names. names ≡ component_names lines.now) }
{
    let mut names = Names::new(alloc);
    let mut seen = IndexSet::with_hasher(alloc, seed);
    let mut rest = lines;
    while let [line, others @ ..] = rest {
        add_component(&mut names, &mut seen, line)?;
        rest = others;
    }
    Ok(names)
}

/// The names of the components of a bind file, each once, in the order in which they first occur,
/// or B1 with a line number. The text has fewer than 2^32 bytes.
pub fn component_names_of(alloc: Global, text: &[u8]) -> Result<Names, BindFault>
    requires { length text.now < 2 ^ 32 }
    ensures says { BindResult result (names_or_fault (bind_lines text.now)) }
{
    let lines = read_lines(alloc, text)?;
    Ok(names_in(alloc, HashSeed::of(text), lines.items())?)
}
