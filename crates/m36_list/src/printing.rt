//! The print of an object.

ghost use Rattle.std.specs.Prelude.{◌+◌, ◌*◌, ◌++◌, ◌≡◌, ◌≤◌, length, IfOk, OnOk};
ghost use Rattle.obj36_parts.specs.ObjectSegment.{first_link, segment_limit};
ghost use Rattle.m36_list.specs.Counts.{AreCountsOf};
ghost use Rattle.m36_list.specs.Print.{object_line, print_of};

use crate::counts::{Counts, counts_of_object};
use crate::definitions::put_definitions;
use crate::fields::{put_field, put_last};
use crate::links::put_links;
use crate::sections::put_sections;
use crate::words::put_words;
use m36_outside::Text;
use m36_text::decimal;
use m36_word::NoMemory;
use obj36::{Object, Section};
use std::alloc::Global;

/// The print of an object with a name: its sections, definitions and links, and each word of its
/// text with its disassembly. Fails only with `NoMemory`.
pub fn print(alloc: Global, name: &[u8], o: &Object) -> Result<Text, NoMemory>
    ensures { IfOk result (λ text. text ≡ print_of name.now o.now) }
{
    let count = counts_of_object(alloc, o)?;
    let mut text = Text::new(alloc);
    put_print(&mut text, name, count, o)?;
    Ok(text)
}

/// Adds the print of an object. `count` has its numbers of words.
#[tactic(auto, unfolding(crate::specs::Print::print_of), using(crate::proofs::SectionPlaces::five))]
pub fn put_print(text: &mut Text, name: &[u8], count: Counts, o: &Object) -> Result<(), NoMemory>
    requires { AreCountsOf count o.now }
    ensures { OnOk result (text.new ≡ text.old ++ print_of name.now o.now) }
{
    put_object_line(text, name, count, o)?;
    put_sections(text, count, o)?;
    put_definitions(text, o.parts().definitions.items())?;
    put_links(text, first_link(count, o), o.links())?;
    put_words(text, o.section(Section::Text))
}

/// Adds the line with the name and the number of words.
#[tactic(auto, using(crate::proofs::LineFields::lines))]
fn put_object_line(text: &mut Text, name: &[u8], count: Counts, o: &Object) -> Result<(), NoMemory>
    requires { AreCountsOf count o.now }
    ensures { OnOk result (text.new ≡ text.old ++ object_line name.now o.now) }
{
    put_field(text, b"object")?;
    put_field(text, name)?;
    put_last(text, decimal(count.whole).as_str().as_bytes())
}

// The offset of the first link in the linkage section. All links are in the first 2^18 words of it.
#[tactic(auto, using(crate::proofs::SectionPlaces::links_behind))]
fn first_link(count: Counts, o: &Object) -> u64
    requires { AreCountsOf count o.now }
    ensures value { result ≡ first_link o.now }
    ensures fits { result + 2 * length o.now.links ≤ segment_limit }
{
    let _count = count.linkage;
    o.parts().first_link()
}
