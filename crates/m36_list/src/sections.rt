//! The sections of an object, one line each, and the entry bound.

ghost use Rattle.std.specs.Prelude.{◌+◌, ◌++◌, ◌≡◌, ◌^◌, ◌<◌, ◌≤◌, length, OnOk};
ghost use Rattle.obj36_parts.specs.ObjectSegment.{outer_statics};
ghost use Rattle.m36_list.specs.Counts.{AreCountsOf};
ghost use Rattle.m36_list.specs.Print.{statics_offset, section_line, static_line, value_line};
ghost use Rattle.m36_list.specs.Print.{section_lines};

use crate::counts::Counts;
use crate::fields::{put_field, put_last_number, put_number};
use m36_outside::Text;
use m36_word::NoMemory;
use obj36::{Object, Parts};

/// Adds the line of a section: its name, its offset and its number of words.
#[tactic(auto, using(crate::proofs::LineFields::lines))]
fn put_section(text: &mut Text, name: &[u8], at: u64, len: u64) -> Result<(), NoMemory>
    requires at { at < 2 ^ 18 }
    requires len { len < 2 ^ 18 }
    ensures { OnOk result (text.new ≡ text.old ++ section_line name.now at len) }
{
    put_field(text, name)?;
    put_number(text, at)?;
    put_last_number(text, len)
}

/// Adds the line of the static section, if the object has version 2.
fn put_static_section(text: &mut Text, parts: &Parts, at: u64) -> Result<(), NoMemory>
    requires at { at ≡ statics_offset parts.now }
    requires begins { at < 2 ^ 18 }
    requires len { length (outer_statics parts.now) < 2 ^ 18 }
    ensures { OnOk result (text.new ≡ text.old ++ static_line parts.now) }
{
    if parts.version != 2 {
        return Ok(());
    }
    put_section(text, b"static", at, parts.statics.slice().len() as u64)
}

/// Adds a line with a name and a number.
#[tactic(auto, using(crate::proofs::LineFields::lines))]
fn put_value(text: &mut Text, name: &[u8], v: u32) -> Result<(), NoMemory>
    requires { v < 2 ^ 18 }
    ensures { OnOk result (text.new ≡ text.old ++ value_line name.now v) }
{
    put_field(text, name)?;
    put_last_number(text, v as u64)
}

/// Adds the lines of the sections and of the entry bound.
#[tactic(auto, unfolding(crate::specs::Print::section_lines), using(crate::proofs::SectionPlaces::six))]
pub fn put_sections(text: &mut Text, count: Counts, o: &Object) -> Result<(), NoMemory>
    requires { AreCountsOf count o.now }
    ensures { OnOk result (text.new ≡ text.old ++ section_lines o.now) }
{
    let parts = o.parts();
    let linkage_at = count.text + count.definition;
    let statics_at = linkage_at + count.linkage;
    let symbol_at = statics_at + count.statics;
    put_section(text, b"text", 0, count.text)?;
    put_section(text, b"definition", count.text, count.definition)?;
    put_section(text, b"linkage", linkage_at, count.linkage)?;
    put_static_section(text, parts, statics_at)?;
    put_section(text, b"symbol", symbol_at, count.symbol)?;
    put_value(text, b"entrybound", parts.entry_bound)
}
