//! The definitions of an object, one line each.

ghost use Rattle.std.specs.Prelude.{◌++◌, ◌≡◌, OnOk};
ghost use Rattle.std.specs.List.{flat_map};
ghost use Rattle.m36_list.specs.Print.{section_text, definition_line};

use crate::fields::{put_field, put_last, put_last_number, put_number};
use m36_outside::Text;
use m36_word::NoMemory;
use obj36::{Named, Section};

// The name of a section, as the class of a definition is shown.
fn class_name(section: Section) -> &'static str
    ensures { result.now ≡ section_text section }
{
    match section {
        Section::Text => "text",
        Section::Linkage => "linkage",
        Section::Symbol => "symbol",
        Section::Static => "static",
    }
}

/// Adds the line of a definition.
#[tactic(auto, unfolding(crate::specs::Print::definition_line), using(crate::proofs::LineFields::lines))]
fn put_definition(text: &mut Text, definition: &Named) -> Result<(), NoMemory>
    ensures { OnOk result (text.new ≡ text.old ++ definition_line definition.now) }
{
    let def = definition.def;
    put_field(text, b"def")?;
    put_field(text, definition.name.bytes())?;
    put_field(text, class_name(def.section).as_bytes())?;
    if def.is_entry {
        put_number(text, def.value as u64)?;
        put_last(text, b"entry")
    } else {
        put_last_number(text, def.value as u64)
    }
}

/// Adds the lines of all definitions.
pub fn put_definitions(text: &mut Text, definitions: &[Named]) -> Result<(), NoMemory>
    ensures { OnOk result (text.new ≡ text.old ++ flat_map definition_line definitions.now) }
{
    for definition in definitions {
        put_definition(text, definition)?;
    }
    Ok(())
}
