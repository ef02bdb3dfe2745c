//! The text of the reference of a link.

ghost use Rattle.std.specs.Prelude.{◌++◌, ◌≡◌, ◌≤◌, length, OnOk};
ghost use Rattle.m36_text.specs.Texts.{name_limit};
ghost use Rattle.obj36_parts.specs.Sections.{starred_section_name};
ghost use Rattle.obj36.specs.References.{reference_subject, reference_entry, reference_text};

use m36_outside::Text;
use m36_word::NoMemory;
use obj36_parts::link::Link;
use obj36_parts::names::{kind_has_entry, kind_has_name};
use obj36_parts::section::Section;

// The name of a section of the object itself, as the assembler reads it.
fn starred_section_name(section: Section) -> &'static str
    ensures text { result.now ≡ starred_section_name section }
    ensures len { length result.now ≤ name_limit }
{
    match section {
        Section::Text => "*text",
        Section::Linkage => "*link",
        Section::Symbol => "*symbol",
        Section::Static => "*static",
    }
}

/// The beginning of a link's reference: a segment, or a section of the object itself such as
/// `*text`. At most 32 bytes.
pub fn subject(link: &Link) -> &[u8]
    ensures text { result.now ≡ reference_subject link.now }
    ensures len { length result.now ≤ name_limit }
{
    if kind_has_name(link.kind as u64) {
        link.name.bytes()
    } else {
        starred_section_name(link.section).as_bytes()
    }
}

/// The entry of a link's reference; empty if it has none. At most 32 bytes.
pub fn entry(link: &Link) -> &[u8]
    ensures text { result.now ≡ reference_entry link.now }
    ensures len { length result.now ≤ name_limit }
{
    if kind_has_entry(link.kind as u64) {
        link.entry.bytes()
    } else {
        &[]
    }
}

/// Adds the reference of a link at the end of a text: `segment$entry`, `segment$`, `*section$` or
/// `*section$entry`. Fails only with `NoMemory`.
#[tactic(auto, unfolding(crate::specs::References::reference_text), using(crate::proofs::ReferenceText::joined))]
pub fn append_reference(text: &mut Text, link: &Link) -> Result<(), NoMemory>
    ensures { OnOk result (text.new ≡ text.old ++ reference_text link.now) }
{
    text.append(subject(link))?;
    text.append(b"$")?;
    text.append(entry(link))?;
    Ok(())
}
