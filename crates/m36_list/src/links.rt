//! The links of an object, one line each.

ghost use Rattle.std.specs.Prelude.{[], ◌∷◌, ◌+◌, ◌*◌, ◌++◌, ◌≡◌, ◌^◌, ◌<◌, ◌≤◌, length, OnOk};
ghost use Rattle.obj36.specs.References.{reference_text};
ghost use Rattle.m36_list.specs.Print.{link_line, link_lines};
ghost use Rattle.obj36_parts.specs.ObjectSegment.{segment_limit};

use crate::fields::{put_field, put_last, put_number};
use m36_outside::Text;
use m36_text::octal;
use m36_word::NoMemory;
use obj36::{Link, append_reference};

/// Adds the reference of a link as a field that is not the last of its line.
#[tactic(auto, using(crate::proofs::LineFields::reference))]
fn put_reference(text: &mut Text, link: &Link) -> Result<(), NoMemory>
    ensures { OnOk result (text.new ≡ text.old ++ (reference_text link.now ++ 32 ∷ [])) }
{
    append_reference(text, link)?;
    text.push(b' ')
}

/// Adds the line of a link, which is at the offset `at` of the linkage section.
#[tactic(auto, unfolding(crate::specs::Print::link_line), using(crate::proofs::LineFields::lines))]
fn put_link(text: &mut Text, at: u64, link: &Link) -> Result<(), NoMemory>
    requires { at < 2 ^ 18 }
    ensures { OnOk result (text.new ≡ text.old ++ link_line at link.now) }
{
    put_field(text, b"link")?;
    put_number(text, at)?;
    put_reference(text, link)?;
    put_number(text, link.expr as u64)?;
    put_last(text, octal(link.modifier as u64, 2).as_str().as_bytes())
}

/// Adds the lines of all links. The first one is at the offset `first` of the linkage section.
pub fn put_links(text: &mut Text, first: u64, links: &[Link]) -> Result<(), NoMemory>
    requires { first + 2 * length links.now ≤ segment_limit }
    ensures { OnOk result (text.new ≡ text.old ++ link_lines first links.now) }
{
    for (i, link) in links.iter().enumerate() {
        put_link(text, first + 2 * i as u64, link)?;
    }
    Ok(())
}
