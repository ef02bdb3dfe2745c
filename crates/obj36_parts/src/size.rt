//! The number of words that names take, each counted once.

ghost use Rattle.std.specs.Prelude.{◌++◌, ◌≡◌, ◌+◌, ◌*◌, ◌^◌, ◌<◌, ◌≤◌, length};
ghost use Rattle.obj36_parts.specs.ObjectSegment.{definition_names, all_link_names};
ghost use Rattle.obj36_parts.specs.Sizes.{distinct_names_size, total_names_size};
ghost use Rattle.obj36_parts.specs.Sizes.{undefined_name_size, undefined_names_size};

use crate::definition::Defs;
use crate::link::Links;
use crate::names::size_of_name;
use m36_text::Name;

// The number of words of a name; 0 if a definition has this name.
#[tactic(auto, unfolding(crate::specs::Sizes::undefined_name_size))]
fn size_of_undefined_name(definitions: &Defs, name: &Name) -> u64
    ensures value { result ≡ undefined_name_size definitions.now name.now }
    ensures bound { result ≤ 9 }
{
    if definitions.has(name) {
        0
    } else {
        size_of_name(name)
    }
}

// The number of words of those names that no definition has.
#[tactic(auto, unfolding(crate::specs::Sizes::undefined_names_size))]
fn size_of_undefined_names(definitions: &Defs, names: &[Name]) -> u64
    requires { length names.now < 2 ^ 40 }
    ensures value { result ≡ undefined_names_size definitions.now names.now }
    ensures bound { result ≤ 9 * length names.now }
{
    let mut total = 0;
    let mut rest = names;
    while let [name, others @ ..] = rest {
        total += size_of_undefined_name(definitions, name);
        rest = others;
    }
    total
}

// The number of words of all these names.
#[tactic(auto, unfolding(crate::specs::Sizes::total_names_size))]
fn size_of_all_names(names: &[Name]) -> u64
    requires { length names.now < 2 ^ 40 }
    ensures value { result ≡ total_names_size names.now }
    ensures bound { result ≤ 9 * length names.now }
{
    let mut total = 0;
    let mut rest = names;
    while let [name, others @ ..] = rest {
        total += size_of_name(name);
        rest = others;
    }
    total
}

// The number of words of the names of definitions and links, each counted once.
#[tactic(auto, using(crate::proofs::NameTables::few_alone, crate::proofs::NameTables::few_linked, crate::proofs::SizeLaws::length_told))]
pub(crate) fn size_of_distinct_names(definitions: &Defs, links: &Links) -> u64
    requires definitions { length definitions.now < 2 ^ 32 }
    requires links { length links.now < 2 ^ 32 }
    ensures value { result
        ≡ distinct_names_size (definition_names definitions.now ++ all_link_names links.now) }
    ensures bound { result < 2 ^ 40 }
{
    let own = size_of_all_names(definitions.names());
    let others = size_of_undefined_names(definitions, links.names());
    own + others
}
