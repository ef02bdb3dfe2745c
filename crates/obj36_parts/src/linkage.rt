//! The words of a linkage section.

ghost use Rattle.std.specs.Prelude.{[], ◌∷◌, ◌++◌, ◌≡◌, ◌+◌, ◌-◌, ◌*◌, ◌^◌, ◌<◌, ◌≤◌};
ghost use Rattle.std.specs.Prelude.{length, OnOk};
ghost use Rattle.obj36_parts.specs.Halves.{word_with_halves};
ghost use Rattle.obj36_parts.specs.ObjectSegment.{link_words, linkage_part};

use crate::halves::word_of_halves;
use crate::link::Link;
use crate::sections::{HEAD_WORDS, LINK_TAG, push_all, push_pair};
use m36_word::{NoMemory, Word, Words};

// Adds links. The first one is at the offset `first` of the linkage section, and its expression at
// the offset `expressions` of the definition section.
fn push_links(out: &mut Words, links: &[Link], first: u64, expressions: u64) -> Result<(), NoMemory>
    requires first { first ≤ 2 ^ 40 }
    requires expressions { expressions ≤ 2 ^ 40 }
    requires short { length links.now < 2 ^ 32 }
    ensures { OnOk result (out.new ≡ out.old ++ link_words links.now first expressions) }
{
    let mut at = first;
    let mut expression = expressions;
    for link in links {
        let offset = (1u64 << 18).saturating_sub(at);
        push_pair(
            out,
            word_of_halves(offset, LINK_TAG),
            word_of_halves(expression, link.modifier as u64),
        )?;
        at += 2;
        expression += 2;
    }
    Ok(())
}

// Adds the head of the section. The first of `count` links is at the offset `first`.
fn push_linkage_header(out: &mut Words, first: u64, count: u64) -> Result<(), NoMemory>
    ensures { OnOk result
        (out.new ≡ out.old ++ 0 ∷ word_with_halves first count ∷ 0 ∷ 0 ∷ 0 ∷ 0 ∷ 0 ∷ 0 ∷ []) }
{
    let zero = Word::ZERO;
    let head = word_of_halves(first, count);
    push_all(out, &[zero, head, zero, zero, zero, zero, zero, zero])
}

// Adds the linkage section of these static words and links. Their expressions begin at the offset
// `expressions` of the definition section.
#[tactic(auto, unfolding(crate::specs::ObjectSegment::linkage_part))]
pub(crate) fn push_linkage(
    out: &mut Words,
    statics: &[Word],
    links: &[Link],
    expressions: u64,
) -> Result<(), NoMemory>
    requires statics { length statics.now < 2 ^ 32 }
    requires links { length links.now < 2 ^ 32 }
    requires expressions { expressions ≤ 2 ^ 40 }
    ensures { OnOk result (out.new ≡ out.old ++ linkage_part statics.now links.now expressions) }
{
    let first = HEAD_WORDS + statics.len() as u64;
    push_linkage_header(out, first, links.len() as u64)?;
    push_all(out, statics)?;
    push_links(out, links, first, expressions)
}
