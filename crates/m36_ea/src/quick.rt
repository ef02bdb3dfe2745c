//! Forms addresses through one indirect word, or through one tally word, from pages in front.
//!
//! None: the address has another form, or a page is not in front. Core never changes.

ghost use Rattle.std.specs.Prelude.{◌≡◌, ◌+◌, ◌<◌, ◌^◌, [], ◌∷◌, ◌++◌, Ok, None, Some, List};
ghost use Rattle.std.specs.Prelude.{IfSome, length};
ghost use Rattle.m36_model.specs.declared.place.Kind.TheVariants as reference;
ghost use Rattle.m36_model.specs.declared.place.Reference.{Reference};
ghost use Rattle.m36_walk.specs.Served.{sdw_in};
ghost use Rattle.m36_ea.specs.Formed.{run_formation, formation_end, without_tally};
ghost use Rattle.m36_ea.specs.Points.{indirect_reference, ServesIndirect, ServesOdd, Follows};

use crate::indirect::{Format, format_of};
use crate::modification::{end_by_register, is_counting_tag, word_to_read};
use crate::tallies::tally;
use crate::temporary::{Tpr, initial_point};
use m36_inst::Inst;
use m36_model::{At, Final, Regs, Tally};
use m36_walk::Walk;
use m36_word::{Pair, Word};

/// An address that is formed through one indirect word or pair, and the reference to it.
#[derive(Clone, Copy)]
pub struct Through {
    pub last: Final,
    /// The address of the indirect word, or of the even word of the pair.
    pub at: At,
    /// The number of words: 1, or 2 for a pair.
    pub count: u8,
}

/// An address that counts a tally word, with that word's new value and its place in core.
#[derive(Clone, Copy)]
pub struct Counting {
    pub last: Final,
    pub tally: Tally,
    pub place: u32,
}

/// Reads the indirect word at word number `word` from a page in front. Returns it with the first
/// ring bracket of its segment.
#[inline(always)]
fn word_from_front(walk: &mut Walk, regs: &Regs, tpr: &Tpr, word: u32) -> Option<(Word, u8)>
    requires dbr { walk.old.dbr ≡ regs.now.dbr }
    requires word { word < 2 ^ 18 }
    ensures serves { IfSome result (λ r. ServesIndirect regs.now tpr.now word walk.old walk.old.core
        (Ok r.0)) }
    ensures ring { IfSome result (λ r. r.1 ≡ (sdw_in walk.old tpr.now.seg).r1) }
    ensures bound { IfSome result (λ r. r.1 < 2 ^ 3) }
    ensures same { walk.new ≡ walk.old }
{
    let (place, ring) = match walk.quick_indirect(tpr.at(word)) {
        Some(found) => found,
        None => return None,
    };
    let even = walk.peek(place);
    Some((even, ring))
}

/// Reads the odd word of the pair whose even word has word number `word`, from a page in front.
#[inline(always)]
fn odd_from_front(walk: &mut Walk, regs: &Regs, tpr: &Tpr, word: u32) -> Option<Word>
    requires dbr { walk.old.dbr ≡ regs.now.dbr }
    requires word { word + 1 < 2 ^ 18 }
    ensures serves { IfSome result (λ w. (refs : List Reference)
        → ServesOdd regs.now tpr.now word walk.old refs walk.old.core
        (refs ++ indirect_reference tpr.now word 2 ∷ []) (Ok w)) }
    ensures same { walk.new ≡ walk.old }
{
    let place = match walk.quick_odd(tpr.at(word + 1)) {
        Some(place) => place,
        None => return None,
    };
    let odd = walk.peek(place);
    Some(odd)
}

/// Reads the indirect word at word number `word`, or an ITS pair, and returns the next point and
/// the number of words that were read.
#[inline(always)]
fn follow_from_front(
    walk: &mut Walk,
    regs: &Regs,
    tpr: &Tpr,
    word: u32,
    held: Option<u32>,
) -> Option<(Tpr, u8)>
    requires dbr { walk.old.dbr ≡ regs.now.dbr }
    requires word { word < 2 ^ 18 }
    requires held { IfSome held (λ h. h < 2 ^ 18) }
    ensures follows { IfSome result (λ r. (refs : List Reference)
        → Follows regs.now tpr.now word held walk.old.core refs walk.old.core
        (refs ++ indirect_reference tpr.now word r.1 ∷ []) (Ok r.0)) }
    ensures same { walk.new ≡ walk.old }
{
    let (even, r1) = match word_from_front(walk, regs, tpr, word) {
        Some(found) => found,
        None => return None,
    };
    match format_of(word, even) {
        Format::Plain => {
            let next = tpr.after_plain(word, held, even, r1);
            Some((next, 1))
        }
        Format::Its => {
            let odd = match odd_from_front(walk, regs, tpr, word) {
                Some(odd) => odd,
                None => return None,
            };
            let next = tpr.after_its(word, held, Pair { even, odd }, r1);
            Some((next, 2))
        }
        Format::Itp => None,
    }
}

/// Forms an address that reads one indirect word or one ITS pair, and whose next tag is one of
/// register modification.
#[inline(always)]
pub fn quick_indirect_address(walk: &mut Walk, regs: &Regs, inst: &Inst) -> Option<Through>
    requires dbr { walk.old.dbr ≡ regs.now.dbr }
    ensures forms { IfSome result (λ t. (refs : List Reference)
        → run_formation regs.now inst.now walk.old.core refs
        ≡ formation_end walk.old.core
        (refs ++ record { kind = reference.Indirect; at = t.at; count = t.count } ∷ [])
        (Ok (without_tally t.last))) }
    ensures same { walk.new ≡ walk.old }
{
    let tpr = initial_point(regs, inst);
    let (word, held) = match word_to_read(regs, &tpr) {
        Some(read) => read,
        None => return None,
    };
    let (next, count) = match follow_from_front(walk, regs, &tpr, word, held) {
        Some(followed) => followed,
        None => return None,
    };
    let last = match end_by_register(regs, &next) {
        Some(last) => last,
        None => return None,
    };
    let at = tpr.at(word);
    Some(Through { last, at, count })
}

/// Forms an address that counts a tally word. The new value of that word is not written yet.
#[inline(always)]
pub fn quick_tally_address(walk: &mut Walk, regs: &Regs, inst: &Inst) -> Option<Counting>
    requires dbr { walk.old.dbr ≡ regs.now.dbr }
    ensures forms { IfSome result (λ t. (refs : List Reference)
        → run_formation regs.now inst.now walk.old.core refs
        ≡ formation_end walk.old.core
        ((refs ++ record { kind = reference.Indirect; at = t.tally.at; count = 1 } ∷ [])
        ++ record { kind = reference.Write; at = t.tally.at; count = 1 } ∷ [])
        (Ok (record { last = t.last; place = t.place; tally = Some t.tally }))) }
    ensures direct { IfSome result (λ t. t.last.direct ≡ None) }
    ensures inside { IfSome result (λ t. t.place < length walk.old.core) }
    ensures same { walk.new ≡ walk.old }
{
    let tpr = initial_point(regs, inst);
    if !is_counting_tag(regs, &tpr) {
        return None;
    }
    let y = tpr.y;
    let (word, _) = match word_from_front(walk, regs, &tpr, y) {
        Some(found) => found,
        None => return None,
    };
    let at = tpr.at(y);
    let place = match walk.quick_write(at) {
        Some(place) => place,
        None => return None,
    };
    let counted = tally(tpr.tag % 16, word);
    Some(Counting {
        last: tpr.end_at(counted.address),
        tally: Tally {
            word: counted.word,
            at,
            runout: counted.runs_out,
        },
        place,
    })
}
