//! The sums of expressions.

ghost use Rattle.std.specs.Prelude.{[], ◌∷◌, ◌≡◌, ◌-◌, ◌^◌, ◌≤◌, length, Option};
ghost use Rattle.alm_lines.specs.Sums.{IsTerm};
ghost use Rattle.alm_lines.specs.Expressions.{symbol_sum, atom_sum, term_sum, with_terms, sum_of};
ghost use Rattle.alm_lines.specs.Expressions.{is_defined, is_undefined};
ghost use Rattle.alm_lines.specs.Expressions.{first_undefined_place, expression_place};

use crate::arguments::name_at;
use crate::spot::LocationCounter;
use crate::sum::{Sum, absolute};
use crate::symbols::Symbols;
use alm_parse::{Atom, Span, Term};

/// The sum of a symbol; 0 if it is not defined.
#[tactic(auto, unfolding(crate::specs::Expressions::symbol_sum))]
pub fn symbol_sum(text: &[u8], symbols: &Symbols, span: Span) -> Sum
    ensures value { result ≡ symbol_sum text.now symbols.now span }
    ensures small { IsTerm result }
{
    match symbols.find(&name_at(text, span)) {
        Some(sum) => sum,
        None => absolute(0),
    }
}

// The sum of a term without its sign. A symbol that is not defined counts as 0.
fn atom_sum(text: &[u8], symbols: &Symbols, spot: LocationCounter, span: Span, atom: Atom) -> Sum
    ensures value { result ≡ atom_sum text.now symbols.now spot span atom }
    ensures small { IsTerm result }
{
    match atom {
        Atom::Number(n) => absolute(n as u64),
        Atom::Symbol => symbol_sum(text, symbols, span),
        Atom::Here => spot.here(),
    }
}

// The sum of a term. A symbol that is not defined counts as 0.
#[tactic(auto, unfolding(crate::specs::Expressions::term_sum))]
fn term_sum(text: &[u8], symbols: &Symbols, spot: LocationCounter, term: Term) -> Sum
    ensures value { result ≡ term_sum text.now symbols.now spot term }
    ensures small { IsTerm result }
{
    let sum = atom_sum(text, symbols, spot, term.span, term.what);
    if term.minus { sum.negated() } else { sum }
}

/// The sum of an expression. A symbol that is not defined counts as 0.
#[tactic(auto, using(crate::proofs::SumLaws::sums), unfolding(crate::specs::Expressions::with_terms))]
pub fn sum_of(text: &[u8], symbols: &Symbols, spot: LocationCounter, terms: &[Term]) -> Sum
    requires { length terms.now ≤ 2 ^ 32 }
    ensures { result ≡ sum_of text.now symbols.now spot terms.now }
{
    let mut sum = absolute(0);
    let mut rest = terms;
    while let [term, more @ ..] = rest {
        sum = sum.plus(term_sum(text, symbols, spot, *term));
        rest = more;
    }
    sum
}

/// Whether a symbol is defined.
#[tactic(auto, unfolding(crate::specs::Expressions::is_defined))]
pub fn is_defined(text: &[u8], symbols: &Symbols, span: Span) -> bool
    ensures { result ≡ is_defined text.now symbols.now span }
{
    symbols.find(&name_at(text, span)).is_some()
}

// Whether a term is a symbol that is not defined.
#[tactic(auto, unfolding(crate::specs::Expressions::is_undefined))]
fn is_undefined(text: &[u8], symbols: &Symbols, term: &Term) -> bool
    ensures { result ≡ is_undefined text.now symbols.now term.now }
{
    match term.what {
        Atom::Symbol => !is_defined(text, symbols, term.span),
        Atom::Number(_) | Atom::Here => false,
    }
}

/// The index in the text of the first symbol that is not defined.
#[tactic(auto, unfolding(crate::specs::Expressions::first_undefined_place))]
pub fn first_undefined_place(text: &[u8], symbols: &Symbols, terms: &[Term]) -> Option<u32>
    ensures { result ≡ first_undefined_place text.now symbols.now terms.now }
{
    match terms.iter().find(|term| is_undefined(text, symbols, *term)) {
        Some(term) => Some(term.span.from),
        None => None,
    }
}

/// The index in the text where an expression begins: before its first term if this is negated,
/// since the minus is before it; 0 if there is no term.
pub fn expression_place(terms: &[Term]) -> u32
    ensures { result ≡ expression_place terms.now }
{
    match terms {
        [term, ..] => {
            if term.minus {
                term.span.from.saturating_sub(1)
            } else {
                term.span.from
            }
        }
        [] => 0,
    }
}
