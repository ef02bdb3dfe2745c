//! Values of lines that are computed once and kept, since several passes need them.

ghost use Rattle.std.specs.Prelude.{List, true, [], ◌∷◌, ◌++◌, ◌≡◌, ◌^◌, ◌<◌, length, OnOk, OnErr};
ghost use Rattle.std.specs.Prelude.{IfOk};
ghost use Rattle.alm_lines.specs.Arguments.{first_arg, terms_in};
ghost use Rattle.alm_lines.specs.Spots.{start, next_line_spot};
ghost use Rattle.alm_lines.specs.Values.{value_of_expression};
ghost use Rattle.alm_asm.specs.Links.{operand_args, link_in, links_after, links_from, KeepsIndexes};
ghost use Rattle.alm_asm.specs.Assembles.{are_distinct_links};
ghost use Rattle.alm_asm.specs.LineValues.{index_in_links, with_values, values_from};

use crate::links::add_link_of_line;
use alm_lines::arguments::first_terms;
use alm_lines::spot::{LocationCounter, next_line_spot};
use alm_lines::symbols::Symbols;
use alm_lines::value::{Value, empty_expression_value, evaluate};
use alm_parse::{Arg, Line36};
use m36_word::NoMemory;
use obj36::Links;
use std::alloc::Global;
use std::marker::Model;

/// The values of a line that has arguments: that of its first argument, and the index of the link
/// of its operand, if it has one.
#[derive(Clone, Copy)]
pub struct LineValues {
    pub value: Value,
    pub place: Option<u64>,
}

/// A list of values that grows at its end.
#[derive(Drop)]
pub struct AllLineValues {
    items: Vec<LineValues>,
}

impl Model for AllLineValues {
    ghost use Rattle.std.specs.Prelude.{List};
    ghost use Rattle.alm_asm.specs.declared.seen.LineValues.{LineValues};

    ghost Value = { List LineValues };

    ghost view = { λ s. s.items.items };
}

impl AllLineValues {
    /// An empty list.
    pub fn new(alloc: Global) -> AllLineValues
        ensures { result ≡ [] }
    {
        AllLineValues {
            items: Vec::new(alloc),
        }
    }

    // An empty list with room for exactly `count` values.
    fn with_room(alloc: Global, count: usize) -> Result<AllLineValues, NoMemory>
        ensures { IfOk result (λ seen. seen ≡ []) }
    {
        Ok(AllLineValues {
            items: Vec::with_capacity(alloc, count)?,
        })
    }

    // Adds values at the end. If memory runs out, nothing changes.
    fn push(&mut self, x: LineValues) -> Result<(), NoMemory>
        ensures ok { OnOk result (self.new ≡ self.old ++ x ∷ []) }
        ensures err { OnErr result (self.new ≡ self.old) }
    {
        self.items.push(x)?;
        Ok(())
    }

    /// The values in order.
    pub fn items(&self) -> &[LineValues]
        ensures { result.now ≡ self.now }
    {
        self.items.as_slice()
    }
}

// Computes the values of a line, and adds its link.
#[tactic(auto, unfolding(crate::specs::Links::links_after))]
fn compute_line_values(
    text: &[u8],
    symbols: &Symbols,
    links: &mut Links,
    spot: LocationCounter,
    line: &Line36,
) -> Result<LineValues, NoMemory>
    ensures links { OnOk result
        (links.new ≡ links_after text.now symbols.now links.old spot line.now) }
    ensures value { IfOk result (λ seen.
        seen.value ≡ value_of_expression text.now symbols.now spot
        (terms_in (first_arg line.now.args))) }
    ensures place { IfOk result (λ seen.
        seen.place
        ≡ index_in_links links.new
        (link_in text.now symbols.now spot
        (first_arg (operand_args line.now.deed line.now.args)))) }
{
    let value = evaluate(text, symbols, spot, first_terms(line.args.items()));
    let place = add_link_of_line(text, symbols, links, spot, line, value)?;
    Ok(LineValues { value, place })
}

// Adds the values of a line with these arguments to the list, if there are any.
#[tactic(auto, unfolding(crate::specs::LineValues::with_values))]
fn push_line_values(all: &mut AllLineValues, args: &[Arg], seen: LineValues) -> Result<(), NoMemory>
    ensures { OnOk result (all.new ≡ with_values all.old args.now seen) }
{
    match args {
        [] => Ok(()),
        [_, ..] => all.push(seen),
    }
}

/// Computes the values of lines, and adds their links. Each link that is there keeps its index, and
/// no two links are the same if none were before. Fails only with `NoMemory`.
#[tactic(auto, using(alm_lines::proofs::Rooms::rooms), unfolding(crate::specs::Links::links_from))]
pub fn compute_values(
    alloc: Global,
    text: &[u8],
    symbols: &Symbols,
    links: &mut Links,
    lines: &[Line36],
) -> Result<AllLineValues, NoMemory>
    requires { length lines.now < 2 ^ 32 }
    ensures links { OnOk result
        (links.new ≡ links_from text.now symbols.now links.old start lines.now) }
    ensures kept { OnOk result (KeepsIndexes links.old links.new) }
    ensures apart { are_distinct_links links.old ≡ true
        → OnOk result (are_distinct_links links.new ≡ true) }
    ensures seen { IfOk result (λ seen.
        seen
        ≡ values_from text.now symbols.now
        (links_from text.now symbols.now links.old start lines.now) start lines.now) }
{
    let mut all = AllLineValues::with_room(alloc, lines.len())?;
    let mut spot = LocationCounter::start();
    let mut rest = lines;
    while let [line, more @ ..] = rest {
        let seen = compute_line_values(text, symbols, links, spot, line)?;
        push_line_values(&mut all, line.args.items(), seen)?;
        spot = next_line_spot(alloc, text, spot, line)?;
        rest = more;
    }
    Ok(all)
}

// The values of a line without arguments, which are not in the list, and the rest of the list.
#[tactic(auto, using(crate::proofs::SeenLaws::none_next), unfolding(crate::specs::LineValues::values_from))]
fn next_without_args<'a>(
    _text: &[u8],
    _symbols: &Symbols,
    _links: &Links,
    _spot: LocationCounter,
    _line: &Line36,
    _more: &[Line36],
    left: &'a [LineValues],
) -> (LineValues, &'a [LineValues])
    requires none { _line.now.args ≡ [] }
    requires left { left.now
        ≡ values_from _text.now _symbols.now _links.now _spot (_line.now ∷ _more.now) }
    ensures value { result.0.value
        ≡ value_of_expression _text.now _symbols.now _spot (terms_in (first_arg _line.now.args)) }
    ensures place { result.0.place
        ≡ index_in_links _links.now
        (link_in _text.now _symbols.now _spot
        (first_arg (operand_args _line.now.deed _line.now.args))) }
    ensures later { result.1.now
        ≡ values_from _text.now _symbols.now _links.now
        (next_line_spot _text.now _spot _line.now) _more.now }
{
    let nothing = LineValues {
        value: empty_expression_value(),
        place: None,
    };
    (nothing, left)
}

// The values of a line with arguments, which are the first of the list, and the rest of the list.
#[tactic(auto, using(crate::proofs::SeenLaws::some_with), unfolding(crate::specs::LineValues::values_from, crate::specs::LineValues::values_of_line))]
fn next_with_args<'a>(
    _text: &[u8],
    _symbols: &Symbols,
    _links: &Links,
    _spot: LocationCounter,
    _line: &Line36,
    _more: &[Line36],
    left: &'a [LineValues],
) -> (LineValues, &'a [LineValues])
    requires some { 0 < length _line.now.args }
    requires left { left.now
        ≡ values_from _text.now _symbols.now _links.now _spot (_line.now ∷ _more.now) }
    ensures value { result.0.value
        ≡ value_of_expression _text.now _symbols.now _spot (terms_in (first_arg _line.now.args)) }
    ensures place { result.0.place
        ≡ index_in_links _links.now
        (link_in _text.now _symbols.now _spot
        (first_arg (operand_args _line.now.deed _line.now.args))) }
    ensures later { result.1.now
        ≡ values_from _text.now _symbols.now _links.now
        (next_line_spot _text.now _spot _line.now) _more.now }
{
    match left {
        [seen, later @ ..] => (*seen, later),
        [] => unreachable!(),
    }
}

/// The values of a line, and the rest of the list, which has those of the lines below.
pub fn next_values<'a>(
    text: &[u8],
    symbols: &Symbols,
    links: &Links,
    spot: LocationCounter,
    line: &Line36,
    more: &[Line36],
    left: &'a [LineValues],
) -> (LineValues, &'a [LineValues])
    requires { left.now
        ≡ values_from text.now symbols.now links.now spot (line.now ∷ more.now) }
    ensures value { result.0.value
        ≡ value_of_expression text.now symbols.now spot (terms_in (first_arg line.now.args)) }
    ensures place { result.0.place
        ≡ index_in_links links.now
        (link_in text.now symbols.now spot
        (first_arg (operand_args line.now.deed line.now.args))) }
    ensures later { result.1.now
        ≡ values_from text.now symbols.now links.now
        (next_line_spot text.now spot line.now) more.now }
{
    if line.args.items().is_empty() {
        next_without_args(text, symbols, links, spot, line, more, left)
    } else {
        next_with_args(text, symbols, links, spot, line, more, left)
    }
}
