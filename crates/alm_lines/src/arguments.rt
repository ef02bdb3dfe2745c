//! The arguments of operations.

ghost use Rattle.std.specs.Prelude.{[], ◌∷◌, ◌++◌, ◌≡◌, ◌≤◌, ◌^◌, take, length, Option};
ghost use Rattle.std.specs.Prelude.{OnOk, IfOk};
ghost use Rattle.alm_lines.specs.Arguments.{name_at, first_arg, second_arg, symbol_in, terms_in};
ghost use Rattle.alm_lines.specs.Arguments.{number_in, words_of_arg, words_of_args, section_named};
ghost use Rattle.alm_lines.specs.Arguments.{section_in};

use alm_parse::span::bytes_of;
use alm_parse::{Arg, Span, Term, used_section};
use m36_text::{LONGEST_NAME, Name};
use m36_word::{NoMemory, Words};
use obj36_parts::Section;
use obj36_parts::sections::push_all;
use std::alloc::Global;

// The first `count` bytes; all if there are fewer.
fn front(bytes: &[u8], count: usize) -> &[u8]
    ensures value { result.now ≡ take count bytes.now }
    ensures fits { length result.now ≤ count }
{
    if count <= bytes.len() {
        &bytes[..count]
    } else {
        bytes
    }
}

/// The first 32 bytes of a span, as a name.
pub fn name_at(text: &[u8], span: Span) -> Name
    ensures { result ≡ name_at text.now span }
{
    match Name::new(front(bytes_of(text, span), LONGEST_NAME)) {
        Some(name) => name,
        None => unreachable!(),
    }
}

/// The symbol in the first argument, if it is one.
pub fn first_symbol(args: &[Arg]) -> Option<Span>
    ensures { result ≡ symbol_in (first_arg args.now) }
{
    match args {
        [Arg::Symbol(span), ..] => Some(*span),
        _ => None,
    }
}

/// The terms of the first argument; none if it is not an expression or the operand of an
/// instruction.
pub fn first_terms(args: &[Arg]) -> &[Term]
    ensures value { result.now ≡ terms_in (first_arg args.now) }
    ensures fits { length result.now ≤ 2 ^ 32 }
{
    match args {
        [Arg::Plain(expr), ..] => expr.items(),
        [Arg::Operand { expr, .. }, ..] => expr.items(),
        _ => &[],
    }
}

/// The terms of the second argument; none if it is not an expression or the operand of an
/// instruction.
pub fn second_terms(args: &[Arg]) -> &[Term]
    ensures value { result.now ≡ terms_in (second_arg args.now) }
    ensures fits { length result.now ≤ 2 ^ 32 }
{
    match args {
        [_, rest @ ..] => first_terms(rest),
        [] => &[],
    }
}

/// The number in the second argument; 0 if it is not a number.
pub fn second_number(args: &[Arg]) -> u64
    ensures { result ≡ number_in (second_arg args.now) }
{
    match args {
        [_, Arg::Number(word), ..] => word.value(),
        _ => 0,
    }
}

// Adds the words of an argument of `dec`, `oct` or `aci`.
fn push_arg(words: &mut Words, arg: &Arg) -> Result<(), NoMemory>
    ensures { OnOk result (words.new ≡ words.old ++ words_of_arg arg.now) }
{
    match arg {
        Arg::Number(word) => words.push(*word),
        Arg::Chars(chars) => push_all(words, chars.slice()),
        _ => Ok(()),
    }
}

/// The words of the arguments of `dec`, `oct` and `aci`. Fails only with `NoMemory`.
#[tactic(auto, unfolding(crate::specs::Arguments::words_of_args))]
pub fn words_of_args(alloc: Global, args: &[Arg]) -> Result<Words, NoMemory>
    ensures { IfOk result (λ words. words ≡ words_of_args [] args.now) }
{
    let mut words = Words::new(alloc);
    let mut rest = args;
    while let [arg, more @ ..] = rest {
        push_arg(&mut words, arg)?;
        rest = more;
    }
    Ok(words)
}

// The section with this name after `use`; the text if there is none.
fn section_named(bytes: &[u8]) -> Section
    ensures { result ≡ section_named bytes.now }
{
    used_section(bytes).unwrap_or(Section::Text)
}

/// The section that a `use` line selects; the text if the name is that of no section.
pub fn section_in(text: &[u8], name: Option<Span>) -> Section
    ensures { result ≡ section_in text.now name }
{
    match name {
        Some(name) => section_named(bytes_of(text, name)),
        None => Section::Text,
    }
}
