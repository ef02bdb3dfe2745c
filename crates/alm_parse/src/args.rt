//! The arguments of an operation.

ghost use Rattle.std.specs.Prelude.{List, [], ◌∷◌, ◌++◌, ◌≡◌, OnOk, OnErr, IfOk};

use alm_tokens::expression::Expr;
use alm_tokens::span::Span;
use m36_word::{NoMemory, Word, Words};
use std::alloc::Global;
use std::marker::Model;

/// An argument of an operation.
#[derive(Drop)]
pub enum Arg {
    /// A symbol: the text of the span.
    Symbol(Span),
    /// A number, as its word.
    Number(Word),
    /// Characters, four in each word, with zeros after the last one.
    Chars(Words),
    /// An expression.
    Plain(Expr),
    /// The operand of an instruction: an expression, which may be relative to the pointer register
    /// `pr` (0 to 7), or to the segment `seg` and optionally its entry `entry`. The tag of the
    /// modifier has 6 bits.
    Operand {
        pr: Option<u8>,
        seg: Option<Span>,
        entry: Option<Span>,
        expr: Expr,
        tag: u8,
    },
}

/// A list of arguments that grows at its end.
#[derive(Drop)]
pub struct Args {
    items: Vec<Arg>,
}

impl Model for Args {
    ghost use Rattle.std.specs.Prelude.{List};
    ghost use Rattle.alm_parse.specs.declared.args.Arg.{Arg};

    ghost Value = { List Arg };

    ghost view = { λ a. a.items.items };
}

impl Args {
    /// An empty list.
    pub fn new(alloc: Global) -> Args
        ensures { result ≡ [] }
    {
        Args {
            items: Vec::new(alloc),
        }
    }

    // An empty list with room for exactly `count` arguments.
    fn with_room(alloc: Global, count: usize) -> Result<Args, NoMemory>
        ensures { IfOk result (λ args. args ≡ []) }
    {
        Ok(Args {
            items: Vec::with_capacity(alloc, count)?,
        })
    }

    /// Adds an argument at the end. If memory runs out, nothing changes.
    pub fn push(&mut self, x: Arg) -> Result<(), NoMemory>
        ensures ok { OnOk result (self.new ≡ self.old ++ x ∷ []) }
        ensures err { OnErr result (self.new ≡ self.old) }
    {
        self.items.push(x)?;
        Ok(())
    }

    /// The arguments in order.
    pub fn items(&self) -> &[Arg]
        ensures { result.now ≡ self.now }
    {
        self.items.as_slice()
    }
}

// The list with one more argument.
fn args_with_one_more(mut args: Args, arg: Arg) -> Result<Args, NoMemory>
    ensures { IfOk result (λ more. more ≡ args ++ arg ∷ []) }
{
    match args.push(arg) {
        Ok(()) => Ok(args),
        Err(fault) => {
            // Dropped explicitly, so that the drop is proved once for its type. Likewise below.
            drop(args);
            Err(fault)
        }
    }
}

// A list of one argument, with memory for exactly `room` arguments.
fn args_with_first(alloc: Global, room: usize, arg: Arg) -> Result<Args, NoMemory>
    ensures { IfOk result (λ args. args ≡ arg ∷ []) }
{
    match Args::with_room(alloc, room) {
        Ok(args) => args_with_one_more(args, arg),
        Err(fault) => {
            drop(arg);
            Err(fault)
        }
    }
}

/// A list of one argument. Fails only with `NoMemory`.
pub fn one_arg(alloc: Global, arg: Arg) -> Result<Args, NoMemory>
    ensures { IfOk result (λ args. args ≡ arg ∷ []) }
{
    args_with_first(alloc, 1, arg)
}

/// A list of two arguments. Fails only with `NoMemory`.
pub fn two_args(alloc: Global, first: Arg, second: Arg) -> Result<Args, NoMemory>
    ensures { IfOk result (λ args. args ≡ first ∷ second ∷ []) }
{
    match args_with_first(alloc, 2, first) {
        Ok(args) => args_with_one_more(args, second),
        Err(fault) => {
            drop(second);
            Err(fault)
        }
    }
}
