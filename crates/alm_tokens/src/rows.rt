//! Divides a text into lines.

ghost use Rattle.std.specs.Prelude.{List, [], ◌∷◌, ◌++◌, ◌≡◌, ◌^◌, ◌<◌, ◌≤◌, length, OnOk, OnErr};
ghost use Rattle.std.specs.Prelude.{IfOk};
ghost use Rattle.alm_tokens.specs.Rows.{rows_of};

use crate::span::Span;
use m36_word::NoMemory;
use std::alloc::Global;
use std::marker::Model;

/// A line without its line feed, and its number, counted from 1.
#[derive(Clone, Copy)]
pub struct Row {
    pub span: Span,
    pub number: u32,
}

/// A list of lines that grows at its end.
#[derive(Drop)]
pub struct Rows {
    items: Vec<Row>,
}

impl Model for Rows {
    ghost use Rattle.std.specs.Prelude.{List};
    ghost use Rattle.alm_tokens.specs.declared.rows.Row.{Row};

    ghost Value = { List Row };

    ghost view = { λ r. r.items.items };
}

impl Rows {
    /// An empty list.
    pub fn new(alloc: Global) -> Rows
        ensures { result ≡ [] }
    {
        Rows {
            items: Vec::new(alloc),
        }
    }

    /// Adds a line at the end. If memory runs out, nothing changes.
    pub fn push(&mut self, x: Row) -> Result<(), NoMemory>
        ensures ok { OnOk result (self.new ≡ self.old ++ x ∷ []) }
        ensures err { OnErr result (self.new ≡ self.old) }
    {
        self.items.push(x)?;
        Ok(())
    }

    /// The lines in order.
    pub fn items(&self) -> &[Row]
        ensures { result.now ≡ self.now }
    {
        self.items.as_slice()
    }
}

/// The lines of a text. The last one may lack its line feed. Fails only with `NoMemory`.
#[tactic(auto, using(crate::proofs::RowLaws::row_steps), unfolding(crate::specs::Rows::rows_of))]
pub fn rows_of(alloc: Global, text: &[u8]) -> Result<Rows, NoMemory>
    requires { length text.now < 2 ^ 32 }
    ensures value { IfOk result (λ rows. rows ≡ rows_of text.now) }
    ensures count { IfOk result (λ rows. length rows ≤ length text.now) }
{
    let mut rows = Rows::new(alloc);
    let mut number = 1usize;
    let mut from = 0usize;
    let mut at = 0usize;
    for byte in text {
        if *byte == b'\n' {
            rows.push(Row {
                span: Span {
                    from: from as u32,
                    to: at as u32,
                },
                number: number as u32,
            })?;
            number += 1;
            from = at + 1;
        }
        at += 1;
    }
    if from == at {
        return Ok(rows);
    }
    rows.push(Row {
        span: Span {
            from: from as u32,
            to: at as u32,
        },
        number: number as u32,
    })?;
    Ok(rows)
}
