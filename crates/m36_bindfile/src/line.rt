//! The lines of a bind file.

ghost use Rattle.std.specs.Prelude.{[], ◌∷◌, ◌++◌, ◌≡◌, OnOk, OnErr};

use m36_text::Name;
use m36_word::NoMemory;
use std::alloc::Global;
use std::marker::Model;

/// A parsed line of a bind file.
#[derive(Drop)]
pub enum BindLine {
    /// The bound object has version 2.
    Version,
    /// The object with this name is the next component.
    Object(Name),
    /// The bound object defines this name.
    Retain(Name),
}

/// A list of lines that grows at its end. Its model is the list.
#[derive(Drop)]
pub struct BindLines {
    items: Vec<BindLine>,
}

impl Model for BindLines {
    ghost use Rattle.std.specs.Prelude.{List};
    ghost use Rattle.m36_bindfile.specs.declared.line.BindLine.{BindLine};

    ghost Value = { List BindLine };

    ghost view = { λ l. l.items.items };
}

impl BindLines {
    /// No lines.
    pub fn new(alloc: Global) -> BindLines
        ensures { result ≡ [] }
    {
        BindLines {
            items: Vec::new(alloc),
        }
    }

    /// Adds a line at the end. If memory runs out, nothing changes.
    pub fn push(&mut self, x: BindLine) -> Result<(), NoMemory>
        ensures ok { OnOk result (self.new ≡ self.old ++ x ∷ []) }
        ensures err { OnErr result (self.new ≡ self.old) }
    {
        self.items.push(x)?;
        Ok(())
    }

    /// The lines in order.
    pub fn items(&self) -> &[BindLine]
        ensures { result.now ≡ self.now }
    {
        self.items.as_slice()
    }
}
