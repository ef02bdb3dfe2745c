//! The symbols of a source in the order of their definitions.

ghost use Rattle.std.specs.Prelude.{ℕ, List, [], ◌∷◌, ◌≡◌, Option, OnOk, OnErr, IfSome};
ghost use Rattle.alm_lines.specs.Sums.{IsTerm};
ghost use Rattle.alm_lines.specs.Symbols.{sum_named, with_symbol};

use crate::sum::Sum;
use indexmap::IndexMap;
use m36_text::{HashSeed, Name};
use m36_word::NoMemory;
use std::alloc::Global;
use std::marker::Model;

/// Symbols with their sums, each part of which is less than 2^96. The model is the list of pairs.
#[derive(Drop)]
pub struct Symbols {
    sums: IndexMap<Name, Sum, HashSeed>,
}

impl Model for Symbols {
    ghost use Rattle.std.specs.Prelude.{ℕ, List};
    ghost use Rattle.std.specs.List.{All};
    ghost use Rattle.alm_lines.specs.Sums.{IsTerm};
    ghost use Rattle.alm_lines.specs.declared.sum.Sum.{Sum};

    ghost Value = { List (List ℕ × Sum) };

    ghost view = { λ s. s.sums.entries };

    ghost invariant = { λ s. All (λ symbol. IsTerm symbol.1) s.sums.entries };
}

impl Symbols {
    /// No symbols. Their names will be hashed with this seed.
    pub fn new(alloc: Global, seed: HashSeed) -> Symbols
        ensures { result ≡ [] }
    {
        Symbols {
            sums: IndexMap::with_hasher(alloc, seed),
        }
    }

    /// The seed of the hash table.
    pub fn seed(&self) -> HashSeed {
        *self.sums.hasher()
    }

    /// The sum of a symbol. None if it is not defined.
    #[tactic(auto, using(crate::proofs::SymbolLaws::found_small))]
    pub fn find(&self, name: &Name) -> Option<Sum>
        ensures value { result ≡ sum_named name.now self.now }
        ensures small { IfSome result IsTerm }
    {
        sum_in_table(&self.sums, name)
    }

    /// Defines a symbol, unless it is defined already. If memory runs out, nothing changes.
    #[tactic(auto, using(crate::proofs::SymbolLaws::defined))]
    pub fn define(&mut self, name: Name, sum: Sum) -> Result<(), NoMemory>
        requires { IsTerm sum }
        ensures ok { OnOk result (self.new ≡ with_symbol self.old name sum) }
        ensures err { OnErr result (self.new ≡ self.old) }
    {
        if sum_in_table(&self.sums, &name).is_some() {
            return Ok(());
        }
        self.sums.insert(name, sum)?;
        Ok(())
    }
}

// The sum of a symbol in the table.
#[tactic(auto, unfolding(crate::specs::Symbols::sum_named))]
fn sum_in_table(sums: &IndexMap<Name, Sum, HashSeed>, name: &Name) -> Option<Sum>
    ensures { result ≡ sum_named name.now sums.now.entries }
{
    sums.get(name).copied()
}
