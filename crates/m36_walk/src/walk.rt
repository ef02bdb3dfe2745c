//! The walk.

ghost use Rattle.std.specs.Prelude.{◌≡◌, IfOk};
ghost use Rattle.std.specs.Borrow.{sem};

use m36_associative::Memories;
use m36_core::Core;
use m36_desc::Dbr;
use m36_word::NoMemory;
use std::alloc::Global;
use std::marker::Model;

/// Core memory with the descriptor segment base register (DBR), through which its segments are
/// found. Contracts see these two. They do not see the memories of what was read of the tables: the
/// invariant says that everything kept is what the tables say.
#[derive(Drop)]
pub struct Walk {
    pub(crate) core: Core,
    pub(crate) dbr: Dbr,
    pub(crate) memories: Memories,
}

impl Model for Walk {
    ghost use Rattle.m36_associative.specs.Right.{AreCoherent};
    ghost use Rattle.m36_walk.specs.Memory.{Memory};

    ghost Value = { Memory };

    ghost view = { λ w. record { core = w.core; dbr = w.dbr } };

    ghost invariant = { λ w. AreCoherent w.core w.dbr w.memories };
}

impl Walk {
    ghost use Rattle.m36_walk.specs.Lending.{LendsCore};

    /// A walk over core, with empty memories.
    pub fn new(core: Core, dbr: Dbr) -> Walk
        ensures core { result.core ≡ core }
        ensures dbr { result.dbr ≡ dbr }
    {
        Walk {
            core,
            dbr,
            memories: Memories::new(),
        }
    }

    /// A second walk over a copy of core, by the same register. Fails only with `NoMemory`.
    pub fn copy(&self, alloc: Global) -> Result<Walk, NoMemory>
        ensures { IfOk result (λ walk. (walk.core ≡ self.now.core) × (walk.dbr ≡ self.now.dbr)) }
    {
        match self.core.copy(alloc) {
            Ok(core) => Ok(Walk::new(core, self.dbr)),
            Err(NoMemory) => Err(NoMemory),
        }
    }

    /// Core as it is now.
    pub fn core(&self) -> &Core
        ensures { result.now ≡ self.now.core }
    {
        &self.core
    }

    /// Core, for writing. Empties the associative memories first.
    pub fn core_mut(&mut self) -> &mut Core
        ensures* lends { sem 𝓛 (LendsCore self.entry result) }
        ensures value { result.now ≡ self.old.core }
    {
        self.memories.forget();
        &mut self.core
    }

    /// The descriptor segment base register.
    pub fn dbr(&self) -> Dbr
        ensures { result ≡ self.now.dbr }
    {
        self.dbr
    }

    /// Sets the descriptor segment base register, and empties the associative memories.
    pub fn set_dbr(&mut self, d: Dbr)
        ensures core { self.new.core ≡ self.old.core }
        ensures dbr { self.new.dbr ≡ d }
    {
        self.memories.forget(); // what was found by the register before
        self.dbr = d;
    }
}
