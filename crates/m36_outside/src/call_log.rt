//! A log that only contracts can see.

ghost use Rattle.std.specs.Prelude.{List, [], ◌++◌, ◌≡◌};
ghost use Rattle.std.specs.Borrow.{ftrue};
ghost use base.Stored.{coded_list};

use std::marker::{Model, PhantomData};

/// The entries that a value adds to a log.
pub trait Entries<E> {
    ghost entries: { Self → List E };
}

/// A list that grows at its end and takes no memory: only clauses see its entries.
///
/// An object that passes things on to a system has such a log, and notes in it what passed.
/// Nothing checks a note against the system, so it is as true as the code that makes it: there are
/// few notes, each next to the call of the system that it records.
#[derive(Drop)]
pub struct Log<E> {
    marker: PhantomData<E>,
    pub ghost entries: { List E } by { coded_list E.code },
}

impl<E> Model for Log<E> {
    ghost also_owns = { λ _. ftrue };
}

impl<E> Log<E> {
    /// An empty log.
    pub fn new() -> Log<E>
        ensures { result.entries ≡ [] }
    {
        Log {
            marker: PhantomData,
        }
    }

    /// Appends the entries of a value.
    pub fn note<X: Entries<E>>(&mut self, _of: &X)
        ensures { self.new.entries ≡ self.old.entries ++ X.entries _of.now }
    {}
}
