//! A law about all draws.

ghost use Rattle.m36_gen.specs.Folder.{DataHoldsAll};

/// A program stores words at its offset plus 1 up to its offset plus its count. All of them are
/// within the data segment, whatever the seed draws.
pub fn data_law()
    ensures { DataHoldsAll }
{}
