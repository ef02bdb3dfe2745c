//! Theorems about all instructions, stated as the contracts of functions with empty bodies.

ghost use Rattle.m36_inst.specs.Instruction.{InstRoundTrip, WordRoundTrip};
ghost use Rattle.m36_inst.specs.Lookup.{OneToOne, RowsHaveNames, RowsFit};

/// An instruction whose fields are within their widths is written to a word and read back
/// unchanged. A word is read as an instruction and written back unchanged.
#[tactic(auto, using(crate::proofs::Instructions::comes_back))]
pub fn instruction_laws()
    ensures inst { InstRoundTrip }
    ensures word { WordRoundTrip }
{}

/// Names and operation codes with bit 27 correspond one to one over the whole table. A code has a
/// row exactly if it has a name. Every code with a row is below 512, and the rest of a row depends
/// only on its effect and its register.
#[tactic(auto, using(crate::proofs::OneToOne::laws))]
pub fn table_laws()
    ensures names { OneToOne }
    ensures rows { RowsHaveNames }
    ensures fit { RowsFit }
{}
