//! The instructions of the Honeywell 6180.
//!
//! An instruction word has an address, an operation code of nine bits with bit 27 as its tenth, and
//! a tag. The table has for each operation code its mnemonic, what it does, and how its operand is
//! referenced.
//!
//! Instruction words and instructions correspond one to one. The row, name and code that the calls
//! return are those of the table, and None if the table has none. Names and codes correspond one to
//! one. How an operand is referenced, whether it may be direct and whether the instruction is
//! privileged depend only on its effect.
//!
//! Source: Multics Processor Manual AL39, "Machine instruction format", "Machine instructions" and
//! "Operation code map".
#![tactic(auto)]

pub mod codes;
pub mod effect;
pub mod inst;
pub mod laws;
pub mod lookup;
mod names;
pub mod operand;
pub mod rows;

pub use codes::quick::quick_row;
pub use effect::Effect;
pub use inst::Inst;
pub use laws::{instruction_laws, table_laws};
pub use lookup::{by_name, name_of, row};
pub use operand::Operand;
pub use rows::{Group, Quick, Row};
