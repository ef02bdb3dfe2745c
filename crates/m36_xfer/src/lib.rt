//! Control instructions of the Honeywell 6180: transfers, call and return, no operation, and
//! privileged instructions.
//!
//! - A transfer goes to the final address. A conditional one goes there only if the indicators say
//!   so ([`is_taken`]); otherwise it continues with the next instruction, and its target is not
//!   examined.
//! - TSX and TSP also save the address of the next instruction.
//! - CALL6 enters the ring that the access rules have determined, and sets PR7 to the base of a
//!   stack of that ring.
//! - RTCD returns to the pointer of a pair. The new ring is never lower than that of the pair, the
//!   first ring bracket of its segment, or the ring of the reference.
//! - LDBR and SDBR load and store the descriptor segment base register. ABSA loads an address in
//!   core into A. CAMS and CAMP have no visible effect.
//!
//! [`exec`] gives exactly the effect that the instruction's equations define. [`transfer`],
//! [`call_in_place`] (CALL6) and [`return_in_place`] (RTCD) execute the most frequent instructions
//! directly in the registers.
//!
//! Source: Multics Processor Manual AL39, "Transfer of control instructions", "Call (using PR6 and
//! PR7)", "Return control double", "No operation" and "Privileged instructions"; for calls and
//! returns, Schroeder and Saltzer (1972).
#![tactic(auto)]

mod calls;
mod execute;
mod privileged;
mod rings;
mod transfers;

pub use execute::exec;
pub use privileged::is_absa;
pub use rings::{call_in_place, return_in_place};
pub use transfers::{is_taken, is_transfer, transfer};
