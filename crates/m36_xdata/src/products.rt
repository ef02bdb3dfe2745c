//! Multiplication and division.

ghost use Rattle.std.specs.Prelude.{◌≡◌, ◌*◌, ◌^◌, ◌<◌, IsTrue, length, IfOk};
ghost use Rattle.m36_model.specs.OperandHeld.{is_word};
ghost use Rattle.m36_model.specs.Modification.{here};
ghost use Rattle.m36_model.specs.Results.{operand_fields, word};
ghost use Rattle.m36_model.specs.Products.{multiply, divide};
ghost use Rattle.m36_model.specs.Effect.{refused_here};
ghost use Rattle.m36_xdata.specs.Changes.{IsEffect, effect_or_fault, words_to_write};

use crate::changes::{Change, NewValues, WordsToWrite};
use crate::conditions::set_zero_negative;
use crate::operands::operand_word;
use crate::registers::{Register, indicators};
use crate::results::tested_register_change;
use m36_arith::{div, mul};
use m36_fastpath::quotient_register;
use m36_model::{At, Fault, Operand36, Regs};
use m36_word::Pair;

/// MPY: Q times the word, into AQ.
#[tactic(auto, unfolding(m36_model::specs::Products::multiply))]
pub fn multiply(given: &Operand36, regs: &Regs) -> Change
    requires { IsTrue (is_word given.now.got) }
    ensures value { IsEffect result regs.now (multiply (word (operand_fields given.now)) regs.now) }
    ensures put { length (words_to_write result.put) ≡ 0 }
{
    let product = mul(quotient_register(regs), operand_word(given));
    tested_register_change(Register::Aq, product.value(), regs)
}

// The address of the instruction, in the ring of execution.
fn here(regs: &Regs) -> At
    ensures { result ≡ here regs.now }
{
    let ppr = regs.ppr;
    At {
        word: ppr.ic,
        seg: ppr.psr,
        ring: ppr.prr,
    }
}

/// DIV: Q divided by the word, into Q, with the remainder in A.
///
/// # Errors
///
/// Fault 14, divide check, at the instruction: the word is 0, or the quotient does not fit.
#[tactic(auto, unfolding(m36_model::specs::Products::divide, m36_model::specs::Results::with_value))]
pub fn divide(given: &Operand36, regs: &Regs) -> Result<Change, Fault>
    requires { IsTrue (is_word given.now.got) }
    ensures value { effect_or_fault result regs.now
        ≡ refused_here regs.now (divide (word (operand_fields given.now)) regs.now) }
    ensures put { IfOk result (λ e. length (words_to_write e.put) ≡ 0) }
{
    match div(quotient_register(regs), operand_word(given)) {
        Ok((q, remainder)) => {
            let ind = set_zero_negative(Register::Q, q.value() as u128, indicators(regs));
            Ok(Change {
                taken: NewValues::Aq(Pair {
                    even: remainder,
                    odd: q,
                }),
                put: WordsToWrite::Nothing,
                ind,
                overflow: false,
            })
        }
        Err(_) => Err(Fault {
            at: here(regs),
            number: 14,
            acv: 0,
        }),
    }
}
