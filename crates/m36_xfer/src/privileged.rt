//! Privileged instructions.

ghost use Rattle.std.specs.Prelude.{◌≡◌, ◌<◌, ◌^◌, Ok, IsTrue};
ghost use Rattle.m36_model.specs.Effect.{is_absa};
ghost use Rattle.m36_model.specs.OperandHeld.{is_pair};
ghost use Rattle.m36_model.specs.Results.{effect_fields, operand_fields};
ghost use Rattle.m36_model.specs.Privileged.{load_dbr, store_dbr, load_absolute_address};

use m36_desc::Dbr;
use m36_inst::Effect;
use m36_model::{Effect36, Held, Operand36, Regs};
use m36_word::Word;

/// Whether an instruction needs the core address of its final address. Only ABSA does.
pub fn is_absa(effect: Effect) -> bool
    ensures { result ≡ is_absa effect }
{
    matches!(effect, Effect::Absa)
}

/// LDBR: loads the descriptor segment base register from a pair.
#[tactic(auto, unfolding(m36_model::specs::Privileged::load_dbr))]
pub fn load_dbr(regs: &Regs, operand: &Operand36) -> Effect36
    requires { IsTrue (is_pair operand.now.got) }
    ensures { Ok (effect_fields result) ≡ load_dbr (operand_fields operand.now) regs.now }
{
    let mut after = *regs;
    after.dbr = Dbr::of_words(operand.got.pair());
    Effect36::completed(after)
}

/// SDBR: stores the descriptor segment base register as a pair.
#[tactic(auto, unfolding(m36_model::specs::Privileged::store_dbr))]
pub fn store_dbr(regs: &Regs) -> Effect36
    ensures { Ok (effect_fields result) ≡ store_dbr regs.now }
{
    let dbr = regs.dbr;
    Effect36::completed_with(*regs, Held::Two(dbr.to_words()))
}

/// ABSA: loads a core address into the first 24 bits of A.
#[tactic(auto, unfolding(m36_model::specs::Privileged::load_absolute_address, m36_model::specs::Results::with_value, m36_model::specs::Results::set_zero_negative))]
pub fn load_absolute_address(regs: &Regs, operand: &Operand36) -> Effect36
    ensures { Ok (effect_fields result)
        ≡ load_absolute_address (operand_fields operand.now) regs.now }
{
    let place = operand.place;
    let mut after = *regs;
    after.a = Word::low((place as u64) << 12);
    after.ind.zero = place == 0;
    after.ind.negative = place >= 1 << 23;
    Effect36::completed(after)
}
