//! Runs an address chain to the address that it ends at.

ghost use Rattle.std.specs.Prelude.{◌≡◌, ◌+◌, ◌<◌, ◌≤◌, ◌^◌, Ok, IfOk, IfSome, IfNone, List};
ghost use Rattle.std.specs.Prelude.{length, option_map, ℕ};
ghost use Rattle.m36_model.specs.Chain.{lockup, pending_of, claimed_by};
ghost use Rattle.m36_model.specs.Step.{indirect_words};
ghost use Rattle.m36_model.specs.Store.{changes};
ghost use Rattle.m36_model.specs.declared.place.Reference.{Reference};
ghost use Rattle.m36_walk.specs.Words.{pending_changes};
ghost use Rattle.m36_ea.specs.Formed.{run_formation, formation_end, without_tally, HasTally};

use crate::indirect::{count_tally, follow, formed_without_tally};
use crate::modification::{Action, action_of, end_by_register, end_unmodified, fault};
use crate::temporary::{Tpr, initial_point};
use m36_inst::Inst;
use m36_model::{Final, Formed, Halt, Refs, Regs};
use m36_walk::{Pending, Walk};

/// The maximum number of indirect words of an address.
const INDIRECT_WORDS: u8 = 16;

/// The lockup fault, fault 7: an indirect word after the last one that an address may have.
fn lockup(tpr: &Tpr, word: u32) -> Halt
    requires { word < 2 ^ 18 }
    ensures { result ≡ lockup tpr.now word }
{
    Halt::Fault(fault(7, tpr.at(word)))
}

/// Forms the address of an instruction. `walk` has the descriptor segment of `regs`. The step has
/// completed at most 4 references before; at most 17 are added.
///
/// The result, core and the completed references are those of the address chain. After a fault or
/// a stop core is unchanged, except for marks. A tally word that was counted is not written yet:
/// the result has its new value and its place in core, and its Write is the last of the
/// references.
pub fn form_address(
    walk: &mut Walk,
    regs: &Regs,
    inst: &Inst,
    refs: &mut Refs,
) -> Result<Formed, Halt>
    requires dbr { walk.old.dbr ≡ regs.now.dbr }
    requires room { length refs.old.items ≤ 4 }
    ensures forms { run_formation regs.now inst.now walk.old.core refs.old.items
        ≡ formation_end walk.new.core refs.new.items result }
    ensures tally { IfOk result
        (λ f. HasTally f.tally f.place (length walk.new.core) refs.new.items) }
    ensures dbr { walk.new.dbr ≡ walk.old.dbr }
    ensures len { length walk.new.core ≡ length walk.old.core }
    ensures count { length refs.new.items ≤ length refs.old.items + (indirect_words + 1) }
{
    let mut tpr = initial_point(regs, inst);
    let mut left = INDIRECT_WORDS;
    loop {
        match action_of(regs, &tpr) {
            Action::Ends(last) => return Ok(formed_without_tally(last)),
            Action::Fails(halt) => return Err(halt),
            Action::Reads { word, held } => {
                if left == 0 {
                    return Err(lockup(&tpr, word));
                }
                match follow(walk, regs, &tpr, word, held, refs) {
                    Ok(next) => tpr = next,
                    Err(fault) => return Err(Halt::Fault(fault)),
                }
            }
            Action::Counts => {
                if left == 0 {
                    return Err(lockup(&tpr, tpr.y));
                }
                return match count_tally(walk, regs, &tpr, refs) {
                    Ok(formed) => Ok(formed),
                    Err(fault) => Err(Halt::Fault(fault)),
                };
            }
        }
        left -= 1;
    }
}

/// The address of an instruction whose tag is one of register modification. Such an address makes
/// no reference and cannot be refused. None: the tag is another one, and `form_address` has to form
/// the address.
#[inline(always)]
pub fn plain_address(regs: &Regs, inst: &Inst) -> Option<Final>
    ensures forms { IfSome result (λ last. (core : List ℕ) (refs : List Reference)
        → run_formation regs.now inst.now core refs
        ≡ formation_end core refs (Ok (without_tally last))) }
    ensures none { IfNone result (16 ≤ inst.now.tag) }
{
    let tpr = initial_point(regs, inst);
    if tpr.tag == 0 {
        return Some(end_unmodified(&tpr));
    }
    match end_by_register(regs, &tpr) {
        Some(last) => Some(last),
        None => None,
    }
}

/// The tally word of an address, for the references of the operand, which have to see its new
/// value.
#[tactic(auto, unfolding(m36_model::specs::Store::changes))]
pub fn pending_tally(formed: &Formed) -> Option<Pending>
    ensures value { result
        ≡ option_map (λ t. record { word = t.word; place = formed.now.place }) formed.now.tally }
    ensures changes { changes (claimed_by formed.now.tally formed.now.place)
        (pending_of formed.now.tally) ≡ pending_changes result }
{
    formed.tally.map(|tally| Pending {
        word: tally.word,
        place: formed.place,
    })
}
