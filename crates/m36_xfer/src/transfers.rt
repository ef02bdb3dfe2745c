//! Transfers of control.

ghost use Rattle.std.specs.Prelude.{ℕ, ◌≡◌, ◌+◌, ◌%◌, ◌<◌, ◌^◌, [], false, Ok, IsTrue};
ghost use Rattle.m36_inst.specs.Operands.{operand_of};
ghost use Rattle.m36_inst.specs.declared.operand.Operand.TheVariants.{T};
ghost use Rattle.m36_model.specs.Effect.{exec};
ghost use Rattle.m36_model.specs.Results.{OperandFields, effect_fields, yields_registers};
ghost use Rattle.m36_model.specs.Transfers.{is_taken, registers_after_transfer, transfer_to};
ghost use Rattle.m36_model.specs.Transfers.{transfer_if};
ghost use Rattle.m36_model.specs.Transfers.{transfer_on_overflow, transfer_and_set_index};
ghost use Rattle.m36_model.specs.Transfers.{transfer_and_set_pointer, without_overflow};
ghost use Rattle.m36_model.specs.Results.{next_word};
ghost use Rattle.m36_xfer.specs.ControlInstructions.{is_transfer};

use m36_desc::Ptr;
use m36_inst::Effect;
use m36_model::{Effect36, Final, Held, Regs};

/// Whether a transfer is taken, by the indicators. It is true for every instruction that is not a
/// conditional transfer.
#[tactic(auto, unfolding(m36_model::specs::Transfers::is_taken))]
#[inline(always)]
pub fn is_taken(effect: Effect, regs: &Regs) -> bool
    ensures { result ≡ is_taken effect regs.now }
{
    let ind = regs.ind;
    match effect {
        Effect::Tze => ind.zero,
        Effect::Tnz => !ind.zero,
        Effect::Tmi => ind.negative,
        Effect::Tpl => !ind.negative,
        Effect::Trc => ind.carry,
        Effect::Tnc => !ind.carry,
        Effect::Tmoz => ind.negative || ind.zero,
        Effect::Tpnz => !ind.negative && !ind.zero,
        Effect::Tov => ind.overflow,
        Effect::Ttf => !ind.tally,
        _ => true,
    }
}

/// Whether an instruction is TRA or a conditional transfer other than TOV. These change only the
/// address of the next instruction.
#[inline(always)]
pub fn is_transfer(effect: Effect) -> bool
    ensures { result ≡ is_transfer effect }
{
    matches!(
        effect,
        Effect::Tra
            | Effect::Tze
            | Effect::Tnz
            | Effect::Tmi
            | Effect::Tpl
            | Effect::Trc
            | Effect::Tnc
            | Effect::Tmoz
            | Effect::Tpnz
            | Effect::Ttf
    )
}

/// Transfers to the final address, or continues with the next instruction.
#[tactic(auto, unfolding(m36_model::specs::Transfers::transfer_if, m36_model::specs::Transfers::registers_after_transfer, m36_model::specs::Results::advanced))]
#[inline(always)]
fn transfer_or_continue(taken: bool, regs: &mut Regs, f: &Final)
    ensures value { transfer_if taken f.now regs.old ≡ yields_registers regs.new }
    ensures dbr { regs.new.dbr ≡ regs.old.dbr }
{
    if taken {
        let at = f.at;
        regs.ppr.psr = at.seg;
        regs.ppr.ic = at.word;
    } else {
        regs.ppr.ic = next_word(regs);
    }
}

/// Executes TRA or a conditional transfer other than TOV. `taken` says whether the transfer is
/// taken. No words are written.
#[tactic(auto, unfolding(m36_model::specs::Effect::exec))]
#[inline(always)]
pub fn transfer(effect: Effect, taken: bool, regs: &mut Regs, f: &Final)
    requires transfer { IsTrue (is_transfer effect) }
    requires taken { taken ≡ is_taken effect regs.old }
    ensures value { (n : ℕ) (o : OperandFields)
        → exec effect n regs.old f.now o ≡ yields_registers regs.new }
    ensures kind { operand_of effect ≡ T }
    ensures dbr { regs.new.dbr ≡ regs.old.dbr }
{
    match effect {
        Effect::Tra
        | Effect::Tze
        | Effect::Tnz
        | Effect::Tmi
        | Effect::Tpl
        | Effect::Trc
        | Effect::Tnc
        | Effect::Tmoz
        | Effect::Tpnz
        | Effect::Ttf => transfer_or_continue(taken, regs, f),
        _ => unreachable!(),
    }
}

/// The effect of TRA or of a conditional transfer other than TOV. If the transfer is not taken, the
/// next instruction follows.
#[tactic(auto, unfolding(m36_model::specs::Transfers::transfer_if))]
pub fn transfer_if(taken: bool, regs: &Regs, f: &Final) -> Effect36
    ensures { Ok (effect_fields result) ≡ transfer_if taken f.now regs.now }
{
    if taken {
        transfer_to(regs, f)
    } else {
        Effect36::completed(*regs)
    }
}

/// The effect of TOV, which clears overflow if it is taken. If not, the next instruction follows.
#[tactic(auto, unfolding(m36_model::specs::Transfers::transfer_on_overflow))]
pub fn transfer_on_overflow(taken: bool, regs: &Regs, f: &Final) -> Effect36
    ensures { Ok (effect_fields result) ≡ transfer_on_overflow taken f.now regs.now }
{
    if taken {
        transfer_to(&without_overflow(regs), f)
    } else {
        Effect36::completed(*regs)
    }
}

/// TSX: loads the word number of the next instruction into index register `n`, and transfers.
#[tactic(auto, unfolding(m36_model::specs::Transfers::transfer_and_set_index))]
pub fn transfer_and_set_index(regs: &Regs, n: u8, f: &Final) -> Effect36
    requires { n < 8 }
    ensures { Ok (effect_fields result) ≡ transfer_and_set_index n f.now regs.now }
{
    transfer_to(&regs.with_index(n, next_word(regs)), f)
}

/// TSP: loads a pointer to the next instruction into pointer register `n`, and transfers.
#[tactic(auto, unfolding(m36_model::specs::Transfers::transfer_and_set_pointer))]
pub fn transfer_and_set_pointer(regs: &Regs, n: u8, f: &Final) -> Effect36
    requires { n < 8 }
    ensures { Ok (effect_fields result) ≡ transfer_and_set_pointer n f.now regs.now }
{
    let ppr = regs.ppr;
    let next = Ptr {
        word: next_word(regs),
        seg: ppr.psr,
        ring: ppr.prr,
        bit: 0,
    };
    transfer_to(&regs.with_pointer(n, next), f)
}

/// The effect of a transfer to the final address; the other registers are `regs`.
#[tactic(auto, unfolding(m36_model::specs::Transfers::registers_after_transfer))]
fn transfer_to(regs: &Regs, f: &Final) -> Effect36
    ensures { Ok (effect_fields result) ≡ transfer_to f.now regs.now }
{
    let at = f.at;
    let mut after = *regs;
    after.ppr.psr = at.seg;
    after.ppr.ic = at.word;
    Effect36 {
        regs: after,
        put: Held::Empty,
        overflow: false,
    }
}

// The word number of the next instruction, modulo 2^18.
fn next_word(regs: &Regs) -> u32
    ensures value { result ≡ next_word regs.now }
    ensures bound { result < 2 ^ 18 }
{
    (regs.ppr.ic + 1) % (1 << 18)
}

// The registers with overflow off.
fn without_overflow(regs: &Regs) -> Regs
    ensures { result ≡ without_overflow regs.now }
{
    let mut after = *regs;
    after.ind.overflow = false;
    after
}
