//! The operands and results of effects.

ghost use Rattle.std.specs.Prelude.{◌≡◌, ◌<◌, ◌^◌, [], ◌∷◌, Ok, IsTrue};

use crate::outcome::Final;
use crate::place::At;
use crate::registers::Regs;
use m36_word::{Pair, Word};

/// The words of an operand or of a result: none, one word, a pair, or a block of 16 words.
#[derive(Clone, Copy, PartialEq, Eq)]
pub enum Held {
    Empty,
    One(Word),
    Two(Pair),
    Block([Pair; 8]),
}

impl Held {
    ghost use Rattle.m36_word.specs.Pairs.{pair_words};
    ghost use Rattle.m36_model.specs.Results.{words_of_held, words_of_pairs};
    ghost use Rattle.m36_model.specs.OperandHeld.{is_word, is_pair, is_block};

    /// The word. It has to be one word.
    pub fn word(&self) -> Word
        requires { IsTrue (is_word self.now) }
        ensures { words_of_held self.now ≡ result ∷ [] }
    {
        match self {
            Held::One(word) => *word,
            _ => unreachable!(),
        }
    }

    /// The pair. It has to be a pair.
    pub fn pair(&self) -> Pair
        requires { IsTrue (is_pair self.now) }
        ensures { words_of_held self.now ≡ pair_words result }
    {
        match self {
            Held::Two(pair) => *pair,
            _ => unreachable!(),
        }
    }

    /// The block of 16 words. It has to be a block.
    pub fn block(&self) -> &[Pair; 8]
        requires { IsTrue (is_block self.now) }
        ensures { words_of_held self.now ≡ words_of_pairs result.now }
    {
        match self {
            Held::Block(block) => block,
            _ => unreachable!(),
        }
    }
}

/// The operand of an effect.
#[derive(Clone, Copy, PartialEq, Eq)]
pub struct Operand36 {
    /// The words that were read.
    pub got: Held,
    /// For ABSA the core address of the operand, and otherwise 0; 24 bits.
    pub place: u32,
    /// For pairs and blocks R1 of the operand's segment, for CALL6 the new ring, and otherwise 0; 3
    /// bits.
    pub ring: u8,
    ghost place_fits: { place < 2 ^ 24 },
    ghost ring_fits: { ring < 2 ^ 3 },
}

/// The result of an effect.
#[derive(Clone, Copy, PartialEq, Eq)]
pub struct Effect36 {
    /// The new registers.
    pub regs: Regs,
    /// The words to write.
    pub put: Held,
    /// The effect has turned the overflow indicator on.
    pub overflow: bool,
}

impl Effect36 {
    ghost use Rattle.m36_model.specs.Results.{words_of_held, effect_fields, completes};
    ghost use Rattle.m36_model.specs.Results.{completes_with};

    /// The effect that leaves these registers, except that the instruction counter advances to the
    /// next instruction.
    pub fn completed(regs: Regs) -> Effect36
        ensures { Ok (effect_fields result) ≡ completes regs }
    {
        Effect36::completed_with(regs, Held::Empty)
    }

    /// As `completed`, with words to write.
    #[tactic(auto, unfolding(crate::specs::Results::advanced))]
    pub fn completed_with(regs: Regs, put: Held) -> Effect36
        ensures { Ok (effect_fields result) ≡ completes_with regs (words_of_held put) }
    {
        let mut after = regs;
        after.ppr.ic = (regs.ppr.ic + 1) % (1 << 18);
        Effect36 {
            regs: after,
            put,
            overflow: false,
        }
    }
}

/// A tally word that address formation has counted: where it is, and its new value.
#[derive(Clone, Copy, PartialEq, Eq)]
pub struct Tally {
    pub word: Word,
    pub at: At,
    /// The tally has run out: the new count is 0.
    pub runout: bool,
}

/// A formed address.
#[derive(Clone, Copy, PartialEq, Eq)]
pub struct Formed {
    pub last: Final,
    pub tally: Option<Tally>,
    /// The core address of the tally word, or 0 if there is none.
    pub place: u32,
}
