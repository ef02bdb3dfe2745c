//! Why a reference is refused.

ghost use Rattle.std.specs.Prelude.{◌≡◌, ◌+◌, ◌%◌, ◌<◌};
ghost use Rattle.m36_model.specs.Store.{fault_by, fault_in};

use m36_model::{At, Fault, Refusal};

/// A refusal as the fault at a word.
#[inline(always)]
pub(crate) fn fault(why: Refusal, at: At) -> Fault
    ensures { result ≡ fault_by why at }
{
    Fault {
        at,
        number: why.number,
        acv: why.acv,
    }
}

/// A refusal of one word of a reference: the word that is `further` words after the first.
#[derive(Clone, Copy)]
pub(crate) struct Refused {
    pub(crate) why: Refusal,
    pub(crate) further: u8,
}

/// A refusal as the fault at the refused word, given the address of the first word.
#[inline(always)]
pub(crate) fn fault_at_refused_word(refused: Refused, at: At) -> Fault
    requires { at.word % 16 + refused.further < 16 }
    ensures { result ≡ fault_in at (at.word + refused.further) refused.why }
{
    fault(
        refused.why,
        At {
            word: at.word + refused.further as u32,
            ..at
        },
    )
}
