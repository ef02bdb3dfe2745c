//! The faults with which the lookup of a word is refused.

ghost use Rattle.std.specs.Prelude.{◌≡◌, ◌<◌, ◌^◌};
ghost use Rattle.m36_model.specs.Place.{store_fault, directed_refusal};
ghost use Rattle.m36_model.specs.Store.{violation};

use m36_model::Refusal;

/// A table word or the word itself is past the end of core.
#[inline(always)]
pub fn store_fault() -> Refusal
    ensures { result ≡ store_fault }
{
    Refusal { number: 1, acv: 0 }
}

/// The access violation fault with this number.
#[inline(always)]
pub fn violation(acv: u8) -> Refusal
    ensures { result ≡ violation acv }
{
    Refusal { number: 20, acv }
}

/// The directed fault with the number in FC, of a descriptor or page table word whose F is off.
#[inline(always)]
pub fn directed_refusal(fc: u8) -> Refusal
    requires { fc < 2 ^ 2 }
    ensures { result ≡ directed_refusal fc }
{
    Refusal {
        number: 16 + fc,
        acv: 0,
    }
}
