//! Page table words, and the frames of pages.

ghost use Rattle.std.specs.Prelude.{◌≡◌, ◌<◌, ◌^◌, IfOk, OnOk, OnSome, IsSome, length};
ghost use Rattle.m36_model.specs.Place.{ptw_at, address_in_frame, page_at, page_frame};

use crate::addresses::page_at;
use crate::refusals::{directed_refusal, store_fault};
use m36_core::Core;
use m36_desc::{Ptw, Sdw};
use m36_model::Refusal;

/// The page table word at an address, or None if the address is past the end of core.
#[inline(always)]
pub fn page_table_word(core: &Core, a: u32) -> Option<Ptw>
    ensures value { result ≡ ptw_at core.now a }
    ensures inside { OnSome result (a < length core.now) }
{
    if a < core.len() {
        Some(Ptw::of_words(core.peek(a)))
    } else {
        None
    }
}

/// The address of a word of a page by its page table word. A store fault if there is no such word,
/// and its directed fault if its F is off.
#[inline(always)]
pub fn address_in_frame(ptw: Option<Ptw>, offset: u32) -> Result<u32, Refusal>
    requires { offset < 1024 }
    ensures value { result ≡ address_in_frame ptw offset }
    ensures known { OnOk result (IsSome ptw) }
    ensures bound { IfOk result (λ a. a < 2 ^ 24) }
{
    match ptw {
        None => Err(store_fault()),
        Some(p) => {
            if p.f {
                Ok(p.addr / 16 * 1024 + offset)
            } else {
                Err(directed_refusal(p.fc))
            }
        }
    }
}

/// The address at which a page of a paged segment begins, which may be past the end of core.
pub fn page_frame(core: &Core, sdw: &Sdw, page: u32) -> Result<u32, Refusal>
    requires { page < 256 }
    ensures value { result ≡ page_frame core.now sdw.now page }
    ensures table { OnOk result (page_at sdw.now page < length core.now) }
    ensures bound { IfOk result (λ a. a < 2 ^ 24) }
{
    address_in_frame(page_table_word(core, page_at(sdw, page)), 0)
}
