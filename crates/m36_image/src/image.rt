//! Bare images: the state of a machine, parsed from a text.

ghost use Rattle.std.specs.Prelude.{ℕ, ◌≡◌, ◌≤◌, ◌^◌, length};
ghost use Rattle.m36_image.specs.ImageState.{regs_of, state_of_text};
ghost use Rattle.m36_image.specs.ImageResult.{ImageResult};

use crate::core_words::put_lines;
use crate::header::read_header;
use crate::refusal::ImageFault;
use m36_core::Core;
use m36_desc::{Dbr, Ptr};
use m36_model::{Ind, Ppr, Regs};
use m36_word::{Pair, Word};
use std::alloc::Global;
use std::marker::Model;

/// Core and registers, as a bare image describes them.
#[derive(Drop)]
pub struct Image {
    pub core: Core,
    pub regs: Regs,
}

impl Model for Image {
    ghost use Rattle.std.specs.Prelude.{ℕ, List};
    ghost use Rattle.m36_model.specs.Store.{State};

    ghost Value = { State (List ℕ) };

    ghost view = { λ i. record { regs = i.regs; store = i.core } };
}

/// Registers that are zero, except for the descriptor segment base register and the address of the
/// first instruction.
pub fn registers(dbr: Pair, start: Ppr) -> Regs
    ensures { result ≡ regs_of dbr start }
{
    let none = Ptr {
        word: 0,
        seg: 0,
        ring: 0,
        bit: 0,
    };
    Regs {
        a: Word::ZERO,
        q: Word::ZERO,
        x: [0; 8],
        pr: [none; 8],
        dbr: Dbr::of_words(dbr),
        ppr: start,
        ind: Ind {
            zero: false,
            negative: false,
            carry: false,
            overflow: false,
            mask: false,
            tally: false,
        },
    }
}

/// Parses a bare image. The error is the first line that has a code, with the least code of that
/// line, or `NoMemory`.
#[tactic(auto, using(crate::proofs::Images::images))]
pub fn read_image(alloc: Global, text: &[u8]) -> Result<Image, ImageFault>
    requires { length text.now ≤ 2 ^ 31 }
    ensures { ImageResult result (state_of_text text.now) }
{
    let (header, rest) = match read_header(text) {
        Ok(read) => read,
        Err(refusal) => return Err(ImageFault::Refused(refusal)),
    };
    let mut core = Core::new(alloc, header.frames)?;
    put_lines(&mut core, rest)?;
    Ok(Image {
        core,
        regs: registers(header.dbr, header.start),
    })
}
