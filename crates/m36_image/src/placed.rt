//! Parses the line `at A W ..` of a bare image: words, and their place in core.

ghost use Rattle.std.specs.Prelude.{◌≡◌, ◌<◌, ◌≤◌, ◌^◌};
ghost use Rattle.std.specs.Option.{option_map};
ghost use Rattle.m36_text.specs.Lines.{words_of};
ghost use Rattle.m36_text.specs.Numbers.{core_address_in};
ghost use Rattle.m36_image.specs.BareImage.{one_to_eight_words, at_read, at_words};

use crate::forms::octal_word;
use arrayvec::ArrayVec;
use m36_text::{first_word, is_text, octal_in};
use m36_word::Word;
use std::marker::Model;

/// Words, and the core address of the first of them.
#[derive(Drop)]
pub struct Placed {
    pub words: ArrayVec<Word, 8>,
    /// The core address of the first word; 24 bits.
    pub first: u32,
}

impl Model for Placed {
    ghost use Rattle.std.specs.Prelude.{◌<◌, ◌^◌};
    ghost use Rattle.m36_image.specs.PlacedWords.{PlacedWords};

    ghost Value = { PlacedWords };

    ghost view = { λ p. record { first = p.first; words = p.words.items } };

    ghost invariant = { λ p. p.first < 2 ^ 24 };
}

// Parses one to eight words; None if there are more, or one is not twelve octal digits.
#[tactic(auto, using(crate::proofs::SeveralLaws::reading_several))]
fn eight_words(line: &[u8]) -> Option<ArrayVec<Word, 8>>
    ensures { option_map (λ v. v.items) result ≡ one_to_eight_words (words_of line.now) }
{
    let mut words = ArrayVec::new();
    let mut rest = line;
    for _ in 0..8u32 {
        let (text, more) = first_word(rest);
        words.push(octal_word(text)?);
        match more {
            Some(texts) => rest = texts,
            None => return Some(words),
        }
    }
    None
}

// Parses an address and the words from there on.
fn placed_of(address: &[u8], texts: &[u8]) -> Option<Placed>
    ensures { result ≡ at_read (core_address_in address.now)
        (one_to_eight_words (words_of texts.now)) }
{
    let first = octal_in(address, 8)?;
    let words = eight_words(texts)?;
    Some(Placed {
        words,
        first: first as u32,
    })
}

/// Parses the line `at A W ..`. None if it does not have this form.
#[tactic(auto, unfolding(crate::specs::Several::numbers_up_to))]
pub fn at_line(line: &[u8]) -> Option<Placed>
    ensures { result ≡ at_words (words_of line.now) }
{
    let (name, rest) = first_word(line);
    let (address, rest) = first_word(rest?);
    let texts = rest?;
    if is_text(b"at", name) {
        placed_of(address, texts)
    } else {
        None
    }
}
