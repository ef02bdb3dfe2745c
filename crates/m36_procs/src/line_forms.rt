//! Parses single lines of a text of processes. A line is given without its line feed.

ghost use Rattle.std.specs.Prelude.{◌≡◌};
ghost use Rattle.std.specs.Option.{option_map};
ghost use Rattle.m36_text.specs.Lines.{words_of};
ghost use Rattle.m36_procs.specs.ProcsFile.{process_words, process_numbers, turns_words};

use arrayvec::ArrayVec;
use m36_image::forms::octal_word;
use m36_image::registers;
use m36_model::{Ppr, Regs};
use m36_text::{decimal_in, first_word, is_text, octal_in, only_word, short_decimal_in};
use m36_word::Pair;
use std::marker::Model;

/// The maximum number of times that a line repeats its turns.
const MOST_TIMES: u64 = 1_000_000;

/// Turns of processes, and how many times they are made in a row.
#[derive(Drop)]
pub(crate) struct Turns {
    /// The numbers of the processes, in order.
    pub(crate) order: ArrayVec<u8, 16>,
    /// 1 to 1,000,000.
    pub(crate) times: u32,
}

impl Model for Turns {
    ghost use Rattle.std.specs.Prelude.{◌≤◌};
    ghost use Rattle.m36_procs.specs.ProcsFields.{TurnsFields};
    ghost use Rattle.m36_procs.specs.ProcsFile.{most_times};

    ghost Value = { TurnsFields };

    ghost view = { λ t. record { times = t.times; order = t.order.items } };

    ghost invariant = { λ t. t.times ≤ most_times };
}

/// The registers of a process, from the line `process E O S R I`. None if it does not have this
/// form.
pub(crate) fn process_line(line: &[u8]) -> Option<Regs>
    ensures { result ≡ process_words (words_of line.now) }
{
    let (name, rest) = first_word(line);
    if !is_text(b"process", name) {
        return None;
    }
    let (even, rest) = first_word(rest?);
    let (odd, rest) = first_word(rest?);
    let (seg, rest) = first_word(rest?);
    let (ring, rest) = first_word(rest?);
    let word = only_word(rest?)?;
    let even = octal_word(even)?;
    let odd = octal_word(odd)?;
    let seg = octal_in(seg, 5)?;
    let ring = octal_in(ring, 1)?;
    let word = octal_in(word, 6)?;
    let start = Ppr {
        ic: word as u32,
        psr: seg as u16,
        prr: ring as u8,
    };
    Some(registers(Pair { even, odd }, start))
}

// One to sixteen numbers of one digit. None if there are more, or one has another form.
#[tactic(auto, using(m36_image::proofs::SeveralLaws::reading_several))]
fn sixteen_numbers(line: &[u8]) -> Option<ArrayVec<u8, 16>>
    ensures { option_map (λ v. v.items) result ≡ process_numbers (words_of line.now) }
{
    let mut order = ArrayVec::new();
    let mut rest = line;
    for _ in 0..16u32 {
        let (text, more) = first_word(rest);
        let number = short_decimal_in(text, 1, 0, 9)?;
        order.push(number as u8);
        match more {
            Some(texts) => rest = texts,
            None => return Some(order),
        }
    }
    None
}

/// The turns of the line `turns C P ..`. None if it does not have this form.
#[tactic(auto, unfolding(m36_image::specs::Several::numbers_up_to))]
pub(crate) fn turns_line(line: &[u8]) -> Option<Turns>
    ensures { result ≡ turns_words (words_of line.now) }
{
    let (name, rest) = first_word(line);
    if !is_text(b"turns", name) {
        return None;
    }
    let (times, rest) = first_word(rest?);
    let order = sixteen_numbers(rest?)?;
    let times = decimal_in(times, 1, MOST_TIMES)?;
    Some(Turns {
        order,
        times: times as u32,
    })
}
