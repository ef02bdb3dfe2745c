//! The trace line of a step, with parts that are kept from one step to the next.

ghost use Rattle.std.specs.Prelude.{◌≡◌, ◌≤◌, length, take};
ghost use Rattle.std.specs.Bool.{OnTrue};
ghost use Rattle.m36_trace.specs.Spaced.{HasRingSegment};
ghost use Rattle.m36_trace.specs.Kept.{kept_line, CanBeUsed};

use crate::parts::{NumberPart, RingSegmentPart, WordPart};
use crate::spelling::{
    COLON, SPACE, put_final, put_instruction, put_line_end, put_number, put_place, put_word_part,
};
use m36_model::{Final, Outcome, Ppr, Regs, Shown, StepRecord};
use m36_outside::Spelled;
use m36_outside::spelled::SHORT;
use m36_word::Word;

/// The kept parts of a trace line: the number of the step, the ring and segment number of the
/// instruction and of the address, A and Q.
#[derive(Drop)]
pub struct TraceText {
    number: NumberPart,
    place: RingSegmentPart<SPACE>,
    address: RingSegmentPart<COLON>,
    a: WordPart,
    q: WordPart,
}

impl TraceText {
    /// The kept parts before the first step.
    pub fn new() -> TraceText {
        TraceText {
            number: NumberPart::new(),
            place: RingSegmentPart::new(),
            address: RingSegmentPart::new(),
            a: WordPart::new(),
            q: WordPart::new(),
        }
    }

    /// Sets the kept parts to those of step n, and returns whether they can be used for its line:
    /// if the outcome is Next and the number has at most 15 digits.
    #[inline(always)]
    pub fn set(
        &mut self,
        n: u64,
        ppr: &Ppr,
        at: &Option<Final>,
        outcome: &Outcome,
        after: &Regs,
    ) -> bool
        ensures { OnTrue result (CanBeUsed self.new n ppr.now at.now outcome.now after.now) }
    {
        match outcome {
            Outcome::Next => {
                self.place.set(ppr.psr, ppr.prr);
                set_address(&mut self.address, at);
                self.a.set(after.a);
                self.q.set(after.q);
                self.number.set(n)
            }
            Outcome::Faulted(_) | Outcome::Stopped(_) => false,
        }
    }
}

// Sets the ring and the segment number to those of the final address. Without one they are not
// used, and stay as they are.
#[inline(always)]
fn set_address(front: &mut RingSegmentPart<COLON>, end: &Option<Final>)
    ensures { HasRingSegment front.new.ring front.new.seg end.now }
{
    match end {
        Some(end) => front.set(end.at.seg, end.at.ring),
        None => {}
    }
}

// Writes a line, given its kept parts and the other values of the step.
#[inline(always)]
#[tactic(auto, unfolding(crate::specs::Kept::kept_line_of_values))]
fn put_line(
    into: &mut [u8],
    text: &TraceText,
    ppr: &Ppr,
    word: Option<Word>,
    at: &Option<Final>,
    after: &Regs,
) -> usize
    requires { SHORT ≤ length into.old }
    ensures bound { result ≤ SHORT }
    ensures text { take result into.new ≡ kept_line text.now ppr.now word at.now after.now }
{
    let place = put_number(into, &text.number);
    let place = put_place(into, place, &text.place, ppr.ic);
    let place = put_instruction(into, place, word);
    let place = put_final(into, place, &text.address, at);
    let place = put_word_part(into, place, &text.a);
    let place = put_word_part(into, place, &text.q);
    put_line_end(into, place, &after.ind)
}

/// The line of a step, given its record.
#[derive(Drop)]
pub(crate) struct StepLine<'a> {
    pub(crate) text: &'a TraceText,
    pub(crate) told: &'a StepRecord,
}

impl<'a> Spelled for StepLine<'a> {
    ghost use Rattle.m36_trace.specs.Kept.{kept_line};

    ghost text = { λ line. kept_line line.text.now
        line.told.now.ppr line.told.now.word line.told.now.at line.told.now.after };

    fn spell(&self, into: &mut [u8]) -> usize {
        let told = self.told;
        put_line(into, self.text, &told.ppr, told.word, &told.at, &told.after)
    }
}

/// The line of a step, given what a trace line shows of it and the registers after it.
#[derive(Drop)]
pub(crate) struct ShownLine<'a> {
    pub(crate) text: &'a TraceText,
    pub(crate) shown: &'a Shown,
    pub(crate) after: &'a Regs,
}

impl<'a> Spelled for ShownLine<'a> {
    ghost use Rattle.m36_trace.specs.Kept.{kept_line};

    ghost text = { λ line. kept_line line.text.now
        line.shown.now.ppr line.shown.now.word line.shown.now.at line.after.now };

    fn spell(&self, into: &mut [u8]) -> usize {
        let shown = self.shown;
        put_line(
            into, self.text, &shown.ppr, shown.word, &shown.at, self.after,
        )
    }
}
