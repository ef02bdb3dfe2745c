//! The console service.

ghost use Rattle.std.specs.Prelude.{◌≡◌, ◌≤◌, ◌<◌, ◌+◌, ◌*◌, ◌/◌, ◌++◌, ◌==◌, Bool, length, Ok};
ghost use Rattle.std.specs.Prelude.{Err, MatchResult};
ghost use Rattle.m36_model.specs.Flat.{flat_store};
ghost use Rattle.m36_model.specs.Store.{fault_by, examined_reply};
ghost use Rattle.m36_model.specs.Place.{core_sdw};
ghost use Rattle.m36_model.specs.BootedCore.{booted_dbr};
ghost use Rattle.m36_link.specs.Fields.{KnownFields};
ghost use Rattle.m36_super.specs.BootedRun.{IsConsoleTurn};
ghost use Rattle.m36_super.specs.Services.{console_limit, console_word_limit, asks_too_much};
ghost use Rattle.m36_super.specs.Services.{written_character, characters_of};
ghost use Rattle.m36_super.specs.Services.{console_at, console_words, console_text};
ghost use Rattle.m36_super.specs.SuperFields.{run_of, IsManaged, IsRunning};
ghost use Rattle.m36_super.specs.Writing.{flat_by};
ghost use Rattle.m36_super.specs.Examining.{ExaminedResult};

use crate::content::found_word;
use crate::next_event::NextEvent;
use arrayvec::ArrayVec;
use m36_core::Core;
use m36_desc::{Acv, Sdw, may_read};
use m36_model::{At, End, Fault, Refusal, Regs};
use m36_page::Pager;
use m36_step::{ConsoleNote, Machine, Turn};
use m36_tables::{descriptor, is_within_bound, violation};
use m36_word::Word;

// The maximum number of characters that a console service writes.
const MOST_CHARACTERS: u64 = 256;

// The pointer register that points to the text.
const TEXT: u8 = 2;

// The access violation for a word past the bound.
const OUT_OF_SEGMENT_BOUNDS: u8 = 15;

// The fault for a refusal at a word.
fn fault_of(why: Refusal, at: At) -> Fault
    ensures { result ≡ fault_by why at }
{
    Fault {
        at,
        number: why.number,
        acv: why.acv,
    }
}

// Whether an address is in the segment that is being executed.
fn is_executing(regs: &Regs, at: At) -> bool
    ensures { result ≡ (at.seg == regs.now.ppr.psr) }
{
    at.seg == regs.ppr.psr
}

// The word at an address in the segment with this descriptor, by the rules of access, wherever its
// page is. Fails with the fault at the address.
#[tactic(auto, using(crate::proofs::ConsoleReads::described))]
fn described_word(core: &Core, pager: &Pager, regs: &Regs, sdw: &Sdw, at: At) -> Result<Word, Fault>
    requires managed { IsManaged (length pager.now.holders) core.now pager.now }
    requires dbr { regs.now.dbr ≡ booted_dbr }
    requires live { core_sdw core.now booted_dbr at.seg ≡ Ok sdw.now }
    ensures { ExaminedResult result (examined_reply flat_store regs.now (flat_by core.now pager.now)
        at) }
{
    let same = is_executing(regs, at);
    if let Err(Acv(acv)) = may_read(sdw, at.ring, same) {
        return Err(fault_of(violation(acv), at));
    }
    if !is_within_bound(sdw, at.word) {
        return Err(fault_of(violation(OUT_OF_SEGMENT_BOUNDS), at));
    }
    Ok(found_word(core, pager, sdw, at.seg, at.word))
}

// The word at an address, by the rules of access, wherever its page is; or the fault of reading it.
// No mark of a page table word is set.
#[tactic(auto, using(crate::proofs::ConsoleReads::dead_word))]
fn examined_reply(core: &Core, pager: &Pager, regs: &Regs, at: At) -> Result<Word, Fault>
    requires managed { IsManaged (length pager.now.holders) core.now pager.now }
    requires dbr { regs.now.dbr ≡ booted_dbr }
    ensures { ExaminedResult result (examined_reply flat_store regs.now (flat_by core.now pager.now)
        at) }
{
    match descriptor(core, regs.dbr, at.seg) {
        Ok(sdw) => described_word(core, pager, regs, &sdw, at),
        Err(why) => Err(fault_of(why, at)),
    }
}

// The byte that is written for a character of nine bits.
fn console_byte(character: u64) -> u8
    ensures { result ≡ written_character character }
{
    if character < 128 {
        character as u8
    } else {
        b'?'
    }
}

// Appends the four characters of a word.
#[tactic(auto, unfolding(crate::specs::Services::characters_of, obj36_parts::specs::Halves::quarter))]
fn put_characters(text: &mut ArrayVec<u8, 256>, word: Word)
    requires { length text.old.items + 4 ≤ console_limit }
    ensures { text.new.items ≡ text.old.items ++ characters_of word }
{
    let v = word.value();
    let four = [
        console_byte(v >> 27),
        console_byte((v >> 18) % 512),
        console_byte((v >> 9) % 512),
        console_byte(v % 512),
    ];
    match text.try_extend_from_slice(&four) {
        Ok(()) => {}
        Err(_) => unreachable!(),
    }
}

// The address of word k of the text, which begins at PR2, with the ring of PR2.
fn text_address(regs: &Regs, k: u32) -> At
    requires { k ≤ console_word_limit }
    ensures { result ≡ console_at regs.now k }
{
    let pointer = regs.pointer(TEXT);
    At {
        word: (pointer.word + k) % (1 << 18),
        seg: pointer.seg,
        ring: pointer.ring,
    }
}

// The characters of the first `count` words of the text, four of each; or the first fault of
// reading them.
#[tactic(auto, using(crate::proofs::ConsoleReads::reading))]
fn text_words(
    core: &Core,
    pager: &Pager,
    regs: &Regs,
    count: u32,
) -> Result<ArrayVec<u8, 256>, Fault>
    requires managed { IsManaged (length pager.now.holders) core.now pager.now }
    requires dbr { regs.now.dbr ≡ booted_dbr }
    requires count { count ≤ console_word_limit }
    ensures { MatchResult result
        (λ t. console_words regs.now (flat_by core.now pager.now) 0 count ≡ Ok t.items)
        (λ f. console_words regs.now (flat_by core.now pager.now) 0 count ≡ Err f) }
{
    let mut text = ArrayVec::new();
    let mut k = 0;
    let mut left = count;
    while left > 0 {
        let word = match examined_reply(core, pager, regs, text_address(regs, k)) {
            Ok(word) => word,
            Err(fault) => return Err(fault),
        };
        put_characters(&mut text, word);
        k += 1;
        left -= 1;
    }
    Ok(text)
}

// The first `count` characters of the text, or the first fault of reading them.
#[tactic(auto, unfolding(crate::specs::Services::console_text))]
fn read_text(core: &Core, pager: &Pager, regs: &Regs, count: u32) -> Result<ConsoleNote, Fault>
    requires managed { IsManaged (length pager.now.holders) core.now pager.now }
    requires dbr { regs.now.dbr ≡ booted_dbr }
    requires count { count ≡ regs.now.a }
    requires most { count ≤ console_limit }
    ensures { MatchResult result
        (λ note. console_text regs.now (flat_by core.now pager.now) ≡ Ok note)
        (λ f. console_text regs.now (flat_by core.now pager.now) ≡ Err f) }
{
    let mut bytes = text_words(core, pager, regs, (count + 3) / 4)?;
    bytes.truncate(count as usize);
    Ok(ConsoleNote { bytes })
}

// Ends the run in this way: returns the turn that reports the end, which is also the next turn.
fn end_run(next_event: &mut NextEvent, end: &End) -> Turn
    ensures turn { result ≡ Turn.Ended end.now }
    ensures next_event { next_event.new ≡ NextEvent.Over end.now }
{
    *next_event = NextEvent::Over(*end);
    Turn::Ended(*end)
}

/// Takes a turn that is a console service: the text of as many characters as A says, at PR2. The
/// run ends if A is above 256 or the text cannot be read.
#[tactic(auto, using(crate::proofs::SystemTurns::printed))]
pub(crate) fn print(machine: &mut Machine, pager: &Pager, next_event: &mut NextEvent) -> Turn
    requires { IsRunning (length pager.now.holders) machine.old.state.regs machine.old.state.store
        pager.now }
    ensures turn { (known : KnownFields) (loaded : Bool) → IsConsoleTurn
        (asks_too_much machine.old.state.regs)
        (console_text machine.old.state.regs (flat_by machine.old.state.store pager.now))
        (run_of machine.old.state pager.now known next_event.old loaded) result
        (run_of machine.new.state pager.now known next_event.new loaded) }
    ensures runs { IsRunning (length pager.now.holders) machine.new.state.regs
        machine.new.state.store pager.now }
{
    let regs = machine.regs();
    let count = regs.a.value();
    if count > MOST_CHARACTERS {
        return end_run(next_event, &End::Console);
    }
    match read_text(machine.walk().core(), pager, regs, count as u32) {
        Ok(note) => {
            machine.skip();
            *next_event = NextEvent::Step;
            Turn::Console(note)
        }
        Err(fault) => end_run(next_event, &End::Fault(fault)),
    }
}
