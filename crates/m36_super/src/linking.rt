//! The link service.

ghost use Rattle.std.specs.Prelude.{◌≡◌, ◌≤◌, ◌<◌, ◌+◌, ◌^◌, ◌⊎◌, length, IfSome, option_copied};
ghost use Rattle.std.specs.Prelude.{◌∷◌, [], Bool, Ok, Err, Some};
ghost use Rattle.obj36_parts.specs.ObjectSegment.{segment_limit};
ghost use Rattle.m36_link.specs.Known.{linkage_segment};
ghost use Rattle.m36_link.specs.Snap.{snap_of};
ghost use Rattle.m36_link.specs.Accepted.{known_after, MayBeLaid};
ghost use Rattle.m36_link.specs.Laws.{IsConsistent};
ghost use Rattle.m36_super.specs.BootedRun.{IsLinkTurn, link_turn};
ghost use Rattle.m36_super.specs.Laying.{written_from, section_changes};
ghost use Rattle.m36_super.specs.Services.{link_changes, note_snapped, note_of};
ghost use Rattle.m36_super.specs.SuperFields.{run_of, IsManaged, IsRunning};
ghost use Rattle.m36_super.specs.Writing.{ArePut};

use crate::naming::link_text;
use crate::next_event::NextEvent;
use m36_dir::Catalog;
use m36_link::{FIRST_LINKAGE, File, Known, LinkFault, NewSection, Snap, link_laws};
use m36_model::{At, End, LinkCode};
use m36_page::Pager;
use m36_step::{LinkNote, Machine, Turn};
use m36_word::{NoMemory, Word};
use obj36::Link;
use std::alloc::Global;

// Writes a word of the linkage segment of a ring: into its frame, or into the kept words if its
// page is in none.
#[tactic(auto, using(crate::proofs::PagedContents::words_put))]
fn write_word(machine: &mut Machine, pager: &mut Pager, ring: u8, word: u32, w: Word)
    requires managed { IsManaged (length pager.old.holders) machine.old.state.store pager.old }
    requires ring { ring < 8 }
    requires fits { word < 2 ^ 18 }
    ensures put { ArePut machine.old.state.store pager.old machine.new.state.store pager.new
        (written_from (linkage_segment ring) word (w ∷ [])) }
    ensures regs { machine.new.state.regs ≡ machine.old.state.regs }
{
    let seg = FIRST_LINKAGE + ring as u16;
    match pager.place(machine.walk().core(), seg, word) {
        Some(place) => machine.store(place, w),
        None => pager.set_kept(machine.walk().core(), seg, word, w),
    }
}

// Writes words of the linkage segment of a ring, from word number `word` on.
#[tactic(auto, using(crate::proofs::LinkTurns::writing))]
fn write_words(machine: &mut Machine, pager: &mut Pager, ring: u8, word: u32, words: &[Word])
    requires managed { IsManaged (length pager.old.holders) machine.old.state.store pager.old }
    requires ring { ring < 8 }
    requires fits { word + length words.now ≤ segment_limit }
    ensures put { ArePut machine.old.state.store pager.old machine.new.state.store pager.new
        (written_from (linkage_segment ring) word words.now) }
    ensures regs { machine.new.state.regs ≡ machine.old.state.regs }
{
    let mut at = word;
    for w in words {
        write_word(machine, pager, ring, at, *w);
        at += 1;
    }
}

// Writes a linkage section that is laid, and its word of the linkage offset table.
#[tactic(auto, using(crate::proofs::LinkTurns::put_section))]
fn write_section(machine: &mut Machine, pager: &mut Pager, lay: &NewSection)
    requires managed { IsManaged (length pager.old.holders) machine.old.state.store pager.old }
    requires fits { lay.now.base + length lay.now.words ≤ segment_limit }
    ensures put { ArePut machine.old.state.store pager.old machine.new.state.store pager.new
        (section_changes (Some lay.now)) }
    ensures regs { machine.new.state.regs ≡ machine.old.state.regs }
{
    write_words(machine, pager, lay.ring, lay.base, lay.words.slice());
    write_word(machine, pager, lay.ring, lay.seg as u32, lay.lot_word());
}

// Writes the linkage section that an answer lays, if it lays one.
#[tactic(auto, using(crate::proofs::LinkTurns::put_nothing))]
fn write_section_if_any(machine: &mut Machine, pager: &mut Pager, lay: &Option<NewSection>)
    requires managed { IsManaged (length pager.old.holders) machine.old.state.store pager.old }
    requires fits { IfSome lay.now (λ l. l.base + length l.words ≤ segment_limit) }
    ensures put { ArePut machine.old.state.store pager.old machine.new.state.store pager.new
        (section_changes lay.now) }
    ensures regs { machine.new.state.regs ≡ machine.old.state.regs }
{
    match lay {
        Some(lay) => write_section(machine, pager, lay),
        None => {}
    }
}

// Writes the changes of an answer: the pair in place of the link, and the linkage section that is
// laid.
#[tactic(auto, using(crate::proofs::LinkTurns::put_changes))]
fn write_changes(machine: &mut Machine, pager: &mut Pager, at: At, snap: &Snap)
    requires managed { IsManaged (length pager.old.holders) machine.old.state.store pager.old }
    requires seg { at.seg ≡ linkage_segment at.ring }
    requires even { at.word + 1 < 2 ^ 18 }
    requires fits { IfSome snap.now.lay (λ l. l.base + length l.words ≤ segment_limit) }
    ensures put { ArePut machine.old.state.store pager.old machine.new.state.store pager.new
        (link_changes at snap.now) }
    ensures regs { machine.new.state.regs ≡ machine.old.state.regs }
{
    write_words(
        machine,
        pager,
        at.ring,
        at.word,
        &[snap.pair.even, snap.pair.odd],
    );
    write_section_if_any(machine, pager, &snap.lay);
}

// The note of a link that was snapped.
fn note_snapped(at: At, snap: &Snap) -> LinkNote
    ensures { result ≡ note_snapped at snap.now }
{
    let ring = at.ring;
    LinkNote {
        name: link_text(Some(&snap.link)),
        answer: Ok(snap.pair),
        at,
        ring,
    }
}

// The note of a link that was refused.
fn note_refused(at: At, code: LinkCode, link: Option<&Link>) -> LinkNote
    ensures { result ≡ note_of at (option_copied link.entry) (Err code) }
{
    let ring = at.ring;
    LinkNote {
        name: link_text(link),
        answer: Err(code),
        at,
        ring,
    }
}

// Completes the service of the link at `at`, which resolves to `snap`: makes known what it adds,
// and writes its changes. If memory runs out, nothing has changed.
#[tactic(auto, using(crate::proofs::LinkTurns::complete_snap))]
fn complete_snap(
    machine: &mut Machine,
    pager: &mut Pager,
    known: &mut Known,
    next_event: &mut NextEvent,
    at: At,
    snap: &Snap,
) -> Result<LinkNote, NoMemory>
    requires runs { IsRunning (length pager.old.holders) machine.old.state.regs
        machine.old.state.store pager.old }
    requires may { MayBeLaid known.old snap.now.lay }
    requires seg { at.seg ≡ linkage_segment at.ring }
    requires even { at.word + 1 < 2 ^ 18 }
    ensures turn { (loaded : Bool) → IsLinkTurn (Ok snap.now) (length pager.old.holders) at
        (run_of machine.old.state pager.old known.old next_event.old loaded) (link_turn result)
        (run_of machine.new.state pager.new known.new next_event.new loaded) }
    ensures frames { length pager.new.holders ≡ length pager.old.holders }
    ensures runs { IsRunning (length pager.new.holders) machine.new.state.regs
        machine.new.state.store pager.new }
    ensures known { (known.new ≡ known_after known.old snap.now) ⊎ (known.new ≡ known.old) }
{
    match known.accept(snap) {
        Ok(()) => {
            write_changes(machine, pager, at, snap);
            *next_event = NextEvent::Step;
            Ok(note_snapped(at, snap))
        }
        Err(NoMemory) => Err(NoMemory),
    }
}

/// The service of the link at a place.
/// If the link is refused, the next turn is the end of the run. Fails only with `NoMemory`, and
/// then changes nothing.
#[tactic(auto, using(crate::proofs::LinkTurns::answers))]
pub(crate) fn link(
    alloc: Global,
    catalog: &Catalog,
    files: &[File],
    machine: &mut Machine,
    pager: &mut Pager,
    known: &mut Known,
    next_event: &mut NextEvent,
    at: At,
) -> Result<LinkNote, NoMemory>
    requires runs { IsRunning (length pager.old.holders) machine.old.state.regs
        machine.old.state.store pager.old }
    requires made { IsConsistent catalog.now files.now known.old }
    ensures turn { (loaded : Bool) → IsLinkTurn (snap_of known.old catalog.now files.now at)
        (length pager.old.holders) at
        (run_of machine.old.state pager.old known.old next_event.old loaded) (link_turn result)
        (run_of machine.new.state pager.new known.new next_event.new loaded) }
    ensures frames { length pager.new.holders ≡ length pager.old.holders }
    ensures runs { IsRunning (length pager.new.holders) machine.new.state.regs
        machine.new.state.store pager.new }
    ensures made { IsConsistent catalog.now files.now known.new }
{
    link_laws();
    match known.resolve(alloc, catalog, files, at) {
        Ok(snap) => complete_snap(machine, pager, known, next_event, at, &snap),
        Err(LinkFault::Refused(code, link)) => {
            *next_event = NextEvent::Over(End::Link(code));
            Ok(note_refused(at, code, link.as_ref()))
        }
        Err(LinkFault::NoMemory) => Err(NoMemory),
    }
}

/// The turn that a link service is: its note, or that memory ran out.
pub(crate) fn link_turn(answer: Result<LinkNote, NoMemory>) -> Turn
    ensures { result ≡ link_turn answer }
{
    match answer {
        Ok(note) => Turn::Linked(note),
        Err(NoMemory) => Turn::NoMemory,
    }
}
