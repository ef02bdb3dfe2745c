//! Address formation: through an ITS pair, chains of indirect words, IR modification with its
//! register kept until the end, and tally words.

ghost use Rattle.std.specs.Prelude.{◌≡◌, ◌<◌, ◌^◌, [], IfOk};

use crate::setting::{DBR, NO_INDICATORS, at, put};
use m36_core::Core;
use m36_desc::Ptr;
use m36_ea::{form_address, pending_tally};
use m36_inst::Inst;
use m36_model::{At, Fault, Final, Formed, Halt, Ppr, Refs, Regs, Tally};
use m36_walk::Walk;
use m36_word::{NoMemory, Word};
use std::alloc::Global;

/// The descriptor of segment 1, which executes: at core word octal 40, in ring 0, with all rights.
const PROCEDURE: [(u32, u64); 2] = [(0o2, 0o000000400004), (0o3, 0o000027300000)];

/// A walk over one frame with the descriptor of segment 1 and these words. Its descriptor base is
/// that of the registers.
fn walk(alloc: Global, regs: &Regs, words: &[(u32, u64)]) -> Result<Walk, NoMemory>
    ensures { IfOk result (λ walk. walk.dbr ≡ regs.now.dbr) }
{
    let mut core = Core::new(alloc, 1)?;
    put(&mut core, &PROCEDURE);
    put(&mut core, words);
    Ok(Walk::new(core, regs.dbr))
}

/// Registers at word 0 of segment 1 in a ring. All pointer registers are `pr0`.
fn regs(ring: u8, x1: u32, pr0: Ptr) -> Regs
    requires ring { ring < 8 }
    requires x1 { x1 < 2 ^ 18 }
{
    Regs {
        a: Word::ZERO,
        q: Word::ZERO,
        x: [0, x1, 0, 0, 0, 0, 0, 0],
        pr: [pr0; 8],
        dbr: DBR,
        ppr: Ppr {
            ic: 0,
            psr: 1,
            prr: ring,
        },
        ind: NO_INDICATORS,
    }
}

const NO_POINTER: Ptr = Ptr {
    word: 0,
    seg: 0,
    ring: 0,
    bit: 0,
};

/// A pointer to word 0 of segment 2 in ring 1.
const TO_SEGMENT_2: Ptr = Ptr {
    word: 0,
    seg: 2,
    ring: 1,
    bit: 0,
};

/// The address formed for an instruction, given as its word.
fn form(walk: &mut Walk, regs: &Regs, word: u64) -> Result<Formed, Halt>
    requires { walk.old.dbr ≡ regs.now.dbr }
    ensures { walk.new.dbr ≡ walk.old.dbr }
{
    let mut refs = Refs::new();
    form_address(walk, regs, &Inst::of_word(Word::low(word)), &mut refs)
}

/// The result of an address formation that ends at `at` and uses no tally word.
fn ends_at(at: At) -> Formed {
    Formed {
        last: Final {
            direct: None,
            at,
            bit: 0,
        },
        tally: None,
        place: 0,
    }
}

fn faults(number: u8, acv: u8, at: At) -> Fault {
    Fault { at, number, acv }
}

#[test]
fn pair_takes_the_bracket_of_its_segment(rt: HostRuntime) -> Result<(), NoMemory> {
    let words = [
        (0o4, 0o000003404444),
        (0o5, 0o000004200000),
        (0o246, 0o000003600334),
        (0o247, 0o000004300000),
        (0o340, 0o000123100043),
    ];
    let regs = regs(1, 0, TO_SEGMENT_2);
    let mut walk = walk(rt.alloc(), &regs, &words)?;
    let found = at(0o123, 0, 4);
    assert!(rt; form(&mut walk, &regs, 0o000000235120) == Ok(ends_at(found)));
    assert!(rt; walk.read(found, 1) == Err(faults(20, 3, found)));
    Ok(())
}

/// The address formed for an instruction over a core with these words.
fn address(
    alloc: Global,
    regs: &Regs,
    words: &[(u32, u64)],
    word: u64,
) -> Result<Result<Formed, Halt>, NoMemory> {
    let mut walk = walk(alloc, regs, words)?;
    Ok(form(&mut walk, regs, word))
}

/// Words octal 1 to 21 of segment 1 are indirect words, each leading to the next. A chain that
/// begins at word 2 has 16 of them and ends at word 22. Word 30 leads to word 20.
fn indirect_words() -> [(u32, u64); 18] {
    let mut words = [(0o61, 0o000022000000); 18];
    for k in 0..16 {
        words[k as usize] = (0o41 + k, ((k as u64 + 2) << 18) + 0o20);
    }
    words[17] = (0o70, 0o000020000000);
    words
}

/// Instructions through word 2, through word 1, and through word 30 with IR modification by X1. The
/// result is the word number of the address, or that of the fault.
const CHAINS: [(u64, Result<u32, u32>); 3] = [
    (0o000002235020, Ok(0o22)),
    (0o000001235020, Err(0o21)),
    (0o000030235071, Ok(0o25)),
];

#[test]
fn chains_of_indirect_words(rt: HostRuntime) -> Result<(), NoMemory> {
    let regs = regs(0, 0o5, NO_POINTER);
    for (word, expected) in CHAINS {
        let expected = match expected {
            Ok(address) => Ok(ends_at(at(1, address % (1 << 18), 0))),
            Err(place) => Err(Halt::Fault(faults(7, 0, at(1, place % (1 << 18), 0)))),
        };
        let found = address(rt.alloc(), &regs, &indirect_words(), word)?;
        assert!(rt; found == expected, "{word:o}");
    }
    Ok(())
}

/// A tally word at word octal 10, an instruction through it, the word number of its address, the
/// tally word afterwards, and whether the tally ran out.
const TALLIES: [(u64, u64, u32, u64, bool); 5] = [
    (0o000100000200, 0o000010235056, 0o100, 0o000101000100, false),
    (0o000101000100, 0o000010235056, 0o101, 0o000102000000, true),
    (0o000100777703, 0o000010235044, 0o75, 0o000075000003, true),
    (0o000100000103, 0o000010235053, 0o100, 0o000103000003, true),
    (0, 0o000010235054, 0o777777, 0o777777000100, false),
];

#[test]
fn tally_words_count(rt: HostRuntime) -> Result<(), NoMemory> {
    let regs = regs(0, 0, NO_POINTER);
    let plain = ends_at(at(1, 0o100, 0));
    let found = address(rt.alloc(), &regs, &[(0o50, 0o000100000200)], 0o000010235051)?;
    assert!(rt; found == Ok(plain) && pending_tally(&plain).is_none());
    for (before, word, operand, after, runout) in TALLIES {
        let counted = Formed {
            tally: Some(Tally {
                word: Word::low(after),
                at: at(1, 0o10, 0),
                runout,
            }),
            place: 0o50,
            ..ends_at(at(1, operand % (1 << 18), 0))
        };
        let found = address(rt.alloc(), &regs, &[(0o50, before)], word)?;
        assert!(rt; found == Ok(counted), "{word:o} {before:o}");
        assert!(rt; pending_tally(&counted).is_some_and(|it| it.place == 0o50));
    }
    Ok(())
}
