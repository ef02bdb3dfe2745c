//! The image that is run: one segment with two loops, in ring 0.
//!
//! The simple loop has six instructions. It loads a word, adds an immediate number, stores the
//! sum, increments a word through an indirect word, increments index register 1 and starts again.
//!
//! The mixed loop has fourteen instructions. It loads, adds and stores pairs of words, one of them
//! through an ITS pair, takes an exclusive and an inclusive or, shifts one register and both,
//! loads and stores through a tally word that it moves forward and back, calls, returns,
//! increments a word and starts again.

ghost use Rattle.std.specs.Prelude.{◌≡◌, ◌<◌, ◌^◌};

use m36_core::Core;
use m36_desc::{Dbr, Ptr};
use m36_model::{Ind, Ppr, Regs};
use m36_step::Machine;
use m36_word::{NoMemory, Word};
use std::alloc::Global;

/// The descriptor segment is unpaged, at core word 0, in one block of 16 words.
const DBR: Dbr = Dbr {
    addr: 0,
    bnd: 0,
    stack: 0,
    unpaged: true,
};

/// The two words of the descriptor of segment 1, unpaged, each with its place in core. The segment
/// has 1,024 words, which ring 0 may read, write and execute.
const UNPAGED: [(u32, u64); 2] = [(2, 0o000020000004), (3, 0o000777300000)];

/// The two words of the descriptor of segment 1 if it is paged, each with its place in core.
const PAGED: [(u32, u64); 2] = [(2, 0o000001000004), (3, 0o000777100000)];

/// The page table, of one page; and of that page the simple loop, the word that it loads, and the
/// indirect word to the word that it increments.
const SIMPLE: [(u32, u64); 9] = [
    (0o100, 0o000020000004),
    (0o2000, 0o000100235000),
    (0o2001, 0o000005075007),
    (0o2002, 0o000101755000),
    (0o2003, 0o000102054020),
    (0o2004, 0o000001621011),
    (0o2005, 0o000000710000),
    (0o2100, 7),
    (0o2102, 0o000103000000),
];

/// Of the page the mixed loop: `ldaq`, `adaq`, `era`, `orq`, `als`, `lrl`, `staq`, `ldaq` through
/// the ITS pair, `lda` and `sta` through the tally word, `call6`, `aos`, `tra` and `rtcd`; two
/// pairs of numbers, the ITS pair, the return pointer, and the tally word.
const MIXED: [(u32, u64); 23] = [
    (0o2300, 0o000316237000),
    (0o2301, 0o000320077000),
    (0o2302, 0o000316675000),
    (0o2303, 0o000320276000),
    (0o2304, 0o000003735000),
    (0o2305, 0o000005773000),
    (0o2306, 0o000322757000),
    (0o2307, 0o000324237020),
    (0o2310, 0o000330235056),
    (0o2311, 0o000330755054),
    (0o2312, 0o000315713000),
    (0o2313, 0o000331054000),
    (0o2314, 0o000300710000),
    (0o2315, 0o000326610000),
    (0o2316, 0o000123456701),
    (0o2317, 0o252525252525),
    (0o2320, 0o000000001234),
    (0o2321, 0o000000000017),
    (0o2324, 0o000001000043),
    (0o2325, 0o000320000000),
    (0o2326, 0o000001000043),
    (0o2327, 0o000313000000),
    (0o2330, 0o000340010000),
];

/// The loop that is run.
#[derive(Clone, Copy)]
pub enum Loop {
    /// The loop of six instructions.
    Simple,
    /// The loop of fourteen instructions.
    Mixed,
}

/// The word number in segment 1 at which a loop begins.
fn start_word(chosen: Loop) -> u32
    ensures { result < 2 ^ 18 }
{
    match chosen {
        Loop::Simple => 0,
        Loop::Mixed => 0o300,
    }
}

/// The core address of the word that a loop increments once in each pass.
fn counter_address(chosen: Loop) -> u32 {
    match chosen {
        Loop::Simple => 0o2103,
        Loop::Mixed => 0o2331,
    }
}

/// Stores words into core, each at its place; a place out of core is skipped.
fn put_words(core: &mut Core, words: &[(u32, u64)]) {
    for (place, word) in words {
        if *place < core.len() {
            core.poke(*place, Word::low(*word));
        }
    }
}

/// Core with the descriptor, the page table and both loops. Fails only with `NoMemory`.
fn loaded_core(alloc: Global, paged: bool) -> Result<Core, NoMemory> {
    let mut core = Core::new(alloc, 2)?;
    put_words(&mut core, if paged { &PAGED } else { &UNPAGED });
    put_words(&mut core, &SIMPLE);
    put_words(&mut core, &MIXED);
    Ok(core)
}

/// Registers that are zero, at a word of segment 1 in ring 0.
fn regs(dbr: Dbr, ic: u32) -> Regs
    requires { ic < 2 ^ 18 }
    ensures { result.dbr ≡ dbr }
{
    let pointer = Ptr {
        word: 0,
        seg: 0,
        ring: 0,
        bit: 0,
    };
    Regs {
        a: Word::ZERO,
        q: Word::ZERO,
        x: [0; 8],
        pr: [pointer; 8],
        dbr,
        ppr: Ppr { ic, psr: 1, prr: 0 },
        ind: Ind {
            zero: false,
            negative: false,
            carry: false,
            overflow: false,
            mask: false,
            tally: false,
        },
    }
}

/// The machine before the first step of a loop, in a paged or an unpaged segment. Fails only with
/// `NoMemory`.
pub fn machine(alloc: Global, paged: bool, chosen: Loop) -> Result<Machine, NoMemory> {
    Ok(Machine::start(loaded_core(alloc, paged)?, regs(DBR, start_word(chosen))))
}

/// The number of times that the loop has run.
pub fn loop_count(machine: &Machine, chosen: Loop) -> u64 {
    let core = machine.walk().core();
    let place = counter_address(chosen);
    if place < core.len() {
        core.peek(place).value()
    } else {
        0
    }
}
