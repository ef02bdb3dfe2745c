//! Trace lines of steps, and the line that ends a run.

ghost use Rattle.std.specs.Prelude.{◌<◌, ◌^◌};

use crate::setting::{NO_INDICATORS, pointer};
use m36_desc::Dbr;
use m36_model::{At, Fault, Final, Ind, Outcome, Ppr, Refs, Regs, StepRecord, Stop};
use m36_trace::{end_line, line};
use m36_word::Word;

/// The record of a step after which A and the indicators are as given, and all other registers are
/// 0.
fn told(
    ppr: Ppr,
    word: Option<Word>,
    at: Option<Final>,
    a: u64,
    ind: Ind,
    outcome: Outcome,
) -> StepRecord {
    StepRecord {
        refs: Refs::new(),
        after: Regs {
            a: Word::low(a),
            q: Word::ZERO,
            x: [0; 8],
            pr: [pointer(0, 0, 0); 8],
            dbr: Dbr {
                addr: 0,
                bnd: 0,
                stack: 0,
                unpaged: true,
            },
            ppr,
            ind,
        },
        word,
        at,
        outcome,
        ppr,
    }
}

fn standing(prr: u8, psr: u16, ic: u32) -> Ppr
    requires prr { prr < 2 ^ 3 }
    requires psr { psr < 2 ^ 15 }
    requires ic { ic < 2 ^ 18 }
{
    Ppr { ic, psr, prr }
}

fn ending(ring: u8, seg: u16, word: u32, direct: Option<Word>) -> Option<Final>
    requires ring { ring < 2 ^ 3 }
    requires seg { seg < 2 ^ 15 }
    requires word { word < 2 ^ 18 }
{
    Some(Final {
        direct,
        at: At { word, seg, ring },
        bit: 0,
    })
}

#[test]
fn a_load(rt: HostRuntime) {
    let record = told(
        standing(0, 1, 0),
        Some(Word::low(0o000002235000)),
        ending(0, 1, 2, None),
        5,
        NO_INDICATORS,
        Outcome::Next,
    );
    assert_eq!(rt;
        line(1, &record).as_str(),
        "1 0 00001|000000 000002235000 0:00001|000002 000000000005 000000000000 ...... next"
    );
}

#[test]
fn a_halt(rt: HostRuntime) {
    let record = told(
        standing(0, 1, 1),
        Some(Word::low(0o000000616000)),
        None,
        5,
        NO_INDICATORS,
        Outcome::Stopped(Stop::Dis),
    );
    assert_eq!(rt;
        line(2, &record).as_str(),
        "2 0 00001|000001 000000616000 - 000000000005 000000000000 ...... dis"
    );
}

#[test]
fn a_link_fault(rt: HostRuntime) {
    let here = At {
        word: 5,
        seg: 0o100,
        ring: 4,
    };
    let record = told(
        standing(4, 0o100, 5),
        Some(Word::low(0o400010713120)),
        None,
        6,
        NO_INDICATORS,
        Outcome::Faulted(Fault {
            at: here,
            number: 24,
            acv: 0,
        }),
    );
    assert_eq!(rt;
        line(6, &record).as_str(),
        "6 4 00100|000005 400010713120 - 000000000006 000000000000 ...... fault 24"
    );
}

#[test]
fn a_refused_fetch(rt: HostRuntime) {
    let here = At {
        word: 0o777777,
        seg: 0o77777,
        ring: 7,
    };
    let all = Ind {
        zero: true,
        negative: true,
        carry: true,
        overflow: true,
        mask: true,
        tally: true,
    };
    let record = told(
        standing(7, 0o77777, 0o777777),
        None,
        None,
        0o777777777777,
        all,
        Outcome::Faulted(Fault {
            at: here,
            number: 20,
            acv: 15,
        }),
    );
    assert_eq!(rt;
        line(100000, &record).as_str(),
        "100000 7 77777|777777 - - 777777777777 000000000000 zncomt fault 20.15"
    );
}

#[test]
fn a_direct_operand(rt: HostRuntime) {
    let negative = Ind {
        negative: true,
        ..NO_INDICATORS
    };
    let record = told(
        standing(1, 8, 9),
        Some(Word::low(0o400000235003)),
        ending(1, 8, 0o400000, Some(Word::low(0o400000000000))),
        0o400000000000,
        negative,
        Outcome::Next,
    );
    assert_eq!(rt;
        line(12, &record).as_str(),
        "12 1 00010|000011 400000235003 =400000000000 400000000000 000000000000 .n.... next"
    );
}

#[test]
fn ends_of_runs(rt: HostRuntime) {
    let here = At {
        word: 0,
        seg: 1,
        ring: 0,
    };
    let refused = Fault {
        at: here,
        number: 20,
        acv: 3,
    };
    let halted = end_line(Outcome::Stopped(Stop::Dis), 2);
    assert_eq!(rt; halted.as_str(), "end dis 2");
    let faulted = end_line(Outcome::Faulted(refused), 17);
    assert_eq!(rt; faulted.as_str(), "end fault 20.3 17");
    let stopped = end_line(Outcome::Stopped(Stop::Tag), 1);
    assert_eq!(rt; stopped.as_str(), "end stop tag 1");
    let limited = end_line(Outcome::Next, 100000);
    assert_eq!(rt; limited.as_str(), "end limit 100000");
}
