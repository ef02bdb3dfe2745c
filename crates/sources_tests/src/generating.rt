//! The generator: draws and files of seeds. Expected draws were computed from the recurrence by
//! other means; expected files were worked out by hand.

use m36_gen::draws::{Draws, Sequence};
use m36_gen::{File, make};
use m36_word::NoMemory;

/// A seed, and its first three draws.
const DRAWS: &[(u64, Draws)] = &[
    (
        0,
        Draws {
            add: 807,
            count: 25,
            offset: 15377,
        },
    ),
    (
        1,
        Draws {
            add: 774,
            count: 154,
            offset: 28876,
        },
    ),
    (
        u64::MAX,
        Draws {
            add: 488,
            count: 144,
            offset: 1877,
        },
    ),
];

#[test]
fn draws_of_seeds(rt: HostRuntime) {
    for (seed, draws) in DRAWS {
        assert_eq!(rt; Sequence::new(*seed).draws(), *draws, "of seed {seed}");
    }
}

/// Files of seed 1: index, name and content.
const FILES: &[(usize, &[u8], &[u8])] = &[
    (
        0,
        b"g0.alm",
        b" entry start\nstart: epaq 0,ic\n lprp4 pr7|22,*au\n epp1 d_$+28876\n eax2 154\nloop: eax1 774,x1\n stx1 pr1|0,x2\n eax2 -1,x2\n tnz loop\n tra g1$start\n end\n",
    ),
    (
        63,
        b"g63.alm",
        b" entry start\nstart: epaq 0,ic\n lprp4 pr7|22,*au\n epp1 d_$+7225\n eax2 13\nloop: eax1 726,x1\n stx1 pr1|0,x2\n eax2 -1,x2\n tnz loop\n call6 stop_$stop\n end\n",
    ),
    (
        64,
        b"stop_.alm",
        b" entry stop\nstop: dis 0\n entrybound\n end\n",
    ),
];

// The content of the file with the index `at`; `None` if it has another name.
fn content_of<'a>(files: &'a [File], at: usize, name: &[u8]) -> Option<&'a [u8]> {
    let file = files.get(at)?;
    if file.name.bytes() == name {
        Some(file.content.bytes())
    } else {
        None
    }
}

#[test]
fn files_of_a_seed(rt: HostRuntime) -> Result<(), NoMemory> {
    let made = make(rt.alloc(), 1)?;
    assert_eq!(rt; made.items().len(), 67);
    for (at, name, content) in FILES {
        assert!(rt;
            content_of(made.items(), *at, name) == Some(*content),
            "{name:?}"
        );
    }
    Ok(())
}

fn are_zero(bytes: &[u8]) -> bool {
    bytes.iter().all(|byte| *byte == 0)
}

// The data file has 65,792 words of 36 bits, all zero.
#[test]
fn data(rt: HostRuntime) -> Result<(), NoMemory> {
    let made = make(rt.alloc(), 7)?;
    assert_eq!(rt; made.items().len(), 67);
    let data = content_of(made.items(), 65, b"d_").unwrap_or_default();
    assert_eq!(rt; data.len(), 296_064);
    assert!(rt; are_zero(data));
    Ok(())
}

const FIRST_LINES: &[u8] =
    b"frames 32\nwork >gen\nsegment >gen g0 g0 object re 4 4 4\nsegment >gen g1 g1 object re 4 4 4\n";

const LAST_LINES: &[u8] =
    b"segment >gen g63 g63 object re 4 4 4\nsegment >gen d_ d_ data rw 4 4 4\nsegment >gen stop_ stop_ gate rep 0 0 4\nstart 4 g0$start\n";

#[test]
fn boot_text(rt: HostRuntime) -> Result<(), NoMemory> {
    let made = make(rt.alloc(), 7)?;
    let text = content_of(made.items(), 66, b"boot").unwrap_or_default();
    assert!(rt; text.starts_with(FIRST_LINES));
    assert!(rt; text.ends_with(LAST_LINES));
    Ok(())
}
