//! The joint audit of two processes on a core of two frames: images that share segments, and images
//! that break a condition.

use m36_audit::{JointVerdict, joint_audit};
use m36_core::Core;
use m36_desc::Dbr;
use m36_word::{NoMemory, Word};
use std::alloc::Global;

/// An image: words written after those of `LOCK`, the address of the second process's descriptors,
/// and the expected findings: a process if the finding is of one, a condition and a place.
struct Image<'a>(&'a [(u32, u64)], u32, &'a [(Option<u8>, u8, u32)]);

/// Words of the descriptors at octal 2 and 22. By them each process has segment 1 at octal 40 and
/// segment 2 at octal 60.
const LOCK: [(u32, u64); 8] = [
    (0o2, 0o000000404444),
    (0o3, 0o000006300000),
    (0o4, 0o000000604444),
    (0o5, 0o000005300000),
    (0o22, 0o000000404444),
    (0o23, 0o000006300000),
    (0o24, 0o000000604444),
    (0o25, 0o000005300000),
];

fn dbr(addr: u32) -> Dbr {
    Dbr {
        addr: addr % 0o100000000,
        bnd: 0,
        stack: 0,
        unpaged: true,
    }
}

fn put(core: &mut Core, words: &[(u32, u64)]) {
    for (place, word) in words {
        if *place < core.len() {
            core.poke(*place, Word::low(*word));
        }
    }
}

/// Whether the joint audit has exactly these findings: process, condition and place.
fn are_found(joint: &JointVerdict, expected: &[(Option<u8>, u8, u32)]) -> bool {
    for (finding, (process, condition, place)) in joint.findings.iter().zip(expected) {
        if finding.process != *process
            || finding.condition != *condition
            || finding.place != *place
        {
            return false;
        }
    }
    joint.findings.len() == expected.len() && joint.has_no_findings() == expected.is_empty()
}

/// Whether the joint audit of an image has the expected findings.
fn finds(alloc: Global, image: &Image) -> Result<bool, NoMemory> {
    let Image(words, second, expected) = image;
    let mut core = Core::new(alloc, 2)?;
    put(&mut core, &LOCK);
    put(&mut core, words);
    let joint = joint_audit(alloc, &core, &[dbr(0), dbr(*second)])?;
    Ok(are_found(&joint, expected))
}

const IMAGES: &[Image] = &[
    // Both segments are shared.
    Image(&[], 0o20, &[]),
    // The second process has other brackets for the same words, so it is not the same segment.
    Image(&[(0o24, 0o000000604554)], 0o20, &[(None, 3, 0o60)]),
    // Both processes have the same descriptor segment.
    Image(&[], 0, &[(None, 2, 0)]),
    // A segment of the second process on the descriptors of the first.
    Image(&[(0o22, 0o000000004444)], 0o20, &[(None, 2, 0)]),
    // A paged segment that both share with its page table; then one page table of two different
    // segments.
    Image(
        &[
            (0o6, 0o000001004444),
            (0o7, 0o000005100000),
            (0o26, 0o000001004444),
            (0o27, 0o000005100000),
            (0o100, 0o000020000004),
        ],
        0o20,
        &[],
    ),
    Image(
        &[
            (0o6, 0o000001004444),
            (0o7, 0o000005100000),
            (0o26, 0o000001004554),
            (0o27, 0o000005100000),
            (0o100, 0o000020000004),
        ],
        0o20,
        &[(None, 2, 0o100), (None, 3, 0o2000)],
    ),
    // Two segments of one process overlap. The other process has neither.
    Image(
        &[
            (0o6, 0o000002004444),
            (0o7, 0o000005300000),
            (0o10, 0o000002004554),
            (0o11, 0o000005300000),
        ],
        0o20,
        &[(Some(0), 4, 0o200)],
    ),
];

#[test]
fn findings_of_two_processes(rt: HostRuntime) -> Result<(), NoMemory> {
    for (n, image) in IMAGES.iter().enumerate() {
        assert!(rt; finds(rt.alloc(), image)?, "image {n}");
    }
    Ok(())
}
