//! The lines of statuses.

use crate::memory::has_line;
use m36_outside::Text;
use m36_status::{Bad, Code, Status};
use m36_word::NoMemory;

#[test]
fn tells_the_place(rt: HostRuntime) -> Result<(), NoMemory> {
    let bad = Bad {
        name: Text::from_bytes(rt.alloc(), b"main.alm")?,
        code: Code::E3,
        at: 12,
        column: 7,
    };
    let status = Status::BadFile(bad);
    assert!(rt; has_line(rt.alloc(), &status, b"m36: BadFile main.alm E3 12 7\n"));
    Ok(())
}

#[test]
fn tells_others(rt: HostRuntime) {
    assert!(rt; has_line(rt.alloc(), &Status::Done, b""));
    assert!(rt; has_line(rt.alloc(), &Status::Usage, b"m36: Usage\n"));
}
