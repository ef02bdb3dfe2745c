//! Parses lines that say what one step changes in registers and words.
//!
//! A line has the instruction's name, its word, the state before the step, `>`, and what the step
//! changes. Whatever is not named stays the same, except that the instruction counter grows by 1.
//! In the state before, whatever is not named is 0. The instruction is at word 100 of segment 1,
//! which ring 0 may write and all rings may read and execute.
//!
//! Numbers are octal. The names are:
//!
//! - `a`, `q`, and `x0` to `x7`: registers
//! - `p0` to `p7`: pointer registers, as segment, ring, word and bit number
//! - `i`: the indicators that are on: `z` zero, `n` negative, `c` carry, `o` overflow, `m` overflow
//!   mask, `t` tally runout
//! - `psr`, `prr` and `ic`: segment, ring and word at which execution goes on
//! - `d0` and `d1`: the two words of the descriptor segment base register
//! - `y0` to `y17`: words 200 to 217 of segment 1
//! - `rings`: the rings of all pointer registers
//! - `fault`: the number of a fault at the instruction, in decimal
//! - `stop`: 1 for the stop of DIS

ghost use Rattle.std.specs.Prelude.{◌≤◌};

/// The registers, the words that instructions refer to, and how a step ended.
#[derive(Clone, Copy, PartialEq, Eq, Debug)]
pub struct Seen {
    pub x: [u64; 8],
    /// Segment, ring, word and bit number in one number of 42 bits, from the most significant on.
    pub p: [u64; 8],
    pub y: [u64; 16],
    pub a: u64,
    pub q: u64,
    /// Zero is 1, negative 2, carry 4, overflow 8, mask 16, tally 32.
    pub ind: u64,
    pub psr: u64,
    pub prr: u64,
    pub ic: u64,
    pub d0: u64,
    pub d1: u64,
    /// The sum of all core words except those of `y`, modulo 2^64.
    pub others: u64,
    /// 0 if the next instruction follows, 1 for the stop of DIS, 100 plus the number of a fault at
    /// the instruction, and 2 for anything else.
    pub end: u64,
}

const START: Seen = Seen {
    x: [0; 8],
    p: [0; 8],
    y: [0; 16],
    a: 0,
    q: 0,
    ind: 0,
    psr: 1,
    prr: 0,
    ic: 0o100,
    d0: 0,
    d1: 0o000170200001,
    others: 0,
    end: 0,
};

/// A parsed line: the expected states before and after the step, and the instruction word.
#[derive(Clone, Copy)]
pub struct Line {
    pub before: Seen,
    pub after: Seen,
    pub word: u64,
}

/// The number that the digits of a text make. Other characters are skipped.
fn number(text: &[u8], base: u64) -> u64
    requires { base ≤ 10 }
{
    let mut v = 0;
    for b in text {
        if *b >= b'0' && *b <= b'9' {
            v = v % (1 << 56) * base + (*b - b'0') as u64;
        }
    }
    v
}

fn indicators(letters: &[u8]) -> u64 {
    let mut v = 0;
    for b in letters {
        v |= match *b {
            b'z' => 1,
            b'n' => 2,
            b'c' => 4,
            b'o' => 8,
            b'm' => 16,
            b't' => 32,
            _ => 64,
        };
    }
    v
}

/// A pointer, packed as in `Seen`, with another ring.
fn in_ring(p: u64, ring: u64) -> u64 {
    p & !(7 << 24) | ring % 8 << 24
}

/// `seen` with the named part set to the value of a text. An unknown name sets `end` to 2.
fn with(seen: &Seen, name: &[u8], text: &[u8]) -> Seen {
    let v = number(text, 8);
    let mut after = *seen;
    match name {
        b"a" => after.a = v,
        b"q" => after.q = v,
        b"i" => after.ind = indicators(text),
        b"ic" => after.ic = v,
        b"psr" => after.psr = v,
        b"prr" => after.prr = v,
        b"d0" => after.d0 = v,
        b"d1" => after.d1 = v,
        b"stop" => after.end = v,
        b"fault" => after.end = number(text, 10) % 100 + 100,
        b"rings" => {
            for p in after.p.iter_mut() {
                *p = in_ring(*p, v);
            }
        }
        [b'x', n] => after.x[(*n % 8) as usize] = v,
        [b'p', n] => after.p[(*n % 8) as usize] = v,
        [b'y', n] => after.y[(*n % 8) as usize] = v,
        [b'y', b'1', n] => after.y[(*n % 8) as usize + 8] = v,
        _ => after.end = 2,
    }
    after
}

fn moved_on(seen: &Seen) -> Seen {
    let mut after = *seen;
    after.ic = seen.ic % (1 << 18) + 1;
    after
}

/// Parses a line.
pub fn read(text: &str) -> Line {
    let mut line = Line {
        before: START,
        after: START,
        word: 0,
    };
    let mut is_after = false;
    for part in text.split_whitespace() {
        if part == ">" {
            line.after = moved_on(&line.before);
            is_after = true;
        } else if let Some((name, v)) = part.split_once('=') {
            if is_after {
                line.after = with(&line.after, name.as_bytes(), v.as_bytes());
            } else {
                line.before = with(&line.before, name.as_bytes(), v.as_bytes());
            }
        } else {
            line.word = number(part.as_bytes(), 8);
        }
    }
    line
}
