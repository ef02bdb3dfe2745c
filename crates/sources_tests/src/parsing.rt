//! The parser: sources shown as text, and sources that are refused.

use alm_parse::{AlmFault, Arg, Atom, Expr, Line36, Lines36, Span, parse};
use m36_outside::Text;
use m36_text::{decimal, octal};
use m36_word::NoMemory;
use std::alloc::Global;

// A source as text. Each line has its number, its labels, its operation, its arguments and a line
// feed:
//
//     3 loop: again: lda pr6|5-x [20]
fn shown(alloc: Global, source: &Lines36) -> Result<Text, NoMemory> {
    let mut shown = Text::new(alloc);
    for line in source.lines() {
        show_line(source.text(), line, &mut shown)?;
        shown.push(b'\n')?;
    }
    Ok(shown)
}

fn show_line(text: &[u8], line: &Line36, shown: &mut Text) -> Result<(), NoMemory> {
    shown.append(decimal(line.line as u64).as_str().as_bytes())?;
    for label in line.labels.items() {
        shown.push(b' ')?;
        show_span(text, label, shown)?;
        shown.push(b':')?;
    }
    if let Some(op) = &line.op {
        shown.push(b' ')?;
        show_span(text, op, shown)?;
    }
    for arg in line.args.items() {
        shown.push(b' ')?;
        show_arg(text, arg, shown)?;
    }
    Ok(())
}

fn show_span(text: &[u8], span: &Span, shown: &mut Text) -> Result<(), NoMemory> {
    match text.get(span.from as usize..span.to as usize) {
        Some(bytes) => shown.append(bytes),
        None => shown.push(b'?'),
    }
}

fn show_arg(text: &[u8], arg: &Arg, shown: &mut Text) -> Result<(), NoMemory> {
    match arg {
        Arg::Symbol(span) => show_span(text, span, shown),
        Arg::Number(word) => shown.append(octal(word.value(), 12).as_str().as_bytes()),
        Arg::Chars(words) => {
            for word in words.slice() {
                shown.append(octal(word.value(), 12).as_str().as_bytes())?;
                shown.push(b'.')?;
            }
            Ok(())
        }
        Arg::Plain(expr) => show_expr(text, expr, shown),
        Arg::Operand {
            pr,
            seg,
            entry,
            expr,
            tag,
        } => {
            if let Some(pr) = pr {
                shown.append(decimal(*pr as u64).as_str().as_bytes())?;
                shown.push(b'|')?;
            }
            if let Some(seg) = seg {
                show_span(text, seg, shown)?;
                shown.push(b'$')?;
            }
            if let Some(entry) = entry {
                show_span(text, entry, shown)?;
            }
            show_expr(text, expr, shown)?;
            shown.append(b" [")?;
            shown.append(octal(*tag as u64 % 64, 2).as_str().as_bytes())?;
            shown.push(b']')
        }
    }
}

// Appends the terms, each after its sign, and symbols in quotation marks.
fn show_expr(text: &[u8], expr: &Expr, shown: &mut Text) -> Result<(), NoMemory> {
    for term in expr.items() {
        shown.push(if term.minus { b'-' } else { b'+' })?;
        match term.what {
            Atom::Number(number) => shown.append(decimal(number as u64).as_str().as_bytes())?,
            Atom::Here => shown.push(b'*')?,
            Atom::Symbol => {
                shown.push(b'\'')?;
                show_span(text, &term.span, shown)?;
                shown.push(b'\'')?;
            }
        }
    }
    Ok(())
}

fn are_shown_as(alloc: Global, lines: &Lines36, expected: &[u8]) -> bool {
    match shown(alloc, lines) {
        Ok(text) => text.bytes() == expected,
        Err(_) => false,
    }
}

fn read(alloc: Global, source: &[u8]) -> Result<Lines36, AlmFault> {
    if source.len() > 4000 {
        return Err(AlmFault::NoMemory);
    }
    parse(alloc, source)
}

// Whether a source is parsed without a fault, and shown as `expected`.
fn reads(alloc: Global, source: &[u8], expected: &[u8]) -> bool {
    match read(alloc, source) {
        Ok(lines) => are_shown_as(alloc, &lines, expected),
        Err(_) => false,
    }
}

/// A line with an operand, and how it is shown.
const OPERANDS: &[(&[u8], &[u8])] = &[
    (b" lda pr6|5,*\n", b"1 lda 6|+5 [20]\n"),
    (b" lprp4 pr7|22,*au", b"1 lprp4 7|+22 [61]\n"),
    (b" lda", b"1 lda\n"),
    (b" lda\tbb|-x.1+3,x7*", b"1 lda 3|-'x.1'+3 [37]\n"),
    (b" lda *-1,dl", b"1 lda +*-1 [07]\n"),
    (b" lda pr0,n", b"1 lda +'pr0' [00]\n"),
    (b" lda seg_$en.try-5+3,du", b"1 lda seg_$en.try-5+3 [03]\n"),
    (b" lda *text$", b"1 lda *text$ [00]\n"),
    (b" lda *link$e,*", b"1 lda *link$e [20]\n"),
    (b" lda *static$a--*+1,*n", b"1 lda *static$a+*+1 [60]\n"),
    (b" lda b$+-x,i", b"1 lda b$-'x' [51]\n"),
    (b" lda 0,id", b"1 lda +0 [56]\n"),
    (b" lda 0,di", b"1 lda +0 [54]\n"),
    (b" lda 0,ad", b"1 lda +0 [53]\n"),
    (b" lda 0,sd", b"1 lda +0 [44]\n"),
    (b" lda 0,7", b"1 lda +0 [17]\n"),
    (b" lda 0,3*", b"1 lda +0 [33]\n"),
    (b" lda 0,*x0", b"1 lda +0 [70]\n"),
    (b" lda 0,qu \"c", b"1 lda +0 [02]\n"),
    (b" tra -262143\"c", b"1 tra -262143 [00]\n"),
];

#[test]
fn operands(rt: HostRuntime) {
    for (source, expected) in OPERANDS {
        assert!(rt; reads(rt.alloc(), source, expected), "{source:?}");
    }
}

/// A source with directives or empty lines, and how it is shown.
const DIRECTIVES: &[(&[u8], &[u8])] = &[
    (b"", b""),
    (b"\n \t\"c\n\n", b"1\n2\n3\n"),
    (b"a: b:nop 0 \"c", b"1 a: b: nop +0 [00]\n"),
    (
        b" equ top,262143\n lda top\n",
        b"1 equ top +262143\n2 lda +'top' [00]\n",
    ),
    (b" entry a,b_\n segdef c", b"1 entry a b_\n2 segdef c\n"),
    (
        b" use link\n even\n entrybound\n",
        b"1 use link\n2 even\n3 entrybound\n",
    ),
    (
        b" dec -1,+5,68719476735,-34359738368",
        b"1 dec 777777777777 000000000005 777777777777 400000000000\n",
    ),
    (b" oct 157012000000,0", b"1 oct 157012000000 000000000000\n"),
    (b"msg: aci \"hell\" \"c", b"1 msg: aci 150145154154.\n"),
    (b" aci /a\"b c/", b"1 aci 141042142040.143000000000.\n"),
    (b" aci //", b"1 aci \n"),
    (b" zero -5,x+1", b"1 zero -5 +'x'+1\n"),
    (b" bss buf,12", b"1 bss buf 000000000014\n"),
    (b" nop\nx: end #\n#\n", b"1 nop\n2 x: end\n"),
];

#[test]
fn directives(rt: HostRuntime) {
    for (source, expected) in DIRECTIVES {
        assert!(rt; reads(rt.alloc(), source, expected), "{source:?}");
    }
}

// Whether a source is refused with this fault.
fn refuses(alloc: Global, source: &[u8], fault: AlmFault) -> bool {
    read(alloc, source).err() == Some(fault)
}

/// A source with a byte that is not allowed at its place, and its fault.
const BYTES_REFUSED: &[(&[u8], AlmFault)] = &[
    (b"#a:", AlmFault::E1(1, 1)),
    (b" lda #", AlmFault::E1(1, 6)),
    (b"nop\r\n", AlmFault::E3(1, 1)),
    (b" nop\n\r\n", AlmFault::E1(2, 1)),
    (b" aci /a\tb/", AlmFault::E1(1, 8)),
    (b" aci \x7fab\x7f", AlmFault::E1(1, 6)),
    (b" even \xe9", AlmFault::E1(1, 7)),
];

#[test]
fn bytes_refused(rt: HostRuntime) {
    for (source, fault) in BYTES_REFUSED {
        assert!(rt; refuses(rt.alloc(), source, *fault), "{source:?}");
    }
}

/// A source with a line that no rule allows, and its fault.
const FORMS_REFUSED: &[(&[u8], AlmFault)] = &[
    (b" lda 5#", AlmFault::E2(1, 6)),
    (b" lda 5 6", AlmFault::E2(1, 6)),
    (b" lda 5,zz", AlmFault::E2(1, 6)),
    (b" lda 5,", AlmFault::E2(1, 6)),
    (b" lda ,x1", AlmFault::E2(1, 6)),
    (b" lda pr0|", AlmFault::E2(1, 6)),
    (b" lda pr8|5", AlmFault::E2(1, 6)),
    (b" lda *text", AlmFault::E2(1, 6)),
    (b" lda b$5", AlmFault::E2(1, 6)),
    (b" lda 05", AlmFault::E2(1, 6)),
    (b" lda 999999,zz", AlmFault::E2(1, 6)),
    (b" aci /ab", AlmFault::E2(1, 6)),
    (b" aci /a\tb", AlmFault::E2(1, 6)),
    (b" aci /ab/x", AlmFault::E2(1, 6)),
    (b" oct 18", AlmFault::E2(1, 6)),
    (b" use foo", AlmFault::E2(1, 6)),
    (b":", AlmFault::E2(1, 1)),
    (b"a#:", AlmFault::E2(1, 1)),
    (b"a: 5b: nop", AlmFault::E2(1, 4)),
    (b" dec", AlmFault::E2(1, 2)),
    (b" aci\"ab\"", AlmFault::E2(1, 2)),
    (b" zero 5", AlmFault::E2(1, 7)),
    (b" zero 5,6,7", AlmFault::E2(1, 7)),
    (b" even 5", AlmFault::E2(1, 7)),
    (b" entry a,,b", AlmFault::E2(1, 8)),
    (
        b"abcdefghijklmnopqrstuvwxyz0123456: nop",
        AlmFault::E2(1, 1),
    ),
];

#[test]
fn forms_refused(rt: HostRuntime) {
    for (source, fault) in FORMS_REFUSED {
        assert!(rt; refuses(rt.alloc(), source, *fault), "{source:?}");
    }
}

/// A source with an unknown operation or a number out of range, and its fault.
const OTHERS_REFUSED: &[(&[u8], AlmFault)] = &[
    (b" foo", AlmFault::E3(1, 2)),
    (b" lda+5", AlmFault::E3(1, 2)),
    (b"nop:5", AlmFault::E3(1, 5)),
    (b" nop\n foo\n lda #", AlmFault::E3(2, 2)),
    (b" lda 262144", AlmFault::E4(1, 6)),
    (b" lda -262144", AlmFault::E4(1, 7)),
    (b" lda a$b-262144", AlmFault::E4(1, 10)),
    (b" dec 5,-34359738369", AlmFault::E4(1, 8)),
    (b" dec 68719476736", AlmFault::E4(1, 6)),
    (b" oct 1000000000000", AlmFault::E4(1, 6)),
    (b" bss a,262144", AlmFault::E4(1, 8)),
    (b" zero 1,262144", AlmFault::E4(1, 9)),
    (b" equ a,262144", AlmFault::E4(1, 8)),
];

#[test]
fn operations_and_numbers_refused(rt: HostRuntime) {
    for (source, fault) in OTHERS_REFUSED {
        assert!(rt; refuses(rt.alloc(), source, *fault), "{source:?}");
    }
}
