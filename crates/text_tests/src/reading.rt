//! Texts and their terms; places and kinds of faults.

use crate::common::{expect, hold};
use au_model::{DoubleQuotes, FaultKind};
use au_term::FlatTerm;
use op_table::Ops;
use std::alloc::Global;
use std::process::Abort;
use std::test::Fail;
use term_reader::{ReadOutcome, ReadRefused, read_term};

/// A text, the place from which it is read, its term in functional notation, and the place after it.
type Case = (&'static str, usize, &'static str, usize);

/// A text, the place from which it is read, and the line, column and kind of its fault.
type Bad = (&'static str, usize, u32, u32, FaultKind);

static CASES: [Case; 55] = [
    ("a+b. c.", 0, "+(a,b) .", 4),
    ("a+b. c.", 4, "c .", 7),
    ("- 1 .", 0, "-(1) .", 5),
    ("-1 .", 0, "-1 .", 4),
    ("-(1).", 0, "-(1) .", 5),
    ("- (1).", 0, "-(1) .", 6),
    ("-a.", 0, "-(a) .", 3),
    ("- - a.", 0, "-(-(a)) .", 6),
    ("\\+a.", 0, "\\+(a) .", 4),
    ("\\+ (a,b).", 0, "\\+(','(a,b)) .", 9),
    ("a- -1.", 0, "-(a,-1) .", 6),
    ("a - 1.", 0, "-(a,1) .", 6),
    ("a -1.", 0, "-(a,1) .", 5),
    ("1 - -1.", 0, "-(1,-1) .", 7),
    ("a:-b,c;d->e.", 0, ":-(a,;(','(b,c),->(d,e))) .", 12),
    ("f(:-).", 0, "f(:-) .", 6),
    ("f(:-,a).", 0, "f(:-,a) .", 8),
    ("[-].", 0, "'.'(-,[]) .", 4),
    ("[a|b].", 0, "'.'(a,b) .", 6),
    ("[a,b|T].", 0, "'.'(a,'.'(b,V0)) .", 8),
    ("{a,b}.", 0, "{}(','(a,b)) .", 6),
    ("{}.", 0, "{} .", 3),
    ("{ }.", 0, "{} .", 4),
    ("{}(x).", 0, "{}(x) .", 6),
    ("[](x).", 0, "[](x) .", 6),
    ("[ ](b).", 0, "[](b) .", 7),
    ("- = x.", 0, "=(-,x) .", 6),
    ("\\ -1.", 0, "\\(-1) .", 5),
    ("X = (a ',' b).", 0, "=(V0,','(a,b)) .", 14),
    ("'\\''.", 0, "'\\'' .", 5),
    (".(a,[]).", 0, "'.'(a,[]) .", 8),
    ("f(A,_,B,A,_).", 0, "f(V0,V1,V2,V0,V3) .", 13),
    ("a-b-c.", 0, "-(-(a,b),c) .", 6),
    ("a^b^c.", 0, "^(a,^(b,c)) .", 6),
    ("- - 1.", 0, "-(-(1)) .", 6),
    ("- (-).", 0, "-(-) .", 6),
    ("- .", 0, "- .", 3),
    ("-(-).", 0, "-(-) .", 5),
    ("-(a,b).", 0, "-(a,b) .", 7),
    ("- (a,b).", 0, "-(','(a,b)) .", 8),
    ("'-'1.", 0, "-(1) .", 5),
    ("'-' 1.", 0, "-(1) .", 6),
    ("-0x8000000000000000.", 0, "-9223372036854775808 .", 20),
    ("9223372036854775807.", 0, "9223372036854775807 .", 20),
    ("'|'.", 0, "'|' .", 4),
    ("'[]'.", 0, "[] .", 5),
    ("((a)).", 0, "a .", 6),
    ("[(a:-b),c].", 0, "'.'(:-(a,b),'.'(c,[])) .", 11),
    (":- dynamic(c/1).", 0, ":-(dynamic(/(c,1))) .", 16),
    ("- - .", 0, "-(-) .", 5),
    ("* = * .", 0, "=(*,*) .", 7),
    ("\\+ \\+ a.", 0, "\\+(\\+(a)) .", 8),
    ("a = \\+ .", 0, "=(a,\\+) .", 8),
    ("f(;, '|', '[]').", 0, "f(;,'|',[]) .", 16),
    ("/* c */ a % c\n . b", 0, "a .", 16),
];

static FAULTS: [Bad; 35] = [
    ("p(1", 0, 1, 4, FaultKind::UnexpectedEnd),
    ("p(1).q(", 0, 1, 5, FaultKind::UnexpectedToken),
    ("p('ab", 0, 1, 3, FaultKind::UnclosedQuote),
    ("/* x", 0, 1, 1, FaultKind::UnclosedComment),
    ("p('\\q').", 0, 1, 4, FaultKind::BadEscape),
    ("p(1.5).", 0, 1, 3, FaultKind::FloatNumeral),
    ("p(]).", 0, 1, 3, FaultKind::UnexpectedToken),
    ("p:-q", 0, 1, 5, FaultKind::UnexpectedEnd),
    ("p(`", 0, 1, 3, FaultKind::BadCharacter),
    ("p(9223372036854775809).", 0, 1, 3, FaultKind::WideNumeral),
    ("p(9223372036854775808).", 0, 1, 3, FaultKind::WideNumeral),
    (":- dynamic c/1.", 0, 1, 12, FaultKind::UnexpectedToken),
    ("f(- --> a).", 0, 1, 9, FaultKind::UnexpectedToken),
    ("f(:- --> a).", 0, 1, 6, FaultKind::UnexpectedToken),
    ("p :- X = \\+ - 1.", 0, 1, 13, FaultKind::UnexpectedToken),
    ("- 9223372036854775808 .", 0, 1, 3, FaultKind::WideNumeral),
    ("p 9223372036854775808.", 0, 1, 3, FaultKind::WideNumeral),
    (
        "p q 9223372036854775808.",
        0,
        1,
        3,
        FaultKind::UnexpectedToken,
    ),
    ("f(a:-b).", 0, 1, 4, FaultKind::UnexpectedToken),
    ("a = b = c.", 0, 1, 7, FaultKind::UnexpectedToken),
    (":- :- a.", 0, 1, 7, FaultKind::UnexpectedToken),
    ("p(. ", 0, 1, 3, FaultKind::UnexpectedToken),
    ("f(a ',' b).", 0, 1, 5, FaultKind::UnexpectedToken),
    ("[a|b:-c].", 0, 1, 5, FaultKind::UnexpectedToken),
    ("[a|b,c].", 0, 1, 5, FaultKind::UnexpectedToken),
    ("f(- -->", 0, 1, 8, FaultKind::UnexpectedEnd),
    ("f(:- -->", 0, 1, 6, FaultKind::UnexpectedToken),
    ("f(- --> 'a", 0, 1, 9, FaultKind::UnclosedQuote),
    ("{a,b", 0, 1, 5, FaultKind::UnexpectedEnd),
    ("\np(1)\n :- (", 0, 3, 6, FaultKind::UnexpectedEnd),
    ("2**3^4.", 0, 1, 5, FaultKind::UnexpectedToken),
    ("f(a b).", 0, 1, 5, FaultKind::UnexpectedToken),
    ("p(1).\np(\n", 5, 3, 1, FaultKind::UnexpectedEnd),
    ("- (a", 0, 1, 5, FaultKind::UnexpectedEnd),
    ("f(\\ :- :- a).", 0, 1, 8, FaultKind::UnexpectedToken),
];

fn read_from(
    rt: &impl Abort,
    alloc: Global,
    text: &str,
    at: usize,
    ops: &Ops,
    quotes: DoubleQuotes,
) -> Result<ReadOutcome, ReadRefused> {
    assert!(rt; text.is_char_boundary(at));
    read_term(alloc, text, at, ops, quotes)
}

/// The term that is read, how many names it has, and the place after it.
type Found = Option<(FlatTerm, usize, usize)>;

fn read(
    rt: &impl Abort,
    alloc: Global,
    text: &str,
    at: usize,
    ops: &Ops,
    quotes: DoubleQuotes,
) -> Found {
    match read_from(rt, alloc, text, at, ops, quotes) {
        Ok(ReadOutcome::Read { term, names, end }) => Some((term, names.len(), end)),
        _ => None,
    }
}

/// Whether the same term is read, with no more names, and where it ends.
fn are_same(found: &Found, wanted: &Found) -> Option<usize> {
    match (found, wanted) {
        (Some(found), Some(wanted)) => {
            if found.0.cells() == wanted.0.cells() && found.1 <= wanted.1 {
                Some(found.2)
            } else {
                None
            }
        }
        _ => None,
    }
}

fn check(rt: &impl Abort, alloc: Global, ops: &Ops, quotes: DoubleQuotes, case: &Case) {
    let (text, at, same, place) = case;
    let found = read(rt, alloc, text, *at, ops, quotes);
    let wanted = read(rt, alloc, same, 0, ops, quotes);
    expect(rt, are_same(&found, &wanted), Some(*place), text);
}

fn check_all(rt: &impl Abort, alloc: Global, ops: &Ops, cases: &[Case]) {
    for case in cases {
        check(rt, alloc, ops, DoubleQuotes::Codes, case);
    }
}

fn check_fault(
    rt: &impl Abort,
    alloc: Global,
    ops: &Ops,
    text: &str,
    at: usize,
    wanted: ReadRefused,
) {
    let found = read_from(rt, alloc, text, at, ops, DoubleQuotes::Codes);
    expect(rt, found.err(), Some(wanted), text);
}

fn check_faults(rt: &impl Abort, alloc: Global, ops: &Ops, faults: &[Bad]) {
    for (text, at, line, column, kind) in faults {
        let wanted = ReadRefused::Syntax {
            line: *line,
            column: *column,
            kind: *kind,
        };
        check_fault(rt, alloc, ops, text, *at, wanted);
    }
}

#[test]
fn terms(rt: HostRuntime) -> Result<(), Fail> {
    let ops = Ops::initial(rt.alloc())?;
    check_all(&rt, rt.alloc(), &ops, &CASES);
    Ok(())
}

#[test]
fn faults(rt: HostRuntime) -> Result<(), Fail> {
    let ops = Ops::initial(rt.alloc())?;
    check_faults(&rt, rt.alloc(), &ops, &FAULTS);
    Ok(())
}

/// What a text in double quotes is.
const QUOTES: [(DoubleQuotes, &str); 3] = [
    (DoubleQuotes::Codes, "[97,98]."),
    (DoubleQuotes::Chars, "[a,b]."),
    (DoubleQuotes::Atom, "ab."),
];

#[test]
fn quotes(rt: HostRuntime) -> Result<(), Fail> {
    let ops = Ops::initial(rt.alloc())?;
    for (quotes, same) in QUOTES {
        check(&rt, rt.alloc(), &ops, quotes, &("\"ab\".", 0, same, 5));
    }
    Ok(())
}

fn is_end(outcome: &Result<ReadOutcome, ReadRefused>) -> bool {
    match outcome {
        Ok(ReadOutcome::EndOfText) => true,
        _ => false,
    }
}

#[test]
fn end_of_text(rt: HostRuntime) -> Result<(), Fail> {
    let ops = Ops::initial(rt.alloc())?;
    let text = "a. % b\n /* c */ ";
    let outcome = read_from(&rt, rt.alloc(), text, 2, &ops, DoubleQuotes::Chars);
    hold(&rt, is_end(&outcome), text);
    Ok(())
}

/// A text that begins so and goes on with 65,535 atoms, a comma after each.
fn many(alloc: Global, beginning: &str) -> Result<String, Fail> {
    let mut text = String::from_str(alloc, beginning)?;
    for _ in 0..65535 {
        text.push_str("a,")?;
    }
    Ok(text)
}

/// The beginning of such a text, and the column and kind of its fault. Round brackets after an operator hold one term,
/// however many commas it has.
static MANY: [(&str, u32, FaultKind); 5] = [
    ("g- f(", 4, FaultKind::TooManyArguments),
    ("h(b,'f'(", 5, FaultKind::TooManyArguments),
    ("h([ ](", 3, FaultKind::TooManyArguments),
    ("b-(", 131_074, FaultKind::UnexpectedEnd),
    ("[", 131_072, FaultKind::UnexpectedEnd),
];

fn check_many(rt: &impl Abort, alloc: Global, ops: &Ops) -> Result<(), Fail> {
    for (beginning, column, kind) in &MANY {
        let text = many(alloc, beginning)?;
        let wanted = ReadRefused::Syntax {
            line: 1,
            column: *column,
            kind: *kind,
        };
        check_fault(rt, alloc, ops, text.as_str(), 0, wanted);
    }
    Ok(())
}

#[test]
fn too_many_arguments(rt: HostRuntime) -> Result<(), Fail> {
    let ops = Ops::initial(rt.alloc())?;
    check_many(&rt, rt.alloc(), &ops)
}
