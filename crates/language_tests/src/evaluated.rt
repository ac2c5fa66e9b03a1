//! Values from outside: the examples of ISO/IEC 13211-1, 9.1, 9.3 and 9.4, and the limits of 64 bits.
use crate::common::Part::{self, A, F, I, V};
use crate::common::{expect, nested, term};
use arith_eval::{EvalRefusal, eval};
use au_model::{EvalName, Fault, TypeName};
use au_term::NoMemory;
use std::alloc::Global;
use std::process::Abort;
use std::test::Fail;

/// What is seen of an evaluation.
#[derive(Clone, Copy, Debug, PartialEq, Eq)]
enum Seen {
    Value(i64),
    Error(EvalName),
    Unbound,
    NotEvaluable,
    Other,
}

fn seen_of(answer: Result<i64, EvalRefusal>) -> Seen {
    match answer {
        Ok(value) => Seen::Value(value),
        Err(EvalRefusal::Fault(Fault::Instantiation)) => Seen::Unbound,
        Err(EvalRefusal::Fault(Fault::Evaluation(error))) => Seen::Error(error),
        Err(EvalRefusal::Fault(Fault::WrongType(TypeName::Evaluable, _))) => Seen::NotEvaluable,
        Err(_) => Seen::Other,
    }
}

const OVERFLOW: Seen = Seen::Error(EvalName::IntOverflow);

const ZERO: Seen = Seen::Error(EvalName::ZeroDivisor);

const UNDEFINED: Seen = Seen::Error(EvalName::Undefined);

static BINARY: [(i64, &str, i64, Seen); 62] = [
    (7, "+", 35, Seen::Value(42)),
    (0, "-", 11, Seen::Value(-11)),
    (7, "*", 35, Seen::Value(245)),
    (i64::MAX, "+", 1, OVERFLOW),
    (i64::MIN, "-", 1, OVERFLOW),
    (4294967296, "*", 2147483648, OVERFLOW),
    (7, "//", 2, Seen::Value(3)),
    (-7, "//", 2, Seen::Value(-3)),
    (i64::MIN, "//", -1, OVERFLOW),
    (7, "//", 0, ZERO),
    (8, "/", -2, Seen::Value(-4)),
    (7, "/", 2, UNDEFINED),
    (7, "mod", -2, Seen::Value(-1)),
    (-1, "mod", 3, Seen::Value(2)),
    (-5, "mod", -3, Seen::Value(-2)),
    (i64::MIN, "mod", -1, Seen::Value(0)),
    (1, "mod", i64::MIN, Seen::Value(i64::MIN + 1)),
    (7, "rem", -2, Seen::Value(1)),
    (-7, "rem", 2, Seen::Value(-1)),
    (1, "rem", 0, ZERO),
    (2, "min", -3, Seen::Value(-3)),
    (2, "max", -3, Seen::Value(2)),
    (0, "^", 0, Seen::Value(1)),
    (-1, "**", -3, Seen::Value(-1)),
    (2, "**", -1, UNDEFINED),
    (0, "^", -1, UNDEFINED),
    (-2, "^", 63, Seen::Value(i64::MIN)),
    (2, "^", 63, OVERFLOW),
    (-1, "^", i64::MAX, Seen::Value(-1)),
    (3, "^", i64::MAX, OVERFLOW),
    (16, "<<", 2, Seen::Value(64)),
    (-1, "<<", 63, Seen::Value(i64::MIN)),
    (1, "<<", 64, OVERFLOW),
    (0, "<<", i64::MAX, Seen::Value(0)),
    (19, ">>", 2, Seen::Value(4)),
    (-1, ">>", i64::MAX, Seen::Value(-1)),
    (1, ">>", i64::MIN, OVERFLOW),
    (10, "/\\", 12, Seen::Value(8)),
    (10, "\\/", 12, Seen::Value(14)),
    (1, "foo", 2, Seen::NotEvaluable),
    (i64::MIN, "+", -1, OVERFLOW),
    (i64::MAX, "-", -1, OVERFLOW),
    (i64::MIN, "*", -1, OVERFLOW),
    (i64::MAX, "*", -1, Seen::Value(-i64::MAX)),
    (i64::MIN, "/", -1, OVERFLOW),
    (7, "/", 0, ZERO),
    (7, "mod", 2, Seen::Value(1)),
    (7, "mod", 0, ZERO),
    (7, "rem", 2, Seen::Value(1)),
    (-7, "rem", -2, Seen::Value(-1)),
    (i64::MIN, "rem", -1, Seen::Value(0)),
    (i64::MIN, "min", i64::MAX, Seen::Value(i64::MIN)),
    (i64::MIN, "max", i64::MAX, Seen::Value(i64::MAX)),
    (1, "^", i64::MIN, Seen::Value(1)),
    (-1, "^", i64::MIN, Seen::Value(1)),
    (1, "<<", 63, OVERFLOW),
    (5, "<<", -1, Seen::Value(2)),
    (-1, "<<", i64::MIN, Seen::Value(-1)),
    (i64::MIN, ">>", 63, Seen::Value(-1)),
    (i64::MAX, ">>", 64, Seen::Value(0)),
    (8, ">>", -1, Seen::Value(16)),
    (0, ">>", i64::MIN, Seen::Value(0)),
];

static UNARY: [(&str, i64, Seen); 11] = [
    ("-", i64::MIN, OVERFLOW),
    ("+", -1, Seen::Value(-1)),
    ("abs", i64::MIN, OVERFLOW),
    ("abs", -7, Seen::Value(7)),
    ("sign", -7, Seen::Value(-1)),
    ("\\", 10, Seen::Value(-11)),
    ("foo", 1, Seen::NotEvaluable),
    ("-", i64::MAX, Seen::Value(-i64::MAX)),
    ("sign", i64::MIN, Seen::Value(-1)),
    ("sign", 0, Seen::Value(0)),
    ("\\", i64::MIN, Seen::Value(i64::MAX)),
];

fn value(alloc: Global, parts: &[Part]) -> Result<Seen, NoMemory> {
    Ok(seen_of(eval(alloc, &term(alloc, parts)?)))
}

fn check(
    rt: &impl Abort,
    alloc: Global,
    parts: &[Part],
    wanted: Seen,
    name: &str,
) -> Result<(), Fail> {
    expect(rt, value(alloc, parts)?, wanted, name);
    Ok(())
}

#[test]
fn functions(rt: HostRuntime) -> Result<(), Fail> {
    for (x, name, y, wanted) in &BINARY {
        let parts = [F(name, 2), I(*x), I(*y)];
        check(&rt, rt.alloc(), &parts, *wanted, name)?;
    }
    for (name, x, wanted) in &UNARY {
        check(&rt, rt.alloc(), &[F(name, 1), I(*x)], *wanted, name)?;
    }
    Ok(())
}

/// Terms with errors, and which of them is seen.
static ERRORS: [(&[Part], Seen); 5] = [
    (&[V(0)], Seen::Unbound),
    (&[F("+", 2), V(0), A("foo")], Seen::Unbound),
    (&[F("+", 2), A("foo"), V(0)], Seen::NotEvaluable),
    (&[F("foo", 1), V(0)], Seen::NotEvaluable),
    (&[F("+", 2), F("//", 2), I(1), I(0), A("foo")], ZERO),
];

#[test]
fn errors(rt: HostRuntime) -> Result<(), Fail> {
    for (parts, wanted) in &ERRORS {
        check(&rt, rt.alloc(), parts, *wanted, "errors")?;
    }
    Ok(())
}

/// A sum that is nested a million times.
fn check_deep(
    rt: &impl Abort,
    alloc: Global,
    parts: &[Part],
    ends: u32,
    name: &str,
) -> Result<(), Fail> {
    let sum = nested(alloc, 1_000_000, parts, ends, I(1))?;
    let found = seen_of(eval(alloc, &sum));
    expect(rt, found, Seen::Value(1_000_001), name);
    Ok(())
}

/// `1 + (1 + ..)` and `(.. + 1) + 1`.
#[test]
fn deep(rt: HostRuntime) -> Result<(), Fail> {
    check_deep(&rt, rt.alloc(), &[F("+", 2), I(1)], 1, "right")?;
    check_deep(&rt, rt.alloc(), &[F("+", 2)], 1_000_001, "left")
}
