//! Orders from outside: terms of each kind in their order, and hostile sizes.
use crate::common::Part::{self, A, F, I, V};
use crate::common::{expect, nested, terms};
use au_term::FlatTerm;
use std::cmp::Ordering;
use std::process::Abort;
use std::test::Fail;
use term_order::compare;

/// Terms in the standard order.
static TERMS: [&[Part]; 18] = [
    &[V(0)],
    &[V(7)],
    &[I(i64::MIN)],
    &[I(-1)],
    &[I(1)],
    &[I(i64::MAX)],
    &[A("")],
    &[A("B")],
    &[A("a")],
    &[A("ab")],
    &[A("b")],
    &[A("\u{e9}")],
    &[A("\u{10000}")],
    &[F("f", 1), I(1)],
    &[F("f", 1), A("a")],
    &[F("g", 1), I(1)],
    &[F("f", 2), I(1), A("a")],
    &[F("f", 2), A("a"), I(1)],
];

/// Each term against each.
fn check(rt: &impl Abort, terms: &[FlatTerm]) {
    for (i, left) in terms.iter().enumerate() {
        for (j, right) in terms.iter().enumerate() {
            assert_eq!(rt; compare(left, right), i.cmp(&j), "{i} and {j}");
        }
    }
}

#[test]
fn each_against_each(rt: HostRuntime) -> Result<(), Fail> {
    check(&rt, &terms(rt.alloc(), &TERMS)?);
    Ok(())
}

/// `f(f(..))` a million deep.
#[test]
fn hostile(rt: HostRuntime) -> Result<(), Fail> {
    let one = nested(rt.alloc(), 1_000_000, &[F("f", 1)], 1, I(1))?;
    let two = nested(rt.alloc(), 1_000_000, &[F("f", 1)], 1, I(2))?;
    expect(&rt, compare(&one, &two), Ordering::Less, "less");
    expect(&rt, compare(&two, &one), Ordering::Greater, "greater");
    expect(&rt, compare(&one, &one), Ordering::Equal, "equal");
    Ok(())
}
