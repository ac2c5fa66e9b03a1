//! Names of built-in predicates and control constructs; and each built-in called once with ample memory.
use crate::common::Part::{self, A, F, I, V};
use crate::common::{expect, hold, term, terms};
use au_model::Style;
use au_term::{FlatTerm, NoMemory};
use std::alloc::Global;
use std::process::Abort;
use std::test::Fail;
use std_builtins::{
    Builtin, BuiltinRefusal, Control, Solution, WorldGoal, builtin_of, control_of, is_builtin,
    is_control, is_world_goal, world_goal_of,
};
use term_order::compare;

static BUILTINS: [(&str, u32, Option<Builtin>); 3] = [
    ("=", 2, Some(Builtin::Unify)),
    ("is", 2, Some(Builtin::Is)),
    ("=", 1, None),
];

static CONTROLS: [(&str, u32, Option<Control>); 4] = [
    ("call", 8, Some(Control::Call)),
    ("findall", 3, Some(Control::Findall)),
    ("call", 9, None),
    ("=", 2, None),
];

static WORLD_GOALS: [(&str, u32, Option<WorldGoal>); 3] = [
    ("nl", 0, Some(WorldGoal::Nl)),
    ("write", 1, Some(WorldGoal::Write(Style::Plain))),
    ("write", 2, None),
];

#[test]
fn names(rt: HostRuntime) {
    for (name, arity, wanted) in &BUILTINS {
        expect(&rt, builtin_of(name, *arity), *wanted, name);
        expect(&rt, is_builtin(name, *arity), wanted.is_some(), name);
    }
}

#[test]
fn names_of_control(rt: HostRuntime) {
    for (name, arity, wanted) in &CONTROLS {
        expect(&rt, control_of(name, *arity), *wanted, name);
        expect(&rt, is_control(name, *arity), wanted.is_some(), name);
    }
}

#[test]
fn names_of_goals_on_the_world(rt: HostRuntime) {
    for (name, arity, wanted) in &WORLD_GOALS {
        expect(&rt, world_goal_of(name, *arity), *wanted, name);
        expect(&rt, is_world_goal(name, *arity), wanted.is_some(), name);
    }
}

/// What a goal has as its answer.
#[derive(Clone, Copy)]
enum Wanted {
    /// So many solutions.
    Solutions(usize),
    /// One solution, whose first equation has this term on its right side.
    Equal(&'static [Part]),
}

use Wanted::{Equal, Solutions};

/// A name, the arguments of the goal, and its answer.
type Row = (&'static str, &'static [&'static [Part]], Wanted);

static TESTS: [Row; 4] = [
    ("var", &[&[V(0)]], Solutions(1)),
    ("=", &[&[V(0)], &[A("a")]], Equal(&[A("a")])),
    ("\\=", &[&[V(0)], &[A("a")]], Solutions(0)),
    ("@<", &[&[V(0)], &[A("a")]], Solutions(1)),
];

static VALUES: [Row; 3] = [
    ("is", &[&[V(0)], &[F("+", 2), I(1), I(2)]], Equal(&[I(3)])),
    ("<", &[&[I(1)], &[I(2)]], Solutions(1)),
    ("compare", &[&[V(0)], &[I(1)], &[I(2)]], Equal(&[A("<")])),
];

static PARTS: [Row; 4] = [
    (
        "functor",
        &[&[F("f", 1), A("a")], &[V(0)], &[V(0)]],
        Equal(&[A("f")]),
    ),
    (
        "arg",
        &[&[I(1)], &[F("f", 1), A("a")], &[V(0)]],
        Equal(&[A("a")]),
    ),
    (
        "=..",
        &[&[A("a")], &[V(0)]],
        Equal(&[F(".", 2), A("a"), A("[]")]),
    ),
    (
        "copy_term",
        &[&[F("f", 1), A("a")], &[V(0)]],
        Equal(&[F("f", 1), A("a")]),
    ),
];

static ATOMS: [Row; 10] = [
    ("atom_length", &[&[A("a")], &[V(0)]], Equal(&[I(1)])),
    ("char_code", &[&[A("a")], &[V(0)]], Equal(&[I(97)])),
    (
        "atom_chars",
        &[&[A("a")], &[V(0)]],
        Equal(&[F(".", 2), A("a"), A("[]")]),
    ),
    (
        "atom_codes",
        &[&[A("a")], &[V(0)]],
        Equal(&[F(".", 2), I(97), A("[]")]),
    ),
    ("atom_concat", &[&[V(0)], &[V(0)], &[A("ab")]], Solutions(3)),
    (
        "atom_concat",
        &[&[A("a")], &[V(0)], &[A("ab")]],
        Equal(&[A("a")]),
    ),
    (
        "atom_concat",
        &[&[A("b")], &[A("a")], &[V(0)]],
        Equal(&[A("ba")]),
    ),
    (
        "sub_atom",
        &[&[A("aaa")], &[V(0)], &[V(0)], &[V(0)], &[A("aa")]],
        Solutions(2),
    ),
    (
        "sub_atom",
        &[&[A("aaa")], &[V(0)], &[V(0)], &[V(0)], &[A("")]],
        Solutions(4),
    ),
    (
        "sub_atom",
        &[&[A("aaa")], &[V(0)], &[V(0)], &[V(0)], &[A("b")]],
        Solutions(0),
    ),
];

static TEXTS: [Row; 2] = [
    (
        "number_codes",
        &[&[V(0)], &[F(".", 2), I(55), A("[]")]],
        Equal(&[I(7)]),
    ),
    (
        "number_chars",
        &[&[I(7)], &[V(0)]],
        Equal(&[F(".", 2), A("7"), A("[]")]),
    ),
];

static SORTS: [Row; 2] = [
    (
        "sort",
        &[
            &[
                F(".", 2),
                A("b"),
                F(".", 2),
                A("a"),
                F(".", 2),
                A("b"),
                A("[]"),
            ],
            &[V(0)],
        ],
        Equal(&[F(".", 2), A("a"), F(".", 2), A("b"), A("[]")]),
    ),
    (
        "keysort",
        &[&[F(".", 2), F("-", 2), A("k"), A("v"), A("[]")], &[V(0)]],
        Equal(&[F(".", 2), F("-", 2), A("k"), A("v"), A("[]")]),
    ),
];

/// Whether an answer is one solution, whose first equation has this term on its right side.
fn finds(solutions: &[Solution], expected: &FlatTerm) -> bool {
    match solutions {
        [only] => match only.equations.as_slice() {
            [first, ..] => compare(&first.1, expected).is_eq(),
            [] => false,
        },
        _ => false,
    }
}

/// What the goal of a built-in has as its answer.
fn answer(
    rt: &impl Abort,
    alloc: Global,
    name: &str,
    arguments: &[FlatTerm],
) -> Result<Vec<Solution>, BuiltinRefusal> {
    let count = arguments.len();
    assert!(rt; count < 9);
    match builtin_of(name, count as u32) {
        Some(builtin) => builtin.call(alloc, arguments, 9),
        None => Err(BuiltinRefusal::NoMemory),
    }
}

fn is_wanted(alloc: Global, solutions: &[Solution], wanted: Wanted) -> Result<bool, NoMemory> {
    match wanted {
        Solutions(count) => Ok(solutions.len() == count),
        Equal(parts) => Ok(finds(solutions, &term(alloc, parts)?)),
    }
}

fn check(rt: &impl Abort, alloc: Global, row: &Row) -> Result<(), Fail> {
    let (name, arguments, wanted) = row;
    let arguments = terms(alloc, arguments)?;
    match answer(rt, alloc, name, &arguments) {
        Ok(solutions) => hold(rt, is_wanted(alloc, &solutions, *wanted)?, name),
        Err(_) => hold(rt, false, name),
    }
    Ok(())
}

#[test]
fn each_is_called(rt: HostRuntime) -> Result<(), Fail> {
    for rows in [TESTS.as_slice(), &VALUES, &PARTS, &ATOMS, &TEXTS, &SORTS] {
        for row in rows {
            check(&rt, rt.alloc(), row)?;
        }
    }
    Ok(())
}
