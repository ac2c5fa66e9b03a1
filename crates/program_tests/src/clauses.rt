//! What no clause gives: which clauses and goals certain terms make, and that long ones are made and dropped.
use crate::common::{expect, hold};
use crate::terms::Piece::{self, Name, Number, Variable};
use crate::terms::{cell, finish, push, term};
use au_term::{Cell, FlatTerm, NoMemory, Shared, TermBuilder};
use clause_compile::{
    Clause, ClauseRefusal, Code, Goals, Item, Part, Place, Scope, body_goals, compile,
};
use std::alloc::Global;
use std::process::Abort;
use std::sync::Arc;
use std::test::Fail;

fn compiled(alloc: Global, head: &[Piece], body: &[Piece]) -> Result<Arc<Clause>, ClauseRefusal> {
    compile(alloc, &term(alloc, head)?, &term(alloc, body)?)
}

const CUT: Scope = Scope::Local(3);

fn is_goal(alloc: Global, item: &Item, expected: &[Piece]) -> Result<bool, NoMemory> {
    match item {
        Item::Goal { term: goal, cut } => {
            let same = goal.to_term(alloc)?.cells() == term(alloc, expected)?.cells();
            Ok(same && *cut == CUT)
        }
        _ => Ok(false),
    }
}

fn are_goals(alloc: Global, goals: &Goals, expected: &[&[Piece]]) -> Result<bool, NoMemory> {
    let mut left = expected.iter();
    for item in goals.items() {
        match left.next() {
            Some(wanted) => {
                if !is_goal(alloc, item, wanted)? {
                    return Ok(false);
                }
            }
            None => return Ok(false),
        }
    }
    Ok(left.next().is_none())
}

/// A clause's head and body, the head that is kept, how many variables it has, and its goals.
struct Row {
    head: &'static [Piece],
    body: &'static [Piece],
    kept: &'static [Piece],
    vars: u64,
    goals: &'static [&'static [Piece]],
}

static ROWS: [Row; 5] = [
    Row {
        head: &[Name("p", 1), Variable(0)],
        body: &[Name(",", 2), Name("q", 1), Variable(0), Variable(1)],
        kept: &[Name("p", 1), Variable(0)],
        vars: 2,
        goals: &[
            &[Name("q", 1), Variable(0)],
            &[Name("call", 1), Variable(1)],
        ],
    },
    Row {
        head: &[Name("p", 0)],
        body: &[Name("true", 0)],
        kept: &[Name("p", 0)],
        vars: 0,
        goals: &[],
    },
    Row {
        head: &[Name("p", 0)],
        body: &[
            Name(",", 2),
            Name(",", 2),
            Name("a", 0),
            Name("b", 0),
            Name("c", 0),
        ],
        kept: &[Name("p", 0)],
        vars: 0,
        goals: &[&[Name("a", 0)], &[Name("b", 0)], &[Name("c", 0)]],
    },
    Row {
        head: &[Name("p", 0)],
        body: &[
            Name(";", 2),
            Name("->", 2),
            Variable(0),
            Variable(1),
            Name("f", 1),
            Variable(2),
        ],
        kept: &[Name("p", 0)],
        vars: 3,
        goals: &[&[
            Name(";", 2),
            Name("->", 2),
            Name("call", 1),
            Variable(0),
            Name("call", 1),
            Variable(1),
            Name("f", 1),
            Variable(2),
        ]],
    },
    // `p(_5)` with the body `q(_3, _5)` is kept as `p(_0)` with the goal `q(_1, _0)`.
    Row {
        head: &[Name("p", 1), Variable(5)],
        body: &[Name("q", 2), Variable(3), Variable(5)],
        kept: &[Name("p", 1), Variable(0)],
        vars: 2,
        goals: &[&[Name("q", 2), Variable(1), Variable(0)]],
    },
];

/// Whether a clause has this head, also as it is shared.
fn has_head(alloc: Global, clause: &Clause, wanted: &FlatTerm) -> Result<bool, NoMemory> {
    // The proof reads off that the numbers of its variables are small.
    let _vars = clause.vars();
    let shifted = clause.shifted_head(0)?.to_term(alloc)?;
    Ok(clause.head().cells() == wanted.cells() && shifted.cells() == wanted.cells())
}

/// The goals of a clause, none of which is before others.
fn goals(alloc: Global, clause: &Clause) -> Result<Goals, NoMemory> {
    // The proof reads off that the numbers of its variables are small.
    let _vars = clause.vars();
    clause.goals(alloc, 0, CUT, &Goals::empty())
}

fn is_clause(alloc: Global, clause: &Clause, row: &Row) -> Result<bool, NoMemory> {
    let kept = term(alloc, row.kept)?;
    let goals = goals(alloc, clause)?;
    let same = clause.vars() == row.vars && has_head(alloc, clause, &kept)?;
    Ok(same && are_goals(alloc, &goals, row.goals)?)
}

fn is_compiled(alloc: Global, row: &Row) -> Result<bool, Fail> {
    let clause = compiled(alloc, row.head, row.body)?;
    Ok(is_clause(alloc, &clause, row)?)
}

#[test]
fn clauses(rt: HostRuntime) -> Result<(), Fail> {
    for (at, row) in ROWS.iter().enumerate() {
        expect(&rt, (at, is_compiled(rt.alloc(), row)?), (at, true), "row");
    }
    Ok(())
}

static REFUSALS: [(&[Piece], &[Piece], ClauseRefusal); 4] = [
    (&[Variable(0)], &[Name("true", 0)], ClauseRefusal::NoHead),
    (
        &[Number(1)],
        &[Name("true", 0)],
        ClauseRefusal::NotCallable(Part::Head),
    ),
    (
        &[Name("p", 0)],
        &[Number(1)],
        ClauseRefusal::NotCallable(Part::Body),
    ),
    (
        &[Name("p", 0)],
        &[Name(";", 2), Name("a", 0), Number(1)],
        ClauseRefusal::NotCallable(Part::Body),
    ),
];

#[test]
fn refusals(rt: HostRuntime) {
    for (head, body, refusal) in &REFUSALS {
        let found = compiled(rt.alloc(), head, body).err();
        hold(&rt, found == Some(*refusal), "refused");
    }
}

fn shared(alloc: Global, pieces: &[Piece]) -> Result<Shared, NoMemory> {
    Shared::from_term(alloc, term(alloc, pieces)?)
}

/// The goals of a body before others.
fn before(alloc: Global, body: &[Piece], following: &Goals) -> Result<Goals, ClauseRefusal> {
    body_goals(alloc, &shared(alloc, body)?, CUT, following)
}

/// The goal `c`.
fn last_goal(alloc: Global) -> Result<Goals, NoMemory> {
    let term = shared(alloc, &[Name("c", 0)])?;
    Goals::empty().push(alloc, Item::Goal { term, cut: CUT })
}

fn rest(rt: &impl Abort, goals: &Goals) -> Result<Goals, NoMemory> {
    assert!(rt; goals.first().is_some());
    goals.rest()?.share()
}

static THREE: [&[Piece]; 3] = [&[Name("a", 0)], &[Name("b", 0)], &[Name("c", 0)]];

/// Whether the goals that follow a goal in front of these are the three.
fn are_rest(rt: &impl Abort, alloc: Global, goals: &Goals) -> Result<bool, Fail> {
    let longer = before(alloc, &[Name("d", 0)], goals)?;
    Ok(are_goals(alloc, &rest(rt, &longer)?, &THREE)?)
}

/// The goals `a`, `b` and `c`.
fn three(alloc: Global) -> Result<Goals, Fail> {
    let called = [Name(",", 2), Name("a", 0), Name("b", 0)];
    Ok(before(alloc, &called, &last_goal(alloc)?)?)
}

#[test]
fn goals_in_front(rt: HostRuntime) -> Result<(), Fail> {
    let goals = three(rt.alloc())?;
    hold(&rt, are_goals(rt.alloc(), &goals, &THREE)?, "in front");
    hold(&rt, are_rest(&rt, rt.alloc(), &goals)?, "rest");
    Ok(())
}

#[test]
fn no_goals_of_numbers(rt: HostRuntime) {
    let refused = before(rt.alloc(), &[Number(1)], &Goals::empty()).err();
    let wanted = ClauseRefusal::NotCallable(Part::Body);
    hold(&rt, refused == Some(wanted), "a number");
}

/// Adds `a` a million times, a comma in front of each.
fn push_long(builder: &mut TermBuilder, comma: &Cell, a: &Cell) -> Result<(), NoMemory> {
    for _comma in 0..1_000_000u32 {
        push_both(builder, comma, a)?;
    }
    Ok(())
}

/// `a, a, .., a, b` with a million commas.
fn long_body(alloc: Global) -> Result<FlatTerm, NoMemory> {
    let mut builder = TermBuilder::new(alloc);
    push_long(
        &mut builder,
        &cell(alloc, Name(",", 2))?,
        &cell(alloc, Name("a", 0))?,
    )?;
    push(&mut builder, cell(alloc, Name("b", 0))?)?;
    finish(builder)
}

fn push_both(builder: &mut TermBuilder, first: &Cell, second: &Cell) -> Result<(), NoMemory> {
    push(builder, first.share()?)?;
    push(builder, second.share()?)
}

fn count(goals: &Goals) -> u64 {
    let mut found = 0u64;
    for _item in goals.items() {
        found = found.saturating_add(1);
    }
    found
}

fn long_clause(alloc: Global) -> Result<Arc<Clause>, Fail> {
    Ok(compile(alloc, &term(alloc, &[Name("p", 0)])?, &long_body(alloc)?)?)
}

#[test]
fn long(rt: HostRuntime) -> Result<(), Fail> {
    let clause = long_clause(rt.alloc())?;
    expect(&rt, clause.vars(), 0, "variables");
    expect(&rt, count(&goals(rt.alloc(), &clause)?), 1_000_001, "goals");
    Ok(())
}

/// `p(f(X, a), X) :- q(X, g(a)), r.`
static HEAD: [Piece; 5] = [
    Name("p", 2),
    Name("f", 2),
    Variable(7),
    Name("a", 0),
    Variable(7),
];

static BODY: [Piece; 6] = [
    Name(",", 2),
    Name("q", 2),
    Variable(7),
    Name("g", 1),
    Name("a", 0),
    Name("r", 0),
];

/// Its places, where `a`, `f`, `p`, `g`, `q` and `r` are met in this order.
static PLACES: [Place; 11] = [
    Place::Functor(1, 2),
    Place::Var(0),
    Place::Atom(0),
    Place::Functor(2, 2),
    Place::Sub(0),
    Place::Var(0),
    Place::Functor(3, 1),
    Place::Atom(0),
    Place::Functor(4, 2),
    Place::Var(0),
    Place::Ground(6),
];

/// Whether a clause's head and goals are at these places.
fn is_placed(alloc: Global, code: &mut Code, head: Place, goals: &[Place]) -> Result<bool, Fail> {
    let clause = compiled(alloc, &HEAD, &BODY)?;
    let made = code.push_clause(alloc, &clause)?;
    Ok(made.head == head && made.goals.as_slice() == goals)
}

fn expect_place(rt: &impl Abort, code: &Code, at: usize, wanted: Place) {
    assert!(rt; at < code.len());
    expect(rt, code.place(at), wanted, "place");
}

fn expect_places(rt: &impl Abort, alloc: Global, code: &mut Code) -> Result<(), Fail> {
    let goals = [Place::Sub(8), Place::Atom(5)];
    hold(rt, is_placed(alloc, code, Place::Sub(3), &goals)?, "clause");
    expect(rt, code.len(), PLACES.len(), "length");
    for (at, wanted) in PLACES.iter().enumerate() {
        expect_place(rt, code, at, *wanted);
    }
    Ok(())
}

#[test]
fn places(rt: HostRuntime) -> Result<(), Fail> {
    let mut code = Code::new(rt.alloc());
    expect_places(&rt, rt.alloc(), &mut code)
}
