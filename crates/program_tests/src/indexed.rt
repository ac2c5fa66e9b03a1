//! What no clause gives: the clauses that are found among those of certain heads.
ghost use Rattle.std.specs.Prelude.{◌≡◌, ◌<◌};

use crate::common::{expect, hold};
use crate::terms::Piece::{self, Name, Number, Variable};
use crate::terms::term;
use au_term::{Atom, NoMemory, Steps};
use clause_compile::{Clause, compile};
use proc_index::{Candidates, Key, Procs, Taken};
use std::alloc::Global;
use std::marker::Brand;
use std::process::Abort;
use std::sync::Arc;
use std::sync::ledger::{Blank, Ledger};
use std::test::Fail;

static HEADS: [&[Piece]; 9] = [
    &[Name("p", 1), Number(1)],
    &[Name("r", 1), Name("f", 1), Number(0)],
    &[Name("p", 1), Variable(0)],
    &[Name("r", 1), Name("g", 1), Number(0)],
    &[Name("p", 1), Number(2)],
    &[Name("s", 0)],
    &[Name("p", 0)],
    &[Name("r", 1), Name("f", 0)],
    &[Name("s", 0)],
];

fn fact(alloc: Global, head: &[Piece]) -> Result<Arc<Clause>, Fail> {
    Ok(compile(
        alloc,
        &term(alloc, head)?,
        &term(alloc, &[Name("true", 0)])?,
    )?)
}

fn procs(alloc: Global) -> Result<Procs, Fail> {
    let mut clauses = Vec::new(alloc);
    for head in HEADS {
        clauses.push(fact(alloc, head)?)?;
    }
    Ok(Procs::new(alloc, clauses)?)
}

/// Whether a clause has one of the heads.
fn is_clause(alloc: Global, clause: &Clause, place: usize) -> Result<bool, NoMemory> {
    match HEADS.get(place) {
        Some(head) => Ok(clause.head().cells() == term(alloc, head)?.cells()),
        None => Ok(false),
    }
}

/// Whether clauses are those with these of the heads.
fn are_clauses(alloc: Global, found: Candidates<'_>, places: &[usize]) -> Result<bool, NoMemory> {
    let mut left = places.iter();
    for clause in found {
        match left.next() {
            Some(place) => {
                if !is_clause(alloc, clause, *place)? {
                    return Ok(false);
                }
            }
            None => return Ok(false),
        }
    }
    Ok(left.next().is_none())
}

/// Whether the candidates are the clauses with these of the heads; none where the procedure is undefined.
fn are_candidates(
    alloc: Global,
    procs: &Procs,
    name: &Atom,
    arity: u32,
    key: &Key,
    places: Option<&[usize]>,
) -> Result<bool, NoMemory> {
    match (procs.candidates(name, arity, key), places) {
        (Some(found), Some(places)) => are_clauses(alloc, found, places),
        (None, None) => Ok(true),
        _ => Ok(false),
    }
}

fn take<L: Ledger>(
    alloc: Global,
    procs: &Procs,
    arity: u32,
    steps: &mut Steps<L>,
) -> Result<Option<Taken>, NoMemory> {
    let name = Atom::new(alloc, "p")?;
    procs.take_candidates(alloc, &name, arity, &Key::Int(2), steps)
}

fn is_taken(
    alloc: Global,
    taken: &Option<Taken>,
    at: usize,
    place: usize,
) -> Result<bool, NoMemory> {
    match taken {
        Some(taken) => {
            if at >= taken.len() {
                return Ok(false);
            }
            is_clause(alloc, taken.get(at), place)
        }
        None => Ok(false),
    }
}

fn count(taken: &Option<Taken>) -> Option<usize> {
    match taken {
        Some(taken) => Some(taken.len()),
        None => None,
    }
}

/// Those that are taken are the candidates.
fn take_two<L: Ledger>(
    rt: &impl Abort,
    alloc: Global,
    procs: &Procs,
    blank: Blank,
) -> Result<(), Fail>
    requires name { blank.name ≡ L.name }
    requires parts { blank.parts ≡ L.parts }
    requires some { 0 < blank.parts }
{
    let mut steps = Steps::<L>::new(blank);
    let found = take(alloc, procs, 1, &mut steps)?;
    expect(rt, count(&found), Some(2), "two");
    for (at, place) in [(0, 2), (1, 4)] {
        hold(rt, is_taken(alloc, &found, at, place)?, "taken");
    }
    let none = take(alloc, procs, 2, &mut steps)?;
    expect(rt, count(&none), None, "none");
    Ok(())
}

#[test]
fn taken(rt: HostRuntime) -> Result<(), Fail> {
    let procs = procs(rt.alloc())?;
    take_two::<Brand>(&rt, rt.alloc(), &procs, Blank::new(1))
}

/// A key of a first argument.
#[derive(Clone, Copy)]
enum First {
    Any,
    Number(i64),
    Atom(&'static str),
    Functor(&'static str, u32),
}

fn key(alloc: Global, first: First) -> Result<Key, NoMemory> {
    Ok(match first {
        First::Any => Key::Any,
        First::Number(value) => Key::Int(value),
        First::Atom(name) => Key::Atom(Atom::new(alloc, name)?),
        First::Functor(name, arity) => Key::Functor(Atom::new(alloc, name)?, arity),
    })
}

/// A procedure, a key, and the places of its candidates.
type Row = (&'static str, u32, First, Option<&'static [usize]>);

static CANDIDATES: [Row; 10] = [
    ("p", 1, First::Number(2), Some(&[2, 4])),
    ("p", 1, First::Any, Some(&[0, 2, 4])),
    ("p", 1, First::Atom("a"), Some(&[2])),
    ("r", 1, First::Functor("f", 1), Some(&[1])),
    ("r", 1, First::Functor("f", 2), Some(&[])),
    ("r", 1, First::Atom("f"), Some(&[7])),
    ("p", 0, First::Any, Some(&[6])),
    ("s", 0, First::Number(1), Some(&[5, 8])),
    ("q", 1, First::Any, None),
    ("p", 2, First::Any, None),
];

fn expect_candidates(rt: &impl Abort, alloc: Global, procs: &Procs, row: &Row) -> Result<(), Fail> {
    let (name, arity, first, places) = row;
    let (procedure, key) = (Atom::new(alloc, name)?, key(alloc, *first)?);
    let same = are_candidates(alloc, procs, &procedure, *arity, &key, *places)?;
    hold(rt, same, name);
    Ok(())
}

fn expect_all_candidates(rt: &impl Abort, alloc: Global, procs: &Procs) -> Result<(), Fail> {
    for row in &CANDIDATES {
        expect_candidates(rt, alloc, procs, row)?;
    }
    Ok(())
}

#[test]
fn candidates(rt: HostRuntime) -> Result<(), Fail> {
    let procs = procs(rt.alloc())?;
    expect_all_candidates(&rt, rt.alloc(), &procs)
}
