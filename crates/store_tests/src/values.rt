//! What no clause says of goals on values: that calls succeed, the order of the standard's examples, and deep values.
use crate::common::{expect, value, values};
use arith_eval::EvalRefusal;
use au_model::build::{compound, single};
use au_model::{EvalName, Fault};
use au_term::{Atom, Cell, FlatTerm, NoMemory, TermBuilder, VarNo};
use binding_array::BindingCell;
use cell_store::Store;
use clause_compile::Code;
use std::alloc::Global;
use std::cmp::Ordering;
use std::process::Abort;
use std::sync::Arc;
use std::test::Fail;
use value_goals::{compare, compared_values, evaluate, is_ground, is_value};

/// A small term.
#[derive(Clone, Copy)]
enum Small {
    Variable(VarNo),
    Integer(i64),
    Atom(&'static str),
    One(&'static str, i64),
    Two(&'static str, i64, i64),
}

fn integer(alloc: Global, value: i64) -> Result<FlatTerm, NoMemory> {
    single(alloc, Cell::Int(value))
}

fn term(alloc: Global, small: Small) -> Result<FlatTerm, NoMemory> {
    match small {
        Small::Variable(number) => {
            if number == VarNo::MAX {
                return Err(NoMemory);
            }
            single(alloc, Cell::Var(number))
        }
        Small::Integer(value) => integer(alloc, value),
        Small::Atom(name) => single(alloc, Cell::Atom(Atom::new(alloc, name)?)),
        Small::One(name, x) => one(alloc, name, x),
        Small::Two(name, x, y) => two(alloc, name, &integer(alloc, x)?, y),
    }
}

fn one(alloc: Global, name: &str, x: i64) -> Result<FlatTerm, NoMemory> {
    compound(alloc, Atom::new(alloc, name)?, &[&integer(alloc, x)?])
}

fn two(alloc: Global, name: &str, x: &FlatTerm, y: i64) -> Result<FlatTerm, NoMemory> {
    compound(alloc, Atom::new(alloc, name)?, &[x, &integer(alloc, y)?])
}

/// A store with four variables.
fn store(alloc: Global) -> Result<Store, Fail> {
    let mut store = Store::new(alloc, Arc::new(alloc, Code::new(alloc))?)?;
    store.fresh(4)?;
    Ok(store)
}

/// Terms in the standard order (ISO/IEC 13211-1, 7.2).
static ORDERED: [Small; 11] = [
    Small::Variable(1),
    Small::Variable(2),
    Small::Integer(-3),
    Small::Integer(5),
    Small::Atom("ab"),
    Small::Atom("b"),
    Small::One("a", 1),
    Small::One("a", 2),
    Small::One("b", 1),
    Small::Two("a", 1, 1),
    Small::Two("a", 1, 2),
];

fn expect_ordering(
    rt: &impl Abort,
    alloc: Global,
    store: &mut Store,
    left: FlatTerm,
    right: FlatTerm,
    wanted: Ordering,
) -> Result<(), Fail> {
    let (left, right) = values(rt, alloc, store, left, right)?;
    expect(rt, compare(alloc, store, left, right)?, wanted);
    Ok(())
}

fn expect_order(rt: &impl Abort, alloc: Global, store: &mut Store) -> Result<(), Fail> {
    for (i, left) in ORDERED.iter().enumerate() {
        for (j, right) in ORDERED.iter().enumerate() {
            let (left, right) = (term(alloc, *left)?, term(alloc, *right)?);
            expect_ordering(rt, alloc, store, left, right, i.cmp(&j))?;
        }
    }
    Ok(())
}

#[test]
fn order(rt: HostRuntime) -> Result<(), Fail> {
    let mut store = store(rt.alloc())?;
    expect_order(&rt, rt.alloc(), &mut store)
}

/// What is seen of an evaluation.
#[derive(Clone, Copy, Debug, PartialEq, Eq)]
enum Seen {
    Value(i64),
    Error(EvalName),
    Other,
}

fn seen_of(answer: Result<i64, EvalRefusal>) -> Seen {
    match answer {
        Ok(value) => Seen::Value(value),
        Err(EvalRefusal::Fault(Fault::Evaluation(error))) => Seen::Error(error),
        Err(_) => Seen::Other,
    }
}

fn expect_evaluated(
    rt: &impl Abort,
    alloc: Global,
    store: &mut Store,
    term: FlatTerm,
    wanted: Seen,
) -> Result<(), Fail> {
    let term = value(rt, alloc, store, term)?;
    expect(rt, seen_of(evaluate(alloc, store, term)), wanted);
    Ok(())
}

/// The value that `is` gives for an expression.
fn expect_value_by_is(
    rt: &impl Abort,
    alloc: Global,
    store: &mut Store,
    term: FlatTerm,
    wanted: i64,
) -> Result<(), Fail> {
    let term = value(rt, alloc, store, term)?;
    let found = is_value(alloc, store, term).ok();
    expect(rt, found, Some(BindingCell::Int(wanted)));
    Ok(())
}

/// The values of an expression that is compared with itself.
fn expect_compared(
    rt: &impl Abort,
    alloc: Global,
    store: &mut Store,
    term: FlatTerm,
    wanted: i64,
) -> Result<(), Fail> {
    let term = value(rt, alloc, store, term)?;
    let found = compared_values(alloc, store, term, term).ok();
    expect(rt, found, Some((wanted, wanted)));
    Ok(())
}

fn expect_ground(
    rt: &impl Abort,
    alloc: Global,
    store: &mut Store,
    term: FlatTerm,
) -> Result<(), Fail> {
    let term = value(rt, alloc, store, term)?;
    expect(rt, is_ground(alloc, store, term)?, true);
    Ok(())
}

/// A function of 42, as a product, and a number.
fn of_product(alloc: Global, name: &str, value: i64) -> Result<FlatTerm, NoMemory> {
    two(alloc, name, &term(alloc, Small::Two("*", 6, 7))?, value)
}

fn sum(alloc: Global) -> Result<FlatTerm, NoMemory> {
    of_product(alloc, "+", -2)
}

fn expect_small(rt: &impl Abort, alloc: Global, store: &mut Store) -> Result<(), Fail> {
    expect_evaluated(rt, alloc, store, sum(alloc)?, Seen::Value(40))?;
    let error = Seen::Error(EvalName::ZeroDivisor);
    expect_evaluated(rt, alloc, store, of_product(alloc, "//", 0)?, error)?;
    expect_value_by_is(rt, alloc, store, sum(alloc)?, 40)?;
    expect_compared(rt, alloc, store, sum(alloc)?, 40)?;
    expect_ground(rt, alloc, store, sum(alloc)?)
}

#[test]
fn small_goals(rt: HostRuntime) -> Result<(), Fail> {
    let mut store = store(rt.alloc())?;
    expect_small(&rt, rt.alloc(), &mut store)
}

fn push(builder: &mut TermBuilder, cell: Cell) -> Result<(), NoMemory> {
    let is_sound = match &cell {
        Cell::Functor(_, arity) => *arity == 2,
        Cell::Int(_) => true,
        _ => false,
    };
    if builder.missing() == 0 || !is_sound {
        return Err(NoMemory);
    }
    builder.push(cell)
}

const DEPTH: u32 = 100_000;

/// `plus` nested, to the left or to the right.
fn push_nested(builder: &mut TermBuilder, plus: &Atom, left: bool) -> Result<(), NoMemory> {
    for _depth in 0..DEPTH {
        push(builder, Cell::Functor(plus.share()?, 2))?;
        if !left {
            push(builder, Cell::Int(1))?;
        }
    }
    let rest = if left { DEPTH + 1 } else { 1 };
    for _rest in 0..rest {
        push(builder, Cell::Int(1))?;
    }
    Ok(())
}

fn nested(alloc: Global, left: bool) -> Result<FlatTerm, NoMemory> {
    let mut builder = TermBuilder::new(alloc);
    push_nested(&mut builder, &Atom::new(alloc, "+")?, left)?;
    finish(builder)
}

fn finish(builder: TermBuilder) -> Result<FlatTerm, NoMemory> {
    if builder.missing() > 0 {
        return Err(NoMemory);
    }
    Ok(builder.finish())
}

fn expect_deep(rt: &impl Abort, alloc: Global, store: &mut Store, left: bool) -> Result<(), Fail> {
    let wanted = Seen::Value(100_001);
    expect_evaluated(rt, alloc, store, nested(alloc, left)?, wanted)?;
    let (first, second) = (nested(alloc, left)?, nested(alloc, left)?);
    expect_ordering(rt, alloc, store, first, second, Ordering::Equal)?;
    expect_ground(rt, alloc, store, nested(alloc, left)?)
}

fn expect_both_deep(rt: &impl Abort, alloc: Global, store: &mut Store) -> Result<(), Fail> {
    expect_deep(rt, alloc, store, true)?;
    expect_deep(rt, alloc, store, false)
}

#[test]
fn deep(rt: HostRuntime) -> Result<(), Fail> {
    let mut store = store(rt.alloc())?;
    expect_both_deep(&rt, rt.alloc(), &mut store)
}
