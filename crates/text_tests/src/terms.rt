//! Values that no clause gives: that calls succeed, and what atoms and terms look like from outside.
ghost use Rattle.std.specs.Prelude.{◌≡◌, ◌<◌};

use crate::common::{expect, hold};
use au_term::{
    Atom, Binding, Bindings, Cell, FlatTerm, NoMemory, Segment, Shared, Steps, TermBuilder, is_text,
};
use std::alloc::Global;
use std::marker::Brand;
use std::process::Abort;
use std::sync::ledger::{Blank, Ledger};
use std::test::Fail;

/// `f(1, _0)`.
fn pair(alloc: Global) -> Result<FlatTerm, NoMemory> {
    let mut builder = TermBuilder::new(alloc);
    builder.push(Cell::Functor(Atom::new(alloc, "f")?, 2))?;
    builder.push(Cell::Int(1))?;
    builder.push(Cell::Var(0))?;
    Ok(builder.finish())
}

fn compare(
    rt: &impl Abort,
    alloc: Global,
    left: &str,
    right: &str,
    same: bool,
) -> Result<(), NoMemory> {
    let (a, b) = (Atom::new(alloc, left)?, Atom::new(alloc, right)?);
    hold(rt, a.share()?.text() == left, left);
    expect(rt, a.same(&b), same, left);
    expect(rt, a.cmp(&b), left.cmp(right), left);
    Ok(())
}

fn is_empty_list(alloc: Global) -> Result<bool, NoMemory> {
    let name = Atom::ascii(alloc, "[]")?;
    Ok(name.text() == "[]" && name.is_text("[]") && !name.is_text("["))
}

#[test]
fn atoms(rt: HostRuntime) -> Result<(), Fail> {
    for (left, right, same) in [("ab", "ab", true), ("ab", "a", false), ("", "é", false)] {
        compare(&rt, rt.alloc(), left, right, same)?;
    }
    hold(&rt, is_empty_list(rt.alloc())?, "[]");
    hold(&rt, !is_text("é", "e"), "é");
    Ok(())
}

/// Whether cells are those of the pair.
fn are_cells_of_pair(alloc: Global, cells: &[Cell]) -> Result<bool, NoMemory> {
    let name = Atom::new(alloc, "f")?;
    Ok(cells == [Cell::Functor(name, 2), Cell::Int(1), Cell::Var(0)].as_slice())
}

/// Whether cells are one cell alone.
fn are_one(cells: Option<&[Cell]>, wanted: &Cell) -> bool {
    match cells {
        Some([only]) => only == wanted,
        _ => false,
    }
}

/// Whether the arguments of a term are 1 and a variable.
fn has_arguments_of_pair(term: &FlatTerm) -> bool {
    let mut args = term.args();
    let first = are_one(args.next(), &Cell::Int(1));
    let second = are_one(args.next(), &Cell::Var(0));
    first && second && args.next().is_none()
}

/// How many terms are missing behind all cells of a term.
fn missing_behind(alloc: Global, term: &FlatTerm) -> Result<u64, NoMemory> {
    let mut builder = TermBuilder::new(alloc);
    builder.push_all(term.cells())?;
    Ok(builder.missing())
}

fn expect_pair(rt: &impl Abort, alloc: Global, term: &FlatTerm) -> Result<(), Fail> {
    hold(rt, are_cells_of_pair(alloc, term.cells())?, "cells");
    hold(rt, has_arguments_of_pair(term), "arguments");
    let sizes = (term.bound(), term.arity(), term.top().arity());
    expect(rt, sizes, (1, 2, 2), "sizes");
    let again = FlatTerm::from_slice(alloc, term.cells())?;
    expect(rt, missing_behind(alloc, &again)?, 0, "missing");
    Ok(())
}

#[test]
fn terms(rt: HostRuntime) -> Result<(), Fail> {
    let term = pair(rt.alloc())?.copy()?;
    expect_pair(&rt, rt.alloc(), &term)
}

/// Whether a term is the pair, once it has cells of its own.
fn is_pair(alloc: Global, shared: &Shared) -> Result<bool, NoMemory> {
    let term = shared.share()?.to_term(alloc)?;
    let is_top = *term.top() == shared.top()? && term.bound() == 1 && term.arity() == 2;
    Ok(is_top && are_cells_of_pair(alloc, term.cells())?)
}

/// Where the subterm that begins at a cell ends.
fn term_end(rt: &impl Abort, shared: &Shared, at: usize) -> usize {
    assert!(rt; at < shared.len());
    shared.term_end(at)
}

fn is_integer_at(rt: &impl Abort, shared: &Shared, at: usize, value: i64) -> bool {
    assert!(rt; at < shared.len());
    *shared.cell_at(at).0 == Cell::Int(value)
}

fn is_variable_at(rt: &impl Abort, shared: &Shared, at: usize) -> Result<bool, NoMemory> {
    assert!(rt; at < shared.len());
    Ok(shared.subterm(at)?.top()? == Cell::Var(0))
}

fn expect_shared(rt: &impl Abort, alloc: Global, shared: &Shared) -> Result<(), Fail> {
    hold(rt, is_pair(alloc, shared)?, "pair");
    expect(rt, (shared.len(), shared.arity()), (3, 2), "sizes");
    hold(rt, is_integer_at(rt, shared, 1, 1), "first");
    hold(rt, is_variable_at(rt, shared, 2)?, "second");
    for (at, end) in [(0, 3), (1, 2)] {
        expect(rt, term_end(rt, shared, at), end, "end");
    }
    Ok(())
}

#[test]
fn shared(rt: HostRuntime) -> Result<(), Fail> {
    let shared = Shared::from_term(rt.alloc(), pair(rt.alloc())?)?;
    expect_shared(&rt, rt.alloc(), &shared)
}

/// The bindings of a variable to the second argument of a term.
fn bound(rt: &impl Abort, alloc: Global, shared: &Shared) -> Result<Bindings, NoMemory> {
    let mut bindings = Bindings::new(alloc);
    assert!(rt; shared.arity() > 1);
    let value = shared.argument(1)?;
    bindings.push(Binding { var: 1, value })?;
    Ok(bindings)
}

/// Whether there is one binding, to a variable.
fn binds_variable(bindings: &Bindings) -> Result<bool, NoMemory> {
    match bindings.as_slice() {
        [only] => Ok(only.value.top()? == Cell::Var(0)),
        _ => Ok(false),
    }
}

#[test]
fn segments(rt: HostRuntime) -> Result<(), Fail> {
    let shared = Shared::from_term(rt.alloc(), pair(rt.alloc())?)?;
    let segment = Segment {
        base: 1,
        vars: 1,
        bindings: bound(&rt, rt.alloc(), &shared)?,
    };
    hold(&rt, binds_variable(&segment.bindings)?, "binding");
    Ok(())
}

fn count_one<L: Ledger>(blank: Blank)
    requires name { blank.name ≡ L.name }
    requires parts { blank.parts ≡ L.parts }
    requires some { 0 < blank.parts }
{
    let mut steps = Steps::<L>::new(blank);
    steps.tick();
}

#[test]
fn steps() {
    count_one::<Brand>(Blank::new(1));
}

fn push(builder: &mut TermBuilder, cell: Cell) -> Result<(), NoMemory> {
    let is_sound = match &cell {
        Cell::Functor(_, arity) => *arity == 1,
        Cell::Int(_) => true,
        _ => false,
    };
    if builder.missing() == 0 || !is_sound {
        return Err(NoMemory);
    }
    builder.push(cell)
}

fn push_deep(builder: &mut TermBuilder, name: &Atom) -> Result<(), NoMemory> {
    for _depth in 0..1_000_000u32 {
        push(builder, Cell::Functor(name.share()?, 1))?;
    }
    push(builder, Cell::Int(0))
}

/// How many cells the term has that is nested a million deep.
fn deep_cells(rt: &impl Abort, alloc: Global) -> Result<usize, NoMemory> {
    let mut builder = TermBuilder::new(alloc);
    push_deep(&mut builder, &Atom::new(alloc, "s")?)?;
    assert!(rt; builder.missing() == 0);
    Ok(builder.finish().cells().len())
}

#[test]
fn deep(rt: HostRuntime) -> Result<(), Fail> {
    expect(&rt, deep_cells(&rt, rt.alloc())?, 1_000_001, "deep");
    Ok(())
}
