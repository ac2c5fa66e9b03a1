//! What the tests share: terms by their cells, and comparisons, which are proved once here and not in each test.
use au_term::{Atom, Cell, FlatTerm, NoMemory, TermBuilder};
use std::alloc::Global;
use std::fmt::Debug;
use std::process::Abort;

/// A cell of a term: a variable, an integer, an atom, or a compound's name and number of arguments.
#[derive(Clone, Copy)]
pub(crate) enum Part {
    V(u32),
    I(i64),
    A(&'static str),
    F(&'static str, u16),
}

use Part::{A, F, I, V};

/// What is found is what is wanted.
pub(crate) fn expect<T: PartialEq + Debug + Drop>(
    rt: &impl Abort,
    found: T,
    wanted: T,
    place: &str,
) {
    assert_eq!(rt; found, wanted, "{place}");
}

pub(crate) fn hold(rt: &impl Abort, holds: bool, place: &str) {
    assert!(rt; holds, "{place}");
}

fn cell(alloc: Global, part: Part) -> Result<Cell, NoMemory> {
    Ok(match part {
        V(number) => Cell::Var(u64::from(number)),
        I(value) => Cell::Int(value),
        A(name) => Cell::Atom(Atom::new(alloc, name)?),
        F(name, arity) => Cell::Functor(Atom::new(alloc, name)?, u32::from(arity)),
    })
}

/// Adds a cell, where one may come.
pub(crate) fn push(builder: &mut TermBuilder, cell: Cell) -> Result<(), NoMemory> {
    let is_sound = match &cell {
        Cell::Var(number) => *number < u64::MAX,
        Cell::Functor(_, arity) => 0 < *arity && *arity < 65536,
        _ => true,
    };
    if builder.missing() == 0 || !is_sound {
        return Err(NoMemory);
    }
    builder.push(cell)
}

pub(crate) fn finish(builder: TermBuilder) -> Result<FlatTerm, NoMemory> {
    if builder.missing() > 0 {
        return Err(NoMemory);
    }
    Ok(builder.finish())
}

fn push_part(alloc: Global, builder: &mut TermBuilder, part: Part) -> Result<(), NoMemory> {
    push(builder, cell(alloc, part)?)
}

/// The term of these cells.
pub(crate) fn term(alloc: Global, parts: &[Part]) -> Result<FlatTerm, NoMemory> {
    let mut builder = TermBuilder::new(alloc);
    for part in parts {
        push_part(alloc, &mut builder, *part)?;
    }
    finish(builder)
}

/// Adds cells that others share.
fn push_shared(builder: &mut TermBuilder, cells: &[Cell]) -> Result<(), NoMemory> {
    for cell in cells {
        push(builder, cell.share()?)?;
    }
    Ok(())
}

fn cells(alloc: Global, parts: &[Part]) -> Result<Vec<Cell>, NoMemory> {
    let mut cells = Vec::new(alloc);
    for part in parts {
        cells.push(cell(alloc, *part)?)?;
    }
    Ok(cells)
}

fn push_nested(
    alloc: Global,
    builder: &mut TermBuilder,
    depth: u32,
    cells: &[Cell],
    ends: u32,
    end: Part,
) -> Result<(), NoMemory> {
    for _depth in 0..depth {
        push_shared(builder, cells)?;
    }
    for _end in 0..ends {
        push_part(alloc, builder, end)?;
    }
    Ok(())
}

/// A term that begins with so many times these cells, and goes on with so many of another.
pub(crate) fn nested(
    alloc: Global,
    depth: u32,
    parts: &[Part],
    ends: u32,
    end: Part,
) -> Result<FlatTerm, NoMemory> {
    let mut builder = TermBuilder::new(alloc);
    push_nested(alloc, &mut builder, depth, &cells(alloc, parts)?, ends, end)?;
    finish(builder)
}

pub(crate) fn terms(alloc: Global, parts: &[&[Part]]) -> Result<Vec<FlatTerm>, NoMemory> {
    let mut terms = Vec::new(alloc);
    for parts in parts {
        terms.push(term(alloc, parts)?)?;
    }
    Ok(terms)
}
