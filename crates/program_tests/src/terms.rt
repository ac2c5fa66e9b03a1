//! Terms that a test writes down by their cells.
use au_term::{Atom, Cell, FlatTerm, NoMemory, TermBuilder};
use std::alloc::Global;

/// A cell of a term.
#[derive(Clone, Copy)]
pub(crate) enum Piece {
    Name(&'static str, u32),
    Variable(u64),
    Number(i64),
}

pub(crate) fn cell(alloc: Global, piece: Piece) -> Result<Cell, NoMemory> {
    Ok(match piece {
        Piece::Name(name, 0) => Cell::Atom(Atom::new(alloc, name)?),
        Piece::Name(name, arity) => Cell::Functor(Atom::new(alloc, name)?, arity),
        Piece::Variable(number) => Cell::Var(number),
        Piece::Number(value) => Cell::Int(value),
    })
}

/// Adds a cell, where one may come.
pub(crate) fn push(builder: &mut TermBuilder, cell: Cell) -> Result<(), NoMemory> {
    let is_sound = match &cell {
        Cell::Var(number) => *number < u64::MAX,
        Cell::Functor(_, arity) => 0 < *arity && *arity < 65536,
        _ => true,
    };
    if builder.missing() == 0 || !is_sound {
        return Err(NoMemory);
    }
    builder.push(cell)
}

pub(crate) fn finish(builder: TermBuilder) -> Result<FlatTerm, NoMemory> {
    if builder.missing() > 0 {
        return Err(NoMemory);
    }
    Ok(builder.finish())
}

/// The term of these cells.
pub(crate) fn term(alloc: Global, pieces: &[Piece]) -> Result<FlatTerm, NoMemory> {
    let mut builder = TermBuilder::new(alloc);
    for piece in pieces {
        push(&mut builder, cell(alloc, *piece)?)?;
    }
    finish(builder)
}
