//! What the tests share.
use au_model::build::single;
use au_term::{Cell, FlatTerm, NoMemory, VarNo};
use std::alloc::Global;
use std::fmt::Debug;
use std::process::Abort;

/// What is found is what is wanted.
pub(crate) fn expect<T: PartialEq + Debug + Drop>(rt: &impl Abort, found: T, wanted: T) {
    assert_eq!(rt; found, wanted);
}

pub(crate) fn number(alloc: Global, value: i64) -> Result<FlatTerm, NoMemory> {
    single(alloc, Cell::Int(value))
}

pub(crate) fn variable(alloc: Global) -> Result<FlatTerm, NoMemory> {
    single(alloc, Cell::Var(0))
}

/// The first cell of a term.
#[derive(Clone, Copy, Debug, PartialEq, Eq)]
pub(crate) enum Top {
    Var(VarNo),
    Int(i64),
    /// By how long its name is, in bytes.
    Atom(usize),
    /// By how many arguments it has.
    Compound(u32),
}

pub(crate) fn top_of_cell(cell: &Cell) -> Top {
    match cell {
        Cell::Var(number) => Top::Var(*number),
        Cell::Int(value) => Top::Int(*value),
        Cell::Atom(name) => Top::Atom(name.text().len()),
        Cell::Functor(_, arguments) => Top::Compound(*arguments),
    }
}
