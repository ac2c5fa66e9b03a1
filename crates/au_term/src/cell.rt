//! Cells.
ghost use Rattle.std.specs.Prelude.{◌≡◌, ◌+◌, ◌<◌, ◌^◌, IfOk, map};
ghost use Rattle.au_term.specs.PrefixOrder.{arity, cell_bound, IsValidCell};
ghost use Rattle.au_term.specs.Shifted.{shifted_cell};

use crate::NoMemory;
use crate::atom::Atom;
use std::alloc::Global;

/// The number of a variable.
pub type VarNo = u64;

/// The most arguments that a compound has.
pub const MAX_ARITY: u32 = 65_535;

/// One place of a term in prefix order.
#[derive(PartialEq, Eq, Drop)]
pub enum Cell {
    Var(VarNo),
    Int(i64),
    Atom(Atom),
    /// A compound's name, and its number of arguments, from 1 to `MAX_ARITY`.
    Functor(Atom, u32),
}

impl Cell {
    /// How many terms follow it as its arguments.
    pub fn arity(&self) -> u32
        ensures { result ≡ arity self.now }
    {
        match self {
            Cell::Functor(_, arguments) => *arguments,
            _ => 0,
        }
    }

    /// The least number above its variable, or 0.
    pub(crate) fn bound(&self) -> VarNo
        requires { IsValidCell self.now }
        ensures { result ≡ cell_bound self.now }
    {
        match self {
            Cell::Var(number) => *number + 1,
            _ => 0,
        }
    }

    /// The same cell.
    pub fn share(&self) -> Result<Cell, NoMemory>
        ensures { IfOk result (λ cell. cell ≡ self.now) }
    {
        Ok(match self {
            Cell::Var(number) => Cell::Var(*number),
            Cell::Int(value) => Cell::Int(*value),
            Cell::Atom(name) => Cell::Atom(name.share()?),
            Cell::Functor(name, arguments) => Cell::Functor(name.share()?, *arguments),
        })
    }

    /// The same cell, with `base` added to the number of a variable.
    pub fn shifted(&self, base: VarNo) -> Result<Cell, NoMemory>
        requires { base + cell_bound self.now < 2 ^ 64 }
        ensures { IfOk result (λ cell. cell ≡ shifted_cell base self.now) }
    {
        match self {
            Cell::Var(number) => Ok(Cell::Var(base + *number)),
            _ => self.share(),
        }
    }
}

/// The same cells.
pub(crate) fn share_all(alloc: Global, cells: &[Cell]) -> Result<Vec<Cell>, NoMemory>
    ensures { IfOk result (λ shared. shared.items ≡ cells.now) }
{
    let mut shared = Vec::new(alloc);
    for cell in cells {
        shared.push(cell.share()?)?;
    }
    Ok(shared)
}
