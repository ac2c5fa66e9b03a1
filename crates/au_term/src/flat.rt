//! Terms kept as the list of their cells.
ghost use Rattle.std.specs.Prelude.{◌≡◌, ◌+◌, ◌<◌, ◌≤◌, ◌++◌, IfOk, length, drop, vec_len};
ghost use Rattle.au_term.specs.PrefixOrder.{cells_of, term_of, top_of, subterm, IsTerm};
ghost use Rattle.au_term.specs.Term.{var_bound, argument, argument_count};

use crate::NoMemory;
use crate::cell::{Cell, VarNo, share_all};
use crate::sizes::{fill_sizes, skip_terms};
use std::alloc::Global;
use std::marker::Model;

/// A finite term, kept as its cells in prefix order. Beside each cell is how many cells the
/// subterm that begins there takes, so that a walk passes an argument in one step.
#[derive(Drop)]
pub struct FlatTerm {
    cells: Vec<Cell>,
    sizes: Vec<usize>,
}

impl Model for FlatTerm {
    ghost use Rattle.au_term.specs.Term.{Term};
    ghost use Rattle.au_term.specs.PrefixOrder.{term_code, term_of};
    ghost use Rattle.au_term.specs.SubtermSizes.{IsMeasured};

    ghost Value = { Term };

    ghost coded = { term_code };

    ghost view = { λ t. term_of t.cells.items };

    ghost invariant = { λ t. IsMeasured t.cells.items t.sizes.items };
}

impl FlatTerm {
    /// The term of these cells.
    pub fn from_cells(cells: Vec<Cell>) -> Result<FlatTerm, NoMemory>
        requires { IsTerm cells.items }
        ensures term { IfOk result (λ t. t ≡ term_of cells.items) }
        ensures cells { IfOk result (λ t. cells_of t ≡ cells.items) }
    {
        let mut sizes = Vec::new(cells.allocator().clone()?);
        sizes.resize(cells.len(), 0)?;
        Ok(FlatTerm::with_places(cells, sizes))
    }

    /// The term of a copy of these cells.
    pub fn from_slice(alloc: Global, cells: &[Cell]) -> Result<FlatTerm, NoMemory>
        requires { IsTerm cells.now }
        ensures term { IfOk result (λ t. t ≡ term_of cells.now) }
        ensures cells { IfOk result (λ t. cells_of t ≡ cells.now) }
    {
        FlatTerm::from_cells(share_all(alloc, cells)?)
    }

    /// The term of these cells, where there is a place for each size. It takes no memory.
    pub(crate) fn with_places(cells: Vec<Cell>, mut sizes: Vec<usize>) -> FlatTerm
        requires whole { IsTerm cells.items }
        requires places { vec_len cells ≤ vec_len sizes }
        ensures term { result ≡ term_of cells.items }
        ensures cells { cells_of result ≡ cells.items }
    {
        sizes.truncate(cells.len());
        fill_sizes(&cells, &mut sizes);
        FlatTerm { cells, sizes }
    }

    /// The cells, in prefix order.
    pub fn cells(&self) -> &[Cell]
        ensures cells { result.now ≡ cells_of self.now }
        ensures whole { IsTerm result.now }
    {
        &self.cells
    }

    /// The first cell.
    pub fn top(&self) -> &Cell
        ensures { result.now ≡ top_of self.now }
    {
        &self.cells[0]
    }

    /// How many arguments it has; 0 where it is no compound.
    pub fn arity(&self) -> u32
        ensures { result ≡ argument_count self.now }
    {
        self.top().arity()
    }

    /// The least number above all its variables.
    pub fn bound(&self) -> VarNo
        ensures { result ≡ var_bound self.now }
    {
        let mut bound = 0;
        for cell in &self.cells {
            bound = bound.max(cell.bound());
        }
        bound
    }

    /// The same term.
    pub fn copy(&self) -> Result<FlatTerm, NoMemory>
        ensures { IfOk result (λ t. t ≡ self.now) }
    {
        let cells = share_all(self.cells.allocator().clone()?, &self.cells)?;
        Ok(FlatTerm {
            cells,
            sizes: self.sizes.clone()?,
        })
    }

    /// The cells of the argument with this number, counted from 0.
    pub fn arg(&self, i: u32) -> &[Cell]
        requires { i < argument_count self.now }
        ensures cells { result.now ≡ cells_of (argument i self.now) }
        ensures whole { IsTerm result.now }
    {
        self.subterm(self.arg_start(0, i))
    }

    /// Where the cells of an argument of the subterm that begins at this cell begin.
    pub fn arg_start(&self, at: usize, i: u32) -> usize
        requires place { at < length (cells_of self.now) }
        requires argument { i < argument_count (subterm at self.now) }
        ensures within { result < length (cells_of self.now) }
        ensures is { subterm result self.now ≡ argument i (subterm at self.now) }
    {
        skip_terms(&self.sizes, at + 1, i)
    }

    /// Where the cells of the subterm that begins at this cell end. It takes constant time.
    pub fn term_end(&self, at: usize) -> usize
        requires { at < length (cells_of self.now) }
        ensures end { result ≡ at + length (cells_of (subterm at self.now)) }
        ensures rest { drop at (cells_of self.now) ≡ cells_of (subterm at self.now) ++ drop result (cells_of self.now) }
        ensures within { result ≤ length (cells_of self.now) }
    {
        at + self.sizes[at]
    }

    /// The cells of the subterm that begins at this cell.
    pub fn subterm(&self, at: usize) -> &[Cell]
        requires { at < length (cells_of self.now) }
        ensures cells { result.now ≡ cells_of (subterm at self.now) }
        ensures whole { IsTerm result.now }
    {
        &self.cells[at..self.term_end(at)]
    }
}
