//! Subterms of shared terms.
ghost use Rattle.std.specs.Prelude.{◌≡◌, ◌+◌, ◌≤◌, ◌<◌, ◌^◌, ◌++◌, ◌∷◌, IfOk, length, drop};
ghost use Rattle.std.specs.Arc.{arc_value};
ghost use Rattle.au_term.specs.PrefixOrder.{cells_of, term_of, top_of, subterm, cell_bound, IsTerm, IsValidCell};
ghost use Rattle.au_term.specs.Shifted.{shifted, shifted_cell, IsShiftablePlace};
ghost use Rattle.au_term.specs.Term.{var_bound, argument, argument_count};

use crate::NoMemory;
use crate::cell::{Cell, VarNo};
use crate::flat::FlatTerm;
use std::alloc::Global;
use std::marker::Model;
use std::sync::Arc;

/// The subterm of a skeleton that begins at the cell `at`, with `base` added to the number of
/// each variable. Contracts see the term that this is.
#[derive(Drop)]
pub struct Shared {
    skeleton: Arc<FlatTerm>,
    at: usize,
    base: VarNo,
}

impl Model for Shared {
    ghost use Rattle.au_term.specs.Term.{Term};
    ghost use Rattle.au_term.specs.PrefixOrder.{term_code, subterm};
    ghost use Rattle.au_term.specs.Shifted.{shifted, IsShiftablePlace};
    ghost use Rattle.std.specs.Arc.{arc_value};

    ghost Value = { Term };

    ghost coded = { term_code };

    ghost view = { λ s. shifted s.base (subterm s.at (arc_value s.skeleton)) };

    ghost invariant = { λ s. IsShiftablePlace (arc_value s.skeleton) s.at s.base };
}

impl Shared {
    /// The subterm that begins at this cell, with `base` added to its variables.
    pub fn new(skeleton: Arc<FlatTerm>, at: usize, base: VarNo) -> Shared
        requires { IsShiftablePlace (arc_value skeleton) at base }
        ensures { result ≡ shifted base (subterm at (arc_value skeleton)) }
    {
        Shared { skeleton, at, base }
    }

    /// The term, which from now on can be shared.
    pub fn from_term(alloc: Global, term: FlatTerm) -> Result<Shared, NoMemory>
        ensures { IfOk result (λ s. s ≡ term) }
    {
        // The proof reads off the cells that all variables are below the greatest number.
        let _cells = term.cells();
        Ok(Shared {
            skeleton: Arc::new(alloc, term)?,
            at: 0,
            base: 0,
        })
    }

    /// The same term, shared.
    pub fn share(&self) -> Result<Shared, NoMemory>
        ensures { IfOk result (λ s. s ≡ self.now) }
    {
        Ok(Shared {
            skeleton: self.skeleton.clone()?,
            at: self.at,
            base: self.base,
        })
    }

    /// The skeleton's cells, and the number to be added to their variables.
    pub fn parts(&self) -> (&[Cell], VarNo)
        ensures term { shifted result.1 (term_of result.0.now) ≡ self.now }
        ensures whole { IsTerm result.0.now }
        ensures fits { result.1 + var_bound (term_of result.0.now) < 2 ^ 64 }
    {
        (self.skeleton.subterm(self.at), self.base)
    }

    /// The skeleton, where the subterm begins in it, and the number to be added to its variables.
    pub fn place(&self) -> (&FlatTerm, usize, VarNo)
        ensures term { shifted result.2 (subterm result.1 result.0.now) ≡ self.now }
        ensures place { IsShiftablePlace result.0.now result.1 result.2 }
    {
        (&self.skeleton, self.at, self.base)
    }

    /// The first cell.
    pub fn top(&self) -> Result<Cell, NoMemory>
        ensures { IfOk result (λ cell. cell ≡ top_of self.now) }
    {
        let (cells, base) = self.parts();
        cells[0].shifted(base)
    }

    /// How many arguments it has; 0 where it is no compound.
    pub fn arity(&self) -> u32
        ensures { result ≡ argument_count self.now }
    {
        self.parts().0[0].arity()
    }

    /// The argument with this number, counted from 0, shared.
    pub fn argument(&self, i: u32) -> Result<Shared, NoMemory>
        requires { i < argument_count self.now }
        ensures { IfOk result (λ s. s ≡ argument i self.now) }
    {
        Ok(Shared {
            skeleton: self.skeleton.clone()?,
            at: self.skeleton.arg_start(self.at, i),
            base: self.base,
        })
    }

    /// How many cells it has.
    pub fn len(&self) -> usize
        ensures { result ≡ length (cells_of self.now) }
    {
        self.parts().0.len()
    }

    /// The cell at a place of the term, and the number to be added to its variable.
    pub fn cell_at(&self, at: usize) -> (&Cell, VarNo)
        requires { at < length (cells_of self.now) }
        ensures cell { drop at (cells_of self.now) ≡ shifted_cell result.1 result.0.now ∷ drop (at + 1) (cells_of self.now) }
        ensures sound { IsValidCell result.0.now }
        ensures fits { result.1 + cell_bound result.0.now < 2 ^ 64 }
    {
        let cells = self.skeleton.cells();
        (&cells[self.at + at], self.base)
    }

    /// Where the cells of the subterm that begins at this cell end. It takes constant time.
    pub fn term_end(&self, at: usize) -> usize
        requires { at < length (cells_of self.now) }
        ensures rest { drop at (cells_of self.now) ≡ cells_of (subterm at self.now) ++ drop result (cells_of self.now) }
        ensures within { result ≤ length (cells_of self.now) }
    {
        // The proof reads off that the place is a number.
        let _cells = self.skeleton.cells();
        self.skeleton.term_end(self.at + at) - self.at
    }

    /// The subterm whose cells begin at this cell, shared.
    pub fn subterm(&self, at: usize) -> Result<Shared, NoMemory>
        requires { at < length (cells_of self.now) }
        ensures { IfOk result (λ s. s ≡ subterm at self.now) }
    {
        // The proof reads off that the place is a number.
        let _cells = self.skeleton.cells();
        Ok(Shared {
            skeleton: self.skeleton.clone()?,
            at: self.at + at,
            base: self.base,
        })
    }

    /// The term, with cells of its own.
    pub fn to_term(&self, alloc: Global) -> Result<FlatTerm, NoMemory>
        ensures { IfOk result (λ t. t ≡ self.now) }
    {
        let (cells, base) = self.parts();
        let mut shifted = Vec::new(alloc);
        for cell in cells {
            shifted.push(cell.shifted(base)?)?;
        }
        FlatTerm::from_cells(shifted)
    }
}
