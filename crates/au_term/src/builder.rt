//! Terms made cell by cell.
ghost use Rattle.std.specs.Prelude.{◌≡◌, ◌+◌, ◌<◌, ◌≤◌, ◌^◌, OnOk, OnErr, ℕ, List, [], ◌∷◌, ◌++◌, take};
ghost use Rattle.au_term.specs.PrefixOrder.{cells_of, term_of, due_after, AreDue, IsValidCell, AreValidCells};

use crate::NoMemory;
use crate::cell::Cell;
use crate::flat::FlatTerm;
use std::alloc::Global;
use std::marker::Model;

/// A term of which some cells are still to come. Contracts see the cells that have come.
#[derive(Drop)]
pub struct TermBuilder {
    cells: Vec<Cell>,
    /// A place for the size of each subterm, so that `finish` takes no memory.
    sizes: Vec<usize>,
    due: u64,
}

impl Model for TermBuilder {
    ghost use Rattle.std.specs.Prelude.{List, ◌≤◌, length};
    ghost use Rattle.au_term.specs.declared.cell.Cell.{Cell};
    ghost use Rattle.au_term.specs.PrefixOrder.{cell_code, IsTermPrefix};
    ghost use Rattle.std.specs.Coded.{coded_list};

    ghost Value = { List Cell };

    ghost coded = { coded_list cell_code };

    ghost view = { λ b. b.cells.items };

    ghost invariant = { λ b. IsTermPrefix b.cells.items b.due × (length b.cells.items ≤ length b.sizes.items) };
}

impl TermBuilder {
    /// A term of which all is still to come.
    pub fn new(alloc: Global) -> TermBuilder
        ensures { result ≡ [] }
    {
        TermBuilder {
            cells: Vec::new(alloc),
            sizes: Vec::new(alloc),
            due: 1,
        }
    }

    /// How many terms are still to come.
    pub fn missing(&self) -> u64
        ensures { result ≡ due_after 1 self.now }
    {
        self.due
    }

    /// Puts the next cell after the others.
    pub fn push(&mut self, cell: Cell) -> Result<(), NoMemory>
        requires due { 0 < due_after 1 self.old }
        requires sound { IsValidCell cell }
        ensures ok { OnOk result (self.new ≡ self.old ++ cell ∷ []) }
        ensures err { OnErr result (self.new ≡ self.old) }
    {
        // A term of more than 2^64 cells fits no memory.
        let Some(due) = (self.due - 1).checked_add(u64::from(cell.arity())) else {
            return Err(NoMemory);
        };
        self.sizes.push(0)?;
        self.cells.push(cell)?;
        self.due = due;
        Ok(())
    }

    /// Puts a copy of these cells after the others.
    pub fn push_all(&mut self, cells: &[Cell]) -> Result<(), NoMemory>
        requires due { AreDue (due_after 1 self.old) cells.now }
        requires sound { AreValidCells cells.now }
        ensures ok { OnOk result (self.new ≡ self.old ++ cells.now) }
        ensures err { OnErr result (self.new ≡ self.old) }
    {
        let (length, due) = (self.cells.len(), self.due);
        let pushed = self.push_each(cells);
        if pushed.is_err() {
            self.cells.truncate(length);
            self.due = due;
        }
        pushed
    }

    /// The same, but after an error some of the cells may be there.
    fn push_each(&mut self, cells: &[Cell]) -> Result<(), NoMemory>
        requires due { AreDue (due_after 1 self.old) cells.now }
        requires sound { AreValidCells cells.now }
        ensures ok { OnOk result (self.new ≡ self.old ++ cells.now) }
        ensures err { OnErr result ((n : ℕ) × (self.new ≡ self.old ++ take n cells.now)) }
    {
        for cell in cells {
            self.push(cell.share()?)?;
        }
        Ok(())
    }

    /// The term.
    pub fn finish(self) -> FlatTerm
        requires { due_after 1 self ≡ 0 }
        ensures term { result ≡ term_of self }
        ensures cells { cells_of result ≡ self }
    {
        let TermBuilder {
            cells,
            sizes,
            due: _,
        } = self;
        FlatTerm::with_places(cells, sizes)
    }
}
