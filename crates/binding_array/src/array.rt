//! The array of cells.
ghost use Rattle.std.specs.Prelude.{◌≡◌, ◌<◌, ◌≤◌, [], MatchOption, ℕ, OnOk, OnErr, length, max, take, slice_set};
ghost use Rattle.au_model.specs.Terms.Substitutions.{Substitution, value_of, resolve};
ghost use Rattle.clause_compile.specs.Places.{CodeView};
ghost use Rattle.binding_array.specs.Represented.{variable_cell, cell_term, IsValueFor, IsBoundCell, IsFollowed, IsStored, Represents};
ghost use Rattle.binding_array.specs.SpareCells.{AddsFreeCells, AreFreed};

use crate::cell::BindingCell;
use au_term::NoMemory;
use std::alloc::Global;
use std::marker::Model;

/// How many more cells are made than are needed.
const ROOM: usize = 64;

/// The cells of variables, by their numbers. Contracts see the cells.
#[derive(Drop)]
pub struct BindingArray {
    /// The cells of the variables, and free ones for those to come, so that new variables seldom write any.
    cells: Vec<BindingCell>,
    count: usize,
}

impl Model for BindingArray {
    ghost use Rattle.std.specs.Prelude.{List, take};
    ghost use Rattle.binding_array.specs.SpareCells.{HasSpareCells};
    ghost use Rattle.binding_array.specs.declared.cell.BindingCell.{BindingCell};

    ghost Value = { List BindingCell };

    ghost view = { λ a. take a.count a.cells.items };

    ghost invariant = { λ a. HasSpareCells a.count a.cells.items };
}

impl BindingArray {
    /// No variables.
    pub fn new(alloc: Global) -> BindingArray
        ensures { result ≡ [] }
    {
        BindingArray {
            cells: Vec::new(alloc),
            count: 0,
        }
    }

    /// How many variables there are cells for.
    #[inline(always)]
    pub fn len(&self) -> usize
        ensures { result ≡ length self.now }
    {
        self.count
    }

    /// Makes cells for at least so many variables; new ones are free.
    #[inline]
    pub fn grow(&mut self, to: usize) -> Result<(), NoMemory>
        ensures long { OnOk result (length self.new ≡ max (length self.old) to) }
        ensures same { (v : ℕ) → variable_cell self.new v ≡ variable_cell self.old v }
        ensures err { OnErr result (self.new ≡ self.old) }
    {
        if self.count < to {
            if self.cells.len() < to {
                add_room(&mut self.cells, to)?;
            }
            self.count = to;
        }
        Ok(())
    }

    /// Takes away the cells after so many.
    #[inline]
    pub fn cut_to(&mut self, count: usize)
        ensures { self.new ≡ take count self.old }
    {
        if count < self.count {
            free_between(&mut self.cells, count, self.count);
            self.count = count;
        }
    }

    /// What a variable is bound to, if it is bound.
    #[inline(always)]
    pub fn get(&self, variable: u32) -> Option<BindingCell>
        requires { variable < length self.now }
        ensures { MatchOption result (variable_cell self.now variable ≡ BindingCell.Free) (λ c. (variable_cell self.now variable ≡ c) × IsBoundCell c) }
    {
        match self.cells[variable as usize] {
            BindingCell::Free => None,
            cell => Some(cell),
        }
    }

    /// Binds a variable.
    #[inline(always)]
    pub fn bind(&mut self, variable: u32, value: BindingCell)
        requires there { variable < length self.old }
        requires free { variable_cell self.old variable ≡ BindingCell.Free }
        requires value { IsValueFor variable value }
        ensures { self.new ≡ slice_set self.old variable value }
    {
        self.cells[variable as usize] = value;
    }

    /// Frees a variable.
    #[inline(always)]
    pub fn free(&mut self, variable: u32)
        requires { variable < length self.old }
        ensures { self.new ≡ slice_set self.old variable BindingCell.Free }
    {
        self.cells[variable as usize] = BindingCell::Free;
    }

    /// What is at the end of the chain of variables that one begins: a free variable, or what is none.
    #[inline]
    pub fn follow(&self, variable: u32) -> BindingCell
        requires { variable < length self.now }
        ensures end { IsFollowed self.now result }
        ensures stored { IsStored self.now result }
        ensures same { (code : CodeView) (s : Substitution) → Represents code self.now s → value_of s variable ≡ resolve s (cell_term code result) }
    {
        let mut at = variable;
        while let BindingCell::Var(next) = self.cells[at as usize] {
            at = next;
        }
        match self.cells[at as usize] {
            BindingCell::Free => BindingCell::Var(at),
            value => value,
        }
    }
}

/// Adds free cells, so that there are more than so many.
#[inline(never)]
fn add_room(cells: &mut Vec<BindingCell>, to: usize) -> Result<(), NoMemory>
    requires { length cells.old.items < to }
    ensures added { OnOk result (AddsFreeCells to cells.old.items cells.new.items) }
    ensures err { OnErr result (cells.new.items ≡ cells.old.items) }
{
    cells.resize(to.saturating_add(ROOM), BindingCell::Free)?;
    Ok(())
}

/// Frees the cells from one number up to another.
#[inline]
fn free_between(cells: &mut Vec<BindingCell>, from: usize, to: usize)
    requires up { from ≤ to }
    requires within { to ≤ length cells.old.items }
    ensures { AreFreed from to cells.old.items cells.new.items }
{
    let mut at = from;
    while at < to {
        cells[at] = BindingCell::Free;
        at += 1;
    }
}
