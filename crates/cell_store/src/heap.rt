//! The heap: a program's text, with what was made behind it.
ghost use Rattle.std.specs.Prelude.{◌≡◌, ◌<◌, ◌≤◌, ◌+◌, ◌^◌, ◌∷◌, [], ◌++◌, IfOk, OnOk, IsTrue, length, drop};
ghost use Rattle.std.specs.Arc.{arc_value};
ghost use Rattle.au_term.specs.PrefixOrder.{arity, cell_bound, IsValidCell};
ghost use Rattle.au_term.specs.Shifted.{shifted_cell};
ghost use Rattle.clause_compile.specs.AtomNumbers.{name_at};
ghost use Rattle.clause_compile.specs.Places.{IsArity, IsPlaced, AddsCell, ArePlacesOf};
ghost use Rattle.au_model.specs.Terms.Forms.{list_term};
ghost use Rattle.cell_store.specs.HeapView.{heap_text, cut_heap, IsSoundHeap, GrowsHeap, IsNumberedIn};
ghost use Rattle.cell_store.specs.ListGoals.{AddsTerm, list_goal};

use crate::heap_places::HeapPlaces;
use au_term::{Atom, Cell, FlatTerm, NoMemory, Shared, VarNo};
use clause_compile::{AtomNumbers, Code, Place, compound_place};
use std::alloc::Global;
use std::marker::Model;
use std::sync::Arc;

/// A program's text, which is shared and stays as it is, and the names and places that were added behind it. Its places are
/// copied: no place is read so often as in the heap.
#[derive(Drop)]
pub(crate) struct Heap {
    program: Arc<Code>,
    names: AtomNumbers,
    places: HeapPlaces,
    /// The last three numbers of names that were asked for, which need be those of no name.
    recent: u32,
    older: u32,
    oldest: u32,
}

impl Model for Heap {
    ghost use Rattle.std.specs.Prelude.{◌≡◌};
    ghost use Rattle.std.specs.Arc.{arc_value};
    ghost use Rattle.cell_store.specs.HeapView.{HeapView};

    ghost Value = { HeapView };

    ghost view = { λ h. record { program = arc_value h.program; names = h.names; made = h.places.made } };

    ghost invariant = { λ h. h.places.program ≡ (arc_value h.program).places };
}

impl Heap {
    /// Nothing was added.
    pub(crate) fn new(alloc: Global, program: Arc<Code>) -> Result<Heap, NoMemory>
        ensures { IfOk result (λ h. h ≡ record { program = arc_value program; names = []; made = [] }) }
    {
        let places = HeapPlaces::new(alloc, &program)?;
        Ok(Heap {
            program,
            names: AtomNumbers::new(alloc),
            places,
            recent: 0,
            older: 0,
            oldest: 0,
        })
    }

    /// How many places were added.
    #[inline(always)]
    pub(crate) fn made(&self) -> usize
        ensures { result ≡ length self.now.made }
    {
        self.places.made()
    }

    /// The place with a number.
    #[inline(always)]
    pub(crate) fn place(&self, at: usize) -> Place
        requires { at < length (heap_text self.now).places }
        ensures { drop at (heap_text self.now).places ≡ result ∷ drop (at + 1) (heap_text self.now).places }
    {
        self.places.place(at)
    }

    /// The name with a number.
    pub(crate) fn name(&self, number: u32) -> &Atom
        requires { number < length (heap_text self.now).names }
        ensures { result.now ≡ name_at (heap_text self.entry.now).names number }
    {
        let program = self.program.names();
        if (number as usize) < program {
            self.program.name(number)
        } else {
            self.names.name(number - program as u32)
        }
    }

    /// Adds a term, and gives the place that means it.
    pub(crate) fn push_term(&mut self, alloc: Global, term: &Shared) -> Result<Place, NoMemory>
        requires { IsSoundHeap self.old }
        ensures placed { IfOk result (IsPlaced (heap_text self.old) (heap_text self.new) term.now) }
        ensures grown { GrowsHeap self.old self.new }
    {
        let mut stack = Vec::new(alloc);
        let mut left = term.len();
        while left > 0 {
            left -= 1;
            let (cell, base) = term.cell_at(left);
            self.push_cell(cell, base, &mut stack)?;
        }
        match stack.pop() {
            Some(place) => Ok(place),
            None => unreachable!(),
        }
    }

    /// Adds the goal that unifies a term with the list of others, and gives the place that means it.
    pub(crate) fn push_list_goal(
        &mut self,
        alloc: Global,
        term: &FlatTerm,
        items: &[FlatTerm],
    ) -> Result<Place, NoMemory>
        requires { IsSoundHeap self.old }
        ensures placed { IfOk result (IsPlaced (heap_text self.old) (heap_text self.new) (list_goal term.now items.now)) }
        ensures grown { GrowsHeap self.old self.new }
    {
        let mut stack = Vec::new(alloc);
        self.push_list(alloc, items, &mut stack)?;
        self.push_on(term, &mut stack)?;
        let equals = Atom::ascii(alloc, "=")?;
        self.push_compound(&equals, 2, &mut stack)?;
        match stack.pop() {
            Some(place) => Ok(place),
            None => unreachable!(),
        }
    }

    /// Adds the list of these terms, and puts its place on the stack.
    fn push_list(
        &mut self,
        alloc: Global,
        items: &[FlatTerm],
        stack: &mut Vec<Place>,
    ) -> Result<(), NoMemory>
        requires heap { IsSoundHeap self.old }
        requires stand { ArePlacesOf (heap_text self.old) stack.old.items }
        ensures added { OnOk result (AddsTerm (heap_text self.old) (heap_text self.new) (list_term items.now) stack.old.items stack.new.items) }
        ensures grown { GrowsHeap self.old self.new }
    {
        let nil = Cell::Atom(Atom::ascii(alloc, "[]")?);
        let dot = Atom::ascii(alloc, ".")?;
        self.push_cell(&nil, 0, stack)?;
        let mut left = items.len();
        while left > 0 {
            left -= 1;
            self.push_on(&items[left], stack)?;
            self.push_compound(&dot, 2, stack)?;
        }
        Ok(())
    }

    /// Adds a term, and puts its place on the stack.
    fn push_on(&mut self, term: &FlatTerm, stack: &mut Vec<Place>) -> Result<(), NoMemory>
        requires heap { IsSoundHeap self.old }
        requires stand { ArePlacesOf (heap_text self.old) stack.old.items }
        ensures added { OnOk result (AddsTerm (heap_text self.old) (heap_text self.new) term.now stack.old.items stack.new.items) }
        ensures grown { GrowsHeap self.old self.new }
    {
        let cells = term.cells();
        let mut left = cells.len();
        while left > 0 {
            left -= 1;
            self.push_cell(&cells[left], 0, stack)?;
        }
        Ok(())
    }

    /// Adds a cell, with a number added to its variable, before those that were added; the places of its arguments are taken
    /// from the stack, and its own put there.
    fn push_cell(
        &mut self,
        cell: &Cell,
        base: VarNo,
        stack: &mut Vec<Place>,
    ) -> Result<(), NoMemory>
        requires heap { IsSoundHeap self.old }
        requires sound { IsValidCell cell.now }
        requires fits { base + cell_bound cell.now < 2 ^ 64 }
        requires enough { arity cell.now ≤ length stack.old.items }
        requires stand { ArePlacesOf (heap_text self.old) stack.old.items }
        ensures added { OnOk result (AddsCell (heap_text self.old) (heap_text self.new) (shifted_cell base cell.now) stack.old.items stack.new.items) }
        ensures grown { GrowsHeap self.old self.new }
    {
        match cell {
            Cell::Var(number) => put(Place::Var(base + *number), stack),
            Cell::Int(value) => put(integer(value), stack),
            Cell::Atom(name) => {
                let number = self.number(name)?;
                put(Place::Atom(number), stack)
            }
            Cell::Functor(name, count) => self.push_compound(name, *count, stack),
        }
    }

    /// Adds a compound, whose arguments' places are taken from the stack.
    fn push_compound(
        &mut self,
        name: &Atom,
        count: u32,
        stack: &mut Vec<Place>,
    ) -> Result<(), NoMemory>
        requires heap { IsSoundHeap self.old }
        requires arity { IsArity count }
        requires enough { count ≤ length stack.old.items }
        requires stand { ArePlacesOf (heap_text self.old) stack.old.items }
        ensures added { OnOk result (AddsCell (heap_text self.old) (heap_text self.new) (Cell.Functor name.now count) stack.old.items stack.new.items) }
        ensures grown { GrowsHeap self.old self.new }
    {
        let number = self.number(name)?;
        let at = self.places.len();
        if at + count as usize >= u32::MAX as usize {
            return Err(NoMemory);
        }
        let place = compound_place(at, count, stack);
        self.places.push_block(number, count, stack)?;
        put(place, stack)
    }

    /// The number of a name, which gets the next one where it has none. The functors of a list and of its items come by turns,
    /// so the last three numbers are looked at first.
    fn number(&mut self, name: &Atom) -> Result<u32, NoMemory>
        requires { IsSoundHeap self.old }
        ensures numbered { IfOk result (IsNumberedIn self.old self.new name.now) }
        ensures grown { GrowsHeap self.old self.new }
    {
        if self.has_number(name, self.recent) {
            return Ok(self.recent);
        }
        let number = if self.has_number(name, self.older) {
            self.older
        } else {
            self.rarer_number(name)?
        };
        self.older = self.recent;
        self.recent = number;
        Ok(number)
    }

    /// The same for a name that is none of the last two.
    fn rarer_number(&mut self, name: &Atom) -> Result<u32, NoMemory>
        requires { IsSoundHeap self.old }
        ensures numbered { IfOk result (IsNumberedIn self.old self.new name.now) }
        ensures grown { GrowsHeap self.old self.new }
    {
        let number = if self.has_number(name, self.oldest) {
            self.oldest
        } else {
            self.search_number(name)?
        };
        self.oldest = self.older;
        Ok(number)
    }

    /// Whether a name has a number.
    #[inline]
    fn has_number(&self, name: &Atom, number: u32) -> bool
        ensures { IsTrue result → IsNumberedIn self.now self.now name.now number }
    {
        let program = self.program.names();
        let at = number as usize;
        if at >= program && at - program >= self.names.len() {
            return false;
        }
        self.name(number) == name
    }

    /// The number of a name, which is searched among all, and gets the next one where it has none.
    fn search_number(&mut self, name: &Atom) -> Result<u32, NoMemory>
        requires { IsSoundHeap self.old }
        ensures numbered { IfOk result (IsNumberedIn self.old self.new name.now) }
        ensures grown { GrowsHeap self.old self.new }
    {
        if let Some(number) = self.program.find(name) {
            return Ok(number);
        }
        let number = self.names.number(name)?;
        // The proof reads off that no two of the added names are the same.
        let _names = self.names.len();
        let Ok(program) = u32::try_from(self.program.names()) else {
            return Err(NoMemory);
        };
        let Some(number) = program.checked_add(number) else {
            return Err(NoMemory);
        };
        Ok(number)
    }

    /// Takes away the places that were added after so many.
    #[inline]
    pub(crate) fn cut_to(&mut self, made: usize)
        ensures { self.new ≡ cut_heap made self.old }
    {
        self.places.cut_to(made);
    }
}

/// Puts a place on the stack.
fn put(place: Place, stack: &mut Vec<Place>) -> Result<(), NoMemory>
    ensures { OnOk result (stack.new.items ≡ stack.old.items ++ place ∷ []) }
{
    stack.push(place)?;
    Ok(())
}

/// The place of an integer.
fn integer(value: &i64) -> Place
    ensures { result ≡ Place.Int value.now }
{
    Place::Int(*value)
}
