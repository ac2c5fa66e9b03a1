//! Program text as places.
ghost use Rattle.std.specs.Prelude.{◌≡◌, ◌+◌, ◌<◌, ◌≤◌, ◌∷◌, [], ◌++◌, IfOk, OnOk, length, take, drop, reverse};
ghost use Rattle.std.specs.List.{list_all};
ghost use Rattle.au_term.specs.PrefixOrder.{cells_of, term_of, arity, IsValidCell, AreValidCells};
ghost use Rattle.run_model.specs.Programs.Bodies.{clause_goals_of};
ghost use Rattle.clause_compile.specs.AtomNumbers.{AreDistinct, name_at, number_of_name};
ghost use Rattle.clause_compile.specs.PlacedClauses.{IsClausePlaced};
ghost use Rattle.clause_compile.specs.Places.{CodeView, AreSound, IsArity, IsPlaced, AreAllPlaced, ArePlacesOf, AddsCell, HasMorePlaces, is_ground_place, compound_place};

use crate::atom_numbers::AtomNumbers;
use crate::clause::Clause;
use crate::place::Place;
use au_term::{Atom, Cell, FlatTerm, NoMemory, VarNo};
use std::alloc::Global;
use std::marker::Model;

/// Program text as places. It is only added to, and a compound's arguments are there before it. Contracts see the names
/// of its atoms, by number, and the places.
#[derive(Drop)]
pub struct Code {
    names: AtomNumbers,
    places: Vec<Place>,
}

impl Model for Code {
    ghost use Rattle.clause_compile.specs.Places.{CodeView, AreSound};
    ghost use Rattle.std.specs.Prelude.{length};

    ghost Value = { CodeView };

    ghost view = { λ c. record { names = c.names; places = c.places.items } };

    ghost invariant = { λ c. AreSound (length c.names) c.places.items };
}

/// A clause as places: those of its head and of the goals of its body, and how many variables it has.
#[derive(Drop)]
pub struct ClausePlaces {
    pub head: Place,
    pub goals: Vec<Place>,
    pub vars: VarNo,
}

impl Code {
    /// No text.
    pub fn new(alloc: Global) -> Code
        ensures { result ≡ record { names = []; places = [] } }
    {
        Code {
            names: AtomNumbers::new(alloc),
            places: Vec::new(alloc),
        }
    }

    /// How many places there are. Each compound's arguments stand before it.
    #[inline(always)]
    pub fn len(&self) -> usize
        ensures count { result ≡ length self.now.places }
        ensures sound { AreSound (length self.now.names) self.now.places }
    {
        self.places.len()
    }

    /// How many names there are. No two are the same.
    #[inline(always)]
    pub fn names(&self) -> usize
        ensures count { result ≡ length self.now.names }
        ensures distinct { AreDistinct self.now.names }
    {
        self.names.len()
    }

    /// The place with a number.
    #[inline(always)]
    pub fn place(&self, at: usize) -> Place
        requires { at < length self.now.places }
        ensures { drop at self.now.places ≡ result ∷ drop (at + 1) self.now.places }
    {
        self.places[at]
    }

    /// All places, in order.
    pub fn places(&self) -> &[Place]
        ensures { result.now ≡ self.now.places }
    {
        &self.places
    }

    /// The name with a number.
    pub fn name(&self, number: u32) -> &Atom
        requires { number < length self.now.names }
        ensures { result.now ≡ name_at self.entry.now.names number }
    {
        self.names.name(number)
    }

    /// The number of a name, if it has one.
    pub fn find(&self, name: &Atom) -> Option<u32>
        ensures { result ≡ number_of_name self.now.names name.now }
    {
        self.names.find(name)
    }

    /// Adds a clause: its head, and the goals of its body.
    pub fn push_clause(&mut self, alloc: Global, clause: &Clause) -> Result<ClausePlaces, NoMemory>
        ensures { IfOk result (IsClausePlaced self.old self.new clause.now) }
    {
        let head = self.push_term(alloc, clause.head())?;
        let goals = self.push_goals(alloc, clause)?;
        Ok(ClausePlaces {
            head,
            goals,
            vars: clause.vars(),
        })
    }

    /// Adds the goals of a clause's body.
    fn push_goals(&mut self, alloc: Global, clause: &Clause) -> Result<Vec<Place>, NoMemory>
        ensures { IfOk result (λ goals. AreAllPlaced self.old self.new (clause_goals_of clause.now.body) goals.items) }
    {
        let body = clause.body();
        let places = clause.goal_places();
        let mut goals = Vec::new(alloc);
        for at in places {
            let goal = self.push_cells(alloc, body.subterm(*at))?;
            goals.push(goal)?;
        }
        Ok(goals)
    }

    /// Adds a term, and gives the place that means it.
    pub fn push_term(&mut self, alloc: Global, term: &FlatTerm) -> Result<Place, NoMemory>
        ensures { IfOk result (IsPlaced self.old self.new term.now) }
    {
        self.push_cells(alloc, term.cells())
    }

    /// Adds the term of these cells, and gives the place that means it.
    fn push_cells(&mut self, alloc: Global, cells: &[Cell]) -> Result<Place, NoMemory>
        requires cells { cells_of (term_of cells.now) ≡ cells.now }
        requires sound { AreValidCells cells.now }
        ensures { IfOk result (IsPlaced self.old self.new (term_of cells.now)) }
    {
        let mut stack = Vec::new(alloc);
        let mut left = cells.len();
        while left > 0 {
            left -= 1;
            self.push_cell(&cells[left], &mut stack)?;
        }
        match stack.pop() {
            Some(place) => Ok(place),
            None => unreachable!(),
        }
    }

    /// Adds a cell before those that were added; the places of its arguments are taken from the stack, and its own put there.
    fn push_cell(&mut self, cell: &Cell, stack: &mut Vec<Place>) -> Result<(), NoMemory>
        requires sound { IsValidCell cell.now }
        requires enough { arity cell.now ≤ length stack.old.items }
        requires stand { ArePlacesOf self.old stack.old.items }
        ensures { OnOk result (AddsCell self.old self.new cell.now stack.old.items stack.new.items) }
    {
        match cell {
            Cell::Var(number) => put(Place::Var(*number), stack),
            Cell::Int(value) => put(integer(value), stack),
            Cell::Atom(name) => {
                let number = self.names.number(name)?;
                put(Place::Atom(number), stack)
            }
            Cell::Functor(name, count) => self.push_compound(name, *count, stack),
        }
    }

    /// Adds a compound, whose arguments' places are taken from the stack.
    fn push_compound(
        &mut self,
        name: &Atom,
        count: u32,
        stack: &mut Vec<Place>,
    ) -> Result<(), NoMemory>
        requires arity { IsArity count }
        requires enough { count ≤ length stack.old.items }
        requires stand { ArePlacesOf self.old stack.old.items }
        ensures { OnOk result (AddsCell self.old self.new (Cell.Functor name.now count) stack.old.items stack.new.items) }
    {
        let number = self.names.number(name)?;
        let at = self.places.len();
        let place = compound_place(at, count, stack);
        if let Err(error) = push_block(number, count, stack, &mut self.places) {
            self.places.truncate(at);
            return Err(error);
        }
        put(place, stack)
    }
}

/// The place of an integer.
fn integer(value: &i64) -> Place
    ensures { result ≡ Place.Int value.now }
{
    Place::Int(*value)
}

/// Puts a place on the stack.
fn put(place: Place, stack: &mut Vec<Place>) -> Result<(), NoMemory>
    ensures { OnOk result (stack.new.items ≡ stack.old.items ++ place ∷ []) }
{
    stack.push(place)?;
    Ok(())
}

/// The place of a compound that begins at `at`, and whose arguments are so many places of the stack, the topmost first.
pub fn compound_place(at: usize, count: u32, stack: &[Place]) -> Place
    requires { count ≤ length stack.now }
    ensures { result ≡ compound_place at (take count (reverse stack.now)) }
{
    if are_ground(count, stack) {
        Place::Ground(at)
    } else {
        Place::Sub(at)
    }
}

/// Whether so many places of the stack, the topmost first, say that their terms have no variables.
fn are_ground(count: u32, stack: &[Place]) -> bool
    requires { count ≤ length stack.now }
    ensures { result ≡ list_all is_ground_place (take count (reverse stack.now)) }
{
    for argument in 0..count as usize {
        if !stack[stack.len() - 1 - argument].is_ground() {
            return false;
        }
    }
    true
}

/// Adds a functor and so many places of the stack, the topmost first.
pub fn push_block(
    number: u32,
    count: u32,
    stack: &mut Vec<Place>,
    places: &mut Vec<Place>,
) -> Result<(), NoMemory>
    requires { count ≤ length stack.old.items }
    ensures grown { HasMorePlaces places.old.items places.new.items }
    ensures block { OnOk result (places.new.items ≡ places.old.items ++ Place.Functor number count ∷ take count (reverse stack.old.items)) }
    ensures left { OnOk result (reverse stack.new.items ≡ drop count (reverse stack.old.items)) }
{
    places.push(Place::Functor(number, count))?;
    for _argument in 0..count {
        match stack.pop() {
            Some(place) => places.push(place)?,
            None => unreachable!(),
        }
    }
    Ok(())
}
