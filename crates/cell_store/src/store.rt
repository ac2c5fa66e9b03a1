//! The store.
ghost use Rattle.std.specs.Prelude.{◌≡◌, ◌-◌, ◌^◌, ◌<◌, ◌≤◌, ◌+◌, ◌++◌, ◌∷◌, [], false, ℕ, List, length, take, drop, IfOk, IfSome, OnOk, OnErr, MatchOption};
ghost use Rattle.std.specs.Arc.{arc_value};
ghost use Rattle.au_model.specs.Terms.Each.{Each};
ghost use Rattle.au_model.specs.Terms.Substitutions.{value_of};
ghost use Rattle.au_model.specs.Terms.TermTypes.{is_compound};
ghost use Rattle.au_term.specs.Term.{VarTerm, var_bound};
ghost use Rattle.au_term.specs.Shifted.{shifted};
ghost use Rattle.clause_compile.specs.AtomNumbers.{name_at};
ghost use Rattle.clause_compile.specs.Places.{IsPlaceOf, meaning_in};
ghost use Rattle.cell_store.specs.Arguments.{HasFunctor, IsArgument, IsArgumentValue, argument_at, code_place};
ghost use Rattle.cell_store.specs.ArgumentSteps.{IsCompoundPlace, IsFreshPlace, IsArgumentReached};
ghost use Rattle.cell_store.specs.FreshVariables.{AreOlder, AreYoung};
ghost use Rattle.cell_store.specs.ListGoals.{list_goal};
ghost use Rattle.cell_store.specs.MadeBindings.{AreMadeSince, AreOlderSinceMark, IsBindingOf, IsNextAtMark};
ghost use Rattle.cell_store.specs.UnificationSteps.{AllEquations, IsSolved, OnlyBinds, equations_left};
ghost use Rattle.cell_store.specs.StoreView.{Moment, IsValidStore, IsValueIn, IsDereferenced, CanBeBound, BindsFurther, AddsText, meaning, substitution, text_in, value_term, new_store, with_numbers, with_mark, with_marks, taken_back, over_floor, raised, IsOlderMoment};

use crate::arguments::{Arguments, Equations};
use crate::heap::Heap;
use crate::made::{bindings_after, older_variables};
use crate::mark::{Marks, free_after, mark_of};
use crate::resolved::resolved;
use crate::solve::solve;
use au_term::{Atom, FlatTerm, NoMemory, Shared};
use binding_array::{BindingArray, BindingCell};
use clause_compile::{Code, Place};
use std::alloc::Global;
use std::marker::Model;
use std::mem;
use std::sync::Arc;

/// What the variables of a branch stand for, its next variable number, and the terms that were made.
#[derive(Drop)]
pub struct Store {
    heap: Heap,
    cells: BindingArray,
    /// Variables that were there at the newest mark of their time, or at the floor, and were bound since.
    trail: Vec<u32>,
    marks: Marks,
    /// Room for the equations that wait in a unification, and for the arguments that wait in its occurs check.
    pending: Vec<Equations>,
    walked: Vec<Arguments>,
    alloc: Global,
}

impl Model for Store {
    ghost use Rattle.std.specs.Coded.{codes};
    ghost use Rattle.au_term.specs.PrefixOrder.{term_code};
    ghost use Rattle.cell_store.specs.Undoing.{Parts};
    ghost use Rattle.cell_store.specs.StoreView.{StoreView, IsConsistent, view_of};
    ghost use Rattle.std.specs.Prelude.{◌∷◌};

    ghost Value = { StoreView };

    ghost coded = { Prim.hlevel (codes, term_code) };

    ghost view = { λ s. view_of (record { heap = s.heap; cells = s.cells; trail = s.trail.items; marks = s.marks.floor ∷ s.marks.marks }) };

    ghost invariant = { λ s. IsConsistent (record { heap = s.heap; cells = s.cells; trail = s.trail.items; marks = s.marks.floor ∷ s.marks.marks }) };
}

impl Store {
    /// Nothing is made or bound.
    pub fn new(alloc: Global, program: Arc<Code>) -> Result<Store, NoMemory>
        ensures new { IfOk result (λ store. store ≡ new_store (arc_value program)) }
        ensures text { IfOk result (λ store. text_in store ≡ arc_value program) }
    {
        // The proof reads off that no two names are the same.
        let _names = program.names();
        if program.len() > u32::MAX as usize {
            return Err(NoMemory);
        }
        let heap = Heap::new(alloc, program)?;
        Ok(Store {
            heap,
            cells: BindingArray::new(alloc),
            trail: Vec::new(alloc),
            marks: Marks::new(alloc),
            pending: Vec::new(alloc),
            walked: Vec::new(alloc),
            alloc,
        })
    }

    /// The next variable number.
    #[inline(always)]
    pub fn next(&self) -> u32
        ensures next { result ≡ self.now.now.next }
        ensures sound { IsValidStore self.now }
    {
        self.cells.len() as u32
    }

    /// How many marks there are.
    #[inline(always)]
    pub fn marks(&self) -> usize
        ensures { result ≡ length self.now.marks }
    {
        self.marks.len()
    }

    /// Takes so many new numbers, and gives the first.
    #[inline]
    pub fn fresh(&mut self, count: u32) -> Result<u32, NoMemory>
        ensures ok { OnOk result (self.new ≡ with_numbers count self.old) }
        ensures first { IfOk result (λ first. first ≡ self.old.now.next) }
        ensures err { OnErr result (self.new ≡ self.old) }
    {
        let first = self.next();
        let Some(next) = first.checked_add(count) else {
            return Err(NoMemory);
        };
        self.cells.grow(next as usize)?;
        Ok(first)
    }

    /// The name with a number.
    pub fn name(&self, number: u32) -> &Atom
        requires { number < length (text_in self.now).names }
        ensures { result.now ≡ name_at (text_in self.entry.now).names number }
    {
        self.heap.name(number)
    }

    /// The functor of the compound at a place: its name, by number, and how many arguments follow.
    #[inline(always)]
    pub fn functor(&self, at: u32) -> (u32, u32)
        requires { IsPlaceOf (text_in self.now) (Place.Sub at) }
        ensures short { at + result.1 < 2 ^ 32 - 1 }
        ensures functor { (base : ℕ) → IsValueIn self.now (BindingCell.Compound at base) → HasFunctor (text_in self.now) self.now.now.next at base result.0 result.1 }
    {
        match self.heap.place(at as usize) {
            Place::Functor(name, count) => (name, count),
            _ => unreachable!(),
        }
    }

    /// What a place of the text means, with a number added to its variables.
    #[inline(always)]
    pub fn value(&self, place: Place, base: u32) -> BindingCell
        requires there { IsPlaceOf (text_in self.now) place }
        requires below { var_bound (shifted base (meaning_in (text_in self.now) place)) ≤ self.now.now.next }
        ensures term { value_term self.now result ≡ shifted base (meaning_in (text_in self.now) place) }
        ensures there { IsValueIn self.now result }
    {
        // The proof reads off that numbers and places are small.
        let _next = self.cells.len();
        match place {
            Place::Functor(_, _) => unreachable!(),
            Place::Var(number) => BindingCell::Var(base + number as u32),
            Place::Int(value) => BindingCell::Int(value),
            Place::Atom(number) => BindingCell::Atom(number),
            Place::Sub(at) => BindingCell::Compound(at as u32, base),
            // The same value, whatever the number.
            Place::Ground(at) => BindingCell::Compound(at as u32, 0),
        }
    }

    /// The argument at a place, with a number added to its variables.
    #[inline(always)]
    pub fn argument(&self, at: u32, base: u32) -> BindingCell
        requires { IsArgument (text_in self.now) self.now.now.next base at }
        ensures term { value_term self.now result ≡ argument_at (text_in self.now) base at }
        ensures there { IsValueIn self.now result }
        ensures short { at < 2 ^ 32 - 1 }
    {
        self.value(self.heap.place(at as usize), base)
    }

    /// The same, or nothing where its place says that it has no variables.
    #[inline(always)]
    pub(crate) fn argument_unless_ground(&self, at: u32, base: u32) -> Option<BindingCell>
        requires { IsArgument (text_in self.now) self.now.now.next base at }
        ensures argument { MatchOption result (var_bound (argument_at (text_in self.now) base at) ≡ 0) (IsArgumentValue self.now base at) }
        ensures short { at < 2 ^ 32 - 1 }
    {
        let place = self.heap.place(at as usize);
        match place {
            Place::Var(_) | Place::Sub(_) => Some(self.value(place, base)),
            _ => None,
        }
    }

    /// The place of an argument.
    #[inline(always)]
    pub(crate) fn argument_place(&self, at: u32, base: u32) -> Place
        requires { IsArgument (text_in self.now) self.now.now.next base at }
        ensures place { code_place (text_in self.now) at ≡ result }
        ensures short { at < 2 ^ 32 - 1 }
    {
        self.heap.place(at as usize)
    }

    /// The compound that a place means, with a number added to its variables, where the place says that it has some.
    #[inline(always)]
    pub(crate) fn compound(&self, place: Place, base: u32) -> Option<(u32, u32)>
        requires there { IsPlaceOf (text_in self.now) place }
        requires below { var_bound (shifted base (meaning_in (text_in self.now) place)) ≤ self.now.now.next }
        ensures { IfSome result (IsCompoundPlace self.now place base) }
    {
        // The proof reads off that places are small.
        let _next = self.cells.len();
        match place {
            Place::Sub(at) => Some((at as u32, base)),
            _ => None,
        }
    }

    /// The compound that a place means, with a number added to its variables, if it means one.
    #[inline(always)]
    pub fn any_compound(&self, place: Place, base: u32) -> Option<(u32, u32)>
        requires there { IsPlaceOf (text_in self.now) place }
        requires below { var_bound (shifted base (meaning_in (text_in self.now) place)) ≤ self.now.now.next }
        ensures { MatchOption result (is_compound (shifted base (meaning_in (text_in self.now) place)) ≡ false) (IsCompoundPlace self.now place base) }
    {
        // The proof reads off that places are small.
        let _next = self.cells.len();
        match place {
            Place::Sub(at) => Some((at as u32, base)),
            // The same value, whatever the number.
            Place::Ground(at) => Some((at as u32, 0)),
            Place::Functor(_, _) => unreachable!(),
            Place::Var(_) => None,
            Place::Int(_) => None,
            Place::Atom(_) => None,
        }
    }

    /// What an argument stands for, as a value that is no bound variable.
    #[inline(always)]
    pub(crate) fn reached(&self, at: u32, base: u32) -> BindingCell
        requires { IsArgument (text_in self.now) self.now.now.next base at }
        ensures reached { IsArgumentReached self.now base at result }
        ensures short { at < 2 ^ 32 - 1 }
    {
        self.dereference(self.argument(at, base))
    }

    /// A value that stands for the same and is no bound variable.
    #[inline(always)]
    pub fn dereference(&self, value: BindingCell) -> BindingCell
        requires { IsValueIn self.now value }
        ensures { IsDereferenced self.now value result }
    {
        match value {
            BindingCell::Var(variable) => self.cells.follow(variable),
            value => value,
        }
    }

    /// The variable that a place means, with a number added, where it is free and one of a clause of which this is the first.
    #[inline(always)]
    pub(crate) fn fresh_variable(&self, place: Place, base: u32, fresh: Option<u32>) -> Option<u32>
        requires there { IsPlaceOf (text_in self.now) place }
        requires below { var_bound (shifted base (meaning_in (text_in self.now) place)) ≤ self.now.now.next }
        ensures { IfSome result (IsFreshPlace self.now place base fresh) }
    {
        let Place::Var(number) = place else {
            return None;
        };
        let Some(first) = fresh else {
            return None;
        };
        // The proof reads off that numbers are small.
        let _next = self.cells.len();
        let variable = base + number as u32;
        if variable < first {
            return None;
        }
        match self.cells.get(variable) {
            Some(_) => None,
            None => Some(variable),
        }
    }

    /// Binds a free variable.
    #[inline(always)]
    pub fn bind(&mut self, variable: u32, value: BindingCell) -> Result<(), NoMemory>
        requires { CanBeBound self.old variable value }
        ensures ok { OnOk result (BindsFurther self.old self.new ((variable, meaning self.old value) ∷ [])) }
        ensures err { OnErr result (self.new ≡ self.old) }
    {
        if (variable as usize) < self.marks.protected() {
            self.trail.push(variable)?;
        }
        self.cells.bind(variable, value);
        Ok(())
    }

    /// Takes the room for the arguments that wait in an occurs check.
    pub(crate) fn take_walked(&mut self) -> Vec<Arguments>
        ensures { self.new ≡ self.old }
    {
        mem::replace(&mut self.walked, Vec::new(self.alloc))
    }

    /// Puts it back.
    pub(crate) fn keep_walked(&mut self, walked: Vec<Arguments>)
        ensures { self.new ≡ self.old }
    {
        self.walked = walked;
    }

    /// Binds a free variable that came after the floor and all marks, so that its cell is cut off where one is gone back to.
    #[inline(always)]
    pub(crate) fn bind_young(&mut self, variable: u32, value: BindingCell)
        requires can { CanBeBound self.old variable value }
        requires young { Each (λ m. m.next ≤ variable) (self.old.floor ∷ self.old.marks) }
        ensures { BindsFurther self.old self.new ((variable, meaning self.old value) ∷ []) }
    {
        self.cells.bind(variable, value);
    }

    /// The first variable of a clause, where the clause's variables came after the floor and all marks.
    #[inline(always)]
    pub(crate) fn if_young(&self, base: u32) -> Option<u32>
        ensures young { AreYoung self.now result }
        ensures same { IfSome result (λ first. first ≡ base) }
    {
        if self.marks.protected() <= base as usize {
            Some(base)
        } else {
            None
        }
    }

    /// Solves equations, and then the next ones behind them.
    #[inline(never)]
    pub(crate) fn solve_behind(
        &mut self,
        first: Equations,
        next: Equations,
        fresh: Option<u32>,
    ) -> Result<bool, NoMemory>
        requires there { AllEquations (text_in self.old) self.old.now.next (first ∷ next ∷ []) }
        requires older { AreOlder fresh (equations_left self.old (first ∷ next ∷ [])) }
        requires young { AreYoung self.old fresh }
        ensures solved { IfOk result (IsSolved (first ∷ next ∷ []) self.old self.new) }
        ensures kept { OnlyBinds self.old self.new }
    {
        let mut pending = mem::replace(&mut self.pending, Vec::new(self.alloc));
        pending.clear();
        pending.push(next)?;
        let answer = solve(first, fresh, self, &mut pending);
        self.pending = pending;
        answer
    }

    /// The value that a term is: it is put into the heap.
    pub fn copy_in(&mut self, term: &Shared) -> Result<BindingCell, NoMemory>
        requires { var_bound term.now ≤ self.old.now.next }
        ensures there { IfOk result (IsValueIn self.new) }
        ensures term { IfOk result (λ value. value_term self.new value ≡ term.now) }
        ensures others { AddsText self.old self.new }
    {
        let place = self.heap.push_term(self.alloc, term)?;
        Ok(self.value(place, 0))
    }

    /// The value of the goal that unifies a term with the list of others, which is put into the heap.
    pub fn list_goal(
        &mut self,
        term: &FlatTerm,
        items: &[FlatTerm],
    ) -> Result<BindingCell, NoMemory>
        requires { var_bound (list_goal term.now items.now) ≤ self.old.now.next }
        ensures there { IfOk result (IsValueIn self.new) }
        ensures term { IfOk result (λ value. value_term self.new value ≡ list_goal term.now items.now) }
        ensures others { AddsText self.old self.new }
    {
        let place = self.heap.push_list_goal(self.alloc, term, items)?;
        Ok(self.value(place, 0))
    }

    /// The term that a value stands for.
    pub fn resolve(&self, value: BindingCell) -> Result<FlatTerm, NoMemory>
        requires { IsValueIn self.now value }
        ensures { IfOk result (λ t. t ≡ meaning self.now value) }
    {
        resolved(self.alloc, value, self, true)
    }

    /// The term that a value is, as it is written: no binding is followed.
    pub fn written(&self, value: BindingCell) -> Result<FlatTerm, NoMemory>
        requires { IsValueIn self.now value }
        ensures { IfOk result (λ t. t ≡ value_term self.now value) }
    {
        resolved(self.alloc, value, self, false)
    }

    /// The bindings that were made since a mark, by the number of marks before it: of each variable once, in the order of their
    /// numbers, with the values that they have now.
    pub fn made_since(&self, mark: usize) -> Result<Vec<(u32, BindingCell)>, NoMemory>
        requires { mark < length self.now.marks }
        ensures { IfOk result (λ bs. (before after : List Moment) (moment : Moment) → self.now.marks ≡ before ++ moment ∷ after → mark ≡ length before → AreMadeSince moment self.now bs.items) }
    {
        bindings_after(self.alloc, self.marks.at(mark), &self.trail, &self.cells)
    }

    /// The bindings that were made since the floor, in the same way.
    pub fn made_since_floor(&self) -> Result<Vec<(u32, BindingCell)>, NoMemory>
        ensures { IfOk result (λ bs. AreMadeSince self.now.floor self.now bs.items) }
    {
        bindings_after(self.alloc, self.marks.floor(), &self.trail, &self.cells)
    }

    /// What a variable was bound to, if it is bound: no binding is followed.
    pub fn binding(&self, variable: u32) -> Option<BindingCell>
        requires { variable < self.now.now.next }
        ensures { MatchOption result (value_of (substitution self.now) variable ≡ VarTerm variable) (IsBindingOf self.now variable) }
    {
        self.cells.get(variable)
    }

    /// The next variable number at a mark, by the number of marks before it.
    pub fn next_at(&self, mark: usize) -> u32
        requires { mark < length self.now.marks }
        ensures { IsNextAtMark self.now mark result }
    {
        self.marks.at(mark).variables as u32
    }

    /// Variables that were there and free at a mark, by the number of marks before it: all of these that were bound since, and maybe
    /// others that are free again.
    pub fn older_since(&self, mark: usize) -> Result<Vec<u32>, NoMemory>
        requires { mark < length self.now.marks }
        ensures { IfOk result (λ vs. AreOlderSinceMark self.now mark vs.items) }
    {
        let at = self.marks.at(mark);
        older_variables(self.alloc, &self.trail[at.trail..], at.variables)
    }

    /// Marks the state of the store, and gives the number of marks before.
    #[inline]
    pub fn mark(&mut self) -> Result<usize, NoMemory>
        ensures ok { OnOk result (self.new ≡ with_mark self.old) }
        ensures count { IfOk result (λ count. count ≡ length self.old.marks) }
        ensures err { OnErr result (self.new ≡ self.old) }
    {
        let count = self.marks.len();
        self.marks
            .push(mark_of(&self.heap, &self.cells, &self.trail))?;
        Ok(count)
    }

    /// Takes the state of the store as its floor, where nothing is marked.
    pub fn set_floor(&mut self)
        requires { self.old.marks ≡ [] }
        ensures { self.new ≡ over_floor self.old }
    {
        let floor = mark_of(&self.heap, &self.cells, &self.trail);
        self.marks.set_floor(floor);
    }

    /// Takes the state of the store as its floor, and puts all marks at it.
    pub fn raise_floor(&mut self) -> Result<(), NoMemory>
        ensures ok { OnOk result (self.new ≡ raised self.old) }
        ensures older { Each (IsOlderMoment self.old) self.old.marks }
        ensures err { OnErr result (self.new ≡ self.old) }
    {
        let floor = mark_of(&self.heap, &self.cells, &self.trail);
        self.marks.raise(floor)?;
        Ok(())
    }

    /// Drops all marks after the oldest ones; what is bound and made stays.
    #[inline]
    pub fn keep_marks(&mut self, count: usize)
        ensures { self.new ≡ with_marks count self.old }
    {
        self.marks.keep(count);
    }

    /// Takes the store back to a mark, by the number of marks before it. The mark stays, and those after it are dropped.
    #[inline]
    pub fn undo_to(&mut self, mark: usize)
        requires { mark < length self.old.marks }
        ensures { (before after : List Moment) (moment : Moment) → self.old.marks ≡ before ++ moment ∷ after → mark ≡ length before → self.new ≡ taken_back moment (with_marks (mark + 1) self.old) }
    {
        let at = self.marks.at(mark);
        self.marks.keep(mark + 1);
        free_after(at.trail, &mut self.trail, &mut self.cells);
        self.cells.cut_to(at.variables);
        self.heap.cut_to(at.made);
    }
}
