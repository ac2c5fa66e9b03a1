//! Marks.
ghost use Rattle.std.specs.Prelude.{◌≡◌, ◌≤◌, ◌<◌, ◌^◌, ◌-◌, ◌∷◌, ◌++◌, [], length, take, drop, map, get_or, OnOk, OnErr};
ghost use Rattle.au_model.specs.Terms.Each.{Each};
ghost use Rattle.cell_store.specs.Undoing.{AreNested, freed, mark_now};

use crate::heap::Heap;
use au_term::NoMemory;
use binding_array::BindingArray;
use std::alloc::Global;
use std::marker::Model;

/// How long the parts of a store were when its state was marked.
#[derive(Clone, Copy, Debug)]
pub(crate) struct Mark {
    pub(crate) trail: usize,
    pub(crate) variables: usize,
    pub(crate) made: usize,
}

/// A mark of how a store is.
#[inline(always)]
pub(crate) fn mark_of(heap: &Heap, cells: &BindingArray, trail: &[u32]) -> Mark
    ensures { result ≡ mark_now (record { heap = heap.now; cells = cells.now; trail = trail.now; marks = [] }) }
{
    Mark {
        trail: trail.len(),
        variables: cells.len(),
        made: heap.made(),
    }
}

/// The marks of a store: that of its floor, how many of the oldest ones are at the floor, and those that came later.
#[derive(Drop)]
pub(crate) struct Marks {
    floor: Mark,
    at_floor: u32,
    later: Vec<Mark>,
}

impl Model for Marks {
    ghost use Rattle.cell_store.specs.Undoing.{MarksView, marks_over};

    ghost Value = { MarksView };

    ghost view = { λ s. record { floor = s.floor; marks = marks_over s.floor s.at_floor s.later.items } };
}

impl Marks {
    /// The floor is where nothing is made or bound, and nothing is marked.
    pub(crate) fn new(alloc: Global) -> Marks
        ensures { result ≡ record { floor = record { trail = 0; variables = 0; made = 0 }; marks = [] } }
    {
        Marks {
            floor: Mark {
                trail: 0,
                variables: 0,
                made: 0,
            },
            at_floor: 0,
            later: Vec::new(alloc),
        }
    }

    /// How many there are over the floor.
    #[inline(always)]
    pub(crate) fn len(&self) -> usize
        ensures { result ≡ length self.now.marks }
    {
        self.at_floor as usize + self.later.len()
    }

    pub(crate) fn floor(&self) -> Mark
        ensures { result ≡ self.now.floor }
    {
        self.floor
    }

    /// That with a number.
    #[inline(always)]
    pub(crate) fn at(&self, number: usize) -> Mark
        requires { number < length self.now.marks }
        ensures at { result ≡ get_or self.now.marks number result }
        ensures small { number < 2 ^ 64 - 1 }
    {
        let at_floor = self.at_floor as usize;
        if number < at_floor {
            self.floor
        } else {
            self.later[number - at_floor]
        }
    }

    #[inline(always)]
    pub(crate) fn push(&mut self, mark: Mark) -> Result<(), NoMemory>
        ensures ok { OnOk result (self.new ≡ record { floor = self.old.floor; marks = self.old.marks ++ mark ∷ [] }) }
        ensures err { OnErr result (self.new ≡ self.old) }
    {
        self.later.push(mark)?;
        Ok(())
    }

    /// Keeps so many of them, the oldest.
    #[inline(always)]
    pub(crate) fn keep(&mut self, count: usize)
        ensures { self.new ≡ record { floor = self.old.floor; marks = take count self.old.marks } }
    {
        let at_floor = self.at_floor as usize;
        if at_floor <= count {
            self.later.truncate(count - at_floor);
        } else {
            self.at_floor = count as u32;
            self.later.clear();
        }
    }

    /// Sets the floor, where nothing is over it.
    pub(crate) fn set_floor(&mut self, floor: Mark)
        requires { self.old.marks ≡ [] }
        ensures { self.new ≡ record { floor = floor; marks = [] } }
    {
        self.floor = floor;
        self.at_floor = 0;
        self.later.clear();
    }

    /// Sets the floor, and puts all of them at it.
    pub(crate) fn raise(&mut self, floor: Mark) -> Result<(), NoMemory>
        ensures ok { OnOk result (self.new ≡ record { floor = floor; marks = map (λ m. floor) self.old.marks }) }
        ensures err { OnErr result (self.new ≡ self.old) }
    {
        let Ok(at_floor) = u32::try_from(self.len()) else {
            return Err(NoMemory);
        };
        self.floor = floor;
        self.at_floor = at_floor;
        self.later.clear();
        Ok(())
    }

    /// How many variables there were at the newest one, or at the floor where there is none.
    #[inline(always)]
    pub(crate) fn protected(&self) -> usize
        requires { AreNested (self.now.floor ∷ self.now.marks) }
        ensures { Each (λ m. m.variables ≤ result) (self.now.floor ∷ self.now.marks) }
    {
        match self.later.last() {
            Some(mark) => mark.variables,
            None => self.floor.variables,
        }
    }
}

/// Frees the variables of the trail after the first ones, the last first, and takes them from it.
#[inline]
pub(crate) fn free_after(kept: usize, trail: &mut Vec<u32>, cells: &mut BindingArray)
    requires { Each (λ v. v < length cells.old) trail.old.items }
    ensures trail { trail.new.items ≡ take kept trail.old.items }
    ensures cells { cells.new ≡ freed (drop kept trail.old.items) cells.old }
{
    while trail.len() > kept {
        match trail.pop() {
            Some(variable) => cells.free(variable),
            None => unreachable!(),
        }
    }
}
