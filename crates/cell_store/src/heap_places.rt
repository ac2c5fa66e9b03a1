//! The places of the heap, in one piece.
ghost use Rattle.std.specs.Prelude.{◌≡◌, ◌<◌, ◌≤◌, ◌+◌, ◌∷◌, [], ◌++◌, IfOk, OnOk, OnErr, length, take, drop, reverse};
ghost use Rattle.cell_store.specs.HeapView.{all_places};

use au_term::NoMemory;
use clause_compile::{Code, Place, push_block};
use std::alloc::Global;
use std::marker::Model;

/// The places of a program's text, copied, and behind them those that were made. So a place is read at its number, without a
/// look at which of the two it is.
#[derive(Drop)]
pub(crate) struct HeapPlaces {
    all: Vec<Place>,
    program: usize,
}

impl Model for HeapPlaces {
    ghost use Rattle.std.specs.Prelude.{◌≤◌, length, take, drop};
    ghost use Rattle.cell_store.specs.HeapView.{PlacesView};

    ghost Value = { PlacesView };

    ghost view = { λ p. record { program = take p.program p.all.items; made = drop p.program p.all.items } };

    ghost invariant = { λ p. p.program ≤ length p.all.items };
}

impl HeapPlaces {
    /// Those of a program's text.
    pub(crate) fn new(alloc: Global, code: &Code) -> Result<HeapPlaces, NoMemory>
        ensures { IfOk result (λ p. p ≡ record { program = code.now.places; made = [] }) }
    {
        let all = Vec::from_slice(alloc, code.places())?;
        let program = all.len();
        Ok(HeapPlaces { all, program })
    }

    /// How many there are.
    #[inline(always)]
    pub(crate) fn len(&self) -> usize
        ensures { result ≡ length (all_places self.now) }
    {
        self.all.len()
    }

    /// How many were made.
    #[inline(always)]
    pub(crate) fn made(&self) -> usize
        ensures { result ≡ length self.now.made }
    {
        self.all.len() - self.program
    }

    /// The place with a number.
    #[inline(always)]
    pub(crate) fn place(&self, at: usize) -> Place
        requires { at < length (all_places self.now) }
        ensures { drop at (all_places self.now) ≡ result ∷ drop (at + 1) (all_places self.now) }
    {
        self.all[at]
    }

    /// Adds a functor and so many places of the stack, the topmost first.
    pub(crate) fn push_block(
        &mut self,
        number: u32,
        count: u32,
        stack: &mut Vec<Place>,
    ) -> Result<(), NoMemory>
        requires { count ≤ length stack.old.items }
        ensures block { OnOk result (self.new ≡ record { program = self.old.program; made = self.old.made ++ Place.Functor number count ∷ take count (reverse stack.old.items) }) }
        ensures left { OnOk result (reverse stack.new.items ≡ drop count (reverse stack.old.items)) }
        ensures err { OnErr result (self.new ≡ self.old) }
    {
        let length = self.all.len();
        let pushed = push_block(number, count, stack, &mut self.all);
        if pushed.is_err() {
            self.all.truncate(length);
        }
        pushed
    }

    /// Takes away those that were made after so many.
    #[inline]
    pub(crate) fn cut_to(&mut self, made: usize)
        ensures { self.new ≡ record { program = self.old.program; made = take made self.old.made } }
    {
        if made < self.made() {
            self.all.truncate(self.program + made);
        }
    }
}
