//! Choice points.
ghost use Rattle.std.specs.Prelude.{◌≡◌, MatchOption, OnOk, OnErr, IsTrue, ◌↔◌};
ghost use Rattle.region_split.specs.ChoicePoints.{HaveNoClause, HaveNoSolution, HaveSolution, IsCatching, IsCollecting, with_found};

use crate::frame::Position;
use crate::results::Results;
use crate::solution::{Solution, Solutions};
use au_term::{FlatTerm, NoMemory};
use binding_array::BindingCell;
use clause_index::Cursor;
use std::alloc::Global;

/// What a choice point stands for.
#[derive(Drop)]
pub enum Alternatives {
    /// The clause that is to be tried next for a goal, by its number in the text, and those that are left after it.
    Clauses {
        goal: BindingCell,
        clause: u32,
        left: Cursor,
    },
    /// The solutions that are still to be tried.
    Solutions(Solutions),
    /// What is left to do at the choice point's position.
    Elsewhere,
    /// What is caught, and the recovery.
    Catch {
        catcher: BindingCell,
        recovery: BindingCell,
    },
    /// What the list of results is unified with, and the results so far.
    Findall {
        list: BindingCell,
        results: Results,
    },
    /// The end of a query.
    QueryEnd,
}

/// A choice point: its alternatives, where they go on, and how many frames it keeps.
#[derive(Drop)]
pub struct ChoicePoint {
    pub alternatives: Alternatives,
    pub after: Position,
    pub frames: u32,
}

/// A clause to be tried for a goal, and where its body goes on.
#[derive(Clone, Copy, Debug)]
pub struct Trial {
    pub goal: BindingCell,
    pub clause: u32,
    pub after: Position,
}

/// What goes on where a branch has ended.
#[derive(Drop)]
pub enum Resumed {
    /// What is left to do at a position.
    At(Position),
    /// A findall's goal has no solution left: the list is unified with the results, and what follows is at the position.
    FindallDone {
        list: BindingCell,
        results: Results,
        after: Position,
    },
    /// A query has ended.
    QueryDone,
    /// No choice point is left.
    AllDone,
}

impl Alternatives {
    /// The goal, the clause that is to be tried next for it and those that are left, if they are clauses.
    #[inline(always)]
    pub(crate) fn clauses(&self) -> Option<(BindingCell, u32, Cursor)>
        ensures { MatchOption result (HaveNoClause self.now) (λ c. self.now ≡ Alternatives.Clauses c.0 c.1 c.2) }
    {
        match self {
            Alternatives::Clauses { goal, clause, left } => Some((*goal, *clause, *left)),
            _ => None,
        }
    }

    /// Takes the first solution off, if they are solutions, and says whether it was the last.
    pub(crate) fn next_solution(&mut self) -> Option<(Solution, bool)>
        ensures { MatchOption result (HaveNoSolution self.old × (self.new ≡ self.old)) (λ t. HaveSolution self.old self.new t.0 t.1) }
    {
        match self {
            Alternatives::Solutions(left) => {
                let solution = left.take()?;
                let is_last = left.is_empty();
                Some((solution, is_last))
            }
            _ => None,
        }
    }

    /// Adds a copy of a term to the results of a findall.
    pub(crate) fn add_result(&mut self, alloc: Global, term: FlatTerm) -> Result<(), NoMemory>
        requires { IsCollecting self.old }
        ensures ok { OnOk result (self.new ≡ with_found term self.old) }
        ensures err { OnErr result (self.new ≡ self.old) }
    {
        match self {
            Alternatives::Findall { list: _, results } => results.push(alloc, term),
            _ => unreachable!(),
        }
    }
}

impl ChoicePoint {
    /// Whether it is a catch.
    #[inline]
    pub(crate) fn is_catch(&self) -> bool
        ensures { IsTrue result ↔ IsCatching self.now.alternatives }
    {
        match &self.alternatives {
            Alternatives::Catch { .. } => true,
            _ => false,
        }
    }

    /// Whether it is a findall.
    #[inline]
    pub(crate) fn is_findall(&self) -> bool
        ensures { IsTrue result ↔ IsCollecting self.now.alternatives }
    {
        match &self.alternatives {
            Alternatives::Findall { .. } => true,
            _ => false,
        }
    }
}
