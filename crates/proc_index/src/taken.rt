//! Clauses that were taken of a procedure's, and the reading that is counted.
ghost use Rattle.std.specs.Prelude.{◌≡◌, ◌+◌, ◌<◌, [], ◌∷◌, ◌++◌, IfOk, OnOk, OnErr, MatchOption, length, Some, slice_get};
ghost use Rattle.std.specs.Arc.{arc_value};

use crate::procs::Candidates;
use au_term::{NoMemory, Steps};
use clause_compile::Clause;
use smallvec::SmallVec;
use std::alloc::Global;
use std::marker::Model;
use std::sync::Arc;
use std::sync::ledger::Ledger;

/// Clauses in their order, shared. Contracts see their list. Up to 8 take no memory.
/// `SmallVec` fills its unused places with blanks, so a place is an `Option`.
#[derive(Drop)]
pub struct Taken {
    slots: SmallVec<Option<Arc<Clause>>, 8>,
}

impl Model for Taken {
    ghost use Rattle.std.specs.Prelude.{List};
    ghost use Rattle.std.specs.Coded.{codes};
    ghost use Rattle.au_term.specs.PrefixOrder.{term_code};
    ghost use Rattle.run_model.specs.Programs.Clauses.{Clause as ClauseTerms};

    ghost Value = { List ClauseTerms };

    ghost coded = { Prim.hlevel (codes, term_code) };

    ghost use Rattle.proc_index.specs.TakenClauses.{AreFull, taken_clauses};

    ghost view = { λ t. taken_clauses t.slots.items };

    ghost invariant = { λ t. AreFull t.slots.items };
}

impl Taken {
    /// No clauses.
    pub fn new(alloc: Global) -> Taken
        ensures { result ≡ [] }
    {
        Taken {
            slots: SmallVec::new(alloc),
        }
    }

    /// How many there are.
    pub fn len(&self) -> usize
        ensures { result ≡ length self.now }
    {
        self.slots.len()
    }

    /// Puts a clause, shared, after the others.
    pub fn push(&mut self, clause: &Arc<Clause>) -> Result<(), NoMemory>
        ensures ok { OnOk result (self.new ≡ self.old ++ arc_value clause.now ∷ []) }
        ensures err { OnErr result (self.new ≡ self.old) }
    {
        let shared = clause.clone()?;
        self.slots.push(Some(shared))?;
        Ok(())
    }

    /// The clause at a place.
    pub fn get(&self, place: usize) -> &Arc<Clause>
        requires { place < length self.now }
        ensures { slice_get self.now place ≡ Some (arc_value result.now) }
    {
        match &self.slots[place] {
            Some(clause) => clause,
            None => unreachable!(),
        }
    }
}

/// Clauses that may be tried for a goal, of which each reading is a step. Contracts see those that are left.
#[derive(Drop)]
pub(crate) struct Counted<'a> {
    left: Candidates<'a>,
}

impl<'a> Model for Counted<'a> {
    ghost use Rattle.std.specs.Prelude.{List};
    ghost use Rattle.std.specs.Coded.{codes};
    ghost use Rattle.au_term.specs.PrefixOrder.{term_code};
    ghost use Rattle.run_model.specs.Programs.Clauses.{Clause as ClauseTerms};

    ghost Value = { List ClauseTerms };

    ghost coded = { Prim.hlevel (codes, term_code) };

    ghost view = { λ c. c.left };
}

impl<'a> Counted<'a> {
    /// The clauses that are left of these.
    pub(crate) fn new(left: Candidates<'a>) -> Counted<'a>
        ensures { result ≡ left.entry }
    {
        Counted { left }
    }

    /// Reads the next clause, if one is left, and counts it.
    pub(crate) fn read<L: Ledger>(&mut self, steps: &mut Steps<L>) -> Option<&'a Arc<Clause>>
        ensures { MatchOption result ((self.old ≡ []) × (steps.new ≡ steps.old)) (λ c. (self.old ≡ arc_value c.now ∷ self.new) × (steps.new ≡ steps.old + 1)) }
    {
        match self.left.next() {
            Some(clause) => {
                steps.tick();
                Some(clause)
            }
            None => None,
        }
    }
}

/// All that are left of some clauses, shared.
pub(crate) fn take_all<L: Ledger>(
    alloc: Global,
    clauses: Counted<'_>,
    steps: &mut Steps<L>,
) -> Result<Taken, NoMemory>
    ensures clauses { IfOk result (λ taken. taken ≡ clauses.entry) }
    ensures steps { IfOk result (λ taken. steps.new ≡ steps.old + length taken) }
{
    let mut left = clauses;
    let mut taken = Taken::new(alloc);
    while let Some(clause) = left.read(steps) {
        taken.push(clause)?;
    }
    Ok(taken)
}
