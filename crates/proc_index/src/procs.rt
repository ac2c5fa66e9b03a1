//! Procedures in a map by name and number of arguments.
ghost use Rattle.std.specs.Prelude.{◌≡◌, OnOk, IfOk, map, true};
ghost use Rattle.std.specs.Arc.{arc_value};
ghost use Rattle.std.specs.Iterator.{YieldsFirstBy, item_count};
ghost use Rattle.au_term.specs.Term.{argument_count};
ghost use Rattle.au_model.specs.Terms.Forms.{is_callable, name_of};
ghost use Rattle.proc_index.specs.ProcedureIndex.{HaveHeads, IsAdded, IsAddedTo, candidates_of};
ghost use Rattle.proc_index.specs.TakenClauses.{IsCounted};

use crate::key::Key;
use crate::places::Merged;
use crate::procedure::Procedure;
use crate::taken::{Counted, Taken, take_all};
use au_model::names::name_of;
use au_term::{Atom, NoMemory, Steps};
use clause_compile::Clause;
use std::alloc::Global;
use std::collections::BTreeMap;
use std::marker::Model;
use std::sync::Arc;
use std::sync::ledger::Ledger;

/// The procedures of a name, by number of arguments.
type Arities = BTreeMap<u32, Procedure>;

/// The static clauses. Contracts see them as their list in the order of the text.
#[derive(Drop)]
pub struct Procs {
    clauses: Vec<Arc<Clause>>,
    index: BTreeMap<Atom, Arities>,
}

impl Model for Procs {
    ghost use Rattle.std.specs.Prelude.{List, map};
    ghost use Rattle.std.specs.Arc.{arc_value};
    ghost use Rattle.std.specs.Coded.{codes};
    ghost use Rattle.au_term.specs.PrefixOrder.{term_code};
    ghost use Rattle.run_model.specs.Programs.Clauses.{Clause as ClauseTerms};

    ghost Value = { List ClauseTerms };

    ghost coded = { Prim.hlevel (codes, term_code) };

    ghost use Rattle.proc_index.specs.ProcedureIndex.{IsIndexOf};

    ghost view = { λ p. map arc_value p.clauses.items };

    ghost invariant = { λ p. IsIndexOf p.index (map arc_value p.clauses.items) };
}

impl Procs {
    /// The procedures of these clauses.
    pub fn new(alloc: Global, clauses: Vec<Arc<Clause>>) -> Result<Procs, NoMemory>
        ensures { IfOk result (λ procs. procs ≡ map arc_value clauses.items) }
    {
        let mut index = BTreeMap::new(alloc);
        for (place, clause) in clauses.iter().enumerate() {
            add(alloc, &mut index, place, clause)?;
        }
        Ok(Procs { clauses, index })
    }

    /// The clauses of a procedure whose first argument is a variable or has the key, in the order of the text; none
    /// where no clause has the name and number of arguments.
    pub fn candidates<'a>(&'a self, name: &Atom, arity: u32, first: &Key) -> Option<Candidates<'a>>
        ensures candidates { result ≡ candidates_of self.now name.now arity first.now }
        ensures heads { HaveHeads self.now }
    {
        let procedure = self.index.get(name)?.get(&arity)?;
        if procedure.all.is_empty() {
            return None;
        }
        Some(Candidates {
            clauses: &self.clauses,
            places: procedure.places_of(first),
        })
    }

    /// The same clauses, shared, with one step for each: what is read is counted.
    pub fn take_candidates<L: Ledger>(
        &self,
        alloc: Global,
        name: &Atom,
        arity: u32,
        first: &Key,
        steps: &mut Steps<L>,
    ) -> Result<Option<Taken>, NoMemory>
        ensures clauses { IfOk result (λ taken. taken ≡ candidates_of self.now name.now arity first.now) }
        ensures steps { IfOk result (IsCounted steps.old steps.new) }
    {
        match self.candidates(name, arity, first) {
            Some(candidates) => Ok(Some(take_all(alloc, Counted::new(candidates), steps)?)),
            None => Ok(None),
        }
    }
}

/// Puts the place of a clause after those of its procedure.
fn add(
    alloc: Global,
    index: &mut BTreeMap<Atom, Arities>,
    place: usize,
    clause: &Clause,
) -> Result<(), NoMemory>
    ensures added { OnOk result (IsAdded index.old index.new place clause.now) }
    ensures head { is_callable clause.now.head ≡ true }
{
    let head = clause.head();
    let name = name_of(head).share()?;
    let arity = head.arity();
    let key = Key::of_head(head)?;
    let mut arities = index.remove(&name).unwrap_or(BTreeMap::new(alloc));
    add_to(alloc, &mut arities, arity, place, key)?;
    index.insert(name, arities)?;
    Ok(())
}

/// Puts the place of a clause with this key after those with its number of arguments.
fn add_to(
    alloc: Global,
    arities: &mut Arities,
    arity: u32,
    place: usize,
    key: Key,
) -> Result<(), NoMemory>
    ensures { OnOk result (IsAddedTo arities.old arities.new arity place key) }
{
    let mut procedure = arities.remove(&arity).unwrap_or(Procedure::new(alloc));
    procedure.put(alloc, place, key)?;
    arities.insert(arity, procedure)?;
    Ok(())
}

/// Clauses that may be tried for a goal. Contracts see those that are left.
#[derive(Drop)]
pub struct Candidates<'a> {
    clauses: &'a [Arc<Clause>],
    places: Merged<'a>,
}

impl<'a> Model for Candidates<'a> {
    ghost use Rattle.std.specs.Prelude.{List, map, length, ◌<◌};
    ghost use Rattle.std.specs.Arc.{arc_value};
    ghost use Rattle.std.specs.Coded.{codes};
    ghost use Rattle.au_term.specs.PrefixOrder.{term_code};
    ghost use Rattle.run_model.specs.Programs.Clauses.{Clause as ClauseTerms};
    ghost use Rattle.au_model.specs.Terms.Each.{Each};

    ghost Value = { List ClauseTerms };

    ghost coded = { Prim.hlevel (codes, term_code) };

    ghost use Rattle.proc_index.specs.Places.{merged, clauses_at};

    ghost view = { λ c. clauses_at (map arc_value c.clauses.now) (merged c.places.left.now c.places.right.now) };

    ghost invariant = { λ c. Each (λ i. i < length c.clauses.now) (merged c.places.left.now c.places.right.now) };
}

impl<'a> Iterator for Candidates<'a> {
    type Item = &'a Arc<Clause>;

    ghost next_gives = { YieldsFirstBy (λ c. arc_value c.now) (λ s. s) };

    ghost remaining = { item_count (λ s. s) };

    fn next(&mut self) -> Option<&'a Arc<Clause>> {
        let place = self.places.take_least()?;
        Some(&self.clauses[place])
    }
}
