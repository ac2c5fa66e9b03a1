//! The clauses of one dynamic procedure.
ghost use Rattle.std.specs.Prelude.{◌≡◌, ◌++◌, ◌∷◌, [], ℕ, None, cond, map, IfOk, OnErr, OnOk, is_some};
ghost use Rattle.std.specs.Ordering.{nat_cmp};
ghost use Rattle.std.specs.Map.{lookup};
ghost use Rattle.std.specs.BTreeMap.{get, insert_entry, is_at};
ghost use Rattle.std.specs.Arc.{arc_value};
ghost use Rattle.dyn_clauses.specs.PositionIndex.{has_numbered, matching_clauses, position_number, numbered_clauses, picked, without_position};
ghost use Rattle.dyn_clauses.specs.KeyedClauses.{IsProcedure, numbered_keyed, placed_clause};
ghost use Rattle.clause_compile.specs.CompiledClauses.{shown};

use crate::keys::{Index, forget, is_any, key_of_head, note};
use crate::place::Places;
use au_term::NoMemory;
use clause_compile::{Clause, ClauseId};
use proc_index::Key;
use std::alloc::{AllocError, Global};
use std::collections::{BTreeMap, BTreeSet};
use std::marker::Model;
use std::sync::Arc;

/// A clause by its number.
pub(crate) type Numbered = (ClauseId, Arc<Clause>);

/// The positions of clauses that are put in front go down from here, those of the others go up.
pub(crate) const MIDDLE: u64 = 1 << 63;

/// A clause, and the key of its head's first argument.
#[derive(Drop)]
pub(crate) struct KeyedClause {
    pub(crate) clause: Arc<Clause>,
    pub(crate) key: Key,
}

/// Clauses by their positions.
type KeyedClauses = BTreeMap<u64, KeyedClause>;

/// The clauses of a procedure in the order of their positions. Contracts see the positions and the clauses.
#[derive(Drop)]
pub(crate) struct Procedure {
    alloc: Global,
    clauses: KeyedClauses,
    index: Index,
}

impl Model for Procedure {
    ghost use Rattle.std.specs.Coded.{codes};
    ghost use Rattle.au_term.specs.PrefixOrder.{term_code};
    ghost use Rattle.dyn_clauses.specs.PositionIndex.{Placed};
    ghost use Rattle.dyn_clauses.specs.KeyedClauses.{placed_clause, IsProcedure};

    ghost Value = { Placed };

    ghost coded = { Prim.hlevel (codes, term_code) };

    ghost view = { λ p. placed_clause p.clauses };

    ghost invariant = { λ p. IsProcedure p.clauses p.index };
}

impl Procedure {
    /// No clauses.
    pub(crate) fn new(alloc: Global) -> Procedure
        ensures { result ≡ [] }
    {
        Procedure {
            alloc,
            clauses: BTreeMap::new(alloc),
            index: BTreeMap::new(alloc),
        }
    }

    /// Puts a clause at a position that has none.
    pub(crate) fn put(&mut self, position: u64, clause: Arc<Clause>) -> Result<(), NoMemory>
        requires { lookup (is_at (nat_cmp position)) self.old ≡ None }
        ensures ok { OnOk result (self.new ≡ insert_entry nat_cmp self.old position (arc_value clause)) }
        ensures err { OnErr result (self.new ≡ self.old) }
    {
        put_keyed(
            self.alloc,
            &mut self.clauses,
            &mut self.index,
            position,
            clause,
        )
    }

    /// Takes the clause at a position, and says whether there was one.
    pub(crate) fn take(&mut self, position: u64) -> bool
        ensures found { result ≡ is_some (lookup (is_at (nat_cmp position)) self.old) }
        ensures taken { self.new ≡ without_position position self.old }
    {
        take_keyed(&mut self.clauses, &mut self.index, position)
    }

    /// All clauses, with their numbers.
    pub(crate) fn all(&self) -> Result<Vec<Numbered>, NoMemory>
        ensures { IfOk result (λ found. map shown found.items ≡ numbered_clauses self.now) }
    {
        let mut found = Vec::new(self.alloc);
        for (position, kept) in &self.clauses {
            push(&mut found, *position, kept)?;
        }
        Ok(found)
    }

    /// The clauses whose heads' first arguments are variables or have the key, with their numbers.
    pub(crate) fn matching(&self, key: &Key) -> Result<Vec<Numbered>, NoMemory>
        ensures { IfOk result (λ found. map shown found.items ≡ numbered_clauses (matching_clauses key.now self.now)) }
    {
        if is_any(key) {
            return self.all();
        }
        let none = BTreeSet::new(self.alloc);
        let variables = self.index.get(&Key::Any).unwrap_or(&none);
        let keyed = self.index.get(key).unwrap_or(&none);
        let mut found = Vec::new(self.alloc);
        for position in variables.union(keyed) {
            push_at(&mut found, &self.clauses, *position)?;
        }
        Ok(found)
    }

    /// Takes the numbers of the clauses out of a map.
    pub(crate) fn drop_places(&self, places: &mut Places)
        ensures { (n : ℕ) → get nat_cmp places.new n ≡ cond (has_numbered self.now n) None (get nat_cmp places.old n) }
    {
        for position in self.clauses.keys() {
            places.remove(&number_of(*position));
        }
    }

    /// The same clauses.
    pub(crate) fn copy(&self) -> Result<Procedure, NoMemory>
        ensures { IfOk result (λ p. p ≡ self.now) }
    {
        let mut copy = Procedure::new(self.alloc);
        for (position, kept) in &self.clauses {
            copy.put(*position, kept.clause.clone()?)?;
        }
        Ok(copy)
    }
}

impl Clone for Procedure {
    ghost is_clone = { λ x y. y ≡ x };

    fn clone(&self) -> Result<Procedure, AllocError> {
        match self.copy() {
            Ok(procedure) => Ok(procedure),
            Err(NoMemory) => Err(AllocError),
        }
    }
}

/// Puts a clause at a position that has none.
fn put_keyed(
    alloc: Global,
    clauses: &mut KeyedClauses,
    index: &mut Index,
    position: u64,
    clause: Arc<Clause>,
) -> Result<(), NoMemory>
    requires kept { IsProcedure clauses.old index.old }
    requires absent { get nat_cmp clauses.old position ≡ None }
    ensures kept { IsProcedure clauses.new index.new }
    ensures ok { OnOk result (placed_clause clauses.new ≡ insert_entry nat_cmp (placed_clause clauses.old) position (arc_value clause)) }
    ensures err { OnErr result (placed_clause clauses.new ≡ placed_clause clauses.old) }
{
    let key = key_of_head(clause.head())?;
    note(alloc, index, &key, position)?;
    if let Err(failed) = clauses.insert(position, KeyedClause { clause, key }) {
        let (_, kept) = failed.value;
        forget(index, &kept.key, position);
        return Err(NoMemory);
    }
    Ok(())
}

/// Takes the clause at a position, and says whether there was one.
fn take_keyed(clauses: &mut KeyedClauses, index: &mut Index, position: u64) -> bool
    requires { IsProcedure clauses.old index.old }
    ensures kept { IsProcedure clauses.new index.new }
    ensures found { result ≡ is_some (lookup (is_at (nat_cmp position)) (placed_clause clauses.old)) }
    ensures taken { placed_clause clauses.new ≡ without_position position (placed_clause clauses.old) }
{
    let Some(kept) = clauses.remove(&position) else {
        return false;
    };
    forget(index, &kept.key, position);
    true
}

/// Puts what is at a position after others.
fn push_at(found: &mut Vec<Numbered>, clauses: &KeyedClauses, position: u64) -> Result<(), NoMemory>
    ensures { OnOk result (map shown found.new.items ≡ map shown found.old.items ++ numbered_clauses (picked (position ∷ []) (placed_clause clauses.now))) }
{
    match clauses.get(&position) {
        Some(keyed) => push(found, position, keyed),
        None => Ok(()),
    }
}

/// Puts the clause at a position after others.
fn push(found: &mut Vec<Numbered>, position: u64, keyed: &KeyedClause) -> Result<(), NoMemory>
    ensures { OnOk result (map shown found.new.items ≡ map shown found.old.items ++ numbered_keyed position keyed.now ∷ []) }
{
    found.push((ClauseId(number_of(position)), keyed.clause.clone()?))?;
    Ok(())
}

/// The number of the clause at a position.
pub(crate) fn number_of(position: u64) -> u64
    ensures { result ≡ position_number position }
{
    if position < MIDDLE {
        MIDDLE - 1 - position
    } else {
        position - MIDDLE
    }
}
