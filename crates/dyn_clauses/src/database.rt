//! The dynamic procedures.
ghost use Rattle.std.specs.Prelude.{◌≡◌, ◌+◌, ◌<◌, ℕ, cond, None, Some, IfOk, IsSome, OnErr, OnOk, map, option_map};
ghost use Rattle.std.specs.Bool.{OnFalse, OnTrue};
ghost use Rattle.std.specs.Ordering.{nat_cmp};
ghost use Rattle.std.specs.List.{list_any};
ghost use Rattle.std.specs.Map.{remove_entry};
ghost use Rattle.std.specs.BTreeMap.{IsOrdered, get, insert_entry, is_at};
ghost use Rattle.std.specs.Arc.{arc_value};
ghost use Rattle.run_model.specs.Programs.Databases.{clauses_of, has_number, no_procedures, procedure_without, without_clause};
ghost use Rattle.run_model.specs.Programs.DatabaseChanges.{declared_in, with_first_clause, with_last_clause, without_procedure};
ghost use Rattle.proc_index.specs.Keys.{head_key};
ghost use Rattle.dyn_clauses.specs.declared.indicator.Indicator.{Indicator as IndicatorTerms};
ghost use Rattle.dyn_clauses.specs.PositionIndex.{middle, position_number};
ghost use Rattle.dyn_clauses.specs.DatabaseView.{ChangesSpot, IsCause, IsDatabase, HavePlaces, IsRemoved, IsSnapshot, IsStaticCause, clause_at, indicator_cmp, is_spot, is_static, matching_numbered, procedures_meant, shown_clauses, with_entry, without_spot};
ghost use Rattle.dyn_clauses.specs.ClauseEnds.{end_position, indicator_of, with_clause_at};

use crate::indicator::Indicator;
use crate::keys::key_of_head;
use crate::place::{Place, Places};
use crate::procedure::{MIDDLE, Numbered, Procedure};
use au_term::{FlatTerm, NoMemory};
use clause_compile::{Clause, ClauseId};
use proc_index::Key;
use std::alloc::{AllocFailed, Global};
use std::collections::{BTreeMap, BTreeSet};
use std::marker::Model;
use std::sync::Arc;

/// Why clauses are not changed.
#[derive(Clone, Copy, Debug, PartialEq, Eq)]
pub enum DataRefusal {
    Static,
    NoMemory,
}

/// The procedure is static.
#[derive(Clone, Copy, Debug, PartialEq, Eq)]
pub struct Static;

/// No clause has the number.
#[derive(Clone, Copy, Debug, PartialEq, Eq)]
pub struct Gone;

/// The clauses that a procedure has at one moment, with their numbers.
#[derive(Drop)]
pub enum Snapshot {
    Unknown,
    Static,
    Clauses(Vec<Numbered>),
}

impl From<NoMemory> for DataRefusal {
    ghost use Rattle.dyn_clauses.specs.declared.database.DataRefusal.TheVariants.{NoMemory as NoMemoryLeft};

    ghost from_gives = { λ _ e. e ≡ NoMemoryLeft };

    fn from(_error: NoMemory) -> DataRefusal {
        DataRefusal::NoMemory
    }
}

type Procedures = BTreeMap<Indicator, Procedure>;

/// The dynamic procedures, beside the names of the static ones.
#[derive(Drop)]
pub struct Database {
    alloc: Global,
    statics: BTreeSet<Indicator>,
    procedures: Procedures,
    places: Places,
    next: u64,
}

impl Model for Database {
    ghost use Rattle.std.specs.Coded.{codes};
    ghost use Rattle.au_term.specs.PrefixOrder.{term_code};
    ghost use Rattle.dyn_clauses.specs.DatabaseView.{KnownDatabase, IsDatabase, procedures_meant};

    ghost Value = { KnownDatabase };

    ghost coded = { Prim.hlevel (codes, term_code) };

    ghost view = { λ d. record { statics = d.statics.keys; kept = record { procedures = procedures_meant d.procedures.entries; next = d.next } } };

    ghost invariant = { λ d. IsDatabase d.procedures d.places d.next };
}

/// Makes a procedure known.
fn declare(
    alloc: Global,
    procedures: &mut Procedures,
    procedure: &Indicator,
) -> Result<(), NoMemory>
    requires { IsOrdered indicator_cmp procedures.old }
    ensures ordered { IsOrdered indicator_cmp procedures.new }
    ensures clauses { (i : IndicatorTerms) (q : ℕ) → clause_at procedures.new.entries i q ≡ clause_at procedures.old.entries i q }
    ensures ok { OnOk result (procedures.new.entries ≡ with_entry (λ ps. ps) procedure.now procedures.old.entries) }
    ensures err { OnErr result (procedures.new.entries ≡ procedures.old.entries) }
{
    if procedures.contains_key(procedure) {
        return Ok(());
    }
    procedures.insert(procedure.share()?, Procedure::new(alloc))?;
    Ok(())
}

/// Puts a clause of a procedure at a position that has none.
fn put(
    alloc: Global,
    procedures: &mut Procedures,
    procedure: Indicator,
    position: u64,
    clause: Arc<Clause>,
) -> Result<(), NoMemory>
    requires ordered { IsOrdered indicator_cmp procedures.old }
    requires absent { clause_at procedures.old.entries procedure position ≡ None }
    ensures ordered { IsOrdered indicator_cmp procedures.new }
    ensures clauses { OnOk result (ChangesSpot procedures.old.entries procedures.new.entries procedure position (Some (arc_value clause))) }
    ensures ok { OnOk result (procedures.new.entries ≡ with_entry (λ ps. insert_entry nat_cmp ps position (arc_value clause)) procedure procedures.old.entries) }
    ensures err { OnErr result (procedures.new.entries ≡ procedures.old.entries) }
{
    if let Some(known) = procedures.get_mut(&procedure) {
        return known.put(position, clause);
    }
    let mut fresh = Procedure::new(alloc);
    fresh.put(position, clause)?;
    procedures.insert(procedure, fresh)?;
    Ok(())
}

/// Takes the clause of a procedure at a position.
fn take(procedures: &mut Procedures, procedure: &Indicator, position: u64)
    requires { IsOrdered indicator_cmp procedures.old }
    ensures ordered { IsOrdered indicator_cmp procedures.new }
    ensures clauses { ChangesSpot procedures.old.entries procedures.new.entries procedure.now position None }
    ensures taken { procedures.new.entries ≡ without_spot procedure.now position procedures.old.entries }
{
    if let Some(known) = procedures.get_mut(procedure) {
        known.take(position);
    }
}

/// Puts the clause with the next number at its position.
fn add(
    alloc: Global,
    procedures: &mut Procedures,
    places: &mut Places,
    number: u64,
    procedure: Indicator,
    position: u64,
    clause: Arc<Clause>,
) -> Result<(), NoMemory>
    requires kept { IsDatabase procedures.old places.old number }
    requires number { position_number position ≡ number }
    ensures kept { OnOk result (IsDatabase procedures.new places.new (number + 1)) }
    ensures stays { OnErr result (IsDatabase procedures.new places.new number) }
    ensures ok { OnOk result (procedures.new.entries ≡ with_entry (λ ps. insert_entry nat_cmp ps position (arc_value clause)) procedure procedures.old.entries) }
    ensures err { OnErr result (procedures.new.entries ≡ procedures.old.entries) }
{
    let place = Place {
        procedure: procedure.share()?,
        position,
    };
    places.insert(number, place)?;
    if let Err(error) = put(alloc, procedures, procedure, position, clause) {
        places.remove(&number);
        return Err(error);
    }
    Ok(())
}

/// Takes the clause with a number, and says whether there was one.
fn remove(procedures: &mut Procedures, places: &mut Places, number: u64) -> bool
    requires { HavePlaces procedures.old places.old }
    ensures kept { HavePlaces procedures.new places.new }
    ensures fewer { (n : ℕ) → IsSome (get nat_cmp places.new n) → IsSome (get nat_cmp places.old n) }
    ensures found { result ≡ list_any (has_number number) (procedures_meant procedures.old.entries) }
    ensures taken { OnTrue result (procedures_meant procedures.new.entries ≡ map (procedure_without number) (procedures_meant procedures.old.entries)) }
    ensures same { OnFalse result (procedures.new.entries ≡ procedures.old.entries) }
{
    let Some(place) = places.remove(&number) else {
        return false;
    };
    take(procedures, &place.procedure, place.position);
    true
}

/// Makes a procedure unknown.
fn abolish(procedures: &mut Procedures, places: &mut Places, procedure: &Indicator)
    requires { HavePlaces procedures.old places.old }
    ensures kept { HavePlaces procedures.new places.new }
    ensures fewer { (n : ℕ) → IsSome (get nat_cmp places.new n) → IsSome (get nat_cmp places.old n) }
    ensures taken { procedures.new.entries ≡ remove_entry (is_at (indicator_cmp procedure.now)) procedures.old.entries }
{
    if let Some(gone) = procedures.remove(procedure) {
        gone.drop_places(places);
    }
}

/// The end of a procedure at which a clause is put.
#[derive(Clone, Copy)]
enum End {
    First,
    Last,
}

impl End {
    /// The position of the clause with a number there.
    fn position(self, number: u64) -> u64
        requires { number < middle }
        ensures { result ≡ end_position self number }
    {
        match self {
            End::First => MIDDLE - 1 - number,
            End::Last => MIDDLE + number,
        }
    }
}

impl Database {
    /// A database without dynamic procedures, beside these static ones.
    pub fn new(alloc: Global, statics: Vec<Indicator>) -> Result<Database, NoMemory>
        ensures kept { IfOk result (λ d. d.kept ≡ no_procedures) }
        ensures statics { IfOk result (λ d. (i : IndicatorTerms) → is_static d.statics i ≡ is_static statics.items i) }
    {
        let mut known = BTreeSet::new(alloc);
        for procedure in statics {
            known.insert(procedure)?;
        }
        Ok(Database {
            alloc,
            statics: known,
            procedures: BTreeMap::new(alloc),
            places: BTreeMap::new(alloc),
            next: 0,
        })
    }

    /// Whether a procedure is static.
    pub fn is_static(&self, procedure: &Indicator) -> bool
        ensures { result ≡ is_static self.now.statics procedure.now }
    {
        self.statics.contains(procedure)
    }

    /// Makes a procedure dynamic, where it is unknown (7.4.2.1).
    pub fn declare(&mut self, procedure: &Indicator) -> Result<(), DataRefusal>
        ensures ok { OnOk result (self.new ≡ record self.old { kept = declared_in self.old.kept procedure.now.name procedure.now.arity }) }
        ensures err { OnErr result (self.new ≡ self.old) }
        ensures cause { IsCause (is_static self.old.statics procedure.now) result }
    {
        if self.is_static(procedure) {
            return Err(DataRefusal::Static);
        }
        declare(self.alloc, &mut self.procedures, procedure)?;
        Ok(())
    }

    /// Puts a clause before the others of its procedure (8.9.1).
    pub fn add_first(&mut self, clause: Arc<Clause>) -> Result<ClauseId, DataRefusal>
        ensures ok { IfOk result (λ id. (id.0 ≡ self.old.kept.next) × (self.new ≡ record self.old { kept = with_first_clause self.old.kept (arc_value clause) })) }
        ensures err { OnErr result (self.new ≡ self.old) }
        ensures cause { IsCause (is_static self.old.statics (indicator_of (arc_value clause))) result }
    {
        self.add(clause, End::First)
    }

    /// Puts a clause after the others of its procedure (8.9.2).
    pub fn add_last(&mut self, clause: Arc<Clause>) -> Result<ClauseId, DataRefusal>
        ensures ok { IfOk result (λ id. (id.0 ≡ self.old.kept.next) × (self.new ≡ record self.old { kept = with_last_clause self.old.kept (arc_value clause) })) }
        ensures err { OnErr result (self.new ≡ self.old) }
        ensures cause { IsCause (is_static self.old.statics (indicator_of (arc_value clause))) result }
    {
        self.add(clause, End::Last)
    }

    fn add(&mut self, clause: Arc<Clause>, end: End) -> Result<ClauseId, DataRefusal>
        ensures ok { IfOk result (λ id. (id.0 ≡ self.old.kept.next) × (self.new ≡ record self.old { kept = with_clause_at end self.old.kept (arc_value clause) })) }
        ensures err { OnErr result (self.new ≡ self.old) }
        ensures cause { IsCause (is_static self.old.statics (indicator_of (arc_value clause))) result }
    {
        let procedure = Indicator::of_clause(&clause)?;
        if self.is_static(&procedure) {
            return Err(DataRefusal::Static);
        }
        let number = self.next;
        if number >= MIDDLE {
            return Err(DataRefusal::NoMemory);
        }
        let position = end.position(number);
        add(
            self.alloc,
            &mut self.procedures,
            &mut self.places,
            number,
            procedure,
            position,
            clause,
        )?;
        self.next += 1;
        Ok(ClauseId(number))
    }

    /// Takes the clause with a number away (8.9.3).
    pub fn remove(&mut self, id: ClauseId) -> Result<(), Gone>
        ensures { IsRemoved (without_clause id.0 self.old.kept) self.old self.new result }
    {
        if remove(&mut self.procedures, &mut self.places, id.0) {
            Ok(())
        } else {
            Err(Gone)
        }
    }

    /// Takes a procedure with all its clauses away (8.9.4).
    pub fn abolish(&mut self, procedure: &Indicator) -> Result<(), Static>
        ensures ok { OnOk result (self.new ≡ record self.old { kept = without_procedure self.old.kept procedure.now.name procedure.now.arity }) }
        ensures err { OnErr result (self.new ≡ self.old) }
        ensures cause { IsStaticCause (is_static self.old.statics procedure.now) result }
    {
        if self.is_static(procedure) {
            return Err(Static);
        }
        abolish(&mut self.procedures, &mut self.places, procedure);
        Ok(())
    }

    /// The clauses that a procedure has now.
    pub fn snapshot(&self, procedure: &Indicator) -> Result<Snapshot, NoMemory>
        ensures { IfOk result (IsSnapshot (is_static self.now.statics procedure.now) (clauses_of self.now.kept procedure.now.name procedure.now.arity)) }
    {
        if self.is_static(procedure) {
            return Ok(Snapshot::Static);
        }
        match self.procedures.get(procedure) {
            Some(known) => Ok(Snapshot::Clauses(known.all()?)),
            None => Ok(Snapshot::Unknown),
        }
    }

    /// Those of them whose heads' first arguments are variables or have the key.
    pub fn matching(&self, procedure: &Indicator, key: &Key) -> Result<Snapshot, NoMemory>
        ensures { IfOk result (IsSnapshot (is_static self.now.statics procedure.now)
            (option_map (matching_numbered key.now) (clauses_of self.now.kept procedure.now.name procedure.now.arity))) }
    {
        if self.is_static(procedure) {
            return Ok(Snapshot::Static);
        }
        match self.procedures.get(procedure) {
            Some(known) => Ok(Snapshot::Clauses(known.matching(key)?)),
            None => Ok(Snapshot::Unknown),
        }
    }

    /// The clauses of a procedure with which a head may unify: those whose heads' first arguments are variables or
    /// have the key of its own. None where the procedure is unknown.
    pub fn candidates(
        &self,
        procedure: &Indicator,
        head: &FlatTerm,
    ) -> Result<Option<Vec<Numbered>>, NoMemory>
        ensures { IfOk result (λ found. option_map shown_clauses found ≡ option_map (matching_numbered (head_key head.now))
            (clauses_of self.now.kept procedure.now.name procedure.now.arity)) }
    {
        let key = key_of_head(head)?;
        match self.procedures.get(procedure) {
            Some(known) => Ok(Some(known.matching(&key)?)),
            None => Ok(None),
        }
    }

    /// The same database.
    pub fn copy(&self) -> Result<Database, NoMemory>
        ensures { IfOk result (λ d. d ≡ self.now) }
    {
        Ok(Database {
            alloc: self.alloc,
            statics: self.statics.clone()?,
            procedures: self.procedures.clone()?,
            places: self.places.clone()?,
            next: self.next,
        })
    }
}
