//! Calls one by one, thousands of them beside a list, and many facts found by their keys.
use crate::common::{expect, hold};
use au_model::build::{atom, compound, single};
use au_term::{Atom, Cell, FlatTerm, NoMemory};
use clause_compile::{Clause, ClauseId, compile};
use dyn_clauses::{DataRefusal, Database, Gone, Indicator, Snapshot, Static};
use proc_index::Key;
use std::alloc::Global;
use std::process::Abort;
use std::sync::Arc;
use std::test::Fail;

/// The argument of a head: a number or a variable.
type First = Option<i64>;

/// A fact with its number.
type Fact = (u64, First);

fn head(alloc: Global, name: &str, first: First) -> Result<FlatTerm, NoMemory> {
    let cell = match first {
        Some(number) => Cell::Int(number),
        None => Cell::Var(0),
    };
    compound(alloc, Atom::new(alloc, name)?, &[&single(alloc, cell)?])
}

fn fact(alloc: Global, name: &str, first: First) -> Result<Arc<Clause>, Fail> {
    Ok(compile(alloc, &head(alloc, name, first)?, &atom(alloc, "true")?)?)
}

/// The procedure of this name with one argument.
fn procedure(alloc: Global, name: &str) -> Result<Indicator, NoMemory> {
    let name = Atom::new(alloc, name)?;
    Ok(Indicator { name, arity: 1 })
}

/// What a procedure has.
#[derive(Clone, Copy)]
enum Kept<'a> {
    Unknown,
    Static,
    Facts(&'a [Fact]),
}

fn is_fact(alloc: Global, name: &str, clause: &Clause, first: First) -> Result<bool, NoMemory> {
    Ok(clause.head().cells() == head(alloc, name, first)?.cells())
}

fn are_facts(
    alloc: Global,
    name: &str,
    found: &[(ClauseId, Arc<Clause>)],
    facts: &[Fact],
) -> Result<bool, NoMemory> {
    let mut same = found.len() == facts.len();
    for ((id, clause), (number, first)) in found.iter().zip(facts) {
        same = same && id.0 == *number && is_fact(alloc, name, clause, *first)?;
    }
    Ok(same)
}

fn is_kept(
    alloc: Global,
    name: &str,
    snapshot: &Snapshot,
    wanted: Kept<'_>,
) -> Result<bool, NoMemory> {
    match (snapshot, wanted) {
        (Snapshot::Unknown, Kept::Unknown) => Ok(true),
        (Snapshot::Static, Kept::Static) => Ok(true),
        (Snapshot::Clauses(found), Kept::Facts(facts)) => are_facts(alloc, name, found, facts),
        _ => Ok(false),
    }
}

/// What is done with a database, with its answer; of a fact that is added its number.
#[derive(Clone, Copy)]
enum Step {
    Declare(&'static str, Result<(), DataRefusal>),
    AddFirst(&'static str, First, Option<u64>),
    AddLast(&'static str, First, Option<u64>),
    Remove(u64, Result<(), Gone>),
    Abolish(&'static str, Result<(), Static>),
    /// What a procedure has.
    All(&'static str, Kept<'static>),
    /// What it has for a number.
    Matching(&'static str, i64, Kept<'static>),
}

fn declare(
    alloc: Global,
    database: &mut Database,
    name: &str,
    wanted: Result<(), DataRefusal>,
) -> Result<bool, NoMemory> {
    Ok(database.declare(&procedure(alloc, name)?) == wanted)
}

fn abolish(
    alloc: Global,
    database: &mut Database,
    name: &str,
    wanted: Result<(), Static>,
) -> Result<bool, NoMemory> {
    Ok(database.abolish(&procedure(alloc, name)?) == wanted)
}

fn remove(database: &mut Database, number: u64) -> Result<(), Gone> {
    database.remove(ClauseId(number))
}

/// The number of a fact that is added.
fn add_first(
    alloc: Global,
    database: &mut Database,
    name: &str,
    first: First,
) -> Result<Option<u64>, Fail> {
    match database.add_first(fact(alloc, name, first)?) {
        Ok(id) => Ok(Some(id.0)),
        Err(_) => Ok(None),
    }
}

fn add_last(
    alloc: Global,
    database: &mut Database,
    name: &str,
    first: First,
) -> Result<Option<u64>, Fail> {
    match database.add_last(fact(alloc, name, first)?) {
        Ok(id) => Ok(Some(id.0)),
        Err(_) => Ok(None),
    }
}

fn has_all(
    alloc: Global,
    database: &Database,
    name: &str,
    wanted: Kept<'_>,
) -> Result<bool, NoMemory> {
    let found = database.snapshot(&procedure(alloc, name)?)?;
    is_kept(alloc, name, &found, wanted)
}

fn has_matching(
    alloc: Global,
    database: &Database,
    name: &str,
    key: i64,
    wanted: Kept<'_>,
) -> Result<bool, NoMemory> {
    let found = database.matching(&procedure(alloc, name)?, &Key::Int(key))?;
    is_kept(alloc, name, &found, wanted)
}

/// Takes a step, and says whether it comes to what it should.
fn run(alloc: Global, database: &mut Database, step: Step) -> Result<bool, Fail> {
    match step {
        Step::Declare(name, wanted) => Ok(declare(alloc, database, name, wanted)?),
        Step::AddFirst(name, first, id) => Ok(add_first(alloc, database, name, first)? == id),
        Step::AddLast(name, first, id) => Ok(add_last(alloc, database, name, first)? == id),
        Step::Remove(number, wanted) => Ok(remove(database, number) == wanted),
        Step::Abolish(name, wanted) => Ok(abolish(alloc, database, name, wanted)?),
        Step::All(name, wanted) => Ok(has_all(alloc, database, name, wanted)?),
        Step::Matching(name, key, wanted) => {
            Ok(has_matching(alloc, database, name, key, wanted)?)
        }
    }
}

fn run_all(
    rt: &impl Abort,
    alloc: Global,
    database: &mut Database,
    steps: &[Step],
) -> Result<(), Fail> {
    for (at, step) in steps.iter().enumerate() {
        expect(rt, (at, run(alloc, database, *step)?), (at, true), "step");
    }
    Ok(())
}

/// A database beside the static procedure `p/1`.
fn beside_p(alloc: Global) -> Result<Database, Fail> {
    let mut statics = Vec::new(alloc);
    statics.push(procedure(alloc, "p")?)?;
    Ok(Database::new(alloc, statics)?)
}

const BOTH: Kept<'static> = Kept::Facts(&[(1, Some(0)), (0, Some(1))]);

static BEFORE: [Step; 3] = [
    Step::Declare("q", Ok(())),
    Step::All("q", Kept::Facts(&[])),
    Step::AddLast("q", Some(1), Some(0)),
];

static AFTER: [Step; 2] = [Step::AddFirst("q", Some(0), Some(1)), Step::All("q", BOTH)];

static REMOVED: [Step; 4] = [
    Step::Declare("q", Ok(())),
    Step::Remove(0, Ok(())),
    Step::Remove(0, Err(Gone)),
    Step::All("q", Kept::Facts(&[(1, Some(0))])),
];

fn snapshot(alloc: Global, database: &Database, name: &str) -> Result<Snapshot, NoMemory> {
    database.snapshot(&procedure(alloc, name)?)
}

/// What a procedure had before stays as it was.
fn keep_snapshot(rt: &impl Abort, alloc: Global, database: &mut Database) -> Result<(), Fail> {
    run_all(rt, alloc, database, &BEFORE)?;
    let before = snapshot(alloc, database, "q")?;
    run_all(rt, alloc, database, &AFTER)?;
    run_all(rt, alloc, database, &REMOVED)?;
    let first = Kept::Facts(&[(0, Some(1))]);
    hold(rt, is_kept(alloc, "q", &before, first)?, "before");
    Ok(())
}

#[test]
fn snapshots(rt: HostRuntime) -> Result<(), Fail> {
    let mut database = beside_p(rt.alloc())?;
    keep_snapshot(&rt, rt.alloc(), &mut database)
}

fn keep_copy(rt: &impl Abort, alloc: Global, database: &mut Database) -> Result<(), Fail> {
    run_all(rt, alloc, database, &BEFORE)?;
    run_all(rt, alloc, database, &AFTER)?;
    let copy = database.copy()?;
    run_all(rt, alloc, database, &REMOVED)?;
    hold(rt, has_all(alloc, &copy, "q", BOTH)?, "copy");
    Ok(())
}

#[test]
fn copies(rt: HostRuntime) -> Result<(), Fail> {
    let mut database = beside_p(rt.alloc())?;
    keep_copy(&rt, rt.alloc(), &mut database)
}

static STATICS: [Step; 6] = [
    Step::AddLast("p", Some(1), None),
    Step::AddFirst("p", Some(1), None),
    Step::Declare("p", Err(DataRefusal::Static)),
    Step::Abolish("p", Err(Static)),
    Step::All("p", Kept::Static),
    Step::Matching("p", 0, Kept::Static),
];

static ABOLISHED: [Step; 9] = [
    Step::All("q", Kept::Unknown),
    Step::AddLast("q", Some(1), Some(0)),
    Step::Abolish("q", Ok(())),
    Step::Abolish("q", Ok(())),
    Step::All("q", Kept::Unknown),
    Step::Matching("q", 1, Kept::Unknown),
    Step::Remove(0, Err(Gone)),
    Step::AddLast("q", None, Some(1)),
    Step::All("q", Kept::Facts(&[(1, None)])),
];

fn run_anew(rt: &impl Abort, alloc: Global, steps: &[Step]) -> Result<(), Fail> {
    let mut database = beside_p(alloc)?;
    run_all(rt, alloc, &mut database, steps)
}

#[test]
fn static_and_abolished_procedures(rt: HostRuntime) -> Result<(), Fail> {
    run_anew(&rt, rt.alloc(), &STATICS)?;
    run_anew(&rt, rt.alloc(), &ABOLISHED)
}

/// The facts with other numbers.
fn others(alloc: Global, facts: &[Fact], number: u64) -> Result<Vec<Fact>, NoMemory> {
    let mut others = Vec::new(alloc);
    for fact in facts {
        if fact.0 != number {
            others.push(*fact)?;
        }
    }
    Ok(others)
}

/// The facts that a key allows.
fn allowed(alloc: Global, facts: &[Fact], key: i64) -> Result<Vec<Fact>, NoMemory> {
    let mut allowed = Vec::new(alloc);
    for fact in facts {
        if fact.1.is_none() || fact.1 == Some(key) {
            allowed.push(*fact)?;
        }
    }
    Ok(allowed)
}

/// A database, and the facts of `p` that it should have.
#[derive(Drop)]
struct Beside {
    database: Database,
    facts: Vec<Fact>,
}

impl Beside {
    /// A database with a fact of `q`, and an empty `p`.
    fn new(alloc: Global) -> Result<Beside, Fail> {
        let mut database = Database::new(alloc, Vec::new(alloc))?;
        add_first(alloc, &mut database, "q", None)?;
        declare(alloc, &mut database, "p", Ok(()))?;
        Ok(Beside {
            database,
            facts: Vec::new(alloc),
        })
    }

    fn add_first(&mut self, alloc: Global, first: First) -> Result<bool, Fail> {
        let Some(number) = add_first(alloc, &mut self.database, "p", first)? else {
            return Ok(false);
        };
        self.facts.insert(0, (number, first))?;
        Ok(true)
    }

    fn add_last(&mut self, alloc: Global, first: First) -> Result<bool, Fail> {
        let Some(number) = add_last(alloc, &mut self.database, "p", first)? else {
            return Ok(false);
        };
        self.facts.push((number, first))?;
        Ok(true)
    }

    fn start_anew(&mut self, alloc: Global) -> Result<bool, Fail> {
        self.facts = Vec::new(alloc);
        let abolished = abolish(alloc, &mut self.database, "p", Ok(()))?;
        Ok(abolished && declare(alloc, &mut self.database, "p", Ok(()))?)
    }

    fn remove(&mut self, alloc: Global, number: u64) -> Result<bool, Fail> {
        let before = self.facts.len();
        self.facts = others(alloc, &self.facts, number)?;
        let removed = remove(&mut self.database, number).is_ok();
        Ok(removed == (self.facts.len().saturating_add(1) == before))
    }

    fn matches(&self, alloc: Global, key: i64) -> Result<bool, Fail> {
        let allowed = allowed(alloc, &self.facts, key)?;
        let wanted = Kept::Facts(&allowed);
        Ok(has_matching(alloc, &self.database, "p", key, wanted)?)
    }

    fn has_all(&self, alloc: Global) -> Result<bool, Fail> {
        let wanted = Kept::Facts(&self.facts);
        Ok(has_all(alloc, &self.database, "p", wanted)?)
    }

    /// Whether more than two thousand facts were added.
    fn has_many(&mut self, alloc: Global) -> Result<bool, Fail> {
        Ok(add_last(alloc, &mut self.database, "p", None)? > Some(2000))
    }

    /// Takes the step that a random number says, and says whether database and list come to the same.
    fn step(&mut self, alloc: Global, seed: u32) -> Result<bool, Fail> {
        let key = i64::from(seed >> 28);
        let first = if key == 0 { None } else { Some(key) };
        match (seed >> 16) % 16 {
            0..=2 => self.add_first(alloc, first),
            3..=5 => self.add_last(alloc, first),
            6 if key < 2 => self.start_anew(alloc),
            7..=9 => self.remove(alloc, u64::from(seed >> 20)),
            10..=12 => self.matches(alloc, key),
            _ => self.has_all(alloc),
        }
    }
}

fn take_steps(rt: &impl Abort, alloc: Global, both: &mut Beside) -> Result<(), Fail> {
    let mut seed = 1u32;
    for _ in 0..6000u32 {
        seed = seed.wrapping_mul(1_664_525).wrapping_add(1_013_904_223);
        hold(rt, both.step(alloc, seed)?, "beside a list");
    }
    hold(rt, has_copied(alloc, both)?, "copy");
    hold(rt, both.has_many(alloc)?, "many");
    Ok(())
}

#[test]
fn beside_a_list(rt: HostRuntime) -> Result<(), Fail> {
    let mut both = Beside::new(rt.alloc())?;
    take_steps(&rt, rt.alloc(), &mut both)
}

/// Whether a copy has the same.
fn has_copied(alloc: Global, both: &Beside) -> Result<bool, Fail> {
    let copy = both.database.copy()?;
    let all = has_all(alloc, &copy, "p", Kept::Facts(&both.facts))?;
    Ok(all && has_matching(alloc, &copy, "q", 0, Kept::Facts(&[(0, None)]))?)
}

/// Facts of `p`, each with its number, the first one last.
fn many(alloc: Global, count: i64) -> Result<Database, Fail> {
    let mut database = Database::new(alloc, Vec::new(alloc))?;
    for number in 0..count {
        add_first(alloc, &mut database, "p", Some(number))?;
    }
    Ok(database)
}

/// Finds a fact by its key, and removes it.
fn takes(alloc: Global, database: &mut Database, number: u64, key: i64) -> Result<bool, NoMemory> {
    let fact = [(number, Some(key))];
    let found = has_matching(alloc, database, "p", key, Kept::Facts(&fact))?;
    Ok(found && remove(database, number).is_ok())
}

fn take_all(rt: &impl Abort, alloc: Global, database: &mut Database) -> Result<(), Fail> {
    for number in 0..100_000u32 {
        let found = takes(alloc, database, u64::from(number), i64::from(number))?;
        hold(rt, found, "by its key");
    }
    let none = has_all(alloc, database, "p", Kept::Facts(&[]))?;
    hold(rt, none, "none");
    Ok(())
}

#[test]
fn found_by_their_keys(rt: HostRuntime) -> Result<(), Fail> {
    let mut database = many(rt.alloc(), 100_000)?;
    take_all(&rt, rt.alloc(), &mut database)
}
