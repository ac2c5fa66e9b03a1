//! What no clause says of choice points: that calls succeed, and what comes back.
ghost use Rattle.region_split.specs.QueryEnds.{MayComeOver};
ghost use Rattle.region_split.specs.Regions.{AreAlternativesIn};

use crate::common::{
    Back, NOTHING, atom, expect, expect_back, expect_back_at_nothing, expect_height, expect_reached,
};
use crate::regions::{expect_fresh, region};
use au_term::NoMemory;
use binding_array::BindingCell;
use clause_index::Cursor;
use region_split::{Alternatives, Left, Region, Results};
use std::alloc::Global;
use std::process::Abort;
use std::test::Fail;

/// What a choice point stands for.
#[derive(Clone, Copy, Debug, PartialEq, Eq)]
enum Kind {
    Clauses,
    Solutions,
    Elsewhere,
    Catch,
    Findall,
    QueryEnd,
}

fn kind_of(alternatives: &Alternatives) -> Kind {
    match alternatives {
        Alternatives::Clauses { .. } => Kind::Clauses,
        Alternatives::Solutions(_) => Kind::Solutions,
        Alternatives::Elsewhere => Kind::Elsewhere,
        Alternatives::Catch { .. } => Kind::Catch,
        Alternatives::Findall { .. } => Kind::Findall,
        Alternatives::QueryEnd => Kind::QueryEnd,
    }
}

fn push(region: &mut Region, alternatives: Alternatives) -> Result<(), NoMemory>
    requires values { AreAlternativesIn region.old alternatives }
    requires over { MayComeOver region.old.choices alternatives }
{
    let after = region.nothing_left();
    region.push_choice(alternatives, after)
}

fn push_query_end(rt: &impl Abort, region: &mut Region) -> Result<(), NoMemory> {
    assert!(rt; region.height() == 0);
    region.set_floor();
    push(region, Alternatives::QueryEnd)
}

fn push_elsewhere(region: &mut Region) -> Result<(), NoMemory> {
    push(region, Alternatives::Elsewhere)
}

/// The catch of 1, whose recovery is 2.
fn push_catch(region: &mut Region) -> Result<(), NoMemory> {
    let (catcher, recovery) = (BindingCell::Int(1), BindingCell::Int(2));
    push(region, Alternatives::Catch { catcher, recovery })
}

/// A findall for the list 5.
fn push_findall(alloc: Global, region: &mut Region) -> Result<(), NoMemory> {
    let results = Results::new(alloc, u64::from(region.store().next()));
    let list = BindingCell::Int(5);
    push(region, Alternatives::Findall { list, results })
}

/// The second clause for the goal 7, with none left after it.
fn push_clause(rt: &impl Abort, region: &mut Region) -> Result<(), NoMemory> {
    assert!(rt; region.text().clauses() > 1);
    let clauses = Alternatives::Clauses {
        goal: BindingCell::Int(7),
        clause: 1,
        left: Cursor::All(None),
    };
    push(region, clauses)
}

/// Takes the newest choice point, which is one of these, and undoes what was bound.
fn expect_newest(rt: &impl Abort, region: &mut Region, wanted: Kind) {
    assert!(rt; region.height() > 0);
    expect(rt, kind_of(&region.take_newest().alternatives), wanted);
}

pub(crate) fn expect_clauses(rt: &impl Abort, region: &mut Region) {
    expect_newest(rt, region, Kind::Clauses);
}

fn expect_dropped(rt: &impl Abort, region: &mut Region, wanted: Kind) {
    assert!(rt; region.height() > 0);
    expect(rt, kind_of(&region.drop_newest().alternatives), wanted);
}

fn cut_to(rt: &impl Abort, region: &mut Region, count: usize) {
    assert!(rt; count <= region.height());
    region.cut_to(count);
}

fn take_choice_points(rt: &impl Abort, region: &mut Region) -> Result<(), Fail> {
    push_query_end(rt, region)?;
    push_elsewhere(region)?;
    push_elsewhere(region)?;
    expect_height(rt, region, 3);
    expect_newest(rt, region, Kind::Elsewhere);
    cut_to(rt, region, 1);
    expect_dropped(rt, region, Kind::QueryEnd);
    expect_height(rt, region, 0);
    Ok(())
}

#[test]
fn choice_points_come_back(rt: HostRuntime) -> Result<(), Fail> {
    let mut region = region(rt.alloc())?;
    take_choice_points(&rt, &mut region)
}

/// The next clause has this number, and its goal is 7.
fn expect_clause(rt: &impl Abort, region: &mut Region, wanted: Option<u32>) {
    match region.next_clause() {
        Some(trial) => {
            expect(rt, Some(trial.clause), wanted);
            expect(rt, trial.goal, BindingCell::Int(7));
        }
        None => expect(rt, None, wanted),
    }
}

fn take_last_clause(rt: &impl Abort, region: &mut Region) -> Result<(), NoMemory> {
    push_clause(rt, region)?;
    expect_clause(rt, region, Some(1));
    expect_height(rt, region, 0);
    expect_clause(rt, region, None);
    Ok(())
}

#[test]
fn last_clause_takes_its_choice_point(rt: HostRuntime) -> Result<(), Fail> {
    let mut region = region(rt.alloc())?;
    take_last_clause(&rt, &mut region)?;
    Ok(())
}

pub(crate) fn expect_findall(rt: &impl Abort, region: &Region, over: usize, wanted: bool) {
    expect(rt, region.is_findall(over), wanted);
}

fn add_result(
    rt: &impl Abort,
    alloc: Global,
    region: &mut Region,
    over: usize,
) -> Result<(), NoMemory> {
    let term = atom(alloc, "a")?;
    assert!(rt; region.is_findall(over));
    region.add_result(alloc, over, term)
}

fn keep_results(rt: &impl Abort, alloc: Global, region: &mut Region) -> Result<(), Fail> {
    push_query_end(rt, region)?;
    push_findall(alloc, region)?;
    add_result(rt, alloc, region, 1)?;
    for (over, wanted) in [(0, false), (1, true), (2, false)] {
        expect_findall(rt, region, over, wanted);
    }
    Ok(())
}

#[test]
fn results_are_kept(rt: HostRuntime) -> Result<(), Fail> {
    let mut region = region(rt.alloc())?;
    keep_results(&rt, rt.alloc(), &mut region)
}

/// A variable is bound to an integer.
fn bind(rt: &impl Abort, region: &mut Region, variable: u32, value: i64) -> Result<(), NoMemory> {
    assert!(rt; variable < region.store().next());
    let unified = region.unify(BindingCell::Var(variable), BindingCell::Int(value))?;
    expect(rt, unified, true);
    Ok(())
}

/// Two integers do not unify.
fn do_not_unify(
    rt: &impl Abort,
    region: &mut Region,
    left: i64,
    right: i64,
) -> Result<(), NoMemory> {
    let unified = region.unify(BindingCell::Int(left), BindingCell::Int(right))?;
    expect(rt, unified, false);
    Ok(())
}

/// An integer unifies with a variable as the head of a clause.
fn bind_head(
    rt: &impl Abort,
    region: &mut Region,
    value: i64,
    variable: u32,
) -> Result<(), NoMemory> {
    assert!(rt; variable < region.store().next());
    let head = BindingCell::Var(variable);
    let unified = region.unify_head(BindingCell::Int(value), head, 1)?;
    expect(rt, unified, true);
    Ok(())
}

fn bind_and_take_back(rt: &impl Abort, region: &mut Region) -> Result<(), Fail> {
    push_elsewhere(region)?;
    bind(rt, region, 0, 7)?;
    do_not_unify(rt, region, 7, 8)?;
    expect_reached(rt, region, 0, BindingCell::Int(7));
    expect_newest(rt, region, Kind::Elsewhere);
    expect_reached(rt, region, 0, BindingCell::Var(0));
    Ok(())
}

fn bind_all(rt: &impl Abort, region: &mut Region) -> Result<(), Fail> {
    expect_fresh(rt, region, 2, 0)?;
    expect_fresh(rt, region, 0, 2)?;
    bind_and_take_back(rt, region)?;
    bind_head(rt, region, 7, 1)?;
    Ok(())
}

#[test]
fn bindings_are_taken_back(rt: HostRuntime) -> Result<(), Fail> {
    let mut region = region(rt.alloc())?;
    bind_all(&rt, &mut region)
}

fn push_each(rt: &impl Abort, alloc: Global, region: &mut Region) -> Result<(), NoMemory> {
    push_query_end(rt, region)?;
    push_findall(alloc, region)?;
    push_catch(region)?;
    push_elsewhere(region)
}

fn take_each(rt: &impl Abort, alloc: Global, region: &mut Region) -> Result<(), Fail> {
    push_each(rt, alloc, region)?;
    expect_back_at_nothing(rt, region)?;
    expect_back(rt, region, Back::Findall(BindingCell::Int(5), NOTHING))?;
    expect_back(rt, region, Back::QueryDone)?;
    expect_back(rt, region, Back::AllDone)
}

#[test]
fn what_goes_on_by_kind(rt: HostRuntime) -> Result<(), Fail> {
    let mut region = region(rt.alloc())?;
    take_each(&rt, rt.alloc(), &mut region)
}
