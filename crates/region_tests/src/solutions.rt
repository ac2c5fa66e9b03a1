//! What no clause says: that solutions are tried one after another, with their goals in order, and the last one without a
//! choice point.
ghost use Rattle.std.specs.Prelude.{◌≡◌, ◌∷◌, [], Some, None, IfOk, codes, length};
ghost use Rattle.au_term.specs.Term.{AtomTerm, IntTerm};
ghost use Rattle.region_split.specs.ClauseTrials.{IsOptionalPosition};
ghost use Rattle.region_split.specs.Regions.{IsPositionIn};
ghost use Rattle.region_split.specs.declared.solution.EquationSide.TheVariants.{Value};
ghost use Rattle.binding_array.specs.declared.cell.BindingCell.TheVariants.{Var as VarCell, Int as IntCell};

use crate::common::{
    Back, NOTHING, expect, expect_back, expect_back_at_nothing, expect_height, expect_nothing_left,
    expect_reached,
};
use crate::regions::expect_fresh;
use au_model::build::atom;
use au_term::{Cell, FlatTerm, NoMemory, Shared};
use binding_array::BindingCell;
use region_control::{Ahead, cut, look_ahead};
use region_split::{
    Equation, EquationSide, FrameItem, Left, Position, Region, Solution, Solutions,
};
use std::alloc::Global;
use std::process::Abort;
use std::test::Fail;

/// A region without clauses and with one variable.
fn region(alloc: Global) -> Result<Region, Fail> {
    let mut region = crate::common::region(alloc)?;
    region.fresh(1)?;
    Ok(region)
}

/// The solution that makes the variable a number, with goals before what follows.
fn bound(
    alloc: Global,
    value: i64,
    goals: Vec<Shared>,
    removes: Option<u64>,
) -> Result<Solution, NoMemory>
    ensures { IfOk result (λ s. s ≡ record { equations = record { left = Value (VarCell 0); right = Value (IntCell value) } ∷ []; goals = goals.items; removes = removes; variables = 0 }) }
{
    let mut equations = Vec::new(alloc);
    equations.push(Equation {
        left: EquationSide::Value(BindingCell::Var(0)),
        right: EquationSide::Value(BindingCell::Int(value)),
    })?;
    Ok(Solution::new(equations, goals, removes, 0))
}

fn no_goals(alloc: Global) -> Result<Vec<Shared>, NoMemory>
    ensures { IfOk result (λ goals. goals.items ≡ []) }
{
    Ok(Vec::new(alloc))
}

/// Solves with 1 for the variable, and the removal of a clause.
fn solve_removal(
    rt: &impl Abort,
    alloc: Global,
    region: &mut Region,
) -> Result<Option<Left>, NoMemory> {
    let mut solutions = Vec::new(alloc);
    solutions.push(bound(alloc, 1, no_goals(alloc)?, Some(7))?)?;
    assert!(rt; region.store().next() > 0);
    let after = region.nothing_left();
    match region.solve(Solutions::new(solutions), after)? {
        Some(position) => Ok(Some(region.left_at(position))),
        None => Ok(None),
    }
}

#[test]
fn removal_comes_first(rt: HostRuntime) -> Result<(), Fail> {
    let mut region = region(rt.alloc())?;
    let removal = Left::First(FrameItem::Removal(7), 0);
    let found = solve_removal(&rt, rt.alloc(), &mut region)?;
    expect(&rt, found, Some(removal));
    expect_height(&rt, &region, 0);
    Ok(())
}

/// Two solutions: numbers for the variable, the first with goals.
fn two(
    alloc: Global,
    first: i64,
    second: i64,
    goals: Vec<Shared>,
) -> Result<Vec<Solution>, NoMemory>
    ensures { IfOk result (λ s. s.items ≡
        record { equations = record { left = Value (VarCell 0); right = Value (IntCell first) } ∷ []; goals = goals.items; removes = None; variables = 0 } ∷
        record { equations = record { left = Value (VarCell 0); right = Value (IntCell second) } ∷ []; goals = []; removes = None; variables = 0 } ∷ []) }
{
    let mut solutions = Vec::new(alloc);
    solutions.push(bound(alloc, first, goals, None)?)?;
    solutions.push(bound(alloc, second, Vec::new(alloc), None)?)?;
    Ok(solutions)
}

fn solve_two(rt: &impl Abort, alloc: Global, region: &mut Region) -> Result<(), NoMemory> {
    let solutions = two(alloc, 1, 2, no_goals(alloc)?)?;
    assert!(rt; region.store().next() > 0);
    let after = region.nothing_left();
    let first = region.solve(Solutions::new(solutions), after)?;
    expect_nothing_left(rt, first);
    Ok(())
}

fn expect_solution(rt: &impl Abort, region: &Region, value: i64, choices: usize) {
    expect_reached(rt, region, 0, BindingCell::Int(value));
    expect_height(rt, region, choices);
}

fn take_solutions(rt: &impl Abort, alloc: Global, region: &mut Region) -> Result<(), Fail> {
    solve_two(rt, alloc, region)?;
    expect_solution(rt, region, 1, 1);
    expect_back_at_nothing(rt, region)?;
    expect_solution(rt, region, 2, 0);
    expect_back(rt, region, Back::AllDone)
}

#[test]
fn solutions_come_in_their_order(rt: HostRuntime) -> Result<(), Fail> {
    let mut region = region(rt.alloc())?;
    take_solutions(&rt, rt.alloc(), &mut region)
}

/// The cut, as a goal.
fn cut_alone(alloc: Global) -> Result<Vec<Shared>, NoMemory>
    ensures { IfOk result (λ goals. goals.items ≡ AtomTerm (codes "!") ∷ []) }
{
    let mut goals = Vec::new(alloc);
    goals.push(Shared::from_term(alloc, atom(alloc, "!")?)?)?;
    Ok(goals)
}

/// The cut, and a number.
fn cut_and(alloc: Global, number: i64) -> Result<Vec<Shared>, NoMemory>
    ensures { IfOk result (λ goals. goals.items ≡ AtomTerm (codes "!") ∷ IntTerm number ∷ []) }
{
    let mut goals = cut_alone(alloc)?;
    let number = FlatTerm::from_slice(alloc, &[Cell::Int(number)])?;
    goals.push(Shared::from_term(alloc, number)?)?;
    Ok(goals)
}

/// Solves with two solutions of which the first has a cut among its goals.
fn solve_cut(
    rt: &impl Abort,
    alloc: Global,
    region: &mut Region,
) -> Result<Option<Position>, NoMemory>
    ensures { IfOk result (IsOptionalPosition region.new (length region.new.choices)) }
{
    let solutions = two(alloc, 1, 2, cut_and(alloc, 5)?)?;
    assert!(rt; region.store().next() > 0);
    let after = region.nothing_left();
    region.solve(Solutions::new(solutions), after)
}

/// Solves with a cut before a removal.
fn solve_cut_and_removal(
    rt: &impl Abort,
    alloc: Global,
    region: &mut Region,
) -> Result<Option<Position>, NoMemory>
    ensures { IfOk result (IsOptionalPosition region.new (length region.new.choices)) }
{
    let mut solutions = Vec::new(alloc);
    solutions.push(bound(alloc, 1, cut_alone(alloc)?, Some(7))?)?;
    assert!(rt; region.store().next() > 0);
    let after = region.nothing_left();
    region.solve(Solutions::new(solutions), after)
}

/// Takes the cut, which comes first at a position, and gives where it goes on.
fn take_cut(alloc: Global, region: &mut Region, start: Option<Position>) -> Result<Position, Fail>
    requires { IsOptionalPosition region.old (length region.old.choices) start }
    ensures { IfOk result (IsPositionIn region.new) }
{
    match look_ahead(region, alloc, start)? {
        Ahead::Goal(FrameItem::Goal(BindingCell::Atom(_)), place) => {
            cut(region, place);
            Ok(place.after)
        }
        _ => Err("the cut")?,
    }
}

/// What lies ahead.
#[derive(Clone, Copy, Debug, PartialEq, Eq)]
enum Next {
    /// A goal, and how many choice points a cut there leaves.
    Goal(FrameItem, u32),
    /// A removal, and what is left behind it.
    Removal(u64, Left),
    Other,
}

fn ahead(alloc: Global, region: &mut Region, start: Position) -> Result<Next, NoMemory>
    requires { IsPositionIn region.old start }
{
    Ok(match look_ahead(region, alloc, Some(start))? {
        Ahead::Goal(item, place) => Next::Goal(item, place.cut),
        Ahead::Removal(number, after) => Next::Removal(number, region.left_at(after)),
        _ => Next::Other,
    })
}

/// A choice point is left at the cut. What comes after it is this.
fn expect_behind_cut(
    rt: &impl Abort,
    alloc: Global,
    region: &mut Region,
    wanted: Next,
) -> Result<(), Fail> {
    let start = solve_cut(rt, alloc, region)?;
    expect_height(rt, region, 1);
    let after = take_cut(alloc, region, start)?;
    expect(rt, ahead(alloc, region, after)?, wanted);
    Ok(())
}

#[test]
fn cut_among_goals_takes_other_solutions(rt: HostRuntime) -> Result<(), Fail> {
    let mut region = region(rt.alloc())?;
    let five = Next::Goal(FrameItem::Goal(BindingCell::Int(5)), 0);
    expect_behind_cut(&rt, rt.alloc(), &mut region, five)?;
    expect_height(&rt, &region, 0);
    Ok(())
}

fn behind_cut_alone(rt: &impl Abort, alloc: Global, region: &mut Region) -> Result<Next, Fail> {
    let start = solve_cut_and_removal(rt, alloc, region)?;
    let after = take_cut(alloc, region, start)?;
    Ok(ahead(alloc, region, after)?)
}

#[test]
fn removal_comes_behind_goals(rt: HostRuntime) -> Result<(), Fail> {
    let mut region = region(rt.alloc())?;
    let removal = Next::Removal(7, Left::GoesOnAt(NOTHING));
    let found = behind_cut_alone(&rt, rt.alloc(), &mut region)?;
    expect(&rt, found, removal);
    Ok(())
}

/// Solves with a copied term for the variable, and takes three new ones.
fn solve_copied(rt: &impl Abort, alloc: Global, region: &mut Region) -> Result<(), NoMemory> {
    let term = FlatTerm::from_slice(alloc, &[Cell::Int(5)])?;
    let mut equations = Vec::new(alloc);
    equations.push(Equation {
        left: EquationSide::Value(BindingCell::Var(0)),
        right: EquationSide::Copied(Shared::from_term(alloc, term)?),
    })?;
    let mut solutions = Vec::new(alloc);
    solutions.push(Solution::new(equations, Vec::new(alloc), None, 3))?;
    assert!(rt; region.store().next() > 0);
    let after = region.nothing_left();
    expect_nothing_left(rt, region.solve(Solutions::new(solutions), after)?);
    Ok(())
}

fn copy_in(rt: &impl Abort, alloc: Global, region: &mut Region) -> Result<(), Fail> {
    expect_fresh(rt, region, 0, 1)?;
    solve_copied(rt, alloc, region)?;
    expect_reached(rt, region, 0, BindingCell::Int(5));
    expect_fresh(rt, region, 0, 4)?;
    Ok(())
}

#[test]
fn terms_are_copied_in(rt: HostRuntime) -> Result<(), Fail> {
    let mut region = region(rt.alloc())?;
    copy_in(&rt, rt.alloc(), &mut region)
}
