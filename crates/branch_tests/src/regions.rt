//! Regions with choice points of each kind.
ghost use Rattle.std.specs.Prelude.{◌≡◌, ◌∷◌, [], None, IfOk};
ghost use Rattle.binding_array.specs.declared.cell.BindingCell.TheVariants.{Var as VarCell, Int as IntCell};
ghost use Rattle.cell_store.specs.StoreView.{IsValueIn};
ghost use Rattle.region_control.specs.Controls.{IsGoalPlace};
ghost use Rattle.region_split.specs.declared.solution.EquationSide.TheVariants.{Value};
ghost use Rattle.region_split.specs.Regions.{IsPositionIn};

use crate::common::{expect, number, variable};
use au_model::build::{atom, binary, unary};
use au_term::{FlatTerm, NoMemory, Shared, VarNo};
use binding_array::BindingCell;
use clause_compile::{Clause, compile};
use region_control::{GoalPlace, catch, disjunction, findall};
use region_split::{
    Alternatives, Equation, EquationSide, FrameItem, Position, Region, Solution, Solutions, Text,
};
use std::alloc::Global;
use std::process::Abort;
use std::sync::Arc;
use std::test::Fail;
use value_goals::type_tests::is_callable;

const ONE: BindingCell = BindingCell::Int(1);

/// `p` with two numbers.
fn pair(alloc: Global, first: i64, second: i64) -> Result<FlatTerm, NoMemory> {
    binary(alloc, "p", &number(alloc, first)?, &number(alloc, second)?)
}

fn clause(alloc: Global, head: FlatTerm, body: FlatTerm) -> Result<Arc<Clause>, Fail> {
    Ok(compile(alloc, &head, &body)?)
}

/// The text of `p(1, 1)`, `p(1, 2)` and `p(2, 2) :- q(Z)`.
fn text(alloc: Global) -> Result<Text, Fail> {
    let mut clauses = Vec::new(alloc);
    clauses.push(clause(alloc, pair(alloc, 1, 1)?, atom(alloc, "true")?)?)?;
    clauses.push(clause(alloc, pair(alloc, 1, 2)?, atom(alloc, "true")?)?)?;
    let body = unary(alloc, "q", &variable(alloc)?)?;
    clauses.push(clause(alloc, pair(alloc, 2, 2)?, body)?)?;
    Ok(Text::new(alloc, clauses)?)
}

/// A region over that text, with three variables.
pub(crate) fn region(alloc: Global) -> Result<Region, Fail> {
    let mut region = Region::new(alloc, Arc::new(alloc, text(alloc)?)?)?;
    region.fresh(3)?;
    Ok(region)
}

fn push_query_end(rt: &impl Abort, region: &mut Region) -> Result<(), NoMemory> {
    assert!(rt; region.height() == 0);
    region.set_floor();
    let after = region.nothing_left();
    region.push_choice(Alternatives::QueryEnd, after)
}

/// The place of a goal that a number follows.
fn place_before(region: &mut Region, value: i64) -> Result<GoalPlace, NoMemory>
    ensures { IfOk result (IsGoalPlace region.new) }
{
    let cut = region.scope()?;
    let nothing = region.nothing_left();
    let after = region.push_item(FrameItem::Goal(BindingCell::Int(value)), cut, nothing)?;
    Ok(GoalPlace { cut, after })
}

/// A findall of the list 5, before 11: where its goal is next.
fn push_findall(alloc: Global, region: &mut Region) -> Result<Position, NoMemory>
    ensures { IfOk result (IsPositionIn region.new) }
{
    let place = place_before(region, 11)?;
    findall(region, alloc, ONE, ONE, BindingCell::Int(5), place)
}

/// The same, with a result.
fn push_found(rt: &impl Abort, alloc: Global, region: &mut Region) -> Result<(), NoMemory> {
    push_findall(alloc, region)?;
    let result = number(alloc, 9)?;
    assert!(rt; region.is_findall(1));
    region.add_result(alloc, 1, result)
}

/// The catch of 3, whose recovery is 4, before 12: where its goal is next.
fn push_catch(region: &mut Region) -> Result<Position, NoMemory>
    ensures { IfOk result (IsPositionIn region.new) }
{
    let place = place_before(region, 12)?;
    let (catcher, recovery) = (BindingCell::Int(3), BindingCell::Int(4));
    catch(region, ONE, catcher, recovery, place)
}

/// The second branch of a disjunction, which is 6, before 13.
fn push_disjunction(alloc: Global, region: &mut Region) -> Result<(), NoMemory> {
    let place = place_before(region, 13)?;
    disjunction(region, alloc, ONE, BindingCell::Int(6), place)?;
    Ok(())
}

fn bind(rt: &impl Abort, region: &mut Region, variable: u32, value: i64) -> Result<(), NoMemory> {
    assert!(rt; variable < region.store().next());
    let unified = region.unify(BindingCell::Var(variable), BindingCell::Int(value))?;
    expect(rt, unified, true);
    Ok(())
}

/// The solution that makes the third variable a number.
fn solution(alloc: Global, value: i64) -> Result<Solution, NoMemory>
    ensures { IfOk result (λ s. s ≡
        record { equations = record { left = Value (VarCell 2); right = Value (IntCell value) } ∷ []; goals = []; removes = None; variables = 0 }) }
{
    let mut equations = Vec::new(alloc);
    equations.push(Equation {
        left: EquationSide::Value(BindingCell::Var(2)),
        right: EquationSide::Value(BindingCell::Int(value)),
    })?;
    Ok(Solution::new(equations, Vec::new(alloc), None, 0))
}

/// Two of them.
fn solutions(alloc: Global, first: i64, second: i64) -> Result<Vec<Solution>, NoMemory>
    ensures { IfOk result (λ s. s.items ≡
        record { equations = record { left = Value (VarCell 2); right = Value (IntCell first) } ∷ []; goals = []; removes = None; variables = 0 } ∷
        record { equations = record { left = Value (VarCell 2); right = Value (IntCell second) } ∷ []; goals = []; removes = None; variables = 0 } ∷ []) }
{
    let mut solutions = Vec::new(alloc);
    solutions.push(solution(alloc, first)?)?;
    solutions.push(solution(alloc, second)?)?;
    Ok(solutions)
}

/// Two solutions, of which the first is tried.
fn push_solutions(rt: &impl Abort, alloc: Global, region: &mut Region) -> Result<(), NoMemory> {
    let solutions = solutions(alloc, 1, 2)?;
    assert!(rt; region.store().next() > 2);
    let after = region.nothing_left();
    let reached = region.solve(Solutions::new(solutions), after)?;
    expect(rt, reached, Some(after));
    Ok(())
}

/// `p(X, X)`, of the first variable.
fn goal(rt: &impl Abort, alloc: Global, region: &mut Region) -> Result<BindingCell, Fail>
    ensures { IfOk result (IsValueIn region.new.store) }
{
    let x = variable(alloc)?;
    let goal = Shared::from_term(alloc, binary(alloc, "p", &x, &x)?)?;
    assert!(rt; goal.to_term(alloc)?.bound() <= VarNo::from(region.store().next()));
    Ok(region.copy_in(&goal)?)
}

/// Calls it: where the first clause goes on.
fn call(rt: &impl Abort, region: &mut Region, goal: BindingCell) -> Result<Position, Fail>
    requires { IsValueIn region.old.store goal }
    ensures { IfOk result (IsPositionIn region.new) }
{
    assert!(rt; is_callable(region.store(), goal));
    let after = region.nothing_left();
    match region.call(goal, after)? {
        Some(position) => Ok(position),
        None => Err("a position")?,
    }
}

/// Choice points of each kind over the end of a query, and where the region goes on.
pub(crate) fn fill(rt: &impl Abort, alloc: Global, region: &mut Region) -> Result<Position, Fail>
    ensures { IfOk result (IsPositionIn region.new) }
{
    push_query_end(rt, region)?;
    push_found(rt, alloc, region)?;
    push_catch(region)?;
    bind(rt, region, 1, 7)?;
    push_disjunction(alloc, region)?;
    push_solutions(rt, alloc, region)?;
    let goal = goal(rt, alloc, region)?;
    call(rt, region, goal)
}

/// Of a findall, or of a catch over it: where its goal is next.
pub(crate) fn guard(
    rt: &impl Abort,
    alloc: Global,
    region: &mut Region,
    catches: bool,
) -> Result<Position, NoMemory>
    ensures { IfOk result (IsPositionIn region.new) }
{
    push_query_end(rt, region)?;
    let position = push_findall(alloc, region)?;
    if catches {
        push_catch(region)
    } else {
        Ok(position)
    }
}
