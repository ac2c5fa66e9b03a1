//! Bodies, as they are kept.
ghost use Rattle.std.specs.Prelude.{◌≡◌, ◌<◌, ◌-◌, ◌^◌, ◌++◌, IfOk, MatchOption, OnOk, None, length, drop};
ghost use Rattle.au_term.specs.Term.{VarTerm, count};
ghost use Rattle.au_term.specs.PrefixOrder.{cells_of, terms_of, due_after};
ghost use Rattle.run_model.specs.Programs.Bodies.{body_of, call_of, goals_of, clause_goals_of};
ghost use Rattle.clause_compile.specs.NormalBodies.{bodies_cells, NormalizesGoal};
ghost use Rattle.clause_compile.specs.GoalPlaces.{AreGoalsAt, PassesGoal};

use crate::names::{is_conjunction_cell, is_junction_cell, is_true_cell};
use au_term::{Atom, Cell, FlatTerm, NoMemory, TermBuilder, VarNo};
use std::alloc::Global;

/// The body that a term stands for, if it stands for one (ISO/IEC 13211-1, 7.6.2).
pub(crate) fn normal_body(alloc: Global, body: &FlatTerm) -> Result<Option<FlatTerm>, NoMemory>
    ensures { IfOk result (λ kept. kept ≡ body_of body.now) }
{
    let mut builder = TermBuilder::new(alloc);
    let count = body.cells().len();
    let mut at = 0;
    while at < count {
        match normalize_goal(alloc, body, at, &mut builder)? {
            Some(next) => at = next,
            None => return Ok(None),
        }
    }
    Ok(Some(builder.finish()))
}

/// Keeps what is where a goal is due, and says where the next one is due: on the left of a junction, or after
/// the goal. None where no goal can be there.
fn normalize_goal(
    alloc: Global,
    body: &FlatTerm,
    at: usize,
    builder: &mut TermBuilder,
) -> Result<Option<usize>, NoMemory>
    requires place { at < length (cells_of body.now) }
    requires due { due_after 1 builder.old ≡ count (terms_of (drop at (cells_of body.now))) }
    ensures { IfOk result (λ o. MatchOption o (bodies_cells (terms_of (drop at (cells_of body.now))) ≡ None) (λ next. NormalizesGoal (cells_of body.now) at next builder.old builder.new)) }
{
    let end = body.term_end(at);
    let goal = body.subterm(at);
    let top = &goal[0];
    if is_junction_cell(top) {
        builder.push(top.share()?)?;
        return Ok(Some(at + 1));
    }
    match top {
        Cell::Var(number) => push_call(alloc, *number, builder)?,
        Cell::Int(_) => return Ok(None),
        _ => builder.push_all(goal)?,
    }
    Ok(Some(end))
}

/// Puts a call of a variable after the cells of the builder.
fn push_call(alloc: Global, number: VarNo, builder: &mut TermBuilder) -> Result<(), NoMemory>
    requires due { 0 < due_after 1 builder.old }
    requires sound { number < 2 ^ 64 - 1 }
    ensures { OnOk result (builder.new ≡ builder.old ++ cells_of (call_of (VarTerm number))) }
{
    builder.push(Cell::Functor(Atom::ascii(alloc, "call")?, 1))?;
    builder.push(Cell::Var(number))
}

/// The places of the goals of a body, none where it is `true`.
pub(crate) fn clause_places(alloc: Global, body: &FlatTerm) -> Result<Vec<usize>, NoMemory>
    ensures { IfOk result (λ places. AreGoalsAt body.now places.items (clause_goals_of body.now)) }
{
    if is_true_cell(body.top()) {
        return Ok(Vec::new(alloc));
    }
    goal_places(alloc, body)
}

/// The places of the goals of a body.
pub fn goal_places(alloc: Global, body: &FlatTerm) -> Result<Vec<usize>, NoMemory>
    ensures { IfOk result (λ places. AreGoalsAt body.now places.items (goals_of body.now)) }
{
    let mut places = Vec::new(alloc);
    let count = body.cells().len();
    let mut at = 0;
    while at < count {
        at = pass_goal(body, at, &mut places)?;
    }
    Ok(places)
}

/// Notes the place of the goal that is here, and says where the next goal is: inside a conjunction, or after it.
fn pass_goal(body: &FlatTerm, at: usize, places: &mut Vec<usize>) -> Result<usize, NoMemory>
    requires { at < length (cells_of body.now) }
    ensures { IfOk result (λ next. PassesGoal body.now at next places.old.items places.new.items) }
{
    let end = body.term_end(at);
    if is_conjunction_cell(&body.subterm(at)[0]) {
        return Ok(at + 1);
    }
    places.push(at)?;
    Ok(end)
}
