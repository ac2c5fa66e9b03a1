//! Queries, opened one after another, each in a region of its own.
ghost use Rattle.std.specs.Prelude.{◌≡◌, IfOk, OnOk};
ghost use Rattle.std.specs.Arc.{arc_value};
ghost use Rattle.region_split.specs.StackOperations.{new_region};
ghost use Rattle.text_load.specs.QueryView.{goal_terms};
ghost use Rattle.stack_run.specs.MachineView.{IsNextHeld, OpensNext, OpensQuery};

use crate::machine::{Machine, Next, Program};
use au_term::{NoMemory, Shared};
use clause_compile::{Goals, Item};
use region_split::{Alternatives, Position, Region, Text};
use std::alloc::Global;
use std::sync::Arc;
use text_load::Query;

/// Lets the next query begin, if one is left.
pub(crate) fn ask_next(
    alloc: Global,
    program: &Program,
    machine: &mut Machine,
) -> Result<Next, NoMemory>
    requires text { machine.old.region.text ≡ arc_value program.now.text }
    ensures opens { IfOk result (OpensNext program.now machine.old machine.new) }
    ensures there { IfOk result (IsNextHeld machine.new.region) }
    ensures text { machine.new.region.text ≡ arc_value program.now.text }
    ensures world { machine.new.world ≡ machine.old.world }
{
    if machine.asked >= program.queries.len() {
        return Ok(Next::Over(None));
    }
    let text = program.text.clone()?;
    let (region, position) = open(alloc, text, &program.queries[machine.asked])?;
    machine.region = region;
    machine.asked += 1;
    Ok(Next::Runs(Some(position)))
}

/// A region in which a query begins, and where.
fn open(alloc: Global, text: Arc<Text>, query: &Query) -> Result<(Region, Position), NoMemory>
    ensures { IfOk result (λ opened. OpensQuery (arc_value text) query.now opened.0 opened.1) }
{
    let mut region = Region::new(alloc, text)?;
    let position = begin(&mut region, alloc, query)?;
    Ok((region, position))
}

/// Where a query begins in a new region.
fn begin(region: &mut Region, alloc: Global, query: &Query) -> Result<Position, NoMemory>
    requires { region.old ≡ new_region region.old.text }
    ensures { IfOk result (OpensQuery region.old.text query.now region.new) }
{
    let Ok(variables) = u32::try_from(query.vars()) else {
        return Err(NoMemory);
    };
    region.fresh(variables)?;
    region.set_floor();
    let end = region.nothing_left();
    region.push_choice(Alternatives::QueryEnd, end)?;
    let goals = terms_of(alloc, query.goals())?;
    let cut = region.scope()?;
    let after = region.nothing_left();
    let position = region.push_goals(&goals, cut, after)?;
    Ok(position)
}

/// The terms of goals, shared.
fn terms_of(alloc: Global, goals: &Goals) -> Result<Vec<Shared>, NoMemory>
    ensures { IfOk result (λ terms. terms.items ≡ goal_terms goals.now) }
{
    let mut terms = Vec::new(alloc);
    for item in goals.items() {
        if let Item::Goal { term, cut: _ } = item {
            terms.push(term.share()?)?;
        }
    }
    Ok(terms)
}
