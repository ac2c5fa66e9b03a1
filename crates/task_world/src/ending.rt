//! Ends of queries.
ghost use Rattle.std.specs.Prelude.{◌≡◌, [], true, is_some, IfOk, OnErr, OnOk, None, Some, slice_get};
ghost use Rattle.au_model.specs.Writing.Lines.{end_line};
ghost use Rattle.effect_gate.specs.Effects.{world_meant};
ghost use Rattle.run_model.specs.Goals.Worlds.{writes};
ghost use Rattle.tree_model.specs.EventViews.{place_view};
ghost use Rattle.tree_model.specs.Legality.{taken_at};
ghost use Rattle.tree_core.specs.Histories.{state_of};
ghost use Rattle.task_world.specs.FrontSteps.{ComesAbout, IsBarredBy, IsWorldAfter};
ghost use Rattle.task_world.specs.OutTasks.{EndsQueryAt};
ghost use Rattle.task_world.specs.QueryEnds.{still_left};

use crate::FrontStep;
use crate::goals::query_goals;
use au_term::{FlatTerm, NoMemory};
use branch_reading::query_body;
use clause_compile::Effect;
use effect_gate::World;
use public_tree::Answering;
use query_laws::laws::next_query_is_told;
use std::alloc::Global;
use text_load::Query;
use tree_core::{JobBrand, Tree};
use tree_model::AltRef;

/// A worker takes the end of a query that is out to it, with the ball by which the query ended, if one did: the line that ends it is written,
/// and the next one of the queries that are left is opened. Where none is left, the alternative has yet to close. Nothing happens where it
/// is not the leftmost entry, or where the tree has ended or was stopped.
pub fn end_query<J: JobBrand>(
    tree: &mut Tree<J>,
    worker: u32,
    at: AltRef,
    ball: Option<FlatTerm>,
    left: &[Query],
    world: &mut World,
    alloc: Global,
) -> Result<FrontStep, NoMemory>
    requires out { is_some (taken_at worker (place_view at) (state_of tree.old.history)) ≡ true }
    requires ends { EndsQueryAt worker (place_view at) ball (state_of tree.old.history) }
    requires left { left.now ≡ (state_of tree.old.history).queries }
    requires world { world_meant world.old ≡ (state_of tree.old.history).world }
    ensures comes { IfOk result (ComesAbout tree.old tree.new worker (place_view at)) }
    ensures left { IfOk result (λ step. (state_of tree.new.history).queries ≡ still_left step left.now) }
    ensures world { IfOk result (λ step. IsWorldAfter tree.old.history worker (place_view at) (world_meant world.new)) }
    ensures statics { world.new.database.statics ≡ world.old.database.statics }
    ensures err { OnErr result (tree.new.history ≡ tree.old.history) }
{
    if !tree.is_going() {
        return Ok(FrontStep::Done(Answering::HasEnded));
    }
    if !tree.is_front(at) {
        return Ok(FrontStep::Done(Answering::NotLeftmost));
    }
    match left.first() {
        Some(next) => open_next(tree, worker, at, ball, next, world, alloc),
        None => end_last(tree, worker, at, ball, world, alloc),
    }
}

/// The same where a query is left.
fn open_next<J: JobBrand>(
    tree: &mut Tree<J>,
    worker: u32,
    at: AltRef,
    ball: Option<FlatTerm>,
    next: &Query,
    world: &mut World,
    alloc: Global,
) -> Result<FrontStep, NoMemory>
    requires may { IsBarredBy tree.old.history (place_view at) None }
    requires out { is_some (taken_at worker (place_view at) (state_of tree.old.history)) ≡ true }
    requires ends { EndsQueryAt worker (place_view at) ball (state_of tree.old.history) }
    requires next { slice_get (state_of tree.old.history).queries 0 ≡ Some next.now }
    requires world { world_meant world.old ≡ (state_of tree.old.history).world }
    ensures comes { IfOk result (ComesAbout tree.old tree.new worker (place_view at)) }
    ensures left { IfOk result (λ step. (state_of tree.new.history).queries ≡ still_left step (state_of tree.old.history).queries) }
    ensures world { IfOk result (λ step. IsWorldAfter tree.old.history worker (place_view at) (world_meant world.new)) }
    ensures statics { world.new.database.statics ≡ world.old.database.statics }
    ensures err { OnErr result (tree.new.history ≡ tree.old.history) }
{
    next_query_is_told();
    tree.keeps_promises();
    let given = query_goals(alloc, next, tree.nodes().drawn())?;
    let body = query_body(alloc, given.goals, given.vars)?;
    write_end(alloc, ball, world)?;
    let answering = tree.open_query(worker, at, body)?;
    Ok(FrontStep::Done(answering))
}

/// The same where none is.
fn end_last<J: JobBrand>(
    tree: &Tree<J>,
    worker: u32,
    at: AltRef,
    ball: Option<FlatTerm>,
    world: &mut World,
    alloc: Global,
) -> Result<FrontStep, NoMemory>
    requires may { IsBarredBy tree.now.history (place_view at) None }
    requires out { is_some (taken_at worker (place_view at) (state_of tree.now.history)) ≡ true }
    requires ends { EndsQueryAt worker (place_view at) ball (state_of tree.now.history) }
    requires last { (state_of tree.now.history).queries ≡ [] }
    requires world { world_meant world.old ≡ (state_of tree.now.history).world }
    ensures comes { IfOk result (ComesAbout tree.now tree.now worker (place_view at)) }
    ensures left { IfOk result (λ step. (state_of tree.now.history).queries ≡ still_left step []) }
    ensures world { IfOk result (λ step. IsWorldAfter tree.now.history worker (place_view at) (world_meant world.new)) }
    ensures statics { world.new.database.statics ≡ world.old.database.statics }
{
    tree.keeps_promises();
    let _worker = worker;
    let closing = tree.rest_of(at, 1, None)?;
    write_end(alloc, ball, world)?;
    Ok(FrontStep::Closes(closing))
}

/// Writes the line that ends a query.
fn write_end(alloc: Global, ball: Option<FlatTerm>, world: &mut World) -> Result<(), NoMemory>
    ensures written { OnOk result (world_meant world.new ≡ writes (end_line (world_meant world.old).operators ball) (world_meant world.old)) }
    ensures statics { world.new.database.statics ≡ world.old.database.statics }
{
    let end = Effect::End(ball);
    world.apply(alloc, &end)?;
    Ok(())
}
