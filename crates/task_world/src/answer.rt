//! Answers.
ghost use Rattle.std.specs.Prelude.{◌≡◌, true, is_some, map, IfOk, OnErr, OnOk, None};
ghost use Rattle.au_model.specs.Terms.Substitutions.{resolve};
ghost use Rattle.au_model.specs.Writing.Lines.{answer_line};
ghost use Rattle.au_term.specs.Term.{VarTerm};
ghost use Rattle.cell_store.specs.StoreView.{substitution};
ghost use Rattle.effect_gate.specs.Effects.{world_meant};
ghost use Rattle.run_model.specs.Goals.Worlds.{writes};
ghost use Rattle.tree_model.specs.EventViews.{place_view};
ghost use Rattle.tree_model.specs.Legality.{taken_at};
ghost use Rattle.tree_core.specs.Histories.{state_of};
ghost use Rattle.task_world.specs.FrontItems.{IsAnswerNext, terms_named, value_named};
ghost use Rattle.task_world.specs.FrontSteps.{ComesAbout, IsBarredBy, IsWorldAfter};

use crate::front::why_barred;
use crate::step::FrontStep;
use au_model::VarName;
use au_term::{Cell, FlatTerm, NoMemory, TermBuilder, VarNo};
use binding_array::BindingCell;
use cell_store::Store;
use effect_gate::World;
use std::alloc::Global;
use term_writer::answer_line;
use tree_core::{JobBrand, Tree};
use tree_model::AltRef;

/// A worker writes the line of the answer to which an alternative has come that is out to it: the names of its query, with what they stand
/// for in the store of its task. The alternative has yet to close. Nothing happens where it is not the leftmost entry, or where the tree has
/// ended or was stopped.
pub fn take_answer<J: JobBrand>(
    tree: &Tree<J>,
    worker: u32,
    at: AltRef,
    names: &[VarName],
    store: &Store,
    world: &mut World,
    alloc: Global,
) -> Result<FrontStep, NoMemory>
    requires out { is_some (taken_at worker (place_view at) (state_of tree.now.history)) ≡ true }
    requires answer { IsAnswerNext (terms_named store.now names.now) worker (place_view at) (state_of tree.now.history) }
    requires world { world_meant world.old ≡ (state_of tree.now.history).world }
    ensures comes { IfOk result (ComesAbout tree.now tree.now worker (place_view at)) }
    ensures world { IfOk result (λ step. IsWorldAfter tree.now.history worker (place_view at) (world_meant world.new)) }
    ensures statics { world.new.database.statics ≡ world.old.database.statics }
    ensures err { OnErr result (world_meant world.new ≡ world_meant world.old) }
{
    match why_barred(tree, at) {
        Some(answering) => Ok(FrontStep::Done(answering)),
        None => answer_at_front(tree, worker, at, names, store, world, alloc),
    }
}

/// The same where the alternative may be taken.
fn answer_at_front<J: JobBrand>(
    tree: &Tree<J>,
    worker: u32,
    at: AltRef,
    names: &[VarName],
    store: &Store,
    world: &mut World,
    alloc: Global,
) -> Result<FrontStep, NoMemory>
    requires may { IsBarredBy tree.now.history (place_view at) None }
    requires out { is_some (taken_at worker (place_view at) (state_of tree.now.history)) ≡ true }
    requires answer { IsAnswerNext (terms_named store.now names.now) worker (place_view at) (state_of tree.now.history) }
    requires world { world_meant world.old ≡ (state_of tree.now.history).world }
    ensures comes { IfOk result (ComesAbout tree.now tree.now worker (place_view at)) }
    ensures world { IfOk result (λ step. IsWorldAfter tree.now.history worker (place_view at) (world_meant world.new)) }
    ensures statics { world.new.database.statics ≡ world.old.database.statics }
    ensures err { OnErr result (world_meant world.new ≡ world_meant world.old) }
{
    tree.keeps_promises();
    let _worker = worker;
    let closing = tree.rest_of_answer(at)?;
    write_answer(alloc, names, store, world)?;
    Ok(FrontStep::Closes(closing))
}

/// Writes the line of an answer: names with what they stand for.
pub fn write_answer(
    alloc: Global,
    names: &[VarName],
    store: &Store,
    world: &mut World,
) -> Result<(), NoMemory>
    ensures written { OnOk result (world_meant world.new ≡ writes (answer_line (world_meant world.old).operators (terms_named store.now names.now)) (world_meant world.old)) }
    ensures statics { world.new.database.statics ≡ world.old.database.statics }
    ensures err { OnErr result (world_meant world.new ≡ world_meant world.old) }
{
    let values = values_of(alloc, names, store)?;
    answer_line(alloc, &mut world.out, names, &values, &world.ops)?;
    Ok(())
}

/// What variables stand for.
fn values_of(alloc: Global, names: &[VarName], store: &Store) -> Result<Vec<FlatTerm>, NoMemory>
    ensures { IfOk result (λ values. values.items ≡ map (value_named store.now) names.now) }
{
    let mut values = Vec::new(alloc);
    for name in names {
        values.push(value_of(alloc, name.number, store)?)?;
    }
    Ok(values)
}

/// What a variable stands for; itself where the store has no such number.
fn value_of(alloc: Global, number: VarNo, store: &Store) -> Result<FlatTerm, NoMemory>
    ensures { IfOk result (λ t. t ≡ resolve (substitution store.now) (VarTerm number)) }
{
    if number < VarNo::from(store.next()) {
        return store.resolve(BindingCell::Var(number as u32));
    }
    if number == VarNo::MAX {
        return Err(NoMemory);
    }
    let mut builder = TermBuilder::new(alloc);
    builder.push(Cell::Var(number))?;
    Ok(builder.finish())
}
