//! Inferences.
ghost use Rattle.std.specs.Prelude.{◌≡◌, ◌<◌, true, false, length, IfOk, OnOk};
ghost use Rattle.au_term.specs.Term.{end, argument_count};
ghost use Rattle.au_model.specs.Terms.Forms.{is_callable, name_of};
ghost use Rattle.run_model.specs.Goals.Control.{call_outcome};
ghost use Rattle.run_model.specs.Goals.GoalOutcomes.{has_row};
ghost use Rattle.run_model.specs.Programs.Clauses.{is_defined};
ghost use Rattle.clause_compile.specs.AtomNumbers.{name_at};
ghost use Rattle.cell_store.specs.StoreView.{IsValueIn, meaning, text_in};
ghost use Rattle.goal_kinds.specs.Kinds.{IsKindOf};
ghost use Rattle.region_control.specs.Controls.{IsGoalPlace};
ghost use Rattle.region_control.specs.Ahead.{IsGoalThere};
ghost use Rattle.region_control.specs.GoalForms.{IsFormOf};
ghost use Rattle.region_control.specs.Replies.{LeavesOutcome};
ghost use Rattle.region_run.specs.Inferences.{is_procedure_call, Infers, InfersItem};

use crate::constructs::construct_taken;
use crate::kinds::kind_of;
use au_term::NoMemory;
use binding_array::BindingCell;
use cell_store::arguments::Arguments;
use goal_kinds::{GoalKind, GoalKinds};
use meta_call::call_goal;
use region_builtins::builtin_goal;
use region_control::{AfterGoal, GoalForm, GoalPlace, cut, form_of};
use region_split::{FrameItem, Region};
use std::alloc::Global;

/// Takes a goal that stands in a region. The kinds are those of the text's names.
pub fn infer(
    region: &mut Region,
    alloc: Global,
    kinds: &GoalKinds,
    item: FrameItem,
    place: GoalPlace,
) -> Result<AfterGoal, NoMemory>
    requires there { IsGoalThere region.old item place }
    requires kinds { kinds.now ≡ region.old.text.code.names }
    ensures infers { IfOk result (InfersItem region.old region.new item place) }
    ensures text { OnOk result (region.new.text ≡ region.old.text) }
    ensures floor { OnOk result (region.new.store.floor ≡ region.old.store.floor) }
{
    match item {
        FrameItem::Goal(goal) => goal_taken(region, alloc, kinds, goal, place),
        FrameItem::Call(goal) => called(region, alloc, goal, place),
        FrameItem::Cut => {
            cut(region, place);
            Ok(AfterGoal::At(place.after))
        }
        FrameItem::True => Ok(AfterGoal::At(place.after)),
        FrameItem::Fail => Ok(AfterGoal::Failed),
        _ => unreachable!(),
    }
}

/// Takes the goal that a value stands for.
fn goal_taken(
    region: &mut Region,
    alloc: Global,
    kinds: &GoalKinds,
    goal: BindingCell,
    place: GoalPlace,
) -> Result<AfterGoal, NoMemory>
    requires goal { IsValueIn region.old.store goal }
    requires place { IsGoalPlace region.old place }
    requires kinds { kinds.now ≡ region.old.text.code.names }
    ensures infers { IfOk result (Infers region.old region.new (meaning region.old.store goal) place) }
    ensures text { OnOk result (region.new.text ≡ region.old.text) }
    ensures floor { OnOk result (region.new.store.floor ≡ region.old.store.floor) }
{
    let Some(form) = form_of(region.store(), goal) else {
        return called(region, alloc, goal, place);
    };
    let kind = kind_of(kinds, region.store(), form.name, form.arguments.count);
    if calls_procedure(region, kind, form) {
        return procedure_called(region, goal, place);
    }
    taken_by_kind(region, alloc, kind, goal, form, place)
}

/// Whether a goal of a kind calls a procedure of the text.
#[inline(always)]
pub(crate) fn calls_procedure(region: &Region, kind: GoalKind, form: GoalForm) -> bool
    requires { form.name < length (text_in region.now.store).names }
    ensures { result ≡ is_procedure_call region.now kind form }
{
    match kind {
        GoalKind::Call => region.is_defined(form.name, form.arguments.count),
        _ => false,
    }
}

/// Takes a goal of a kind that calls no procedure of the text; the procedures that the text does not have are the world's.
#[inline(always)]
pub(crate) fn taken_by_kind(
    region: &mut Region,
    alloc: Global,
    kind: GoalKind,
    goal: BindingCell,
    form: GoalForm,
    place: GoalPlace,
) -> Result<AfterGoal, NoMemory>
    requires goal { IsValueIn region.old.store goal }
    requires form { IsFormOf region.old.store goal form }
    requires kind { IsKindOf (name_at (text_in region.old.store).names form.name) form.arguments.count kind }
    requires other { is_procedure_call region.old kind form ≡ false }
    requires place { IsGoalPlace region.old place }
    ensures infers { IfOk result (Infers region.old region.new (meaning region.old.store goal) place) }
    ensures text { OnOk result (region.new.text ≡ region.old.text) }
    ensures floor { OnOk result (region.new.store.floor ≡ region.old.store.floor) }
{
    match kind {
        GoalKind::Control(control) => construct_taken(region, alloc, control, goal, form, place),
        GoalKind::Builtin(builtin) => builtin_goal(region, alloc, builtin, form, place),
        GoalKind::World(_) => Ok(AfterGoal::AsksWorld),
        GoalKind::Call => Ok(AfterGoal::AsksWorld),
    }
}

/// Calls what a value stands for.
#[inline(never)]
fn called(
    region: &mut Region,
    alloc: Global,
    goal: BindingCell,
    place: GoalPlace,
) -> Result<AfterGoal, NoMemory>
    requires goal { IsValueIn region.old.store goal }
    requires place { IsGoalPlace region.old place }
    ensures comes { IfOk result (LeavesOutcome region.old region.new (call_outcome 1 (meaning region.old.store goal) end) place) }
    ensures text { OnOk result (region.new.text ≡ region.old.text) }
    ensures floor { OnOk result (region.new.store.floor ≡ region.old.store.floor) }
{
    let none = Arguments {
        at: 0,
        base: 0,
        count: 0,
    };
    call_goal(region, alloc, goal, none, place)
}

/// Tries the clauses of a goal's procedure.
fn procedure_called(
    region: &mut Region,
    goal: BindingCell,
    place: GoalPlace,
) -> Result<AfterGoal, NoMemory>
    requires goal { IsValueIn region.old.store goal }
    requires callable { is_callable (meaning region.old.store goal) ≡ true }
    requires row { has_row (name_of (meaning region.old.store goal)) (argument_count (meaning region.old.store goal)) ≡ false }
    requires defined { is_defined region.old.text.clauses (name_of (meaning region.old.store goal)) (argument_count (meaning region.old.store goal)) ≡ true }
    requires place { IsGoalPlace region.old place }
    ensures infers { IfOk result (Infers region.old region.new (meaning region.old.store goal) place) }
    ensures text { OnOk result (region.new.text ≡ region.old.text) }
    ensures floor { OnOk result (region.new.store.floor ≡ region.old.store.floor) }
{
    match region.call(goal, place.after)? {
        Some(position) => Ok(AfterGoal::At(position)),
        None => Ok(AfterGoal::Failed),
    }
}
