//! Goals of built-in predicates (ISO/IEC 13211-1, 7.7.7).
ghost use Rattle.std.specs.Prelude.{◌≡◌, ◌<◌, ◌∷◌, [], IfOk, OnOk, Err, is_none, length};
ghost use Rattle.au_term.specs.Term.{AtomTerm};
ghost use Rattle.au_model.specs.Terms.Faults.{error_term_of};
ghost use Rattle.au_model.specs.Terms.Unifier.{unifier};
ghost use Rattle.run_model.specs.Goals.BuiltinAnswers.{equal, one_solution, reply_of};
ghost use Rattle.run_model.specs.Goals.Outcomes.{Replies};
ghost use Rattle.run_model.specs.Goals.TermTests.{order_symbol};
ghost use Rattle.run_model.specs.Goals.UnificationGoals.{apart_answer};
ghost use Rattle.clause_compile.specs.AtomNumbers.{name_at};
ghost use Rattle.cell_store.specs.StoreView.{IsValueIn, meaning, text_in};
ghost use Rattle.std_builtins.specs.Meanings.{answer_of};
ghost use Rattle.std_builtins.specs.Rows.{IsRowOf};
ghost use Rattle.region_split.specs.Regions.{IsPositionIn};
ghost use Rattle.region_control.specs.Controls.{IsGoalPlace};
ghost use Rattle.region_control.specs.GoalForms.{argument_terms, AreArgumentsIn};
ghost use Rattle.region_control.specs.Replies.{LeavesOutcome};
ghost use Rattle.region_builtins.specs.QuickAnswers.{AnswersIn, AnswersFor, IsPairIn, pair_meant};

use crate::quick::{QuickAnswer, quick_answer, symbol_of, test_holds, values_made_one};
use crate::solved::{resolved_arguments, solutions_of};
use au_model::Fault;
use au_model::build::atom;
use au_term::{NoMemory, Shared, VarNo};
use binding_array::BindingCell;
use region_control::{AfterGoal, GoalForm, GoalPlace, raise_fault};
use region_split::{Alternatives, Position, Region};
use std::alloc::Global;
use std::cmp::Ordering;
use std_builtins::{Builtin, BuiltinRefusal};

/// Makes two values one in the place of a goal.
#[inline(always)]
fn equate(
    region: &mut Region,
    left: BindingCell,
    right: BindingCell,
    place: GoalPlace,
) -> Result<AfterGoal, NoMemory>
    requires left { IsValueIn region.old.store left }
    requires right { IsValueIn region.old.store right }
    requires place { IsGoalPlace region.old place }
    ensures comes { IfOk result (AnswersIn region.old region.new (equal (meaning region.old.store left) (meaning region.old.store right)) place) }
    ensures text { OnOk result (region.new.text ≡ region.old.text) }
    ensures floor { OnOk result (region.new.store.floor ≡ region.old.store.floor) }
{
    if let BindingCell::Int(_) = right {
        // Mostly a variable that is free takes the value of an expression.
        if let BindingCell::Var(variable) = region.store().dereference(left) {
            region.bind(variable, right)?;
            return Ok(AfterGoal::At(place.after));
        }
    }
    if region.unify(left, right)? {
        Ok(AfterGoal::At(place.after))
    } else {
        Ok(AfterGoal::Failed)
    }
}

/// Makes two values one, and then two others, in the place of a goal.
fn equate_both(
    region: &mut Region,
    first: (BindingCell, BindingCell),
    second: (BindingCell, BindingCell),
    place: GoalPlace,
) -> Result<AfterGoal, NoMemory>
    requires first { IsPairIn region.old.store first }
    requires second { IsPairIn region.old.store second }
    requires place { IsGoalPlace region.old place }
    ensures comes { IfOk result (AnswersIn region.old region.new (one_solution (pair_meant region.old.store first ∷ pair_meant region.old.store second ∷ [])) place) }
    ensures text { OnOk result (region.new.text ≡ region.old.text) }
    ensures floor { OnOk result (region.new.store.floor ≡ region.old.store.floor) }
{
    if !region.unify(first.0, first.1)? {
        return Ok(AfterGoal::Failed);
    }
    if !region.unify(second.0, second.1)? {
        return Ok(AfterGoal::Failed);
    }
    Ok(AfterGoal::At(place.after))
}

/// Makes a value one with the symbol of an order, which is copied in, in the place of a goal.
fn equate_ordered(
    region: &mut Region,
    alloc: Global,
    value: BindingCell,
    ordering: Ordering,
    place: GoalPlace,
) -> Result<AfterGoal, NoMemory>
    requires value { IsValueIn region.old.store value }
    requires place { IsGoalPlace region.old place }
    ensures comes { IfOk result (AnswersIn region.old region.new (equal (meaning region.old.store value) (AtomTerm (order_symbol ordering))) place) }
    ensures text { OnOk result (region.new.text ≡ region.old.text) }
    ensures floor { OnOk result (region.new.store.floor ≡ region.old.store.floor) }
{
    let term = Shared::from_term(alloc, atom(alloc, symbol_of(ordering))?)?;
    let symbol = region.copy_in(&term)?;
    equate(region, value, symbol, place)
}

/// Whether two values have no unifier. What is bound while one is looked for is undone.
fn are_apart(
    region: &mut Region,
    left: BindingCell,
    right: BindingCell,
    after: Position,
) -> Result<bool, NoMemory>
    requires left { IsValueIn region.old.store left }
    requires right { IsValueIn region.old.store right }
    requires after { IsPositionIn region.old after }
    ensures apart { IfOk result (λ apart. apart ≡ is_none (unifier ((meaning region.old.store left, meaning region.old.store right) ∷ []))) }
    ensures same { OnOk result (region.new ≡ region.old) }
{
    region.push_choice(Alternatives::Elsewhere, after)?;
    let unified = region.unify(left, right)?;
    region.take_newest();
    Ok(!unified)
}

/// Goes on in the place of a goal where two values have no unifier.
fn differ(
    region: &mut Region,
    left: BindingCell,
    right: BindingCell,
    place: GoalPlace,
) -> Result<AfterGoal, NoMemory>
    requires left { IsValueIn region.old.store left }
    requires right { IsValueIn region.old.store right }
    requires place { IsGoalPlace region.old place }
    ensures comes { IfOk result (AnswersIn region.old region.new (apart_answer (meaning region.old.store left) (meaning region.old.store right)) place) }
    ensures text { OnOk result (region.new.text ≡ region.old.text) }
    ensures floor { OnOk result (region.new.store.floor ≡ region.old.store.floor) }
{
    if are_apart(region, left, right, place.after)? {
        Ok(AfterGoal::At(place.after))
    } else {
        Ok(AfterGoal::Failed)
    }
}

/// The error of a goal.
fn raise_error(
    region: &mut Region,
    alloc: Global,
    fault: &Fault,
    form: GoalForm,
    place: GoalPlace,
) -> Result<AfterGoal, NoMemory>
    requires name { form.name < length (text_in region.old.store).names }
    requires place { IsGoalPlace region.old place }
    ensures comes { IfOk result (AnswersFor region.old region.new form (Err (error_term_of fault.now)) place) }
    ensures text { OnOk result (region.new.text ≡ region.old.text) }
    ensures floor { OnOk result (region.new.store.floor ≡ region.old.store.floor) }
{
    let name = region.store().name(form.name).share()?;
    raise_fault(region, alloc, fault, &name, form.arguments.count, place)
}

/// Takes a goal of a built-in predicate.
#[inline(never)]
pub fn builtin_goal(
    region: &mut Region,
    alloc: Global,
    builtin: Builtin,
    form: GoalForm,
    place: GoalPlace,
) -> Result<AfterGoal, NoMemory>
    requires name { form.name < length (text_in region.old.store).names }
    requires there { AreArgumentsIn region.old.store form.arguments }
    requires row { IsRowOf (name_at (text_in region.old.store).names form.name) form.arguments.count builtin }
    requires place { IsGoalPlace region.old place }
    ensures comes { IfOk result (AnswersFor region.old region.new form (answer_of builtin (argument_terms region.old.store form.arguments) region.old.store.now.next) place) }
    ensures text { OnOk result (region.new.text ≡ region.old.text) }
    ensures floor { OnOk result (region.new.store.floor ≡ region.old.store.floor) }
{
    if let Some((left, right)) = values_made_one(region.store(), builtin, form.arguments) {
        return equate(region, left, right, place);
    }
    match test_holds(alloc, region.store(), builtin, form.arguments)? {
        Some(true) => Ok(AfterGoal::At(place.after)),
        Some(false) => Ok(AfterGoal::Failed),
        None => answered_goal(region, alloc, builtin, form, place),
    }
}

/// The same by its answer.
#[inline(never)]
fn answered_goal(
    region: &mut Region,
    alloc: Global,
    builtin: Builtin,
    form: GoalForm,
    place: GoalPlace,
) -> Result<AfterGoal, NoMemory>
    requires name { form.name < length (text_in region.old.store).names }
    requires there { AreArgumentsIn region.old.store form.arguments }
    requires row { IsRowOf (name_at (text_in region.old.store).names form.name) form.arguments.count builtin }
    requires place { IsGoalPlace region.old place }
    ensures comes { IfOk result (AnswersFor region.old region.new form (answer_of builtin (argument_terms region.old.store form.arguments) region.old.store.now.next) place) }
    ensures text { OnOk result (region.new.text ≡ region.old.text) }
    ensures floor { OnOk result (region.new.store.floor ≡ region.old.store.floor) }
{
    match quick_answer(alloc, region.store(), builtin, form.arguments)? {
        QuickAnswer::Holds(true) => Ok(AfterGoal::At(place.after)),
        QuickAnswer::Holds(false) => Ok(AfterGoal::Failed),
        QuickAnswer::Equal(left, right) => equate(region, left, right, place),
        QuickAnswer::BothEqual(first, second) => equate_both(region, first, second, place),
        QuickAnswer::Ordered(value, ordering) => {
            equate_ordered(region, alloc, value, ordering, place)
        }
        QuickAnswer::Alike(true) => Ok(AfterGoal::At(place.after)),
        QuickAnswer::Alike(false) => Ok(AfterGoal::Failed),
        QuickAnswer::Apart(left, right) => differ(region, left, right, place),
        QuickAnswer::Raises(fault) => raise_error(region, alloc, &fault, form, place),
        QuickAnswer::Unknown => resolved_goal(region, alloc, builtin, form, place),
    }
}

/// The same by its arguments as terms.
fn resolved_goal(
    region: &mut Region,
    alloc: Global,
    builtin: Builtin,
    form: GoalForm,
    place: GoalPlace,
) -> Result<AfterGoal, NoMemory>
    requires name { form.name < length (text_in region.old.store).names }
    requires there { AreArgumentsIn region.old.store form.arguments }
    requires row { IsRowOf (name_at (text_in region.old.store).names form.name) form.arguments.count builtin }
    requires place { IsGoalPlace region.old place }
    ensures comes { IfOk result (AnswersFor region.old region.new form (answer_of builtin (argument_terms region.old.store form.arguments) region.old.store.now.next) place) }
    ensures text { OnOk result (region.new.text ≡ region.old.text) }
    ensures floor { OnOk result (region.new.store.floor ≡ region.old.store.floor) }
{
    let arguments = resolved_arguments(alloc, region.store(), form.arguments)?;
    let next = VarNo::from(region.store().next());
    match builtin.call(alloc, &arguments, next) {
        Ok(found) => {
            let solutions = solutions_of(alloc, &found)?;
            match region.solve(solutions, place.after)? {
                Some(position) => Ok(AfterGoal::At(position)),
                None => Ok(AfterGoal::Failed),
            }
        }
        Err(BuiltinRefusal::Fault(fault)) => raise_error(region, alloc, &fault, form, place),
        Err(BuiltinRefusal::NoMemory) => Err(NoMemory),
    }
}
