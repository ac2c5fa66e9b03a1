//! What calls come to (ISO/IEC 13211-1, 7.8.3, and 8.15.4 of its second corrigendum).
ghost use Rattle.std.specs.Prelude.{◌≡◌, ◌+◌, ◌<◌, true, IfOk, OnOk, MatchOption, codes};
ghost use Rattle.au_term.specs.Term.{term_at, drop_terms};
ghost use Rattle.au_model.specs.Terms.Faults.{error_term_of};
ghost use Rattle.run_model.specs.Programs.Bodies.{called_goals};
ghost use Rattle.run_model.specs.Goals.Control.{call_outcome, called, raises, with_arguments};
ghost use Rattle.clause_compile.specs.Places.{IsArity};
ghost use Rattle.cell_store.specs.StoreView.{IsUnbound, IsValueIn, meaning, substitution};
ghost use Rattle.region_control.specs.Controls.{IsGoalPlace};
ghost use Rattle.region_control.specs.GoalForms.{argument_terms, AreArgumentsIn};
ghost use Rattle.region_control.specs.Replies.{LeavesOutcome};
ghost use Rattle.meta_call.specs.Calls.{CanTake, IsCallRefused, MakesTerms};

use crate::bodies::{is_own_body, made_body};
use crate::called::called_term;
use au_model::{Fault, LimitName, TypeName};
use au_term::{Atom, MAX_ARITY, NoMemory, Shared};
use binding_array::BindingCell;
use cell_store::Store;
use cell_store::arguments::{Arguments, rest_of};
use region_control::{AfterGoal, GoalPlace, argument, call, raise_fault};
use region_split::Region;
use std::alloc::Global;

/// `call(G, A1..)`: the goal G with further arguments is called. They are taken as they stand, so that the cost doesn't grow
/// with what their variables are bound to.
pub fn call_goal(
    region: &mut Region,
    alloc: Global,
    callee: BindingCell,
    further: Arguments,
    place: GoalPlace,
) -> Result<AfterGoal, NoMemory>
    requires callee { IsValueIn region.old.store callee }
    requires further { AreArgumentsIn region.old.store further }
    requires few { IsArity (further.count + 1) }
    requires place { IsGoalPlace region.old place }
    ensures comes { IfOk result (LeavesOutcome region.old region.new
        (call_outcome (further.count + 1) (meaning region.old.store callee) (argument_terms region.old.store further)) place) }
    ensures text { OnOk result (region.new.text ≡ region.old.text) }
    ensures floor { OnOk result (region.new.store.floor ≡ region.old.store.floor) }
{
    let callee = region.store().dereference(callee);
    let arity = further.count + 1;
    match refusal(region.store(), callee, further.count)? {
        Some(fault) => raise_call(region, alloc, &fault, arity, place),
        None => {
            let goal = goal_value(region, alloc, callee, further)?;
            called(region, alloc, goal, arity, place)
        }
    }
}

/// The goal `call(G, A1..)`, by its arguments.
pub fn call_arguments(
    region: &mut Region,
    alloc: Global,
    arguments: Arguments,
    place: GoalPlace,
) -> Result<AfterGoal, NoMemory>
    requires arguments { AreArgumentsIn region.old.store arguments }
    requires arity { IsArity arguments.count }
    requires place { IsGoalPlace region.old place }
    ensures comes { IfOk result (LeavesOutcome region.old region.new
        (call_outcome arguments.count (term_at 0 (argument_terms region.old.store arguments)) (drop_terms 1 (argument_terms region.old.store arguments))) place) }
    ensures text { OnOk result (region.new.text ≡ region.old.text) }
    ensures floor { OnOk result (region.new.store.floor ≡ region.old.store.floor) }
{
    let callee = argument(region.store(), arguments, 0);
    call_goal(region, alloc, callee, rest_of(arguments), place)
}

/// The error of a call that is refused before its goal is made, with so many further arguments.
fn refusal(store: &Store, callee: BindingCell, further: u32) -> Result<Option<Fault>, NoMemory>
    requires there { IsValueIn store.now callee }
    requires unbound { IsUnbound (substitution store.now) callee }
    requires few { IsArity (further + 1) }
    ensures { IfOk result (λ refused. MatchOption refused (CanTake store.now callee further) (IsCallRefused store.now callee further)) }
{
    match callee {
        BindingCell::Free => unreachable!(),
        BindingCell::Var(_) => Ok(Some(Fault::Instantiation)),
        BindingCell::Int(_) => {
            let culprit = store.resolve(callee)?;
            Ok(Some(Fault::WrongType(TypeName::Callable, culprit)))
        }
        BindingCell::Atom(_) => Ok(None),
        BindingCell::Compound(at, _) => {
            let (_name, own) = store.functor(at);
            if own + further > MAX_ARITY {
                return Ok(Some(Fault::Representation(LimitName::MaxArity)));
            }
            Ok(None)
        }
    }
}

/// The goal of a call: with no further arguments the value that is called itself.
fn goal_value(
    region: &mut Region,
    alloc: Global,
    callee: BindingCell,
    further: Arguments,
) -> Result<BindingCell, NoMemory>
    requires callee { IsValueIn region.old.store callee }
    requires room { CanTake region.old.store callee further.count }
    requires further { AreArgumentsIn region.old.store further }
    ensures there { IfOk result (IsValueIn region.new.store) }
    ensures goal { IfOk result (λ goal. meaning region.new.store goal ≡ with_arguments (meaning region.old.store callee) (argument_terms region.old.store further)) }
    ensures made { OnOk result (MakesTerms region.old region.new) }
{
    if further.count == 0 {
        return Ok(callee);
    }
    let term = called_term(alloc, region.store(), callee, further)?;
    let term = Shared::from_term(alloc, term)?;
    region.copy_in(&term)
}

/// What the call of a goal comes to, with so many arguments in all: it has to stand for a body.
fn called(
    region: &mut Region,
    alloc: Global,
    goal: BindingCell,
    arity: u32,
    place: GoalPlace,
) -> Result<AfterGoal, NoMemory>
    requires goal { IsValueIn region.old.store goal }
    requires place { IsGoalPlace region.old place }
    ensures comes { IfOk result (LeavesOutcome region.old region.new (called arity (meaning region.old.store goal) (called_goals (meaning region.old.store goal))) place) }
    ensures text { OnOk result (region.new.text ≡ region.old.text) }
    ensures floor { OnOk result (region.new.store.floor ≡ region.old.store.floor) }
{
    if is_own_body(alloc, region.store(), goal)? {
        let position = call(region, alloc, goal, place)?;
        return Ok(AfterGoal::At(position));
    }
    called_other(region, alloc, goal, arity, place)
}

/// The same of a goal that is not its own body: its body is made.
fn called_other(
    region: &mut Region,
    alloc: Global,
    goal: BindingCell,
    arity: u32,
    place: GoalPlace,
) -> Result<AfterGoal, NoMemory>
    requires goal { IsValueIn region.old.store goal }
    requires place { IsGoalPlace region.old place }
    ensures comes { IfOk result (LeavesOutcome region.old region.new (called arity (meaning region.old.store goal) (called_goals (meaning region.old.store goal))) place) }
    ensures text { OnOk result (region.new.text ≡ region.old.text) }
    ensures floor { OnOk result (region.new.store.floor ≡ region.old.store.floor) }
{
    // The proof reads off that no binding changes the goal again.
    let _next = region.store().next();
    match made_body(alloc, region.store(), goal)? {
        Some(body) => {
            let body = Shared::from_term(alloc, body)?;
            let body = region.copy_in(&body)?;
            let position = call(region, alloc, body, place)?;
            Ok(AfterGoal::At(position))
        }
        None => {
            let culprit = region.store().resolve(goal)?;
            let fault = Fault::WrongType(TypeName::Callable, culprit);
            raise_call(region, alloc, &fault, arity, place)
        }
    }
}

/// Raises the error of a call with so many arguments.
fn raise_call(
    region: &mut Region,
    alloc: Global,
    fault: &Fault,
    arity: u32,
    place: GoalPlace,
) -> Result<AfterGoal, NoMemory>
    requires { IsGoalPlace region.old place }
    ensures comes { IfOk result (LeavesOutcome region.old region.new (raises (error_term_of fault.now) (codes "call") arity) place) }
    ensures text { OnOk result (region.new.text ≡ region.old.text) }
    ensures floor { OnOk result (region.new.store.floor ≡ region.old.store.floor) }
{
    let name = Atom::ascii(alloc, "call")?;
    raise_fault(region, alloc, fault, &name, arity, place)
}
