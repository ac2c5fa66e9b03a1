//! What goals come to, and the balls that they raise (ISO/IEC 13211-1, 7.7 and 7.12).
ghost use Rattle.std.specs.Prelude.{◌≡◌, IfOk, OnOk};
ghost use Rattle.au_model.specs.Terms.ErrorTerms.{error_term};
ghost use Rattle.au_model.specs.Terms.Faults.{error_term_of};
ghost use Rattle.run_model.specs.Goals.Outcomes.{Replies, Ball};
ghost use Rattle.region_control.specs.Controls.{IsGoalPlace};
ghost use Rattle.region_control.specs.Replies.{LeavesOutcome};

use crate::balls::throw;
use crate::control::GoalPlace;
use au_model::Fault;
use au_model::copies::copy_term;
use au_term::{Atom, FlatTerm, NoMemory, VarNo};
use region_split::{Position, Region};
use std::alloc::Global;

/// What goes on after a goal.
#[derive(Drop)]
pub enum AfterGoal {
    /// What is left at a position, over what the choice points have left.
    At(Position),
    /// What the choice points have left.
    Failed,
    /// Nothing: no catch took the ball, whose variables are numbered from 0.
    Uncaught(Box<FlatTerm>),
    /// The goal looks at the world or changes it; nothing has changed.
    AsksWorld,
}

/// Throws a ball in the place of a goal.
pub fn raise(
    region: &mut Region,
    alloc: Global,
    ball: &FlatTerm,
    place: GoalPlace,
) -> Result<AfterGoal, NoMemory>
    requires { IsGoalPlace region.old place }
    ensures comes { IfOk result (LeavesOutcome region.old region.new (Replies (Ball ball.now)) place) }
    ensures text { OnOk result (region.new.text ≡ region.old.text) }
    ensures floor { OnOk result (region.new.store.floor ≡ region.old.store.floor) }
{
    match throw(region, alloc, ball, place.after)? {
        Some(position) => Ok(AfterGoal::At(position)),
        None => {
            let (copy, _takes) = copy_term(alloc, ball, VarNo::from(0u32))?;
            Ok(AfterGoal::Uncaught(Box::new(alloc, copy)?))
        }
    }
}

/// Raises the error of a goal with this name and so many arguments.
pub fn raise_fault(
    region: &mut Region,
    alloc: Global,
    fault: &Fault,
    name: &Atom,
    arity: u32,
    place: GoalPlace,
) -> Result<AfterGoal, NoMemory>
    requires { IsGoalPlace region.old place }
    ensures comes { IfOk result (LeavesOutcome region.old region.new (Replies (Ball (error_term (error_term_of fault.now) name.now arity))) place) }
    ensures text { OnOk result (region.new.text ≡ region.old.text) }
    ensures floor { OnOk result (region.new.store.floor ≡ region.old.store.floor) }
{
    let ball = fault.term(alloc, name, arity)?;
    raise(region, alloc, &ball, place)
}
