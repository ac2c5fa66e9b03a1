//! Equations that are solved one after another, whatever waits behind them.
ghost use Rattle.std.specs.Prelude.{◌≡◌, ◌<◌, ◌-◌, ◌^◌, ◌∷◌, IfOk, OnOk, reverse};
ghost use Rattle.cell_store.specs.Arguments.{with_waiting};
ghost use Rattle.cell_store.specs.FreshVariables.{AreOlder, AreYoung};
ghost use Rattle.cell_store.specs.StoreView.{text_in};
ghost use Rattle.cell_store.specs.UnificationSteps.{AllEquations, IsSolved, KeepsRestEquations, OnlyBinds, equations_left};

use crate::arguments::{Equations, rest};
use crate::store::Store;
use crate::unify::{Outcome, arguments_go};
use au_term::NoMemory;

/// Makes both sides of equations one by further bindings, or answers that none do: of these first, and then of those that wait
/// in the list, the top one first. What is fresh is as for two values.
pub(crate) fn solve(
    first: Equations,
    fresh: Option<u32>,
    store: &mut Store,
    pending: &mut Vec<Equations>,
) -> Result<bool, NoMemory>
    requires there { AllEquations (text_in store.old) store.old.now.next (first ∷ reverse pending.old.items) }
    requires older { AreOlder fresh (equations_left store.old (first ∷ reverse pending.old.items)) }
    requires young { AreYoung store.old fresh }
    ensures solved { IfOk result (IsSolved (first ∷ reverse pending.old.items) store.old store.new) }
    ensures kept { OnlyBinds store.old store.new }
{
    let mut fresh = fresh;
    let mut open = first;
    loop {
        match arguments_go(open.left, open.right, &mut fresh, store)? {
            Outcome::Clash => return Ok(false),
            Outcome::Solved => match next_equations(open, pending) {
                Some(next) => open = next,
                None => return Ok(true),
            },
            Outcome::Inside(inner) => {
                push_rest(open, pending)?;
                open = inner;
            }
        }
    }
}

/// The equations that are next, once the first of these is solved.
#[inline(always)]
fn next_equations(equations: Equations, pending: &mut Vec<Equations>) -> Option<Equations>
    requires some { (0 < equations.left.count) × (0 < equations.right.count) }
    requires short { (equations.left.at < 2 ^ 32 - 1) × (equations.right.at < 2 ^ 32 - 1) }
    ensures { KeepsRestEquations equations (reverse pending.old.items) (with_waiting result (reverse pending.new.items)) }
{
    if equations.left.count == 1 {
        return pending.pop();
    }
    Some(rest(equations))
}

/// Puts equations but for the first on top.
#[inline(always)]
fn push_rest(equations: Equations, pending: &mut Vec<Equations>) -> Result<(), NoMemory>
    requires some { (0 < equations.left.count) × (0 < equations.right.count) }
    requires short { (equations.left.at < 2 ^ 32 - 1) × (equations.right.at < 2 ^ 32 - 1) }
    ensures { OnOk result (KeepsRestEquations equations (reverse pending.old.items) (reverse pending.new.items)) }
{
    if equations.left.count > 1 {
        pending.push(rest(equations))?;
    }
    Ok(())
}
