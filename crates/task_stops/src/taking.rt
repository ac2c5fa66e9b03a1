//! Balls.
ghost use Rattle.std.specs.Prelude.{◌≡◌, ◌≤◌, [], ◌∷◌, IfOk, map};
ghost use Rattle.au_term.specs.Term.{var_bound};
ghost use Rattle.clause_compile.specs.declared.item.Item.TheVariants.{Goal};
ghost use Rattle.clause_compile.specs.declared.item.Scope.TheVariants.{Node};
ghost use Rattle.run_model.specs.Programs.Bodies.{call_of};
ghost use Rattle.tree_model.specs.EventViews.{place_view};
ghost use Rattle.tree_closing.specs.Sleeping.{right_of};
ghost use Rattle.task_stops.specs.LandingBodies.{node_above};
ghost use Rattle.task_stops.specs.TakenBalls.{TakesBall};

use crate::catches::beside;
use au_model::build::unary;
use au_model::copies::copy_term;
use au_term::{FlatTerm, NoMemory, Segment, Shared, VarNo};
use clause_compile::{Goals, Item, Scope};
use region_capture::bindings_since_floor;
use region_split::Region;
use std::alloc::Global;
use tree_model::AltRef;

/// The places up from what sleeps beside a place.
pub(crate) fn way_beside(
    alloc: Global,
    at: AltRef,
    above: &[AltRef],
) -> Result<Vec<AltRef>, NoMemory>
    ensures { IfOk result (λ way. map place_view way.items ≡ right_of (place_view at) ∷ map place_view above.now) }
{
    let mut way = Vec::new(alloc);
    way.push(beside(at))?;
    for place in above {
        way.push(*place)?;
    }
    Ok(way)
}

/// The bindings by which a catcher takes a copy of a ball, in a region with what is bound at the catch; none where it does not.
pub(crate) fn take_ball(
    region: &mut Region,
    alloc: Global,
    catcher: &Shared,
    ball: &FlatTerm,
) -> Result<Option<Segment>, NoMemory>
    requires none { region.old.choices ≡ [] }
    requires catcher { var_bound catcher.now ≤ region.old.store.now.next }
    ensures { IfOk result (TakesBall region.old.store.now catcher.now ball.now) }
{
    region.set_floor();
    let catcher = region.copy_in(catcher)?;
    let base = region.store().next();
    let (copy, takes) = copy_term(alloc, ball, VarNo::from(base))?;
    let Ok(takes) = u32::try_from(takes) else {
        return Err(NoMemory);
    };
    region.fresh(takes)?;
    let copy = Shared::from_term(alloc, copy)?;
    let copy = region.copy_in(&copy)?;
    if !region.unify(catcher, copy)? {
        return Ok(None);
    }
    let bindings = bindings_since_floor(region.store(), alloc)?;
    Ok(Some(Segment {
        base: u64::from(base),
        vars: u64::from(takes),
        bindings,
    }))
}

/// The call of a recovery, whose cuts stay in it, before what follows the catch.
pub(crate) fn recovery_goals(
    alloc: Global,
    recovery: &Shared,
    above: &[AltRef],
    follows: &Goals,
) -> Result<Goals, NoMemory>
    ensures { IfOk result (λ goals. goals ≡ Goal (call_of recovery.now) (Node (node_above (map place_view above.now))) ∷ follows.now) }
{
    let recovery = recovery.to_term(alloc)?;
    let goal = unary(alloc, "call", &recovery)?;
    let node = match above.first() {
        Some(place) => place.node,
        None => 0,
    };
    let item = Item::Goal {
        term: Shared::from_term(alloc, goal)?,
        cut: Scope::Node(node),
    };
    Ok(follows.push(alloc, item)?)
}
