//! What is deferred and comes next.
ghost use Rattle.std.specs.Prelude.{◌≤◌, ◌∷◌, IfOk, length, map};
ghost use Rattle.au_model.specs.Terms.Each.{Each};
ghost use Rattle.au_term.specs.Term.{var_bound};
ghost use Rattle.task_region.specs.DeferredItems.{FindsGoals, item_of, IsDeferredOver, SkipsMarks};
ghost use Rattle.task_region.specs.GoalLoads.{LeavesItems, LoadsGoals, rest_items, TakesUpDeferred};

use crate::deferred::DeferredItem;
use au_term::{NoMemory, Shared};
use region_control::GoalPlace;
use region_split::{FrameItem, Position, Region};
use std::alloc::Global;

/// How many goals are loaded at most with the one that comes next.
const MORE_GOALS: usize = 7;

/// What comes next of what is deferred, past the ends of catches.
#[derive(Clone, Copy, Debug)]
pub enum AfterDeferred {
    /// This goal, which was loaded, perhaps with those that follow it.
    Goal(FrameItem, GoalPlace),
    /// Nothing is deferred from this number on: all that was left to do is done.
    Answer(u64),
    /// A result for a findall of the branch, which is deferred under this number.
    Result(u64),
    /// The removal of a clause, which is deferred under this number.
    Removal { number: u64, clause: u64 },
}

/// Takes up what is deferred from a number on, where that comes next.
pub fn take_deferred(
    region: &mut Region,
    alloc: Global,
    deferred: &[DeferredItem],
    number: u64,
) -> Result<AfterDeferred, NoMemory>
    requires scoped { Each (IsDeferredOver region.old.store.now.next (length region.old.choices)) (map item_of deferred.now) }
    ensures takes { IfOk result (TakesUpDeferred region.old region.new (map item_of deferred.now) number) }
{
    let number = past_marks(deferred, number);
    let Some(item) = deferred.get(number as usize) else {
        return Ok(AfterDeferred::Answer(number));
    };
    match item {
        DeferredItem::Goal { term, cut } => {
            let (more, rest) = goals_from(alloc, deferred, number + 1, *cut)?;
            let (goal, place) = load_goals(region, term, &more, *cut, rest)?;
            Ok(AfterDeferred::Goal(goal, place))
        }
        DeferredItem::CatchEnd(_) => unreachable!(),
        DeferredItem::Collect {
            template: _,
            over: _,
        } => Ok(AfterDeferred::Result(number)),
        DeferredItem::Removal(clause) => {
            let clause = *clause;
            Ok(AfterDeferred::Removal { number, clause })
        }
    }
}

/// The first number from this one on under which no end of a catch is deferred.
fn past_marks(deferred: &[DeferredItem], number: u64) -> u64
    ensures { SkipsMarks (map item_of deferred.now) number result }
{
    let mut at = number;
    loop {
        let Some(item) = deferred.get(at as usize) else {
            return at;
        };
        let DeferredItem::CatchEnd(_) = item else {
            return at;
        };
        at += 1;
    }
}

/// The goals that are deferred from a number on in one scope, as many as are loaded with the one before them, and the
/// number after them.
fn goals_from(
    alloc: Global,
    deferred: &[DeferredItem],
    number: u64,
    cut: u32,
) -> Result<(Vec<Shared>, u64), NoMemory>
    ensures { IfOk result (λ found. FindsGoals (map item_of deferred.now) cut number found.0.items found.1) }
{
    let mut goals = Vec::new(alloc);
    let mut at = number;
    while goals.len() < MORE_GOALS {
        let Some(DeferredItem::Goal { term, cut: scope }) = deferred.get(at as usize) else {
            break;
        };
        if *scope != cut {
            break;
        }
        goals.push(term.share()?)?;
        at += 1;
    }
    Ok((goals, at))
}

/// Leaves what is deferred from a number on, and nothing else.
pub(crate) fn leave_rest(region: &mut Region, number: u64) -> Result<Position, NoMemory>
    ensures leaves { IfOk result (LeavesItems region.old region.new (rest_items number)) }
{
    let scope = region.scope()?;
    let nothing = region.nothing_left();
    region.push_item(FrameItem::Removal(number), scope, nothing)
}

/// Copies goals of one scope in, and gives the first with its place, before the others and what is deferred from a number on.
fn load_goals(
    region: &mut Region,
    goal: &Shared,
    more: &[Shared],
    cut: u32,
    number: u64,
) -> Result<(FrameItem, GoalPlace), NoMemory>
    requires goal { var_bound goal.now ≤ region.old.store.now.next }
    requires more { Each (λ t. var_bound t ≤ region.old.store.now.next) more.now }
    requires cut { cut ≤ length region.old.choices }
    ensures loads { IfOk result (λ l. LoadsGoals region.old region.new (goal.now ∷ more.now) cut number l.0 l.1) }
{
    let nothing = region.nothing_left();
    let rest = region.push_item(FrameItem::Removal(number), cut, nothing)?;
    let after = region.push_goals(more, cut, rest)?;
    let value = region.copy_in(goal)?;
    Ok((FrameItem::Goal(value), GoalPlace { cut, after }))
}
