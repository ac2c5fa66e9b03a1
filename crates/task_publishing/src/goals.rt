//! Goals of branches, made of items that were taken off a region.
ghost use Rattle.std.specs.Prelude.{◌≡◌, ℕ, ◌<◌, IfOk, length, drop};
ghost use Rattle.region_capture.specs.CapturedItems.{HasItems, captured_item};
ghost use Rattle.task_publishing.specs.KeptScopes.{all_scopes, scope_at};
ghost use Rattle.task_publishing.specs.BranchGoals.{AreTailsOf, AreGoalsOf, branch_item, branch_goals};

use crate::scopes::scope_of;
use au_term::NoMemory;
use clause_compile::{ClauseId, Goals, Item, Scope};
use region_capture::{CapturedItem, CapturedItems};
use std::alloc::Global;

/// What is left of goals from each of them on.
pub(crate) fn tails_of(alloc: Global, goals: &Goals) -> Result<Vec<Goals>, NoMemory>
    ensures { IfOk result (λ tails. AreTailsOf goals.now tails.items) }
{
    let mut tails = Vec::new(alloc);
    let mut left = goals.share()?;
    while left.first().is_some() {
        let rest = left.rest()?;
        tails.push(left)?;
        left = rest;
    }
    tails.push(left)?;
    Ok(tails)
}

fn tail(tails: &[Goals], from: u64) -> Result<Goals, NoMemory>
    ensures { IfOk result (λ goals. (all : _) → AreTailsOf all tails.now → goals ≡ drop from all) }
{
    match tails.get(from as usize) {
        Some(goals) => goals.share(),
        None => Ok(Goals::empty()),
    }
}

/// The goals of each number of items: scopes become those of nodes, and a removal is what is left of the goals that were deferred.
pub(crate) fn goals_by_number(
    alloc: Global,
    items: &CapturedItems,
    branch: &[u64],
    own: &[u64],
    tails: &[Goals],
) -> Result<Vec<Goals>, NoMemory>
    ensures all { IfOk result (λ goals. length goals.items ≡ length items.now) }
    ensures goals { IfOk result (λ goals. (deferred : _) → AreTailsOf deferred tails.now → AreGoalsOf items.now (scope_at (all_scopes branch.now own.now)) deferred goals.items) }
{
    let mut goals = Vec::new(alloc);
    for number in 0..items.numbers() {
        let made = goals_of(alloc, items, number, branch, own, tails, &goals)?;
        goals.push(made)?;
    }
    Ok(goals)
}

// Those of smaller numbers have been made.
fn goals_of(
    alloc: Global,
    items: &CapturedItems,
    number: usize,
    branch: &[u64],
    own: &[u64],
    tails: &[Goals],
    made: &[Goals],
) -> Result<Goals, NoMemory>
    requires within { number < length items.now }
    requires made { length made.now ≡ number }
    ensures { IfOk result (λ goals. (deferred : _) (left : _) → AreTailsOf deferred tails.now → AreGoalsOf items.now (scope_at (all_scopes branch.now own.now)) deferred made.now
        → HasItems items.now number left → goals ≡ branch_goals (scope_at (all_scopes branch.now own.now)) deferred left) }
{
    let Ok(place) = u32::try_from(number) else {
        return Err(NoMemory);
    };
    match items.first(place) {
        None => Ok(Goals::empty()),
        Some((CapturedItem::Removal(from), _)) => tail(tails, *from),
        Some((item, after)) => {
            let made_item = item_of(item, branch, own)?;
            made[after as usize].push(alloc, made_item)
        }
    }
}

fn item_of(item: &CapturedItem, branch: &[u64], own: &[u64]) -> Result<Item, NoMemory>
    ensures { IfOk result (λ made. made ≡ branch_item (scope_at (all_scopes branch.now own.now)) (captured_item item.now)) }
{
    Ok(match item {
        CapturedItem::Goal { term, cut } => Item::Goal {
            term: term.share()?,
            cut: Scope::Node(scope_of(branch, own, *cut as usize)),
        },
        CapturedItem::CatchEnd(over) => {
            Item::CatchEnd(Scope::Node(scope_of(branch, own, *over as usize + 1)))
        }
        CapturedItem::Collect { template, over } => Item::Collect {
            template: template.share()?,
            scope: Scope::Node(scope_of(branch, own, *over as usize + 1)),
        },
        CapturedItem::Removal(number) => Item::Remove(ClauseId(*number)),
    })
}
