//! Whether an alternative can be loaded, where its branch has one node or two and binds one variable at most: what is asked of a
//! branch that is loaded, told at run time.
ghost use Rattle.std.specs.Prelude.{◌≡◌, ◌++◌, ◌∷◌, [], IsSome, Some, IfOk, true};
ghost use Rattle.std.specs.Bool.{OnTrue};
ghost use Rattle.std.specs.List.{list_all};
ghost use Rattle.tree_model.specs.EventViews.{place_view};
ghost use Rattle.tree_nodes.specs.Bodies.{body_view};
ghost use Rattle.tree_nodes.specs.Rows.{node_parent, row_of_node};
ghost use Rattle.branch_reading.specs.BranchSegments.{bindings_on, segments_on};
ghost use Rattle.branch_reading.specs.SettledWays.{are_bindings_settled, is_item_settled, is_term_below};
ghost use Rattle.task_region.specs.TaskLoads.{CanBeLoaded, HasLoadableBranch};
ghost use Rattle.branch_tests.specs.SettledBranches.{IsBranchSettledAfter};

use au_model::laws::unification::unifier_is_most_general;
use au_term::{Binding, Cell, NoMemory, Segment, Shared, VarNo};
use clause_compile::{Branch, Goals, Item};
use std::alloc::Global;
use tree_model::AltRef;
use tree_nodes::{NodeBody, NodeKind, Nodes};

/// Whether an alternative can be loaded.
#[tactic(auto)]
pub(crate) fn is_loadable(nodes: &Nodes, alloc: Global, at: AltRef) -> Result<bool, NoMemory>
    requires { IsSome (row_of_node nodes.now.rows at.node) }
    ensures { IfOk result (λ can. OnTrue can (HasLoadableBranch nodes.now.rows (place_view at))) }
{
    let body = nodes.body(at.node);
    match nodes.parent(at.node) {
        None => is_query_loadable(alloc, body, at.alternative),
        Some(above) => is_loadable_below(nodes, alloc, at, above),
    }
}

/// Whether it can be loaded, where it is below one of a first node.
#[tactic(auto)]
fn is_loadable_below(
    nodes: &Nodes,
    alloc: Global,
    at: AltRef,
    above: AltRef,
) -> Result<bool, NoMemory>
    requires there { IsSome (row_of_node nodes.now.rows at.node) }
    requires below { node_parent nodes.now.rows at.node ≡ Some (Some (place_view above)) }
    ensures { IfOk result (λ can. OnTrue can (HasLoadableBranch nodes.now.rows (place_view at))) }
{
    if !nodes.has(above.node) {
        return Ok(false);
    }
    match nodes.parent(above.node) {
        Some(_) => Ok(false),
        None => {
            let (body, upper) = (nodes.body(at.node), nodes.body(above.node));
            is_choice_loadable(alloc, body, at.alternative, upper, above.alternative)
        }
    }
}

/// Whether a branch of a query can be loaded.
#[tactic(auto, using(crate::proofs::LoadableLemmas::query_loads))]
fn is_query_loadable(alloc: Global, body: &NodeBody, index: u32) -> Result<bool, NoMemory>
    ensures { IfOk result (λ can. OnTrue can (CanBeLoaded ((body_view body.now, index) ∷ []))) }
{
    let NodeKind::Query = &body.kind else {
        return Ok(false);
    };
    match body.branches.get(index as usize) {
        Some(branch) => is_settled(alloc, &body.segment, branch),
        None => Ok(false),
    }
}

/// Whether a branch of a choice can be loaded, below a branch of a query on which nothing is bound.
#[tactic(auto, using(crate::proofs::LoadableLemmas::choice_loads))]
fn is_choice_loadable(
    alloc: Global,
    body: &NodeBody,
    index: u32,
    upper: &NodeBody,
    above: u32,
) -> Result<bool, NoMemory>
    ensures { IfOk result (λ can. OnTrue can (CanBeLoaded ((body_view body.now, index) ∷ (body_view upper.now, above) ∷ []))) }
{
    let NodeKind::Choice = &body.kind else {
        return Ok(false);
    };
    if !binds_nothing(upper, above) {
        return Ok(false);
    }
    match body.branches.get(index as usize) {
        Some(branch) => is_settled(alloc, &body.segment, branch),
        None => Ok(false),
    }
}

/// Whether nothing is bound on a branch of a query.
#[tactic(auto, using(crate::proofs::LoadableLemmas::query_binds_nothing))]
fn binds_nothing(body: &NodeBody, index: u32) -> bool
    ensures { OnTrue result (bindings_on (segments_on ((body_view body.now, index) ∷ [])) ≡ []) }
{
    let NodeKind::Query = &body.kind else {
        return false;
    };
    match body.branches.get(index as usize) {
        Some(branch) => is_empty(&body.segment) && is_empty(&branch.segment),
        None => false,
    }
}

fn is_empty(segment: &Segment) -> bool
    ensures { OnTrue result (segment.now.bindings ≡ []) }
{
    segment.bindings.as_slice().is_empty()
}

/// Whether a branch is settled after the segment that its node shares.
fn is_settled(alloc: Global, before: &Segment, branch: &Branch) -> Result<bool, NoMemory>
    ensures { IfOk result (λ can. OnTrue can (IsBranchSettledAfter before.now branch.now)) }
{
    let own = &branch.segment;
    let Some(next) = own.base.checked_add(own.vars) else {
        return Ok(false);
    };
    let bound = are_settled(before.bindings.as_slice(), own.bindings.as_slice(), next)?;
    let left = are_items_settled(alloc, &branch.goals, next)?;
    Ok(bound && left)
}

/// Whether bindings one after another are settled, at most one in all.
fn are_settled(first: &[Binding], second: &[Binding], next: VarNo) -> Result<bool, NoMemory>
    ensures { IfOk result (λ are. OnTrue are (are_bindings_settled next (first.now ++ second.now) ≡ true)) }
{
    if first.is_empty() {
        return are_few_settled(second, next);
    }
    if second.is_empty() {
        return are_few_settled(first, next);
    }
    Ok(false)
}

#[tactic(auto, using(crate::proofs::LoadableLemmas::none_settled))]
fn are_few_settled(bindings: &[Binding], next: VarNo) -> Result<bool, NoMemory>
    ensures { IfOk result (λ are. OnTrue are (are_bindings_settled next bindings.now ≡ true)) }
{
    // The proof reads off that nothing has a unifier.
    unifier_is_most_general();
    if bindings.is_empty() {
        return Ok(true);
    }
    if bindings.len() > 1 {
        return Ok(false);
    }
    is_one_settled(&bindings[0], next)
}

/// Whether one binding is settled, by which a variable is a number.
#[tactic(auto, using(crate::proofs::LoadableLemmas::one_settled))]
fn is_one_settled(binding: &Binding, next: VarNo) -> Result<bool, NoMemory>
    ensures { IfOk result (λ is. OnTrue is (are_bindings_settled next (binding.now ∷ []) ≡ true)) }
{
    // The proof reads off that a variable and a number have a unifier.
    unifier_is_most_general();
    match binding.value.top()? {
        Cell::Int(_) => Ok(binding.var < next),
        _ => Ok(false),
    }
}

fn are_items_settled(alloc: Global, goals: &Goals, next: VarNo) -> Result<bool, NoMemory>
    ensures { IfOk result (λ are. OnTrue are (list_all (is_item_settled next) goals.now ≡ true)) }
{
    for item in goals.items() {
        if !is_left_settled(alloc, item, next)? {
            return Ok(false);
        }
    }
    Ok(true)
}

fn is_left_settled(alloc: Global, item: &Item, next: VarNo) -> Result<bool, NoMemory>
    ensures { IfOk result (λ is. OnTrue is (is_item_settled next item.now ≡ true)) }
{
    match item {
        Item::Goal { term, cut: _ } => is_below(alloc, term, next),
        Item::Collect { template, scope: _ } => is_below(alloc, template, next),
        Item::CatchEnd(_) | Item::Remove(_) => Ok(true),
        Item::End(_) => Ok(false),
    }
}

/// Whether the variables of a term are below a number.
fn is_below(alloc: Global, term: &Shared, next: VarNo) -> Result<bool, NoMemory>
    ensures { IfOk result (λ is. OnTrue is (is_term_below next term.now ≡ true)) }
{
    Ok(term.to_term(alloc)?.bound() <= next)
}
