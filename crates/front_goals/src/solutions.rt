//! Solutions that go on at the front.
ghost use Rattle.std.specs.Prelude.{◌≡◌, true, is_some, IfOk, OnErr, None};
ghost use Rattle.std.specs.Arc.{arc_value};
ghost use Rattle.region_split.specs.Regions.{IsPositionIn};
ghost use Rattle.region_split.specs.SolutionTrials.{AreSolutionsHere};
ghost use Rattle.tree_model.specs.EventViews.{place_view};
ghost use Rattle.tree_model.specs.Legality.{taken_at};
ghost use Rattle.tree_nodes.specs.Bodies.{body_view};
ghost use Rattle.tree_core.specs.Histories.{state_of};
ghost use Rattle.task_world.specs.FrontSteps.{ComesAbout, IsBarredBy};
ghost use Rattle.front_goals.specs.KeptAtFront.{CanBeKept, IsKeptNow};
ghost use Rattle.front_goals.specs.RepliesNext.{IsBoundThere, SolutionsAreNext};
ghost use Rattle.front_goals.specs.SolutionBranches.{HasBranches};

use crate::branches::solution_branches;
use au_term::{Bindings, NoMemory, Segment, VarNo};
use branch_reading::laws::numbered_trees_are_settled;
use branch_shapes::laws::{branches_read_bound, floor_items_stay, settled_segments_bind};
use clause_compile::Branch;
use region_split::{Position, Region, Solutions, Text};
use std::alloc::Global;
use std::sync::Arc;
use task_region::KeptRegion;
use task_region::branch_laws::kept_regions_stay;
use task_world::{FrontStep, body_behind, close};
use tree_core::{JobBrand, Tree};
use tree_model::AltRef;
use tree_nodes::{NodeBody, NodeKind};

/// The solutions of the goal that is next of an alternative go on at the front, as branches of one node; it closes where the equations of
/// none unify. They are tried in the region of its task, which could go on at a position.
pub(crate) fn solve_at_front<J: JobBrand>(
    tree: &mut Tree<J>,
    worker: u32,
    at: AltRef,
    region: Region,
    numbers: Vec<u64>,
    position: Position,
    solutions: Solutions,
    text: &Arc<Text>,
    alloc: Global,
) -> Result<(FrontStep, Option<KeptRegion>), NoMemory>
    requires may { IsBarredBy tree.old.history (place_view at) None }
    requires out { is_some (taken_at worker (place_view at) (state_of tree.old.history)) ≡ true }
    requires there { AreSolutionsHere region solutions }
    requires next { SolutionsAreNext region solutions worker (place_view at) (state_of tree.old.history) }
    requires bound { IsBoundThere tree.old.nodes region.store.floor worker (place_view at) (state_of tree.old.history) }
    requires position { IsPositionIn region position }
    requires kept { CanBeKept tree.old.nodes.rows (place_view at) (arc_value text.now) numbers.items region }
    ensures comes { IfOk result (λ r. ComesAbout tree.old tree.new worker (place_view at) r.0) }
    ensures kept { IfOk result (λ r. IsKeptNow tree.new.nodes.rows (arc_value text.now) r.1) }
    ensures err { OnErr result (tree.new.history ≡ tree.old.history) }
{
    numbered_trees_are_settled();
    floor_items_stay();
    settled_segments_bind();
    branches_read_bound();
    kept_regions_stay();
    tree.stays_legal();
    tree.keeps_promises();
    let _text = text;
    let mut region = region;
    let next = VarNo::from(region.store().next());
    let behind = body_behind(tree.nodes(), at, alloc)?;
    let follows = &behind.branches[0].goals;
    let branches = solution_branches(&mut region, alloc, solutions, position, at.node, follows)?;
    if branches.is_empty() {
        return Ok((close(tree, worker, at)?, None));
    }
    let body = body_of(alloc, next, branches)?;
    let kept = KeptRegion::of(region, at, numbers)?;
    let answering = tree.go_on_at_front(worker, at, body)?;
    Ok((FrontStep::Done(answering), kept))
}

/// The body of a node with these branches, which takes no variable from a next number on and makes no binding but those of the branches.
fn body_of(alloc: Global, next: VarNo, branches: Vec<Branch>) -> Result<Arc<NodeBody>, NoMemory>
    ensures { IfOk result (λ body. HasBranches next branches.items (body_view (arc_value body))) }
{
    let segment = Segment {
        base: next,
        vars: 0,
        bindings: Bindings::new(alloc),
    };
    let segment = Arc::new(alloc, segment)?;
    let kind = NodeKind::Choice;
    Ok(Arc::new(
        alloc,
        NodeBody {
            segment,
            branches,
            kind,
        },
    )?)
}
