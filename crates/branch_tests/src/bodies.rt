//! What no clause says of bodies for regions that are taken off: that the call succeeds, and what is made.
use crate::captures::{Bound, Kind, only, take_off, top_of};
use crate::common::{Top, expect};
use crate::regions::{fill, region};
use au_term::NoMemory;
use clause_compile::{Branch, Goals, Item, Scope};
use region_split::Region;
use std::alloc::Global;
use std::process::Abort;
use std::sync::Arc;
use std::test::Fail;
use task_publishing::make_bodies;
use tree_nodes::{NodeBody, NodeKind};

/// What a node is for, where it is for a choice point of a region.
pub(crate) fn kind_of(kind: &NodeKind) -> Result<Option<Kind>, NoMemory> {
    Ok(match kind {
        NodeKind::Choice => Some(Kind::Choice),
        NodeKind::Catch { catcher, recovery } => {
            Some(Kind::Catch(top_of(catcher)?, top_of(recovery)?))
        }
        NodeKind::Findall { results, list } => Some(Kind::Findall(top_of(list)?, results.len())),
        _ => None,
    })
}

/// What is bound on a branch, how many variables it takes, and its first goal with the node to which a cut there cuts.
type Shown = (Bound, u64, Option<(Top, u64)>);

const LEADING: Shown = (None, 0, None);

fn shown(branch: &Branch) -> Result<Shown, Fail> {
    let first = match branch.goals.first() {
        Some(
            Item::Goal {
                term,
                cut: Scope::Node(node),
            },
        ) => Some((top_of(term)?, *node)),
        _ => None,
    };
    Ok((only(&branch.segment.bindings)?, branch.segment.vars, first))
}

/// A body has two branches, after such a binding that all have.
fn expect_body(
    rt: &impl Abort,
    body: &NodeBody,
    kind: Kind,
    below: Bound,
    first: Shown,
    second: Shown,
) -> Result<(), Fail> {
    expect(
        rt,
        (kind_of(&body.kind)?, only(&body.segment.bindings)?),
        (Some(kind), below),
    );
    expect(rt, (body.segment.base, body.segment.vars), (3, 0));
    expect(rt, body.branches.len(), 2);
    assert!(rt; body.branches.len() == 2);
    expect(rt, shown(&body.branches[0])?, first);
    expect(rt, shown(&body.branches[1])?, second);
    Ok(())
}

const fn left(value: i64, node: u64) -> Shown {
    (None, 0, Some((Top::Int(value), node)))
}

fn expect_guards(rt: &impl Abort, bodies: &[Arc<NodeBody>]) -> Result<(), Fail> {
    assert!(rt; bodies.len() == 5);
    let findall = Kind::Findall(Top::Int(5), 1);
    expect_body(rt, &bodies[0], findall, None, LEADING, left(11, 0))?;
    let catch = Kind::Catch(Top::Int(3), Top::Int(4));
    expect_body(rt, &bodies[1], catch, None, LEADING, left(12, 1))
}

fn expect_choices(rt: &impl Abort, bodies: &[Arc<NodeBody>]) -> Result<(), Fail> {
    assert!(rt; bodies.len() == 5);
    let (one, two) = (Top::Int(1), Top::Int(2));
    let below = Some((1, Top::Int(7)));
    expect_body(rt, &bodies[2], Kind::Choice, below, LEADING, left(6, 2))?;
    let solution = (Some((2, two)), 0, None);
    expect_body(rt, &bodies[3], Kind::Choice, None, LEADING, solution)?;
    let current = (Some((0, one)), 0, None);
    let clause = (Some((0, two)), 1, Some((Top::Compound(1), 4)));
    expect_body(
        rt,
        &bodies[4],
        Kind::Choice,
        Some((2, one)),
        current,
        clause,
    )
}

fn fill_and_make(rt: &impl Abort, alloc: Global, region: &mut Region) -> Result<(), Fail> {
    let start = fill(rt, alloc, region)?;
    let captured = take_off(rt, alloc, region, start)?;
    let bodies = make_bodies(alloc, captured, &Goals::empty(), 3, &[0], 1)?;
    expect_guards(rt, &bodies)?;
    expect_choices(rt, &bodies)
}

/// Each kind of choice point becomes a node, and cuts are to the nodes of those that are kept.
#[test]
fn each_kind_becomes_a_node(rt: HostRuntime) -> Result<(), Fail> {
    let mut region = region(rt.alloc())?;
    fill_and_make(&rt, rt.alloc(), &mut region)
}
