//! An answer that is taken at once, and the same by one event after the other.
use crate::asks::{expect, leftmost, live};
use crate::closings::catch;
use crate::looks::{Look, seen};
use crate::trees::{body, choices, place};
use public_tree::{Answering, PublicTree, RunAnswering};
use std::alloc::Global;
use std::process::Abort;
use std::test::Fail;
use tree_closing::Beside;
use tree_model::AltRef;

/// A choice of two.
fn choice(rt: &impl Abort, alloc: Global, budget: u64) -> Result<PublicTree, Fail> {
    let nodes = choices(rt, alloc, 2, &[])?;
    Ok(PublicTree::new(alloc, nodes, budget, 9)?)
}

/// The first alternative comes after three inferences to an answer over two recoveries.
fn at_once(rt: &impl Abort, tree: &mut PublicTree) -> Result<RunAnswering, Fail> {
    let Some(at) = tree.claim(1)? else {
        return Ok(RunAnswering::HasEnded);
    };
    assert!(rt; tree.is_out(1, at));
    let closing = tree.rest_of_run(at, 3)?;
    assert_eq!(rt; closing.beside, Beside::Same);
    Ok(tree.answer_at_once(1, at, 3, 2, closing, None)?)
}

fn publish(rt: &impl Abort, tree: &mut PublicTree) -> Result<(), Fail> {
    let alloc = tree.nodes().allocator();
    let Some(at) = tree.claim(1)? else {
        return Ok(());
    };
    assert!(rt; tree.is_out(1, at));
    let outer = body(alloc, 0, 2, catch(rt, alloc)?)?;
    let inner = body(alloc, 0, 2, catch(rt, alloc)?)?;
    assert!(rt; outer.is_whole() && inner.is_whole());
    Ok(tree.publish(1, at, 3, &[outer, inner])?)
}

fn answer(rt: &impl Abort, tree: &mut PublicTree) -> Result<Answering, Fail> {
    let Some(at) = tree.claim(1)? else {
        return Ok(Answering::HasEnded);
    };
    assert!(rt; tree.is_out(1, at));
    let closing = tree.rest_of_answer(at)?;
    assert_eq!(rt; closing.beside, Beside::Same);
    Ok(tree.close_at_front(1, at, closing, None)?)
}

/// Four inferences and an answer, and the numbers of two catches that are gone.
fn expect_answered(rt: &impl Abort, tree: &PublicTree) {
    expect(rt, tree.counts(), (1, 4));
    expect(rt, tree.nodes().drawn(), 3);
    expect(rt, live(tree.nodes()), 1);
    expect(rt, seen(tree.nodes(), place(0, 0)), Look::Closed(4));
    expect(rt, spent(rt, tree, place(0, 0)), 3);
    expect(rt, leftmost(tree.nodes()), Some(place(0, 1)));
}

fn spent(rt: &impl Abort, tree: &PublicTree, at: AltRef) -> u64 {
    assert!(rt; tree.nodes().has_alternative(at));
    tree.nodes().spent(at)
}

#[test]
fn answers_at_once(rt: HostRuntime) -> Result<(), Fail> {
    let mut tree = choice(&rt, rt.alloc(), 4)?;
    expect(&rt, at_once(&rt, &mut tree)?, RunAnswering::Taken);
    expect_answered(&rt, &tree);
    Ok(())
}

#[test]
fn answers_by_events(rt: HostRuntime) -> Result<(), Fail> {
    let mut tree = choice(&rt, rt.alloc(), 4)?;
    publish(&rt, &mut tree)?;
    expect(&rt, answer(&rt, &mut tree)?, Answering::Taken);
    expect_answered(&rt, &tree);
    Ok(())
}

/// The budget does not last to the answer: nothing happens.
#[test]
fn answers_over_budget(rt: HostRuntime) -> Result<(), Fail> {
    let mut tree = choice(&rt, rt.alloc(), 3)?;
    expect(&rt, at_once(&rt, &mut tree)?, RunAnswering::OverBudget);
    expect(&rt, tree.nodes().drawn(), 1);
    expect(&rt, tree.counts(), (0, 0));
    Ok(())
}
