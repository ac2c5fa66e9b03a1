//! What is handed out of a small tree.
use crate::asks::expect;
use crate::trees::{body, choices, close, credit, number, place};
use public_tree::PublicTree;
use run_model::RunEnding;
use std::alloc::Global;
use std::process::Abort;
use std::test::Fail;
use tree_closing::{Beside, Closing};
use tree_model::AltRef;
use tree_nodes::NodeKind;

fn ended(tree: &PublicTree) -> Option<RunEnding> {
    tree.ended()
}

fn counts(tree: &PublicTree) -> (u64, u64) {
    tree.counts()
}

fn claim(tree: &mut PublicTree, worker: u32) -> Result<Option<AltRef>, Fail> {
    Ok(tree.claim(worker)?)
}

fn resume(tree: &mut PublicTree, worker: u32) -> Result<Option<AltRef>, Fail> {
    Ok(tree.resume(worker)?)
}

fn is_stopped_by(tree: &mut PublicTree, worker: u32) -> bool {
    tree.stop(worker);
    tree.is_stopped()
}

fn is_out(tree: &PublicTree) -> bool {
    tree.is_out(1, place(0, 1))
}

fn is_lost(tree: &PublicTree) -> bool {
    tree.is_lost(1, place(0, 1))
}

fn expect_claims(
    rt: &impl Abort,
    tree: &mut PublicTree,
    second: Option<AltRef>,
) -> Result<(), Fail> {
    expect(rt, ended(tree), None);
    expect(rt, claim(tree, 1)?, Some(place(0, 0)));
    expect(rt, claim(tree, 2)?, second);
    expect(rt, resume(tree, 3)?, None);
    expect(rt, is_stopped_by(tree, 1), true);
    expect(rt, claim(tree, 3)?, None);
    Ok(())
}

/// Two of three alternatives are claimed. Where too many nodes are live, only the leftmost entry is handed out; nothing waits;
/// and nothing is handed out once the tree was stopped.
#[test]
fn claims(rt: HostRuntime) -> Result<(), Fail> {
    let alloc = rt.alloc();
    for (window, second) in [(2, Some(place(0, 1))), (1, None)] {
        let nodes = choices(&rt, alloc, 3, &[])?;
        let mut tree = PublicTree::new(alloc, nodes, 9, window)?;
        expect_claims(&rt, &mut tree, second)?;
    }
    Ok(())
}

/// A tree of two alternatives, of which the first has closed after two inferences.
fn half_closed(rt: &impl Abort, alloc: Global, budget: u64) -> Result<PublicTree, Fail> {
    let mut nodes = choices(rt, alloc, 2, &[])?;
    close(rt, &mut nodes, place(0, 0), credit(alloc, 0, 2))?;
    Ok(PublicTree::new(alloc, nodes, budget, 5)?)
}

fn expect_end(rt: &impl Abort, tree: &mut PublicTree, end: Option<RunEnding>) -> Result<(), Fail> {
    expect(rt, ended(tree), end);
    expect(rt, counts(tree), (0, 2));
    expect(rt, is_out(tree), false);
    expect(rt, claim(tree, 1)?.is_none(), end.is_some());
    expect(rt, is_out(tree), end.is_none());
    expect(rt, is_lost(tree), false);
    Ok(())
}

#[test]
fn ends(rt: HostRuntime) -> Result<(), Fail> {
    for (budget, end) in [(2, Some(RunEnding::Budget)), (3, None)] {
        let mut tree = half_closed(&rt, rt.alloc(), budget)?;
        expect_end(&rt, &mut tree, end)?;
    }
    Ok(())
}

fn opened(rt: &impl Abort, alloc: Global) -> Result<PublicTree, Fail> {
    let first = body(alloc, 0, 2, NodeKind::Choice)?;
    assert!(rt; first.is_whole());
    Ok(PublicTree::open(alloc, Some(first), 1, 5)?)
}

#[test]
fn opens(rt: HostRuntime) -> Result<(), Fail> {
    let empty = PublicTree::open(rt.alloc(), None, 1, 5)?;
    expect(&rt, ended(&empty), Some(RunEnding::Finished));
    expect(&rt, counts(&opened(&rt, rt.alloc())?), (0, 0));
    Ok(())
}

/// Where what is out to a worker comes to rest after three inferences, with a record.
fn rest(rt: &impl Abort, alloc: Global, tree: &PublicTree, at: AltRef) -> Result<Closing, Fail> {
    let record = number(rt, alloc, 7)?;
    assert!(rt; tree.is_out(1, at));
    Ok(tree.rest_of(at, 3, Some(record))?)
}

fn records(alloc: Global, closing: &Closing) -> Result<usize, Fail> {
    Ok(closing.credit.records.copied(alloc)?.len())
}

/// It is where it was, with its inferences and its record.
#[test]
fn rests(rt: HostRuntime) -> Result<(), Fail> {
    let alloc = rt.alloc();
    let nodes = choices(&rt, alloc, 2, &[])?;
    let mut tree = PublicTree::new(alloc, nodes, 9, 5)?;
    expect(&rt, claim(&mut tree, 1)?, Some(place(0, 0)));
    let closing = rest(&rt, alloc, &tree, place(0, 0))?;
    expect(
        &rt,
        (closing.end, closing.beside),
        (place(0, 0), Beside::Same),
    );
    expect(&rt, closing.credit.inferences, 3);
    expect(&rt, records(alloc, &closing)?, 1);
    Ok(())
}
