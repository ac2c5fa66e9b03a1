//! Trees for tests.
use au_term::{Bindings, Cell, FlatTerm, NoMemory, Segment, Shared, TermBuilder};
use clause_compile::{Branch, Goals};
use std::alloc::Global;
use std::process::Abort;
use std::sync::Arc;
use std::test::Fail;
use tree_model::AltRef;
use tree_nodes::{Credit, NodeBody, NodeKind, Nodes, Records};

fn segment(alloc: Global, base: u64) -> Segment {
    Segment {
        base,
        vars: 0,
        bindings: Bindings::new(alloc),
    }
}

/// The body of a node whose segment begins at a number, and its branches at those that follow.
pub(crate) fn body(
    alloc: Global,
    base: u64,
    branches: usize,
    kind: NodeKind,
) -> Result<Arc<NodeBody>, NoMemory> {
    let mut all = Vec::new(alloc);
    for i in 0..branches {
        let base = base.wrapping_add(i as u64).wrapping_add(1);
        all.push(Branch {
            goals: Goals::empty(),
            segment: segment(alloc, base),
        })?;
    }
    let body = NodeBody {
        segment: Arc::new(alloc, segment(alloc, base))?,
        branches: all,
        kind,
    };
    Ok(Arc::new(alloc, body)?)
}

pub(crate) fn place(node: u64, alternative: u32) -> AltRef {
    AltRef { node, alternative }
}

/// Adds a node below a pending alternative, or the first node.
pub(crate) fn add_body(
    rt: &impl Abort,
    nodes: &mut Nodes,
    parent: Option<AltRef>,
    body: Arc<NodeBody>,
) -> Result<u64, Fail> {
    assert!(rt; body.is_whole());
    match parent {
        Some(at) => assert!(rt; nodes.is_pending(at)),
        None => assert_eq!(rt; nodes.live(), 0),
    }
    Ok(nodes.add(parent, body)?)
}

/// Adds a choice of so many branches.
pub(crate) fn add(
    rt: &impl Abort,
    alloc: Global,
    nodes: &mut Nodes,
    parent: Option<AltRef>,
    branches: usize,
) -> Result<u64, Fail> {
    add_body(
        rt,
        nodes,
        parent,
        body(alloc, 0, branches, NodeKind::Choice)?,
    )
}

/// A first node, and choices below alternatives of what is there: each by its node and place, with how many branches.
pub(crate) fn choices(
    rt: &impl Abort,
    alloc: Global,
    first: usize,
    others: &[(u64, u32, usize)],
) -> Result<Nodes, Fail> {
    let mut nodes = Nodes::new(alloc);
    add(rt, alloc, &mut nodes, None, first)?;
    for (node, alternative, branches) in others {
        let at = place(*node, *alternative);
        add(rt, alloc, &mut nodes, Some(at), *branches)?;
    }
    Ok(nodes)
}

pub(crate) fn close(
    rt: &impl Abort,
    nodes: &mut Nodes,
    at: AltRef,
    credit: Credit,
) -> Result<(), Fail> {
    assert!(rt; nodes.has_alternative(at));
    nodes.close(at, credit)?;
    Ok(())
}

pub(crate) fn credit(alloc: Global, answers: u64, inferences: u64) -> Credit {
    Credit {
        inferences,
        answers,
        records: Records::new(alloc),
    }
}

/// A number as a term.
pub(crate) fn number(rt: &impl Abort, alloc: Global, value: i64) -> Result<FlatTerm, Fail> {
    let mut builder = TermBuilder::new(alloc);
    builder.push(Cell::Int(value))?;
    assert_eq!(rt; builder.missing(), 0);
    Ok(builder.finish())
}

/// A number that terms share.
pub(crate) fn shared(rt: &impl Abort, alloc: Global, value: i64) -> Result<Shared, Fail> {
    Ok(Shared::from_term(alloc, number(rt, alloc, value)?)?)
}

/// A findall whose list is a number.
pub(crate) fn findall(rt: &impl Abort, alloc: Global, list: i64) -> Result<NodeKind, Fail> {
    Ok(NodeKind::Findall {
        results: Vec::new(alloc),
        list: shared(rt, alloc, list)?,
    })
}

/// What an alternative has left that has collected a number.
pub(crate) fn recorded(rt: &impl Abort, alloc: Global, value: i64) -> Result<Credit, Fail> {
    let mut records = Vec::new(alloc);
    records.push(number(rt, alloc, value)?)?;
    Ok(Credit {
        inferences: 1,
        answers: 0,
        records: Records::of(alloc, records)?,
    })
}
