//! What no clause gives: that a bag is gathered, and in which order.
use crate::trees::{add, add_body, body, close, findall, place, recorded};
use au_term::{Cell, FlatTerm};
use findall_tree::bag_of;
use std::alloc::Global;
use std::process::Abort;
use std::test::Fail;
use tree_model::AltRef;
use tree_nodes::Nodes;

/// The node of a findall, and one of two branches below its goal side.
fn gathering(rt: &impl Abort, alloc: Global) -> Result<Nodes, Fail> {
    let mut nodes = Nodes::new(alloc);
    let kind = findall(rt, alloc, 0)?;
    add_body(rt, &mut nodes, None, body(alloc, 0, 2, kind)?)?;
    add(rt, alloc, &mut nodes, Some(place(0, 0)), 2)?;
    Ok(nodes)
}

/// The records that were collected.
pub(crate) fn records(rt: &impl Abort, nodes: &Nodes) -> Result<Vec<FlatTerm>, Fail> {
    let side = AltRef {
        node: 0,
        alternative: 0,
    };
    assert!(rt; nodes.has_alternative(side) && nodes.is_closed(side));
    Ok(bag_of(nodes, 0)?)
}

/// The numbers that were collected.
fn bag(rt: &impl Abort, nodes: &Nodes) -> Result<Vec<usize>, Fail> {
    let mut numbers = Vec::new(nodes.allocator());
    for record in &records(rt, nodes)? {
        match record.top() {
            Cell::Int(value) if *value >= 0 => numbers.push(*value as usize)?,
            _ => {}
        }
    }
    Ok(numbers)
}

/// The right one of the two branches closes first.
#[test]
fn records_in_order(rt: HostRuntime) -> Result<(), Fail> {
    let alloc = rt.alloc();
    let mut nodes = gathering(&rt, alloc)?;
    for alternative in [1, 0] {
        let record = recorded(&rt, alloc, i64::from(alternative) + 1)?;
        close(&rt, &mut nodes, place(1, alternative), record)?;
    }
    let numbers = bag(&rt, &nodes)?;
    assert!(rt; numbers.len() == 2 && numbers[0] == 1 && numbers[1] == 2);
    Ok(())
}
