//! Clauses found by procedure and first key.
use crate::common::expect;
use clause_index::{ClauseIndex, HeadKey, NumberKey};
use std::alloc::Global;
use std::test::Fail;

type Key = Option<NumberKey>;

/// `p(a)`, `q`, `p(X)`, `p(7)` and `p(a)`, where `p` has the number 0, `a` 1 and `q` 2.
static HEADS: [(u32, u32, Key); 5] = [
    (0, 1, Some(NumberKey::Atom(1))),
    (2, 0, None),
    (0, 1, None),
    (0, 1, Some(NumberKey::Int(7))),
    (0, 1, Some(NumberKey::Atom(1))),
];

fn index(alloc: Global) -> Result<ClauseIndex, Fail> {
    let mut heads = Vec::new(alloc);
    for (name, arity, first) in &HEADS {
        heads.push(HeadKey {
            name: *name,
            arity: *arity,
            first: *first,
        })?;
    }
    Ok(ClauseIndex::new(alloc, heads)?)
}

/// The first candidates of a goal.
fn first_four(index: &ClauseIndex, name: u32, arity: u32, key: Key) -> [Option<u32>; 4] {
    let mut left = index.candidates(name, arity, key);
    let first = index.take(&mut left);
    let second = index.take(&mut left);
    let third = index.take(&mut left);
    let fourth = index.take(&mut left);
    [first, second, third, fourth]
}

/// The first argument of a goal, and the candidates of `p`.
const CANDIDATES: [(Key, [Option<u32>; 4]); 3] = [
    (Some(NumberKey::Atom(1)), [Some(0), Some(2), Some(4), None]),
    (None, [Some(0), Some(2), Some(3), Some(4)]),
    (Some(NumberKey::Functor(1, 2)), [Some(2), None, None, None]),
];

#[test]
fn candidates_come_in_the_order_of_the_text(rt: HostRuntime) -> Result<(), Fail> {
    let index = index(rt.alloc())?;
    expect(&rt, index.len(), 5);
    for (key, wanted) in CANDIDATES {
        expect(&rt, first_four(&index, 0, 1, key), wanted);
    }
    for (arity, wanted) in [(0, true), (1, false)] {
        expect(&rt, index.is_defined(2, arity), wanted);
    }
    Ok(())
}

/// So many facts of one procedure, each with its number as the first argument.
fn facts(alloc: Global, count: i64) -> Result<ClauseIndex, Fail> {
    let mut heads = Vec::new(alloc);
    for number in 0..count {
        heads.push(HeadKey {
            name: 0,
            arity: 1,
            first: Some(NumberKey::Int(number)),
        })?;
    }
    Ok(ClauseIndex::new(alloc, heads)?)
}

#[test]
fn one_of_many_facts_is_found(rt: HostRuntime) -> Result<(), Fail> {
    let index = facts(rt.alloc(), 100_000)?;
    let found = first_four(&index, 0, 1, Some(NumberKey::Int(77_777)));
    expect(&rt, found, [Some(77_777), None, None, None]);
    Ok(())
}
