//! Where the next open alternative is.
ghost use Rattle.std.specs.Prelude.{◌≡◌, ◌≤◌, ◌+◌, IfOk};
ghost use Rattle.tree_nodes.specs.Gaps.{right_of_gap_at, left_of_gap_at, IsFlat, IsRightSet, IsLeftSet, Regaps, ShutsGap};

use au_term::NoMemory;
use std::alloc::Global;

/// So many next to an alternative on each side, without a break, have closed.
#[derive(Clone, Copy)]
pub(crate) struct Gap {
    pub(crate) left: usize,
    pub(crate) right: usize,
}

/// The gaps beside so many alternatives, of which nothing is known.
pub(crate) fn no_gaps(alloc: Global, many: usize) -> Result<Vec<Gap>, NoMemory>
    ensures { IfOk result (λ gaps. IsFlat gaps.items) }
{
    let mut gaps = Vec::new(alloc);
    for _i in 0..many {
        gaps.push(Gap { left: 0, right: 0 })?;
    }
    Ok(gaps)
}

// Joins the gaps on both sides of an alternative that has closed, for those at their ends.
fn shut_gap(gaps: &mut Vec<Gap>, index: usize)
    ensures { ShutsGap gaps.old.items gaps.new.items index }
{
    let left = left_gap(gaps, index);
    let right = right_gap(gaps, index);
    if right >= gaps.len() || index >= gaps.len() {
        return;
    }
    let many = left.saturating_add(right).saturating_add(1);
    join_left(gaps, index, left, many);
    set_left(gaps, index + 1 + right, many);
}

fn join_left(gaps: &mut Vec<Gap>, index: usize, left: usize, many: usize)
    requires left { left ≡ left_of_gap_at gaps.old.items index }
    requires many { many ≤ (left + right_of_gap_at gaps.old.items index) + 1 }
    ensures { ShutsGap gaps.old.items gaps.new.items index }
{
    if left >= index {
        return;
    }
    set_right(gaps, index - 1 - left, many);
}

/// Joins the gaps where an alternative has closed; forgets all where one that had closed has opened.
pub(crate) fn regap(gaps: &mut Vec<Gap>, index: usize, was: bool, now: bool)
    ensures { Regaps gaps.old.items gaps.new.items index was now }
{
    match (was, now) {
        (false, true) => shut_gap(gaps, index),
        (true, false) => gaps.clear(),
        (true, true) => {}
        (false, false) => {}
    }
}

/// So many to the right of an alternative, without a break, are known to have closed.
pub(crate) fn right_gap(gaps: &[Gap], index: usize) -> usize
    ensures { result ≡ right_of_gap_at gaps.now index }
{
    match gaps.get(index) {
        Some(gap) => gap.right,
        None => 0,
    }
}

fn left_gap(gaps: &[Gap], index: usize) -> usize
    ensures { result ≡ left_of_gap_at gaps.now index }
{
    match gaps.get(index) {
        Some(gap) => gap.left,
        None => 0,
    }
}

fn set_right(gaps: &mut Vec<Gap>, at: usize, right: usize)
    ensures { IsRightSet gaps.old.items gaps.new.items at right }
{
    if at < gaps.len() {
        let left = gaps[at].left;
        gaps[at] = Gap { left, right };
    }
}

fn set_left(gaps: &mut Vec<Gap>, at: usize, left: usize)
    ensures { IsLeftSet gaps.old.items gaps.new.items at left }
{
    if at < gaps.len() {
        let right = gaps[at].right;
        gaps[at] = Gap { left, right };
    }
}
