//! The rows of the table.
ghost use Rattle.std.specs.Prelude.{◌≡◌, ◌<◌, ◌≤◌, ◌+◌, List, None, Some, length, map, slice_get, vec_len, IfOk, MatchOption};
ghost use Rattle.std.specs.Arc.{arc_value};
ghost use Rattle.tree_nodes.specs.Bodies.{body_view, kind_view, first_hold};
ghost use Rattle.std.specs.Option.{option_map, option_copied};
ghost use Rattle.tree_model.specs.EventViews.{place_view};
ghost use Rattle.tree_model.specs.Legality.{is_ready};
ghost use Rattle.tree_nodes.specs.Gaps.{IsNextAfter};
ghost use Rattle.tree_nodes.specs.Held.{is_waiting, held_at, held_among, AreHeldAmong};
ghost use Rattle.tree_nodes.specs.Rows.{PendingCell, cell_view, alternatives_at};
ghost use Rattle.tree_nodes.specs.Siblings.{alternative_view};
ghost use Rattle.tree_nodes.specs.Puts.{inner_at};
ghost use Rattle.tree_nodes.specs.RowViews.{row_view, parent_view, branches_at, new_cells, new_row, with_state, IsShortened};

use crate::body::{NodeBody, NodeKind};
use crate::held::Held;
use crate::siblings::{Alternative, Siblings, let_go};
use crate::state::AltState;
use au_term::NoMemory;
use std::alloc::Global;
use std::marker::Model;
use std::sync::Arc;
use tree_model::AltRef;

/// A node: the alternative that it is below, what it was made from, and its alternatives.
#[derive(Drop)]
pub(crate) struct Row {
    pub(crate) parent: Option<AltRef>,
    pub(crate) body: Arc<NodeBody>,
    pub(crate) alternatives: Siblings,
}

fn first_state(kind: &NodeKind, index: usize) -> AltState
    ensures { cell_view result ≡ PendingCell (first_hold (kind_view kind.now) index) }
{
    if index == 1 && kind.guards() {
        AltState::Dormant
    } else {
        AltState::Ready
    }
}

// The alternatives of a new node.
fn first_alternatives(alloc: Global, body: &NodeBody) -> Result<Vec<Alternative>, NoMemory>
    ensures cells { IfOk result (λ v. map alternative_view v.items ≡ new_cells (kind_view body.now.kind) 0 (vec_len body.now.branches)) }
    ensures many { IfOk result (λ v. length (map alternative_view v.items) ≡ vec_len body.now.branches) }
{
    let mut alternatives = Vec::new(alloc);
    for i in 0..body.branches.len() {
        let state = first_state(&body.kind, i);
        alternatives.push(Alternative { state, spent: 0 })?;
    }
    Ok(alternatives)
}

/// The place of a row, which is empty once the node is gone.
#[derive(Drop)]
pub(crate) struct Slot {
    row: Option<Box<Row>>,
}

impl Model for Slot {
    ghost use Rattle.std.specs.Prelude.{Option};
    ghost use Rattle.tree_nodes.specs.Rows.{StoredNode};
    ghost use Rattle.std.specs.Coded.{codes};
    ghost use Rattle.au_term.specs.PrefixOrder.{term_code};
    ghost use Rattle.au_term.specs.contracts.flat.FlatTerm as flat;
    ghost use Rattle.au_term.specs.contracts.shared.Shared as shared;

    ghost Value = { Option StoredNode };

    ghost coded = { Prim.hlevel (codes, term_code, flat.the_row.coded, shared.the_row.coded) };

    ghost use Rattle.tree_nodes.specs.RowViews.{slot_view, IsRowNarrow};

    ghost view = { λ s. slot_view s.row };

    ghost invariant = { λ s. IsRowNarrow (slot_view s.row) };
}

/// What was taken off a row.
pub(crate) enum Shortened {
    /// Its last alternative, below which was this node, or none.
    Alternative(Option<u64>),
    /// All of it, since no alternative was left; the alternative that it was below.
    Row(Option<AltRef>),
    Nothing,
}

impl Slot {
    /// The place of a node that is gone.
    pub(crate) fn gone() -> Slot
        ensures { result ≡ None }
    {
        Slot { row: None }
    }

    /// The row of a new node.
    pub(crate) fn new(
        alloc: Global,
        parent: Option<AltRef>,
        body: Arc<NodeBody>,
    ) -> Result<Slot, NoMemory>
        ensures { IfOk result (λ slot. slot ≡ Some (new_row (parent_view parent) (body_view (arc_value body)))) }
    {
        // An alternative's index has to fit its name.
        if body.branches.len() > u32::MAX as usize {
            return Err(NoMemory);
        }
        let alternatives = first_alternatives(alloc, &body)?;
        let siblings = Siblings::new(alloc, alternatives)?;
        let row = Row {
            parent,
            body,
            alternatives: siblings,
        };
        Ok(Slot {
            row: Some(Box::new(alloc, row)?),
        })
    }

    /// The row, where it is there.
    pub(crate) fn row(&self) -> Option<&Row>
        ensures row { option_map row_view (option_copied result) ≡ self.now }
        ensures branches { length (alternatives_at self.now) ≤ length (branches_at self.now) }
    {
        match &self.row {
            Some(row) => Some(row),
            None => None,
        }
    }

    /// How many alternatives there are.
    pub(crate) fn width(&self) -> u32
        ensures { result ≡ length (alternatives_at self.now) }
    {
        match &self.row {
            Some(row) => row.alternatives.len() as u32,
            None => 0,
        }
    }

    /// The node below an alternative, if there is one.
    pub(crate) fn inner(&self, index: usize) -> Option<u64>
        requires { index < length (alternatives_at self.now) }
        ensures { result ≡ inner_at (slice_get (alternatives_at self.now) index) }
    {
        match &self.row {
            Some(row) => row.alternatives.at(index).inner(),
            None => None,
        }
    }

    /// The inferences spent on an alternative.
    pub(crate) fn spent(&self, index: usize) -> u64
        requires { index < length (alternatives_at self.now) }
        ensures { option_map (λ c. c.0) (slice_get (alternatives_at self.now) index) ≡ Some result }
    {
        match &self.row {
            Some(row) => row.alternatives.at(index).spent,
            None => unreachable!(),
        }
    }

    /// The next alternative that may be open; those between have closed.
    pub(crate) fn after(&self, index: usize) -> u32
        requires { index < length (alternatives_at self.now) }
        ensures next { IsNextAfter (alternatives_at self.now) index result }
        ensures within { result ≤ length (alternatives_at self.now) }
    {
        match &self.row {
            Some(row) => row.alternatives.after(index) as u32,
            None => unreachable!(),
        }
    }

    /// What an alternative counts for.
    pub(crate) fn held_at(&self, index: usize) -> Held
        requires { index < length (alternatives_at self.now) }
        ensures ready { result.ready ≡ held_at is_ready (slice_get (alternatives_at self.now) index) }
        ensures waiting { result.waiting ≡ held_at is_waiting (slice_get (alternatives_at self.now) index) }
    {
        match &self.row {
            Some(row) => Held::of(&row.alternatives.at(index).state),
            None => unreachable!(),
        }
    }

    /// What all alternatives count for.
    pub(crate) fn held(&self) -> Held
        ensures { AreHeldAmong result (alternatives_at self.now) }
    {
        match &self.row {
            Some(row) => row.alternatives.held(),
            None => Held::NONE,
        }
    }

    /// Puts another in place of an alternative.
    pub(crate) fn put(&mut self, index: usize, alternative: Alternative)
        requires { index < length (alternatives_at self.old) }
        ensures { self.new ≡ with_state index (alternative_view alternative) self.old }
    {
        match &mut self.row {
            Some(row) => row.alternatives.put(index, alternative),
            None => let_go(alternative),
        }
    }

    /// Takes off the last alternative, or the row where none is left; and what was taken off counted for.
    pub(crate) fn shorten(&mut self) -> (Shortened, Held)
        ensures shortened { IsShortened self.old self.new result.0 }
        ensures ready { held_among is_ready (alternatives_at self.old) ≡ held_among is_ready (alternatives_at self.new) + result.1.ready }
        ensures waiting { held_among is_waiting (alternatives_at self.old) ≡ held_among is_waiting (alternatives_at self.new) + result.1.waiting }
    {
        let Some(row) = &mut self.row else {
            return (Shortened::Nothing, Held::NONE);
        };
        match row.alternatives.pop() {
            Some(alternative) => {
                let inner = alternative.inner();
                let held = Held::of(&alternative.state);
                let_go(alternative);
                (Shortened::Alternative(inner), held)
            }
            None => {
                let parent = row.parent;
                self.row = None;
                (Shortened::Row(parent), Held::NONE)
            }
        }
    }
}
