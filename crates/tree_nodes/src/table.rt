//! The rows by their numbers.
ghost use Rattle.std.specs.Prelude.{◌≡◌, ◌++◌, ◌∷◌, ◌≤◌, [], length, take, IsSome, Some, OnOk, OnErr};
ghost use Rattle.std.specs.Bool.{OnFalse};
ghost use Rattle.std.specs.Option.{option_map, option_copied};
ghost use Rattle.tree_model.specs.EventViews.{place_view};
ghost use Rattle.tree_model.specs.Legality.{is_ready};
ghost use Rattle.tree_nodes.specs.Rows.{cell_at, row_of_node, alternatives_at};
ghost use Rattle.tree_nodes.specs.RowViews.{row_view, branches_at};
ghost use Rattle.tree_nodes.specs.Siblings.{alternative_view};
ghost use Rattle.tree_nodes.specs.Changes.{AreGone};
ghost use Rattle.tree_nodes.specs.Drops.{IsShortenedAt};
ghost use Rattle.tree_nodes.specs.Gaps.{IsNextAfter};
ghost use Rattle.tree_nodes.specs.Held.{is_waiting, HasNone};
ghost use Rattle.tree_nodes.specs.Puts.{IsReplaced};
ghost use Rattle.tree_nodes.specs.Skipping.{no_rows};

use crate::held::Held;
use crate::row::{Row, Shortened, Slot};
use crate::siblings::Alternative;
use au_term::NoMemory;
use std::alloc::Global;
use std::marker::Model;
use tree_model::AltRef;

/// The rows by their numbers, and how many of their alternatives are ready and wait. Contracts see the rows.
#[derive(Drop)]
pub(crate) struct Table {
    slots: Vec<Slot>,
    held: Held,
}

impl Model for Table {
    ghost use Rattle.std.specs.Prelude.{List, Option};
    ghost use Rattle.tree_nodes.specs.Rows.{Rows};
    ghost use Rattle.std.specs.Coded.{codes};
    ghost use Rattle.au_term.specs.PrefixOrder.{term_code};
    ghost use Rattle.au_term.specs.contracts.flat.FlatTerm as flat;
    ghost use Rattle.au_term.specs.contracts.shared.Shared as shared;

    ghost Value = { Rows };

    ghost coded = { Prim.hlevel (codes, term_code, flat.the_row.coded, shared.the_row.coded) };

    ghost use Rattle.tree_nodes.specs.Held.{AreHeldIn};

    ghost view = { λ t. t.slots.items };

    ghost invariant = { λ t. AreHeldIn t.held t.slots.items };
}

impl Table {
    /// No rows.
    pub(crate) fn new(alloc: Global) -> Table
        ensures { result ≡ [] }
    {
        Table {
            slots: Vec::new(alloc),
            held: Held::NONE,
        }
    }

    /// How many numbers were drawn.
    pub(crate) fn len(&self) -> usize
        ensures { result ≡ length self.now }
    {
        self.slots.len()
    }

    /// The row of a node, where it is there.
    pub(crate) fn row(&self, node: u64) -> Option<&Row>
        ensures row { option_map row_view (option_copied result) ≡ row_of_node self.now node }
        ensures branches { length (alternatives_at (row_of_node self.now node)) ≤ length (branches_at (row_of_node self.now node)) }
    {
        match self.slots.get(node as usize) {
            Some(slot) => slot.row(),
            None => None,
        }
    }

    /// How many alternatives a node has.
    pub(crate) fn width(&self, node: u64) -> u32
        ensures { result ≡ length (alternatives_at (row_of_node self.now node)) }
    {
        match self.slots.get(node as usize) {
            Some(slot) => slot.width(),
            None => 0,
        }
    }

    /// The inferences spent on an alternative.
    pub(crate) fn spent(&self, at: AltRef) -> u64
        requires { IsSome (cell_at self.now (place_view at)) }
        ensures { option_map (λ c. c.0) (cell_at self.now (place_view at)) ≡ Some result }
    {
        self.slots[at.node as usize].spent(at.alternative as usize)
    }

    /// The next alternative that may be open; those between have closed.
    pub(crate) fn after(&self, at: AltRef) -> u32
        requires { IsSome (cell_at self.now (place_view at)) }
        ensures next { IsNextAfter (alternatives_at (row_of_node self.now at.node)) at.alternative result }
        ensures within { result ≤ length (alternatives_at (row_of_node self.now at.node)) }
    {
        self.slots[at.node as usize].after(at.alternative as usize)
    }

    /// Whether an alternative may be ready.
    pub(crate) fn may_have_ready(&self) -> bool
        ensures { OnFalse result (HasNone is_ready self.now) }
    {
        self.held.ready != 0
    }

    /// Whether an alternative may wait.
    pub(crate) fn may_have_waiting(&self) -> bool
        ensures { OnFalse result (HasNone is_waiting self.now) }
    {
        self.held.waiting != 0
    }

    /// Appends a row.
    pub(crate) fn push(&mut self, slot: Slot) -> Result<(), NoMemory>
        ensures ok { OnOk result (self.new ≡ self.old ++ slot ∷ []) }
        ensures err { OnErr result (self.new ≡ self.old) }
    {
        let held = slot.held();
        self.slots.push(slot)?;
        self.held = self.held.with(held);
        Ok(())
    }

    /// Appends so many rows of nodes that are gone.
    pub(crate) fn skip(&mut self, count: usize) -> Result<(), NoMemory>
        ensures ok { OnOk result (self.new ≡ self.old ++ no_rows count) }
        ensures err { OnErr result (self.new ≡ self.old) }
    {
        push_gone(&mut self.slots, count)
    }

    /// Puts another in place of an alternative, and names the node that was below it.
    pub(crate) fn replace(&mut self, at: AltRef, alternative: Alternative) -> Option<u64>
        requires there { IsSome (cell_at self.old (place_view at)) }
        ensures { IsReplaced self.old self.new (place_view at) (alternative_view alternative) result }
    {
        let slot = &mut self.slots[at.node as usize];
        let index = at.alternative as usize;
        let below = slot.inner(index);
        let before = slot.held_at(index);
        let now = Held::of(&alternative.state);
        slot.put(index, alternative);
        self.held = self.held.without(before).with(now);
        below
    }

    /// Takes off the last alternative of a node, or the node where none is left.
    pub(crate) fn shorten(&mut self, at: u64) -> Shortened
        ensures { IsShortenedAt self.old self.new at result }
    {
        let index = at as usize;
        if index >= self.slots.len() {
            return Shortened::Nothing;
        }
        let slot = &mut self.slots[index];
        let (shortened, held) = slot.shorten();
        self.held = self.held.without(held);
        shortened
    }

    /// Forgets the rows from a number on, all of which are empty.
    pub(crate) fn truncate(&mut self, next: u64)
        requires { AreGone self.old next }
        ensures { self.new ≡ take next self.old }
    {
        self.slots.truncate(next as usize);
    }
}

fn push_gone(slots: &mut Vec<Slot>, count: usize) -> Result<(), NoMemory>
    ensures ok { OnOk result (slots.new.items ≡ slots.old.items ++ no_rows count) }
    ensures err { OnErr result (slots.new.items ≡ slots.old.items) }
{
    slots.try_reserve(count)?;
    for _i in 0..count {
        slots.push_reserved(Slot::gone());
    }
    Ok(())
}
