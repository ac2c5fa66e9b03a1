//! What all workers see.
ghost use Rattle.std.specs.Prelude.{◌≡◌, ℕ, [], None, Some, false, IfOk, OnOk, OnErr};
ghost use Rattle.std.specs.Bool.{OnTrue};
ghost use Rattle.tree_model.specs.TreeStates.{ended, counts};
ghost use Rattle.tree_model.specs.Events.{Stop};
ghost use Rattle.tree_nodes.specs.Rows.{row_of_node, alternatives_at};
ghost use Rattle.tree_nodes.specs.Siblings.{counts_from};
ghost use Rattle.tree_nodes.specs.Staying.{StayMade};
ghost use Rattle.public_tree.specs.PublicTrees.{Answers, Stops, is_going};

use crate::event_log::EventLog;
use crate::lost::LostTask;
use au_term::NoMemory;
use branch_order::{clock, counts, counts_of, leftmost};
use run_model::RunEnding;
use std::alloc::Global;
use std::marker::Model;
use tree_nodes::Nodes;

/// The nodes of a tree, the tasks that are out and have been pruned, by what status it was halted, and its events.
#[derive(Drop)]
pub struct PublicTree {
    pub(crate) nodes: Nodes,
    pub(crate) lost: Vec<LostTask>,
    pub(crate) halted: Option<u8>,
    pub(crate) budget: u64,
    pub(crate) window: u64,
    pub(crate) log: EventLog,
}

impl Model for PublicTree {
    ghost use Rattle.std.specs.Prelude.{map};
    ghost use Rattle.std.specs.Coded.{codes};
    ghost use Rattle.au_term.specs.PrefixOrder.{term_code};
    ghost use Rattle.au_term.specs.contracts.flat.FlatTerm as flat;
    ghost use Rattle.au_term.specs.contracts.shared.Shared as shared;
    ghost use Rattle.public_tree.specs.PublicTrees.{PublicView};
    ghost use Rattle.public_tree.specs.LostTasks.{task_view};

    ghost Value = { PublicView };

    ghost coded = { Prim.hlevel (codes, term_code, flat.the_row.coded, shared.the_row.coded) };

    ghost view = { λ s. record { nodes = s.nodes; lost = map task_view s.lost.items; halted = s.halted; budget = s.budget; window = s.window; log = s.log } };
}

impl PublicTree {
    /// A tree of these nodes, with nothing lost and no events.
    pub fn new(
        alloc: Global,
        nodes: Nodes,
        budget: u64,
        window: u64,
    ) -> Result<PublicTree, NoMemory>
        ensures nodes { IfOk result (λ p. p.nodes ≡ nodes) }
        ensures lost { IfOk result (λ p. p.lost ≡ []) }
        ensures halted { IfOk result (λ p. p.halted ≡ None) }
        ensures budget { IfOk result (λ p. p.budget ≡ budget) }
        ensures window { IfOk result (λ p. p.window ≡ window) }
        ensures events { IfOk result (λ p. p.log.events ≡ []) }
        ensures stopped { IfOk result (λ p. p.log.stopped ≡ false) }
        ensures promised { IfOk result (λ p. p.log.promised ≡ 0) }
    {
        Ok(PublicTree {
            nodes,
            lost: Vec::new(alloc),
            halted: None,
            budget,
            window,
            log: EventLog::new(alloc)?,
        })
    }

    /// The nodes.
    pub fn nodes(&self) -> &Nodes
        ensures { result.now ≡ self.now.nodes }
    {
        &self.nodes
    }

    /// Whether the tree was stopped.
    pub fn is_stopped(&self) -> bool
        ensures { result ≡ self.now.log.stopped }
    {
        self.log.is_stopped()
    }

    // Neither stopped nor ended.
    pub(crate) fn is_going(&self) -> bool
        ensures going { Answers self.now is_going result }
        ensures room { OnTrue result (self.now.log.stopped ≡ false) }
    {
        !self.is_stopped() && self.ended().is_none()
    }

    /// Stops the tree: no event follows. A tree that has ended or was stopped stays as it is.
    pub fn stop(&mut self, worker: u32)
        ensures stops { Stops self.old self.new worker }
        ensures promised { self.new.log.promised ≡ self.old.log.promised }
        ensures made { StayMade self.old.nodes.rows self.new.nodes.rows }
    {
        if self.is_going() {
            self.log.stop(worker);
        }
    }

    /// How the tree has ended, if it has: it was halted, all has closed, or the leftmost branch has reached the budget.
    pub fn ended(&self) -> Option<RunEnding>
        ensures { Answers self.now ended result }
    {
        if let Some(status) = self.halted {
            return Some(RunEnding::Halted(status));
        }
        let Some(first) = leftmost(&self.nodes) else {
            return Some(RunEnding::Finished);
        };
        if self.budget <= clock(&self.nodes, first) {
            Some(RunEnding::Budget)
        } else {
            None
        }
    }

    /// The answers and inferences of all to the left of the leftmost entry and on its branch, or of all where none is left.
    pub fn counts(&self) -> (u64, u64)
        ensures { Answers self.now counts result }
    {
        match leftmost(&self.nodes) {
            Some(first) => counts(&self.nodes, first),
            None => closed_counts(&self.nodes),
        }
    }
}

fn closed_counts(nodes: &Nodes) -> (u64, u64)
    ensures first { (n : ℕ) → nodes.now.first ≡ Some n → result ≡ counts_from (0, 0) (alternatives_at (row_of_node nodes.now.rows n)) }
    ensures empty { nodes.now.first ≡ None → result ≡ (0, 0) }
{
    match nodes.first() {
        Some(node) => counts_of(nodes, node),
        None => (0, 0),
    }
}
