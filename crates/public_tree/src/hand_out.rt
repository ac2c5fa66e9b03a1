//! What is handed out to workers. The gate for which a worker gives something back is its to know: the contract speaks of the
//! trees of which that is the gate.
ghost use Rattle.std.specs.Prelude.{◌≡◌, ◌+◌, ◌<◌, ◌≤◌, None, Some, true, false, length, is_some, IsSome, IfOk, OnErr};
ghost use Rattle.std.specs.Bool.{OnTrue};
ghost use Rattle.std.specs.List.{list_any};
ghost use Rattle.std.specs.Option.{option_map};
ghost use Rattle.tree_model.specs.EventViews.{place_view};
ghost use Rattle.tree_model.specs.Events.{Claim, Resume};
ghost use Rattle.tree_model.specs.Levels.{place_of_spot};
ghost use Rattle.tree_model.specs.Nodes.{TakenBy};
ghost use Rattle.tree_model.specs.TreeStates.{TreeState, leftmost};
ghost use Rattle.tree_model.specs.Legality.{is_task, taken_at, claimable, resumable, is_spot_at};
ghost use Rattle.tree_nodes.specs.Puts.{IsPlaceIn};
ghost use Rattle.tree_nodes.specs.Rows.{cell_at, cell_view, gate_view};
ghost use Rattle.tree_nodes.specs.RowViews.{parent_view};
ghost use Rattle.tree_nodes.specs.Staying.{StayMade};
ghost use Rattle.public_tree.specs.PublicTrees.{promised_out, Answers, IsSameTree, HandsOut, is_going, IsHeldAt, Offers, IsLeftmostAt};
ghost use Rattle.public_tree.specs.PublicTrees.{IsOut, Suspends, GivesUp, is_frozen_gate, is_taken_at, is_taken_cell};

use crate::lost::{index_of, take_out};
use crate::public::PublicTree;
use au_term::NoMemory;
use branch_order::{leftmost, leftmost_cleared, leftmost_ready};
use clause_compile::GateKind;
use tree_model::{AltRef, Event};
use tree_nodes::{AltState, Nodes};

impl PublicTree {
    /// Hands the leftmost ready alternative out to a worker. None where the tree has ended or was stopped, where nothing
    /// is ready, or where too many nodes are live and something that isn't ready is further left.
    pub fn claim(&mut self, worker: u32) -> Result<Option<AltRef>, NoMemory>
        ensures out { IfOk result (λ at. HandsOut (Claim worker) claimable self.old self.new (parent_view at)) }
        ensures promised { IfOk result (λ at. self.new.log.promised ≡ promised_out (parent_view at) self.old.log.promised) }
        ensures err { OnErr result (IsSameTree self.old self.new) }
        ensures kept { OnErr result (self.new.log.promised ≡ self.old.log.promised) }
        ensures made { StayMade self.old.nodes.rows self.new.nodes.rows }
    {
        if !self.is_going() {
            return Ok(None);
        }
        let Some(at) = self.claimable() else {
            return Ok(None);
        };
        self.log.reserve()?;
        self.hold(worker, at);
        self.log.note_out(Event::Claim { worker, at });
        Ok(Some(at))
    }

    /// Hands the leftmost alternative that waits and is cleared to its scope out to a worker. None where there is none, or
    /// the tree has ended or was stopped.
    pub fn resume(&mut self, worker: u32) -> Result<Option<AltRef>, NoMemory>
        ensures out { IfOk result (λ at. HandsOut (Resume worker) resumable self.old self.new (parent_view at)) }
        ensures promised { IfOk result (λ at. self.new.log.promised ≡ promised_out (parent_view at) self.old.log.promised) }
        ensures err { OnErr result (IsSameTree self.old self.new) }
        ensures kept { OnErr result (self.new.log.promised ≡ self.old.log.promised) }
        ensures made { StayMade self.old.nodes.rows self.new.nodes.rows }
    {
        if !self.is_going() {
            return Ok(None);
        }
        let Some(at) = self.resumable() else {
            return Ok(None);
        };
        self.log.reserve()?;
        self.hold(worker, at);
        self.log.note_out(Event::Resume { worker, at });
        Ok(Some(at))
    }

    /// A worker gives an alternative that is out to it back, to wait for the gate of its next item, or frozen, because its
    /// branch has reached the budget. Nothing happens where the tree has ended or was stopped.
    pub fn suspend(&mut self, worker: u32, at: AltRef, gate: GateKind)
        requires there { IsSome (cell_at self.old.nodes.rows (place_view at)) }
        requires out { IsOut self.old worker (place_view at) }
        requires promised { 0 < self.old.log.promised }
        ensures suspends { Suspends self.old self.new worker (place_view at) (gate_view gate) }
        ensures promised { self.old.log.promised ≤ self.new.log.promised + 1 }
        ensures made { StayMade self.old.nodes.rows self.new.nodes.rows }
    {
        if !self.is_going() {
            return;
        }
        let frozen = is_frozen(&gate);
        let spent = self.nodes.spent(at);
        self.nodes.set(at, AltState::Waiting(gate), spent);
        self.log.note_back(Event::Suspend { worker, at, frozen });
    }

    /// Whether an alternative is out to a worker, and was not pruned.
    pub fn is_out(&self, worker: u32, at: AltRef) -> bool
        ensures out { Answers self.now (λ t. is_some (taken_at worker (place_view at) t)) result }
        ensures there { OnTrue result (IsSome (cell_at self.now.nodes.rows (place_view at))) }
    {
        has_taken(&self.nodes, worker, at)
    }

    /// Whether a task is out and has been pruned.
    pub fn is_lost(&self, worker: u32, at: AltRef) -> bool
        ensures { result ≡ list_any (is_task worker (place_view at)) self.now.lost }
    {
        index_of(&self.lost, worker, at).is_some()
    }

    /// A worker gives back a task that has been pruned. Nothing happens where the tree has ended or was stopped.
    pub fn give_up(&mut self, worker: u32, at: AltRef)
        requires lost { list_any (is_task worker (place_view at)) self.old.lost ≡ true }
        requires promised { 0 < self.old.log.promised }
        ensures gives_up { GivesUp self.old self.new worker (place_view at) }
        ensures promised { self.old.log.promised ≤ self.new.log.promised + 1 }
        ensures made { StayMade self.old.nodes.rows self.new.nodes.rows }
    {
        if !self.is_going() {
            return;
        }
        take_out(&mut self.lost, worker, at);
        self.log.note_back(Event::Lost { worker, at });
    }

    fn claimable(&self) -> Option<AltRef>
        ensures offer { Offers claimable self.now (parent_view result) }
        ensures there { IsPlaceIn self.now.nodes.rows (parent_view result) }
    {
        let at = leftmost_ready(&self.nodes)?;
        if self.nodes.live() < self.window || is_leftmost(&self.nodes, at) {
            Some(at)
        } else {
            None
        }
    }

    fn resumable(&self) -> Option<AltRef>
        ensures offer { Offers resumable self.now (parent_view result) }
        ensures there { IsPlaceIn self.now.nodes.rows (parent_view result) }
    {
        leftmost_cleared(&self.nodes)
    }

    // Has a worker hold an entry.
    fn hold(&mut self, worker: u32, at: AltRef)
        requires { IsSome (cell_at self.old.nodes.rows (place_view at)) }
        ensures held { IsHeldAt self.old.nodes self.new.nodes (place_view at) (TakenBy worker) }
        ensures numbers { length self.new.nodes.rows ≡ length self.old.nodes.rows }
        ensures others { self.new ≡ record self.old { nodes = self.new.nodes } }
        ensures made { StayMade self.old.nodes.rows self.new.nodes.rows }
    {
        let spent = self.nodes.spent(at);
        self.nodes.set(at, AltState::Taken(worker), spent);
    }
}

/// Whether an alternative is the leftmost entry.
pub(crate) fn is_leftmost(nodes: &Nodes, at: AltRef) -> bool
    ensures { IsLeftmostAt nodes.now (place_view at) result }
{
    match leftmost(nodes) {
        Some(first) => first.node == at.node && first.alternative == at.alternative,
        None => false,
    }
}

fn has_taken(nodes: &Nodes, worker: u32, at: AltRef) -> bool
    ensures { result ≡ is_taken_at worker (cell_at nodes.now.rows (place_view at)) }
{
    nodes.has_alternative(at) && is_taken(nodes.state(at), worker)
}

fn is_taken(state: &AltState, worker: u32) -> bool
    ensures { result ≡ is_taken_cell worker (cell_view state.now) }
{
    match state {
        AltState::Taken(other) => worker == *other,
        _ => false,
    }
}

fn is_frozen(gate: &GateKind) -> bool
    ensures { result ≡ is_frozen_gate (gate_view gate.now) }
{
    matches!(gate, GateKind::Frozen)
}
