//! What is handed out to workers, and what they give back.
ghost use Rattle.std.specs.Prelude.{◌≡◌, true, is_some, IfOk, IfSome, OnErr};
ghost use Rattle.std.specs.List.{list_any};
ghost use Rattle.tree_model.specs.EventViews.{place_view};
ghost use Rattle.tree_model.specs.Events.{Claim, Resume, Suspend, Lost};
ghost use Rattle.tree_model.specs.HandOuts.{Never, Away};
ghost use Rattle.tree_model.specs.Legality.{is_task, taken_at, claimable, resumable};
ghost use Rattle.tree_nodes.specs.Rows.{gate_view};
ghost use Rattle.tree_nodes.specs.RowViews.{parent_view};
ghost use Rattle.tree_nodes.specs.Staying.{StayMade};
ghost use Rattle.public_tree.specs.PublicTrees.{IsItsGate, is_frozen_gate};
ghost use Rattle.tree_core.specs.Histories.{state_of, while_going};
ghost use Rattle.tree_core.specs.HandOuts.{offered_at, handing_out, WasHanded, LeavesOther};

use crate::brand::JobBrand;
use crate::tree::Tree;
use au_term::NoMemory;
use clause_compile::GateKind;
use interleaving::laws::trees::handed_out_once;
use public_tree::laws::promises_are_kept;
use tree_model::AltRef;

impl<J: JobBrand> Tree<J> {
    /// Hands the leftmost ready alternative out to a worker, which nobody has had before. None exactly where the tree has ended
    /// or was stopped, where nothing is ready, or where too many nodes are live and something that isn't ready is further left.
    pub fn claim(&mut self, worker: u32) -> Result<Option<AltRef>, NoMemory>
        ensures offered { IfOk result (λ at. parent_view at ≡ offered_at claimable (state_of self.old.history)) }
        ensures noted { IfOk result (λ at. self.new.history ≡ handing_out (Claim worker) (parent_view at) self.old.history) }
        ensures out { IfOk result (λ at. IfSome at (λ a. is_some (taken_at worker (place_view a) (state_of self.new.history)) ≡ true)) }
        ensures once { IfOk result (λ at. WasHanded Never (parent_view at) self.old.history) }
        ensures never_stuck { IfOk result (λ at. LeavesOther resumable (parent_view at) (state_of self.old.history)) }
        ensures err { OnErr result (self.new.history ≡ self.old.history) }
        ensures made { StayMade self.old.nodes.rows self.new.nodes.rows }
    {
        promises_are_kept();
        self.public.claim(worker)
    }

    /// Hands the leftmost alternative that waits and is cleared to its scope out to a worker; whoever had it has given it back.
    /// None exactly where there is none, or the tree has ended or was stopped.
    pub fn resume(&mut self, worker: u32) -> Result<Option<AltRef>, NoMemory>
        ensures offered { IfOk result (λ at. parent_view at ≡ offered_at resumable (state_of self.old.history)) }
        ensures noted { IfOk result (λ at. self.new.history ≡ handing_out (Resume worker) (parent_view at) self.old.history) }
        ensures out { IfOk result (λ at. IfSome at (λ a. is_some (taken_at worker (place_view a) (state_of self.new.history)) ≡ true)) }
        ensures once { IfOk result (λ at. WasHanded Away (parent_view at) self.old.history) }
        ensures never_stuck { IfOk result (λ at. LeavesOther claimable (parent_view at) (state_of self.old.history)) }
        ensures err { OnErr result (self.new.history ≡ self.old.history) }
        ensures made { StayMade self.old.nodes.rows self.new.nodes.rows }
    {
        promises_are_kept();
        self.public.resume(worker)
    }

    /// A worker gives an alternative that is out to it back, to wait for the gate of its next item, or frozen, because its
    /// branch has reached the budget. Nothing happens where the tree has ended or was stopped.
    pub fn suspend(&mut self, worker: u32, at: AltRef, gate: GateKind)
        requires out { is_some (taken_at worker (place_view at) (state_of self.old.history)) ≡ true }
        requires gate { IsItsGate (gate_view gate) worker (place_view at) (state_of self.old.history) }
        ensures suspends { self.new.history ≡ while_going (Suspend worker (place_view at) (is_frozen_gate (gate_view gate))) self.old.history }
        ensures made { StayMade self.old.nodes.rows self.new.nodes.rows }
    {
        handed_out_once();
        if self.is_going() {
            self.public.suspend(worker, at, gate);
        }
    }

    /// Whether an alternative is out to a worker, and was not pruned.
    pub fn is_out(&self, worker: u32, at: AltRef) -> bool
        ensures { result ≡ is_some (taken_at worker (place_view at) (state_of self.now.history)) }
    {
        self.public.is_out(worker, at)
    }

    /// Whether a task is out and has been pruned.
    pub fn is_lost(&self, worker: u32, at: AltRef) -> bool
        ensures { result ≡ list_any (is_task worker (place_view at)) (state_of self.now.history).lost }
    {
        self.public.is_lost(worker, at)
    }

    /// A worker gives back a task that has been pruned. Nothing happens where the tree has ended or was stopped.
    pub fn give_up(&mut self, worker: u32, at: AltRef)
        requires lost { list_any (is_task worker (place_view at)) (state_of self.old.history).lost ≡ true }
        ensures gives_up { self.new.history ≡ while_going (Lost worker (place_view at)) self.old.history }
        ensures made { StayMade self.old.nodes.rows self.new.nodes.rows }
    {
        handed_out_once();
        if self.is_going() {
            self.public.give_up(worker, at);
        }
    }
}
