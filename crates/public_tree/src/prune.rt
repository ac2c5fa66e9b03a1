//! Cuts and balls that are taken. What each leaves, by the clauses of the job, is the caller's to know: contracts speak of the
//! trees of which that holds.
ghost use Rattle.std.specs.Prelude.{◌≡◌, ◌<◌, true, IsSome, IfOk, OnErr, map};
ghost use Rattle.std.specs.Bool.{OnTrue};
ghost use Rattle.std.specs.Arc.{arc_value};
ghost use Rattle.tree_model.specs.EventViews.{place_view};
ghost use Rattle.tree_nodes.specs.Bodies.{IsWhole, body_view};
ghost use Rattle.tree_nodes.specs.Changes.{IsOpenCell};
ghost use Rattle.tree_nodes.specs.Rows.{cell_at, scope_number};
ghost use Rattle.tree_nodes.specs.Staying.{StayMade};
ghost use Rattle.public_tree.specs.LostTasks.{task_view};
ghost use Rattle.public_tree.specs.PrunedTasks.{FindsTasks};
ghost use Rattle.public_tree.specs.PublicTrees.{IsSameTree, IsOut};
ghost use Rattle.public_tree.specs.PublicPruning.{IsClearedAt, CutsAs, LandsAs, Prunes, promised_after};

use crate::lost::LostTask;
use crate::pruned_tasks::gather;
use crate::public::PublicTree;
use au_term::NoMemory;
use branch_order::cleared;
use clause_compile::Scope;
use prune_ops::{find_landing, land};
use std::sync::Arc;
use tree_model::{AltRef, Event};
use tree_nodes::{NodeBody, Nodes};

/// What has come of a cut or a ball.
#[derive(Clone, Copy, Debug, PartialEq, Eq)]
pub enum Pruning {
    /// It was taken.
    Taken,
    /// To its left, below its scope, something is open.
    NotCleared,
    /// The tree has ended or was stopped.
    HasEnded,
}

impl PublicTree {
    /// A worker takes the cut of an alternative that is out to it: everything to its right below the scope closes, what was
    /// out there is lost, and what the cut leaves is ready below a new node. Nothing happens where the alternative is not
    /// cleared to the scope, or where the tree has ended or was stopped.
    pub fn cut(
        &mut self,
        worker: u32,
        at: AltRef,
        scope: Scope,
        body: Arc<NodeBody>,
    ) -> Result<Pruning, NoMemory>
        requires out { IsOut self.old worker (place_view at) }
        requires whole { IsWhole (body_view (arc_value body)) }
        requires promised { 0 < self.old.log.promised }
        ensures prunes { IfOk result (λ p. Prunes self.old self.new worker (place_view at) (CutsAs self.old.nodes.rows (scope_number scope) (body_view (arc_value body))) p) }
        ensures promised { IfOk result (λ p. self.new.log.promised ≡ promised_after p self.old.log.promised) }
        ensures err { OnErr result (IsSameTree self.old self.new) }
        ensures kept { OnErr result (self.new.log.promised ≡ self.old.log.promised) }
        ensures made { StayMade self.old.nodes.rows self.new.nodes.rows }
    {
        if !self.is_going() {
            return Ok(Pruning::HasEnded);
        }
        if !is_cleared(&self.nodes, at, scope) {
            return Ok(Pruning::NotCleared);
        }
        let lost = self.lost_with(at, scope)?;
        prune_ops::cut(&mut self.nodes, at, scope, body)?;
        self.lost = lost;
        self.log.note_back(Event::Prune { worker, at });
        Ok(Pruning::Taken)
    }

    /// A worker lets the ball of an alternative that is out to it fall to its scope: everything below closes, what was out
    /// there is lost, and what the ball leaves is ready below a new node in place of what slept beside it. Nothing happens
    /// where the alternative is not cleared to the scope, or where the tree has ended or was stopped.
    pub fn fall(
        &mut self,
        worker: u32,
        at: AltRef,
        scope: Scope,
        body: Arc<NodeBody>,
    ) -> Result<Pruning, NoMemory>
        requires out { IsOut self.old worker (place_view at) }
        requires whole { IsWhole (body_view (arc_value body)) }
        requires promised { 0 < self.old.log.promised }
        ensures prunes { IfOk result (λ p. Prunes self.old self.new worker (place_view at) (LandsAs self.old.nodes.rows (scope_number scope) (body_view (arc_value body))) p) }
        ensures promised { IfOk result (λ p. self.new.log.promised ≡ promised_after p self.old.log.promised) }
        ensures err { OnErr result (IsSameTree self.old self.new) }
        ensures kept { OnErr result (self.new.log.promised ≡ self.old.log.promised) }
        ensures made { StayMade self.old.nodes.rows self.new.nodes.rows }
    {
        if !self.is_going() {
            return Ok(Pruning::HasEnded);
        }
        if !is_cleared(&self.nodes, at, scope) {
            return Ok(Pruning::NotCleared);
        }
        // At the scope of a ball something sleeps.
        let Some(landing) = find_landing(&self.nodes, at, scope)? else {
            return Ok(Pruning::NotCleared);
        };
        let lost = self.lost_with(at, scope)?;
        land(&mut self.nodes, landing, body)?;
        self.lost = lost;
        self.log.note_back(Event::Prune { worker, at });
        Ok(Pruning::Taken)
    }

    /// The lost tasks, and those that are pruned with an alternative.
    pub(crate) fn lost_with(&self, at: AltRef, scope: Scope) -> Result<Vec<LostTask>, NoMemory>
        requires { IsSome (cell_at self.now.nodes.rows (place_view at)) }
        ensures { IfOk result (λ lost. FindsTasks self.now.nodes (place_view at) (scope_number scope) self.now.lost (map task_view lost.items)) }
    {
        let mut lost = self.lost.clone()?;
        gather(&self.nodes, at, scope, &mut lost)?;
        Ok(lost)
    }
}

// Whether an alternative has an entry, to the left of which all below a node has closed.
fn is_cleared(nodes: &Nodes, at: AltRef, scope: Scope) -> bool
    ensures open { OnTrue result (IsOpenCell (cell_at nodes.now.rows (place_view at))) }
    ensures cleared { IsClearedAt nodes.now (place_view at) (scope_number scope) result }
{
    nodes.is_pending(at) && cleared(nodes, at, scope).is_ok()
}
