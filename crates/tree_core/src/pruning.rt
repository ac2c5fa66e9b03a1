//! Cuts and balls that are taken in a job's tree.
ghost use Rattle.std.specs.Prelude.{◌≡◌, true, is_some, IfOk, OnErr};
ghost use Rattle.std.specs.Arc.{arc_value};
ghost use Rattle.tree_model.specs.EventViews.{place_view};
ghost use Rattle.tree_model.specs.Events.{Prune};
ghost use Rattle.tree_model.specs.Legality.{taken_at};
ghost use Rattle.tree_nodes.specs.Bodies.{IsWhole, body_view};
ghost use Rattle.tree_nodes.specs.Rows.{scope_number};
ghost use Rattle.tree_nodes.specs.Staying.{StayMade};
ghost use Rattle.branch_reading.specs.Readings.{reading};
ghost use Rattle.public_tree.specs.PublicPruning.{CutsAs, LandsAs};
ghost use Rattle.tree_core.specs.Histories.{state_of};
ghost use Rattle.tree_core.specs.Turns.{where_legal, pruning_of};

use crate::brand::JobBrand;
use crate::tree::Tree;
use au_term::NoMemory;
use clause_compile::Scope;
use interleaving::laws::trees::handed_out_once;
use public_tree::Pruning;
use std::sync::Arc;
use tree_model::AltRef;
use tree_nodes::NodeBody;

impl<J: JobBrand> Tree<J> {
    /// A worker takes the cut of an alternative that is out to it, which leaves what the body reads as: everything to its right
    /// below the scope closes, and what was out there is lost. Nothing happens where the alternative is not cleared to the
    /// scope, or where the tree has ended or was stopped.
    pub fn cut(
        &mut self,
        worker: u32,
        at: AltRef,
        scope: Scope,
        body: Arc<NodeBody>,
    ) -> Result<Pruning, NoMemory>
        requires whole { IsWhole (body_view (arc_value body)) }
        requires out { is_some (taken_at worker (place_view at) (state_of self.old.history)) ≡ true }
        requires cuts { CutsAs self.old.nodes.rows (scope_number scope) (body_view (arc_value body)) worker (place_view at) (reading self.old.history.job) (state_of self.old.history) }
        ensures answer { IfOk result (λ p. p ≡ pruning_of (Prune worker (place_view at)) (state_of self.old.history)) }
        ensures cut { IfOk result (λ p. self.new.history ≡ where_legal (Prune worker (place_view at)) self.old.history) }
        ensures err { OnErr result (self.new.history ≡ self.old.history) }
        ensures made { StayMade self.old.nodes.rows self.new.nodes.rows }
    {
        handed_out_once();
        if !self.is_going() {
            return Ok(Pruning::HasEnded);
        }
        self.public.cut(worker, at, scope, body)
    }

    /// A worker lets the ball of an alternative that is out to it fall to its scope, where it leaves what the body reads as:
    /// everything below closes, and what was out there is lost. Nothing happens where the alternative is not cleared to the
    /// scope, or where the tree has ended or was stopped.
    pub fn fall(
        &mut self,
        worker: u32,
        at: AltRef,
        scope: Scope,
        body: Arc<NodeBody>,
    ) -> Result<Pruning, NoMemory>
        requires whole { IsWhole (body_view (arc_value body)) }
        requires out { is_some (taken_at worker (place_view at) (state_of self.old.history)) ≡ true }
        requires lands { LandsAs self.old.nodes.rows (scope_number scope) (body_view (arc_value body)) worker (place_view at) (reading self.old.history.job) (state_of self.old.history) }
        ensures answer { IfOk result (λ p. p ≡ pruning_of (Prune worker (place_view at)) (state_of self.old.history)) }
        ensures fallen { IfOk result (λ p. self.new.history ≡ where_legal (Prune worker (place_view at)) self.old.history) }
        ensures err { OnErr result (self.new.history ≡ self.old.history) }
        ensures made { StayMade self.old.nodes.rows self.new.nodes.rows }
    {
        handed_out_once();
        if !self.is_going() {
            return Ok(Pruning::HasEnded);
        }
        self.public.fall(worker, at, scope, body)
    }
}
