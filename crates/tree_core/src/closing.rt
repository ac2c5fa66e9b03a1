//! What becomes of what is out, once its private run has come to an end.
ghost use Rattle.std.specs.Prelude.{◌≡◌, ◌≤◌, true, is_some, IsSome, IfOk, OnOk, OnErr};
ghost use Rattle.tree_model.specs.EventViews.{place_view};
ghost use Rattle.tree_model.specs.Legality.{taken_at};
ghost use Rattle.tree_nodes.specs.Rows.{cell_at, credit_view};
ghost use Rattle.tree_nodes.specs.Staying.{StayMade};
ghost use Rattle.tree_closing.specs.Closings.{ComesToRest, HasSleeper};
ghost use Rattle.branch_reading.specs.Readings.{reading};
ghost use Rattle.public_tree.specs.Opening.{opening_body};
ghost use Rattle.public_tree.specs.PublicClosing.{record_credit, closing_event, RunEndsAs, IsBodyGiven};
ghost use Rattle.public_tree.specs.Publishing.{bodies_view, publishing_event, AreWhole, RunReadsAs};
ghost use Rattle.tree_core.specs.Histories.{state_of, while_going};

use crate::brand::JobBrand;
use crate::tree::Tree;
use au_term::{FlatTerm, NoMemory};
use interleaving::laws::trees::handed_out_once;
use public_tree::TaskEnd;
use std::sync::Arc;
use tree_closing::Closing;
use tree_model::AltRef;
use tree_nodes::NodeBody;

impl<J: JobBrand> Tree<J> {
    /// Where an alternative comes to rest that closes after so many inferences, with a record or none.
    pub fn rest_of(
        &self,
        at: AltRef,
        inferences: u64,
        collected: Option<FlatTerm>,
    ) -> Result<Closing, NoMemory>
        requires { IsSome (cell_at self.now.nodes.rows (place_view at)) }
        ensures rests { IfOk result (λ r. ComesToRest self.now.nodes (place_view at) (record_credit inferences collected) (place_view r.end) (credit_view r.credit) r.beside) }
        ensures there { IfOk result (λ r. IsSome (cell_at self.now.nodes.rows (place_view r.end))) }
        ensures sleeper { IfOk result (λ r. HasSleeper r.beside self.now.nodes.rows (place_view r.end)) }
    {
        self.public.rest_of(at, inferences, collected)
    }

    /// A worker closes an alternative that is out to it, whose private run has so ended after so many inferences. What wakes by
    /// that goes on in a node of the given body. Nothing happens where the tree has ended or was stopped.
    pub fn close(
        &mut self,
        worker: u32,
        at: AltRef,
        inferences: u64,
        end: TaskEnd,
        closing: Closing,
        woken: Option<Arc<NodeBody>>,
    ) -> Result<(), NoMemory>
        requires there { IsSome (cell_at self.old.nodes.rows (place_view closing.end)) }
        requires sleeper { HasSleeper closing.beside self.old.nodes.rows (place_view closing.end) }
        requires body { IsBodyGiven closing.beside (opening_body woken) }
        requires out { is_some (taken_at worker (place_view at) (state_of self.old.history)) ≡ true }
        requires ends { RunEndsAs self.old.nodes end closing (opening_body woken) worker (place_view at) inferences (reading self.old.history.job) (state_of self.old.history) }
        ensures closes { OnOk result (self.new.history ≡ while_going (closing_event end worker (place_view at) inferences) self.old.history) }
        ensures err { OnErr result (self.new.history ≡ self.old.history) }
        ensures made { StayMade self.old.nodes.rows self.new.nodes.rows }
    {
        handed_out_once();
        if !self.is_going() {
            return Ok(());
        }
        self.public
            .close(worker, at, inferences, end, closing, woken)
    }

    /// A worker makes nodes of what an alternative that is out to it has left after so many inferences: of these bodies, the
    /// outermost first. Nothing happens where the tree has ended or was stopped.
    pub fn publish(
        &mut self,
        worker: u32,
        at: AltRef,
        inferences: u64,
        bodies: &[Arc<NodeBody>],
    ) -> Result<(), NoMemory>
        requires some { 1 ≤ inferences }
        requires whole { AreWhole (bodies_view bodies.now) }
        requires out { is_some (taken_at worker (place_view at) (state_of self.old.history)) ≡ true }
        requires reads { RunReadsAs self.old.nodes.rows (bodies_view bodies.now) worker (place_view at) inferences (reading self.old.history.job) (state_of self.old.history) }
        ensures publishes { OnOk result (self.new.history ≡ while_going (publishing_event (bodies_view bodies.now) worker (place_view at) inferences) self.old.history) }
        ensures err { OnErr result (self.new.history ≡ self.old.history) }
        ensures made { StayMade self.old.nodes.rows self.new.nodes.rows }
    {
        handed_out_once();
        if !self.is_going() {
            return Ok(());
        }
        self.public.publish(worker, at, inferences, bodies)
    }
}
