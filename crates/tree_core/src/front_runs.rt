//! Private runs that end in an answer at the front of a job's tree, with nothing else left but recoveries: they are made public,
//! and their answers taken, at once. To what a run comes is the caller's to know.
ghost use Rattle.std.specs.Prelude.{◌≡◌, ◌≤◌, true, is_some, IsSome, IfOk, OnErr};
ghost use Rattle.tree_model.specs.EventViews.{place_view};
ghost use Rattle.tree_model.specs.Legality.{taken_at};
ghost use Rattle.tree_nodes.specs.Rows.{cell_at, credit_view};
ghost use Rattle.tree_nodes.specs.Staying.{StayMade};
ghost use Rattle.tree_closing.specs.Closings.{ComesToRest, HasSleeper};
ghost use Rattle.branch_reading.specs.Readings.{reading};
ghost use Rattle.public_tree.specs.Opening.{opening_body};
ghost use Rattle.public_tree.specs.PublicClosing.{IsBodyGiven};
ghost use Rattle.public_tree.specs.AnsweringAtOnce.{run_credit, run_events, run_answering, RunAnswersAs};
ghost use Rattle.tree_core.specs.Histories.{state_of};
ghost use Rattle.tree_core.specs.Turns.{where_taken};

use crate::brand::JobBrand;
use crate::tree::Tree;
use answered_runs::laws::one_shape_fits;
use au_term::NoMemory;
use interleaving::laws::trees::{events_keep_trees, handed_out_once};
use public_tree::RunAnswering;
use std::sync::Arc;
use tree_closing::Closing;
use tree_model::AltRef;
use tree_nodes::NodeBody;

impl<J: JobBrand> Tree<J> {
    /// Whether a private run of so many inferences that ends in an answer may be made public, and its answer taken, at once; or what
    /// keeps it from that.
    pub fn run_answering(&self, at: AltRef, inferences: u64) -> RunAnswering
        ensures { result ≡ run_answering (place_view at) inferences (state_of self.now.history) }
    {
        self.public.run_answering(at, inferences)
    }

    /// Where an alternative comes to rest that closes with a run of so many inferences and its answer.
    pub fn rest_of_run(&self, at: AltRef, inferences: u64) -> Result<Closing, NoMemory>
        requires { IsSome (cell_at self.now.nodes.rows (place_view at)) }
        ensures rests { IfOk result (λ r. ComesToRest self.now.nodes (place_view at) (run_credit inferences) (place_view r.end) (credit_view r.credit) r.beside) }
        ensures there { IfOk result (λ r. IsSome (cell_at self.now.nodes.rows (place_view r.end))) }
        ensures sleeper { IfOk result (λ r. HasSleeper r.beside self.now.nodes.rows (place_view r.end)) }
    {
        self.public.rest_of_run(at, inferences)
    }

    /// A worker makes the private run of an alternative that is out to it public, which has come after so many inferences to an
    /// answer over so many recoveries alone, and takes the answer. What wakes by that goes on in a node of the given body.
    /// Nothing happens where the alternative is not the leftmost entry, where the budget does not last to the answer, or where
    /// the tree has ended or was stopped.
    pub fn answer_at_once(
        &mut self,
        worker: u32,
        at: AltRef,
        inferences: u64,
        recoveries: u64,
        closing: Closing,
        woken: Option<Arc<NodeBody>>,
    ) -> Result<RunAnswering, NoMemory>
        requires there { IsSome (cell_at self.old.nodes.rows (place_view closing.end)) }
        requires sleeper { HasSleeper closing.beside self.old.nodes.rows (place_view closing.end) }
        requires body { IsBodyGiven closing.beside (opening_body woken) }
        requires some { 1 ≤ inferences }
        requires out { is_some (taken_at worker (place_view at) (state_of self.old.history)) ≡ true }
        requires answers { RunAnswersAs self.old.nodes closing (opening_body woken) worker (place_view at) inferences recoveries (reading self.old.history.job) (state_of self.old.history) }
        ensures answer { IfOk result (λ r. r ≡ run_answering (place_view at) inferences (state_of self.old.history)) }
        ensures noted { IfOk result (λ r. self.new.history ≡ where_taken r (run_events (state_of self.old.history).next worker (place_view at) inferences recoveries) self.old.history) }
        ensures err { OnErr result (self.new.history ≡ self.old.history) }
        ensures made { StayMade self.old.nodes.rows self.new.nodes.rows }
    {
        handed_out_once();
        events_keep_trees();
        one_shape_fits();
        if !self.is_going() {
            return Ok(RunAnswering::HasEnded);
        }
        self.public
            .answer_at_once(worker, at, inferences, recoveries, closing, woken)
    }
}
