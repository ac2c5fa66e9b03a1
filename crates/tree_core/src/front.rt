//! World goals, answers and ends of queries that are taken at the front of a job's tree. What each comes to there, in its world,
//! is the caller's to know.
ghost use Rattle.std.specs.Prelude.{◌≡◌, true, false, is_some, IsSome, IfOk, OnErr};
ghost use Rattle.std.specs.Arc.{arc_value};
ghost use Rattle.tree_model.specs.EventViews.{place_view};
ghost use Rattle.tree_model.specs.Events.{Answer};
ghost use Rattle.tree_model.specs.Legality.{taken_at};
ghost use Rattle.tree_nodes.specs.Bodies.{IsWhole, body_view};
ghost use Rattle.tree_nodes.specs.Rows.{cell_at, credit_view, scope_number};
ghost use Rattle.tree_nodes.specs.Staying.{StayMade};
ghost use Rattle.tree_closing.specs.Closings.{ComesToRest, HasSleeper};
ghost use Rattle.branch_reading.specs.Readings.{reading};
ghost use Rattle.public_tree.specs.Opening.{opening_body};
ghost use Rattle.public_tree.specs.PublicClosing.{IsBodyGiven};
ghost use Rattle.public_tree.specs.Answering.{answer_credit, is_first_at, GoesOnAs, EndsAs, OpensAs, HaltsAs, FallsAs};
ghost use Rattle.tree_core.specs.Histories.{state_of};
ghost use Rattle.tree_core.specs.Turns.{where_legal, answering_of};

use crate::brand::JobBrand;
use crate::tree::Tree;
use au_term::NoMemory;
use clause_compile::Scope;
use interleaving::laws::trees::handed_out_once;
use public_tree::Answering;
use std::sync::Arc;
use tree_closing::Closing;
use tree_model::AltRef;
use tree_nodes::NodeBody;

impl<J: JobBrand> Tree<J> {
    /// Whether an alternative is the leftmost entry.
    pub fn is_front(&self, at: AltRef) -> bool
        ensures { result ≡ is_first_at (place_view at) (state_of self.now.history) }
    {
        self.public.is_front(at)
    }

    /// Where an alternative comes to rest that closes with an answer.
    pub fn rest_of_answer(&self, at: AltRef) -> Result<Closing, NoMemory>
        requires { IsSome (cell_at self.now.nodes.rows (place_view at)) }
        ensures rests { IfOk result (λ r. ComesToRest self.now.nodes (place_view at) answer_credit (place_view r.end) (credit_view r.credit) r.beside) }
        ensures there { IfOk result (λ r. IsSome (cell_at self.now.nodes.rows (place_view r.end))) }
        ensures sleeper { IfOk result (λ r. HasSleeper r.beside self.now.nodes.rows (place_view r.end)) }
    {
        self.public.rest_of_answer(at)
    }

    /// A worker takes the world goal or the removal of an alternative that is out to it, which leaves what the body reads as.
    /// Nothing happens where the alternative is not the leftmost entry, or where the tree has ended or was stopped.
    pub fn go_on_at_front(
        &mut self,
        worker: u32,
        at: AltRef,
        body: Arc<NodeBody>,
    ) -> Result<Answering, NoMemory>
        requires whole { IsWhole (body_view (arc_value body)) }
        requires out { is_some (taken_at worker (place_view at) (state_of self.old.history)) ≡ true }
        requires goes_on { GoesOnAs self.old.nodes.rows (body_view (arc_value body)) worker (place_view at) (reading self.old.history.job) (state_of self.old.history) }
        ensures answer { IfOk result (λ r. r ≡ answering_of (Answer worker (place_view at) false) (state_of self.old.history)) }
        ensures noted { IfOk result (λ r. self.new.history ≡ where_legal (Answer worker (place_view at) false) self.old.history) }
        ensures err { OnErr result (self.new.history ≡ self.old.history) }
        ensures made { StayMade self.old.nodes.rows self.new.nodes.rows }
    {
        handed_out_once();
        if !self.is_going() {
            return Ok(Answering::HasEnded);
        }
        self.public.go_on_at_front(worker, at, body)
    }

    /// A worker closes an alternative that is out to it with its world goal of which nothing is left, with its answer, or with
    /// the end of the last query. What wakes by that goes on in a node of the given body. Nothing happens where the alternative
    /// is not the leftmost entry, or where the tree has ended or was stopped.
    pub fn close_at_front(
        &mut self,
        worker: u32,
        at: AltRef,
        closing: Closing,
        woken: Option<Arc<NodeBody>>,
    ) -> Result<Answering, NoMemory>
        requires there { IsSome (cell_at self.old.nodes.rows (place_view closing.end)) }
        requires sleeper { HasSleeper closing.beside self.old.nodes.rows (place_view closing.end) }
        requires body { IsBodyGiven closing.beside (opening_body woken) }
        requires out { is_some (taken_at worker (place_view at) (state_of self.old.history)) ≡ true }
        requires ends { EndsAs self.old.nodes closing (opening_body woken) worker (place_view at) (reading self.old.history.job) (state_of self.old.history) }
        ensures answer { IfOk result (λ r. r ≡ answering_of (Answer worker (place_view at) false) (state_of self.old.history)) }
        ensures noted { IfOk result (λ r. self.new.history ≡ where_legal (Answer worker (place_view at) false) self.old.history) }
        ensures err { OnErr result (self.new.history ≡ self.old.history) }
        ensures made { StayMade self.old.nodes.rows self.new.nodes.rows }
    {
        handed_out_once();
        if !self.is_going() {
            return Ok(Answering::HasEnded);
        }
        self.public.close_at_front(worker, at, closing, woken)
    }

    /// A worker takes the end of a query of an alternative that is out to it, where a query is left: that is ready below a new
    /// node of the body. Nothing happens where the alternative is not the leftmost entry, or where the tree has ended or was
    /// stopped.
    pub fn open_query(
        &mut self,
        worker: u32,
        at: AltRef,
        body: Arc<NodeBody>,
    ) -> Result<Answering, NoMemory>
        requires whole { IsWhole (body_view (arc_value body)) }
        requires out { is_some (taken_at worker (place_view at) (state_of self.old.history)) ≡ true }
        requires opens { OpensAs self.old.nodes.rows (body_view (arc_value body)) worker (place_view at) (reading self.old.history.job) (state_of self.old.history) }
        ensures answer { IfOk result (λ r. r ≡ answering_of (Answer worker (place_view at) false) (state_of self.old.history)) }
        ensures noted { IfOk result (λ r. self.new.history ≡ where_legal (Answer worker (place_view at) false) self.old.history) }
        ensures err { OnErr result (self.new.history ≡ self.old.history) }
        ensures made { StayMade self.old.nodes.rows self.new.nodes.rows }
    {
        handed_out_once();
        if !self.is_going() {
            return Ok(Answering::HasEnded);
        }
        self.public.open_query(worker, at, body)
    }

    /// A worker halts the tree with a status, by the goal of an alternative that is out to it. Nothing happens where the
    /// alternative is not the leftmost entry, or where the tree has ended or was stopped.
    pub fn halt(&mut self, worker: u32, at: AltRef, status: u8) -> Result<Answering, NoMemory>
        requires out { is_some (taken_at worker (place_view at) (state_of self.old.history)) ≡ true }
        requires halts { HaltsAs status worker (place_view at) (reading self.old.history.job) (state_of self.old.history) }
        ensures answer { IfOk result (λ r. r ≡ answering_of (Answer worker (place_view at) false) (state_of self.old.history)) }
        ensures noted { IfOk result (λ r. self.new.history ≡ where_legal (Answer worker (place_view at) false) self.old.history) }
        ensures err { OnErr result (self.new.history ≡ self.old.history) }
        ensures made { StayMade self.old.nodes.rows self.new.nodes.rows }
    {
        handed_out_once();
        if !self.is_going() {
            return Ok(Answering::HasEnded);
        }
        self.public.halt(worker, at, status)
    }

    /// A worker lets the ball fall to its scope with which the world answers the goal of an alternative that is out to it; there
    /// it leaves what the body reads as, everything below closes, and what was out there is lost. Nothing happens where the
    /// alternative is not the leftmost entry, or where the tree has ended or was stopped.
    pub fn fall_at_front(
        &mut self,
        worker: u32,
        at: AltRef,
        scope: Scope,
        body: Arc<NodeBody>,
    ) -> Result<Answering, NoMemory>
        requires whole { IsWhole (body_view (arc_value body)) }
        requires out { is_some (taken_at worker (place_view at) (state_of self.old.history)) ≡ true }
        requires falls { FallsAs self.old.nodes.rows (scope_number scope) (body_view (arc_value body)) worker (place_view at) (reading self.old.history.job) (state_of self.old.history) }
        ensures answer { IfOk result (λ r. r ≡ answering_of (Answer worker (place_view at) false) (state_of self.old.history)) }
        ensures noted { IfOk result (λ r. self.new.history ≡ where_legal (Answer worker (place_view at) false) self.old.history) }
        ensures err { OnErr result (self.new.history ≡ self.old.history) }
        ensures made { StayMade self.old.nodes.rows self.new.nodes.rows }
    {
        handed_out_once();
        if !self.is_going() {
            return Ok(Answering::HasEnded);
        }
        self.public.fall_at_front(worker, at, scope, body)
    }
}
