//! World goals, answers and ends of queries that are taken at the front. What each comes to there, in its world and with its
//! queries, is the caller's to know: contracts speak of the trees of which that holds.
ghost use Rattle.std.specs.Prelude.{◌≡◌, ◌<◌, None, false, IsSome, IfOk, OnOk, OnErr};
ghost use Rattle.std.specs.Arc.{arc_value};
ghost use Rattle.std.specs.Bool.{OnTrue};
ghost use Rattle.tree_model.specs.EventViews.{event_view, place_view};
ghost use Rattle.tree_model.specs.Events.{Answer};
ghost use Rattle.tree_nodes.specs.Bodies.{IsWhole, body_view};
ghost use Rattle.tree_nodes.specs.Changes.{IsOpenCell, IsLonger, KeepsNumbers};
ghost use Rattle.tree_nodes.specs.Rows.{cell_at, credit_view, scope_number};
ghost use Rattle.tree_nodes.specs.Staying.{StayMade};
ghost use Rattle.tree_closing.specs.Closings.{ComesToRest, HasSleeper};
ghost use Rattle.public_tree.specs.Opening.{opening_body};
ghost use Rattle.public_tree.specs.PublicTrees.{Answers, IsSameTree, IsOut, IsLeftmostAt};
ghost use Rattle.public_tree.specs.PublicClosing.{IsBodyGiven};
ghost use Rattle.public_tree.specs.Answering.{answer_credit, is_first_at, IsBarred, TakesFront, promised_by};
ghost use Rattle.public_tree.specs.Answering.{GoesOnAs, EndsAs, OpensAs, HaltsAs, FallsAs, GrowsAt, SpendsAt};

use crate::closing::rest;
use crate::hand_out::is_leftmost;
use crate::public::PublicTree;
use au_term::NoMemory;
use clause_compile::Scope;
use prune_ops::{find_landing, land};
use std::sync::Arc;
use tree_closing::{Closing, find_rest};
use tree_model::{AltRef, Event};
use tree_nodes::{AltState, Credit, NodeBody, Nodes, Records};

/// What has come of a world goal, an answer or the end of a query.
#[derive(Clone, Copy, Debug, PartialEq, Eq)]
pub enum Answering {
    /// It was taken.
    Taken,
    /// To its left something is open.
    NotLeftmost,
    /// The tree has ended or was stopped.
    HasEnded,
}

impl PublicTree {
    /// Whether an alternative is the leftmost entry.
    pub fn is_front(&self, at: AltRef) -> bool
        ensures { Answers self.now (is_first_at (place_view at)) result }
    {
        is_leftmost(&self.nodes, at)
    }

    /// A worker takes the world goal or the removal of an alternative that is out to it, where that goes on: what is left is
    /// ready below a new node of the body. Nothing happens where the alternative is not the leftmost entry, or where the tree
    /// has ended or was stopped.
    pub fn go_on_at_front(
        &mut self,
        worker: u32,
        at: AltRef,
        body: Arc<NodeBody>,
    ) -> Result<Answering, NoMemory>
        requires out { IsOut self.old worker (place_view at) }
        requires whole { IsWhole (body_view (arc_value body)) }
        requires promised { 0 < self.old.log.promised }
        ensures takes { IfOk result (λ r. TakesFront self.old self.new worker (place_view at) (GoesOnAs self.old.nodes.rows (body_view (arc_value body))) r) }
        ensures promised { IfOk result (λ r. self.new.log.promised ≡ promised_by r self.old.log.promised) }
        ensures err { OnErr result (IsSameTree self.old self.new) }
        ensures kept { OnErr result (self.new.log.promised ≡ self.old.log.promised) }
        ensures made { StayMade self.old.nodes.rows self.new.nodes.rows }
    {
        if let Some(barred) = self.barred(at) {
            return Ok(barred);
        }
        grow(&mut self.nodes, at, body)?;
        self.log.note_back(answer(worker, at));
        Ok(Answering::Taken)
    }

    /// Where an alternative comes to rest that closes with an answer.
    pub fn rest_of_answer(&self, at: AltRef) -> Result<Closing, NoMemory>
        requires { IsSome (cell_at self.now.nodes.rows (place_view at)) }
        ensures rests { IfOk result (λ r. ComesToRest self.now.nodes (place_view at) answer_credit (place_view r.end) (credit_view r.credit) r.beside) }
        ensures there { IfOk result (λ r. IsSome (cell_at self.now.nodes.rows (place_view r.end))) }
        ensures sleeper { IfOk result (λ r. HasSleeper r.beside self.now.nodes.rows (place_view r.end)) }
    {
        let alloc = self.nodes.allocator();
        let credit = Credit {
            inferences: 1,
            answers: 1,
            records: Records::of(alloc, Vec::new(alloc))?,
        };
        find_rest(&self.nodes, at, credit)
    }

    /// A worker closes an alternative that is out to it with its world goal of which nothing is left, with its answer, or with
    /// the end of the last query. What wakes by that goes on in a node of the given body. Nothing happens where the
    /// alternative is not the leftmost entry, or where the tree has ended or was stopped.
    pub fn close_at_front(
        &mut self,
        worker: u32,
        at: AltRef,
        closing: Closing,
        woken: Option<Arc<NodeBody>>,
    ) -> Result<Answering, NoMemory>
        requires there { IsSome (cell_at self.old.nodes.rows (place_view closing.end)) }
        requires sleeper { HasSleeper closing.beside self.old.nodes.rows (place_view closing.end) }
        requires body { IsBodyGiven closing.beside (opening_body woken) }
        requires out { IsOut self.old worker (place_view at) }
        requires promised { 0 < self.old.log.promised }
        ensures takes { IfOk result (λ r. TakesFront self.old self.new worker (place_view at) (EndsAs self.old.nodes closing (opening_body woken)) r) }
        ensures promised { IfOk result (λ r. self.new.log.promised ≡ promised_by r self.old.log.promised) }
        ensures err { OnErr result (IsSameTree self.old self.new) }
        ensures kept { OnErr result (self.new.log.promised ≡ self.old.log.promised) }
        ensures made { StayMade self.old.nodes.rows self.new.nodes.rows }
    {
        if let Some(barred) = self.barred(at) {
            return Ok(barred);
        }
        rest(&mut self.nodes, closing, woken)?;
        self.log.note_back(answer(worker, at));
        Ok(Answering::Taken)
    }

    /// A worker takes the end of a query of an alternative that is out to it, where a query is left: that is ready below a
    /// new node of the body. Nothing happens where the alternative is not the leftmost entry, or where the tree has ended or
    /// was stopped.
    pub fn open_query(
        &mut self,
        worker: u32,
        at: AltRef,
        body: Arc<NodeBody>,
    ) -> Result<Answering, NoMemory>
        requires out { IsOut self.old worker (place_view at) }
        requires whole { IsWhole (body_view (arc_value body)) }
        requires promised { 0 < self.old.log.promised }
        ensures takes { IfOk result (λ r. TakesFront self.old self.new worker (place_view at) (OpensAs self.old.nodes.rows (body_view (arc_value body))) r) }
        ensures promised { IfOk result (λ r. self.new.log.promised ≡ promised_by r self.old.log.promised) }
        ensures err { OnErr result (IsSameTree self.old self.new) }
        ensures kept { OnErr result (self.new.log.promised ≡ self.old.log.promised) }
        ensures made { StayMade self.old.nodes.rows self.new.nodes.rows }
    {
        if let Some(barred) = self.barred(at) {
            return Ok(barred);
        }
        grow(&mut self.nodes, at, body)?;
        self.log.note_back(answer(worker, at));
        Ok(Answering::Taken)
    }

    /// A worker halts the tree with a status, by the goal of an alternative that is out to it. Nothing happens where the
    /// alternative is not the leftmost entry, or where the tree has ended or was stopped.
    pub fn halt(&mut self, worker: u32, at: AltRef, status: u8) -> Result<Answering, NoMemory>
        requires out { IsOut self.old worker (place_view at) }
        requires promised { 0 < self.old.log.promised }
        ensures takes { IfOk result (λ r. TakesFront self.old self.new worker (place_view at) (HaltsAs status) r) }
        ensures promised { IfOk result (λ r. self.new.log.promised ≡ promised_by r self.old.log.promised) }
        ensures err { OnErr result (IsSameTree self.old self.new) }
        ensures kept { OnErr result (self.new.log.promised ≡ self.old.log.promised) }
        ensures made { StayMade self.old.nodes.rows self.new.nodes.rows }
    {
        if let Some(barred) = self.barred(at) {
            return Ok(barred);
        }
        spend(&mut self.nodes, worker, at)?;
        self.halted = Some(status);
        self.log.note_back(answer(worker, at));
        Ok(Answering::Taken)
    }

    /// A worker takes the goal of an alternative that is out to it, where the world answers with a ball, which falls to its
    /// scope: everything below closes, what was out there is lost, and what the ball leaves is ready below a new node in place
    /// of what slept beside it. Nothing happens where the alternative is not the leftmost entry, or where the tree has ended
    /// or was stopped.
    pub fn fall_at_front(
        &mut self,
        worker: u32,
        at: AltRef,
        scope: Scope,
        body: Arc<NodeBody>,
    ) -> Result<Answering, NoMemory>
        requires out { IsOut self.old worker (place_view at) }
        requires whole { IsWhole (body_view (arc_value body)) }
        requires promised { 0 < self.old.log.promised }
        ensures takes { IfOk result (λ r. TakesFront self.old self.new worker (place_view at) (FallsAs self.old.nodes.rows (scope_number scope) (body_view (arc_value body))) r) }
        ensures promised { IfOk result (λ r. self.new.log.promised ≡ promised_by r self.old.log.promised) }
        ensures err { OnErr result (IsSameTree self.old self.new) }
        ensures kept { OnErr result (self.new.log.promised ≡ self.old.log.promised) }
        ensures made { StayMade self.old.nodes.rows self.new.nodes.rows }
    {
        if let Some(barred) = self.barred(at) {
            return Ok(barred);
        }
        // At the scope of a ball something sleeps.
        let Some(landing) = find_landing(&self.nodes, at, scope)? else {
            return Ok(Answering::NotLeftmost);
        };
        let lost = self.lost_with(at, scope)?;
        land(&mut self.nodes, landing, body)?;
        self.lost = lost;
        self.log.note_back(answer(worker, at));
        Ok(Answering::Taken)
    }

    // What keeps an alternative from being taken at the front, if anything does.
    fn barred(&self, at: AltRef) -> Option<Answering>
        ensures barred { IsBarred self.now (place_view at) result }
        ensures open { result ≡ None → IsOpenCell (cell_at self.now.nodes.rows (place_view at)) }
        ensures room { result ≡ None → self.now.log.stopped ≡ false }
    {
        if !self.is_going() {
            return Some(Answering::HasEnded);
        }
        if !has_turn(&self.nodes, at) {
            return Some(Answering::NotLeftmost);
        }
        None
    }
}

/// Whether an alternative is the leftmost entry.
pub(crate) fn has_turn(nodes: &Nodes, at: AltRef) -> bool
    ensures open { OnTrue result (IsOpenCell (cell_at nodes.now.rows (place_view at))) }
    ensures first { IsLeftmostAt nodes.now (place_view at) result }
{
    nodes.is_pending(at) && is_leftmost(nodes, at)
}

// Makes a node below an alternative that has an entry, with one inference more spent on it.
fn grow(nodes: &mut Nodes, at: AltRef, body: Arc<NodeBody>) -> Result<(), NoMemory>
    requires whole { IsWhole (body_view (arc_value body)) }
    requires open { IsOpenCell (cell_at nodes.old.rows (place_view at)) }
    ensures grows { OnOk result (GrowsAt nodes.old nodes.new (place_view at) (body_view (arc_value body))) }
    ensures longer { OnOk result (IsLonger nodes.old nodes.new) }
    ensures err { OnErr result (nodes.new ≡ nodes.old) }
    ensures made { StayMade nodes.old.rows nodes.new.rows }
{
    // The proof reads off that there is a tree.
    let _live = nodes.live();
    let Some(spent) = nodes.spent(at).checked_add(1) else {
        return Err(NoMemory);
    };
    let number = nodes.add(Some(at), body)?;
    nodes.set(at, AltState::Inner(number), spent);
    Ok(())
}

// Spends one inference more on what is out to a worker.
fn spend(nodes: &mut Nodes, worker: u32, at: AltRef) -> Result<(), NoMemory>
    requires { IsOpenCell (cell_at nodes.old.rows (place_view at)) }
    ensures spends { OnOk result (SpendsAt nodes.old nodes.new worker (place_view at)) }
    ensures numbers { OnOk result (KeepsNumbers nodes.old nodes.new) }
    ensures err { OnErr result (nodes.new ≡ nodes.old) }
    ensures made { StayMade nodes.old.rows nodes.new.rows }
{
    let Some(spent) = nodes.spent(at).checked_add(1) else {
        return Err(NoMemory);
    };
    nodes.set(at, AltState::Taken(worker), spent);
    Ok(())
}

fn answer(worker: u32, at: AltRef) -> Event
    ensures { event_view result ≡ Answer worker (place_view at) false }
{
    Event::Answer {
        worker,
        at,
        frozen: false,
    }
}
