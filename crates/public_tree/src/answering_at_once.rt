//! Private runs that end in an answer, with nothing else left but recoveries of catches whose goals have ended: the run is made
//! public, and its answer handed out and taken, at once. So none of its nodes is made, since all of them would close; only their
//! numbers are drawn. To what a run comes is the caller's to know: contracts speak of the trees of which that holds.
ghost use Rattle.std.specs.Prelude.{◌≡◌, ◌<◌, ◌≤◌, None, false, length, IsSome, IfOk, OnOk, OnErr};
ghost use Rattle.tree_model.specs.EventViews.{event_view, place_view};
ghost use Rattle.tree_nodes.specs.Changes.{GivesBack, KeepsNumbers};
ghost use Rattle.tree_nodes.specs.Rows.{cell_at, credit_view};
ghost use Rattle.tree_nodes.specs.Skipping.{skipping};
ghost use Rattle.tree_nodes.specs.Staying.{StayMade};
ghost use Rattle.tree_closing.specs.Closings.{ComesToRest, HasSleeper};
ghost use Rattle.public_tree.specs.Opening.{opening_body};
ghost use Rattle.public_tree.specs.PublicTrees.{Answers, IsSameTree, IsOut};
ghost use Rattle.public_tree.specs.PublicClosing.{IsBodyGiven, RestsIn};
ghost use Rattle.public_tree.specs.AnsweringAtOnce.{answer_sizes, leaf_place, run_credit, run_answering, IsRunBarred, RunAnswersAs, TakesRun, promised_by_run};
ghost use Rattle.public_tree.specs.AnsweringAtOnce.{SpendsOnClosed, RunRestsIn};

use crate::answering::has_turn;
use crate::closing::rest;
use crate::public::PublicTree;
use answered_runs::laws::{answers_close_at_once, answers_may_follow};
use au_term::NoMemory;
use branch_order::clock;
use std::alloc::Global;
use std::sync::Arc;
use tree_closing::{Closing, find_rest};
use tree_model::{AltRef, Event, Sizes};
use tree_nodes::{AltState, Credit, NodeBody, Nodes, Records};

/// What has come of a run that ends in an answer.
#[derive(Clone, Copy, Debug, PartialEq, Eq)]
pub enum RunAnswering {
    /// It was made public, and its answer taken.
    Taken,
    /// To its left something is open.
    NotLeftmost,
    /// The tree has ended or was stopped.
    HasEnded,
    /// The budget does not last to its answer.
    OverBudget,
}

impl PublicTree {
    /// Where an alternative comes to rest that closes with a run of so many inferences and its answer.
    pub fn rest_of_run(&self, at: AltRef, inferences: u64) -> Result<Closing, NoMemory>
        requires { IsSome (cell_at self.now.nodes.rows (place_view at)) }
        ensures rests { IfOk result (λ r. ComesToRest self.now.nodes (place_view at) (run_credit inferences) (place_view r.end) (credit_view r.credit) r.beside) }
        ensures there { IfOk result (λ r. IsSome (cell_at self.now.nodes.rows (place_view r.end))) }
        ensures sleeper { IfOk result (λ r. HasSleeper r.beside self.now.nodes.rows (place_view r.end)) }
    {
        let credit = credit_of_run(self.nodes.allocator(), inferences);
        find_rest(&self.nodes, at, credit)
    }

    /// A worker makes the private run of an alternative that is out to it public, which has come after so many inferences to an
    /// answer over so many recoveries alone, and takes the answer. What wakes by that goes on in a node of the given body.
    /// Nothing happens where the alternative is not the leftmost entry, where the budget does not last to the answer, or where
    /// the tree has ended or was stopped.
    pub fn answer_at_once(
        &mut self,
        worker: u32,
        at: AltRef,
        inferences: u64,
        recoveries: u64,
        closing: Closing,
        woken: Option<Arc<NodeBody>>,
    ) -> Result<RunAnswering, NoMemory>
        requires there { IsSome (cell_at self.old.nodes.rows (place_view closing.end)) }
        requires sleeper { HasSleeper closing.beside self.old.nodes.rows (place_view closing.end) }
        requires body { IsBodyGiven closing.beside (opening_body woken) }
        requires out { IsOut self.old worker (place_view at) }
        requires some { 1 ≤ inferences }
        requires promised { 0 < self.old.log.promised }
        ensures answer { IfOk result (λ r. Answers self.old (run_answering (place_view at) inferences) r) }
        ensures takes { IfOk result (λ r. TakesRun self.old self.new worker (place_view at) inferences recoveries (RunAnswersAs self.old.nodes closing (opening_body woken)) r) }
        ensures promised { IfOk result (λ r. self.new.log.promised ≡ promised_by_run r self.old.log.promised) }
        ensures err { OnErr result (IsSameTree self.old self.new) }
        ensures kept { OnErr result (self.new.log.promised ≡ self.old.log.promised) }
        ensures made { StayMade self.old.nodes.rows self.new.nodes.rows }
    {
        answers_may_follow();
        answers_close_at_once();
        if let Some(barred) = self.run_barred(at, inferences) {
            return Ok(barred);
        }
        self.log.reserve()?;
        let sizes = sizes_of_answer(self.nodes.allocator(), recoveries)?;
        let leaf = leaf_of(self.nodes.drawn(), recoveries)?;
        close_run(
            &mut self.nodes,
            at,
            inferences,
            recoveries.max(1),
            closing,
            woken,
        )?;
        self.log.note_turn(
            Event::Nodes {
                worker,
                at,
                count: inferences,
                sizes: Sizes::of(sizes),
            },
            Event::Claim { worker, at: leaf },
            Event::Answer {
                worker,
                at: leaf,
                frozen: false,
            },
        );
        Ok(RunAnswering::Taken)
    }

    /// Whether a run may be taken at once, or what keeps it from that.
    pub fn run_answering(&self, at: AltRef, inferences: u64) -> RunAnswering
        ensures { Answers self.now (run_answering (place_view at) inferences) result }
    {
        match self.run_barred(at, inferences) {
            Some(barred) => barred,
            None => RunAnswering::Taken,
        }
    }

    // What keeps a run from being taken at once, if anything does.
    fn run_barred(&self, at: AltRef, inferences: u64) -> Option<RunAnswering>
        ensures barred { IsRunBarred self.now (place_view at) inferences result }
        ensures open { result ≡ None → IsSome (cell_at self.now.nodes.rows (place_view at)) }
        ensures room { result ≡ None → self.now.log.stopped ≡ false }
    {
        if !self.is_going() {
            return Some(RunAnswering::HasEnded);
        }
        if !has_turn(&self.nodes, at) {
            return Some(RunAnswering::NotLeftmost);
        }
        let left = self.budget.saturating_sub(clock(&self.nodes, at));
        if left <= inferences {
            return Some(RunAnswering::OverBudget);
        }
        None
    }
}

// What closes with a run of so many inferences and its answer comes to rest, so many numbers later, and keeps the inferences of
// the run, where it stays. After an error all is as before.
fn close_run(
    nodes: &mut Nodes,
    at: AltRef,
    inferences: u64,
    skipped: u64,
    closing: Closing,
    woken: Option<Arc<NodeBody>>,
) -> Result<(), NoMemory>
    requires open { IsSome (cell_at nodes.old.rows (place_view at)) }
    requires there { IsSome (cell_at nodes.old.rows (place_view closing.end)) }
    requires sleeper { HasSleeper closing.beside nodes.old.rows (place_view closing.end) }
    requires body { IsBodyGiven closing.beside (opening_body woken) }
    ensures rests { OnOk result (RunRestsIn nodes.old nodes.new (place_view at) inferences skipped closing (opening_body woken)) }
    ensures err { OnErr result (GivesBack nodes.old nodes.new (length nodes.old.rows)) }
    ensures made { StayMade nodes.old.rows nodes.new.rows }
{
    let Some(spent) = nodes.spent(at).checked_add(inferences) else {
        return Err(NoMemory);
    };
    let credit = credit_of_run(nodes.allocator(), inferences);
    skip_and_rest(nodes, skipped, closing, woken)?;
    spend_on_closed(nodes, at, spent, credit);
    Ok(())
}

// Draws so many numbers that name no node, and closes the alternative in which a closing rests. After an error all is as before.
fn skip_and_rest(
    nodes: &mut Nodes,
    skipped: u64,
    closing: Closing,
    woken: Option<Arc<NodeBody>>,
) -> Result<(), NoMemory>
    requires there { IsSome (cell_at nodes.old.rows (place_view closing.end)) }
    requires sleeper { HasSleeper closing.beside nodes.old.rows (place_view closing.end) }
    requires body { IsBodyGiven closing.beside (opening_body woken) }
    ensures rests { OnOk result (RestsIn (skipping skipped nodes.old) nodes.new (place_view closing.end) (credit_view closing.credit) closing.beside (opening_body woken)) }
    ensures err { OnErr result (GivesBack nodes.old nodes.new (length nodes.old.rows)) }
    ensures made { StayMade nodes.old.rows nodes.new.rows }
{
    let drawn = nodes.drawn();
    nodes.skip(skipped)?;
    match rest(nodes, closing, woken) {
        Ok(()) => Ok(()),
        Err(error) => {
            nodes.give_back(drawn);
            Err(error)
        }
    }
}

// Where an alternative has closed with this credit, so many inferences are spent on it.
fn spend_on_closed(nodes: &mut Nodes, at: AltRef, spent: u64, credit: Credit)
    ensures spends { SpendsOnClosed nodes.old nodes.new (place_view at) spent (credit_view credit) }
    ensures numbers { KeepsNumbers nodes.old nodes.new }
    ensures made { StayMade nodes.old.rows nodes.new.rows }
{
    if nodes.is_closed(at) {
        nodes.set(at, AltState::Closed(credit), spent);
    }
}

fn credit_of_run(alloc: Global, inferences: u64) -> Credit
    ensures { credit_view result ≡ run_credit inferences }
{
    Credit {
        inferences: inferences.saturating_add(1),
        answers: 1,
        records: Records::new(alloc),
    }
}

// The sizes of the nodes of an answer over so many recoveries.
fn sizes_of_answer(alloc: Global, recoveries: u64) -> Result<Vec<u64>, NoMemory>
    ensures { IfOk result (λ sizes. sizes.items ≡ answer_sizes recoveries) }
{
    let size = if recoveries == 0 { 1 } else { 2 };
    let mut sizes = Vec::new(alloc);
    sizes.resize(recoveries.max(1) as usize, size)?;
    Ok(sizes)
}

// Where the answer is, in nodes that are numbered from here on.
fn leaf_of(next: u64, recoveries: u64) -> Result<AltRef, NoMemory>
    ensures { IfOk result (λ leaf. place_view leaf ≡ leaf_place next recoveries) }
{
    let Some(node) = next.checked_add(recoveries.saturating_sub(1)) else {
        return Err(NoMemory);
    };
    Ok(AltRef {
        node,
        alternative: 0,
    })
}
