//! How what is out closes. To what its private run comes is the caller's to know: contracts speak of the trees of which that
//! holds.
ghost use Rattle.std.specs.Prelude.{◌≡◌, ◌+◌, ◌<◌, ◌≤◌, IsSome, IfOk, OnOk, OnErr};
ghost use Rattle.tree_model.specs.EventViews.{event_view, place_view};
ghost use Rattle.tree_nodes.specs.Rows.{cell_at, credit_view};
ghost use Rattle.tree_nodes.specs.Staying.{StayMade};
ghost use Rattle.tree_closing.specs.Closings.{ComesToRest, HasSleeper};
ghost use Rattle.public_tree.specs.Opening.{opening_body};
ghost use Rattle.public_tree.specs.PublicTrees.{IsSameTree, IsOut};
ghost use Rattle.public_tree.specs.PublicClosing.{record_credit, closing_event, RunEndsAs, IsBodyGiven, RestsIn, HappensIn};

use crate::public::PublicTree;
use au_term::{FlatTerm, NoMemory};
use std::sync::Arc;
use tree_closing::{Beside, Closing, find_rest, settle, wake};
use tree_model::{AltRef, Event};
use tree_nodes::{Credit, NodeBody, Nodes, Records};

/// What is left where the private run of an alternative ends it.
#[derive(Clone, Copy, Debug, PartialEq, Eq)]
pub enum TaskEnd {
    Nothing,
    /// A result for a findall above.
    Result,
}

impl PublicTree {
    /// Where an alternative comes to rest that closes after so many inferences, with a record or none.
    pub fn rest_of(
        &self,
        at: AltRef,
        inferences: u64,
        collected: Option<FlatTerm>,
    ) -> Result<Closing, NoMemory>
        requires { IsSome (cell_at self.now.nodes.rows (place_view at)) }
        ensures rests { IfOk result (λ r. ComesToRest self.now.nodes (place_view at) (record_credit inferences collected) (place_view r.end) (credit_view r.credit) r.beside) }
        ensures there { IfOk result (λ r. IsSome (cell_at self.now.nodes.rows (place_view r.end))) }
        ensures sleeper { IfOk result (λ r. HasSleeper r.beside self.now.nodes.rows (place_view r.end)) }
    {
        let credit = credit_of_record(&self.nodes, inferences, collected)?;
        find_rest(&self.nodes, at, credit)
    }

    /// A worker closes an alternative that is out to it, once its private run has so ended after so many inferences. What
    /// wakes by that goes on in a node of the given body. Nothing happens where the tree has ended or was stopped.
    pub fn close(
        &mut self,
        worker: u32,
        at: AltRef,
        inferences: u64,
        end: TaskEnd,
        closing: Closing,
        woken: Option<Arc<NodeBody>>,
    ) -> Result<(), NoMemory>
        requires there { IsSome (cell_at self.old.nodes.rows (place_view closing.end)) }
        requires sleeper { HasSleeper closing.beside self.old.nodes.rows (place_view closing.end) }
        requires body { IsBodyGiven closing.beside (opening_body woken) }
        requires out { IsOut self.old worker (place_view at) }
        requires promised { 0 < self.old.log.promised }
        ensures closes { OnOk result (HappensIn self.old self.new worker (place_view at) inferences (RunEndsAs self.old.nodes end closing (opening_body woken)) (closing_event end)) }
        ensures err { OnErr result (IsSameTree self.old self.new) }
        ensures promised { self.old.log.promised ≤ self.new.log.promised + 1 }
        ensures kept { OnErr result (self.new.log.promised ≡ self.old.log.promised) }
        ensures made { StayMade self.old.nodes.rows self.new.nodes.rows }
    {
        if !self.is_going() {
            return Ok(());
        }
        rest(&mut self.nodes, closing, woken)?;
        self.log.note_back(event_of(end, worker, at, inferences));
        Ok(())
    }
}

/// Closes the alternative in which a closing rests. What wakes by that goes on in a node of the body.
pub(crate) fn rest(
    nodes: &mut Nodes,
    closing: Closing,
    woken: Option<Arc<NodeBody>>,
) -> Result<(), NoMemory>
    requires there { IsSome (cell_at nodes.old.rows (place_view closing.end)) }
    requires sleeper { HasSleeper closing.beside nodes.old.rows (place_view closing.end) }
    requires body { IsBodyGiven closing.beside (opening_body woken) }
    ensures rests { OnOk result (RestsIn nodes.old nodes.new (place_view closing.end) (credit_view closing.credit) closing.beside (opening_body woken)) }
    ensures err { OnErr result (nodes.new ≡ nodes.old) }
    ensures made { StayMade nodes.old.rows nodes.new.rows }
{
    match closing.beside {
        Beside::Same | Beside::Closes => {
            settle(nodes, closing);
            Ok(())
        }
        Beside::Gathers | Beside::Ends => {
            let Some(body) = woken else { unreachable!() };
            let _number = wake(nodes, closing, body)?;
            Ok(())
        }
    }
}

// A credit of so many inferences, with a record or none.
fn credit_of_record(
    nodes: &Nodes,
    inferences: u64,
    collected: Option<FlatTerm>,
) -> Result<Credit, NoMemory>
    ensures { IfOk result (λ c. credit_view c ≡ record_credit inferences collected) }
{
    let alloc = nodes.allocator();
    let mut records = Vec::new(alloc);
    if let Some(record) = collected {
        records.push(record)?;
    }
    Ok(Credit {
        inferences,
        answers: 0,
        records: Records::of(alloc, records)?,
    })
}

fn event_of(end: TaskEnd, worker: u32, at: AltRef, count: u64) -> Event
    ensures { event_view result ≡ closing_event end worker (place_view at) count }
{
    match end {
        TaskEnd::Nothing => Event::Empty { worker, at, count },
        TaskEnd::Result => Event::Collected { worker, at, count },
    }
}
