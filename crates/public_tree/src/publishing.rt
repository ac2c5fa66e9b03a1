//! How what is out becomes nodes. To what its private run comes is the caller's to know: contracts speak of the trees of which
//! that holds.
ghost use Rattle.std.specs.Prelude.{◌≡◌, ◌+◌, ◌<◌, ◌≤◌, IsSome, IfOk, OnOk, OnErr, map, length};
ghost use Rattle.tree_model.specs.EventViews.{place_view};
ghost use Rattle.tree_nodes.specs.Rows.{cell_at};
ghost use Rattle.tree_nodes.specs.Staying.{StayMade};
ghost use Rattle.public_tree.specs.PublicTrees.{IsSameTree, IsOut};
ghost use Rattle.public_tree.specs.PublicClosing.{HappensIn};
ghost use Rattle.public_tree.specs.Publishing.{bodies_view, body_sizes, publishing_event, AreWhole, RunReadsAs, IsReadyAt, AddsBelow, AddsSome, MakesNodes, IsSameWith};

use crate::public::PublicTree;
use au_term::NoMemory;
use std::sync::Arc;
use tree_model::{AltRef, Event, Sizes};
use tree_nodes::{AltState, NodeBody, Nodes};

impl PublicTree {
    /// A worker makes nodes of what an alternative that is out to it has left after so many inferences: of these bodies, the
    /// outermost first. Nothing happens where the tree has ended or was stopped.
    pub fn publish(
        &mut self,
        worker: u32,
        at: AltRef,
        inferences: u64,
        bodies: &[Arc<NodeBody>],
    ) -> Result<(), NoMemory>
        requires there { IsSome (cell_at self.old.nodes.rows (place_view at)) }
        requires out { IsOut self.old worker (place_view at) }
        requires some { 1 ≤ inferences }
        requires whole { AreWhole (bodies_view bodies.now) }
        requires promised { 0 < self.old.log.promised }
        ensures publishes { OnOk result (HappensIn self.old self.new worker (place_view at) inferences (RunReadsAs self.old.nodes.rows (bodies_view bodies.now)) (publishing_event (bodies_view bodies.now))) }
        ensures err { OnErr result (IsSameTree self.old self.new) }
        ensures promised { self.old.log.promised ≤ self.new.log.promised + 1 }
        ensures kept { OnErr result (self.new.log.promised ≡ self.old.log.promised) }
        ensures made { StayMade self.old.nodes.rows self.new.nodes.rows }
    {
        if !self.is_going() {
            return Ok(());
        }
        let sizes = sizes_of(&self.nodes, bodies)?;
        make_nodes(&mut self.nodes, worker, at, inferences, bodies)?;
        self.log.note_back(Event::Nodes {
            worker,
            at,
            count: inferences,
            sizes: Sizes::of(sizes),
        });
        Ok(())
    }
}

// Makes nodes of these bodies below an alternative that a worker has, the outermost first, with so many inferences more
// spent on it. After an error all is as before.
fn make_nodes(
    nodes: &mut Nodes,
    worker: u32,
    at: AltRef,
    inferences: u64,
    bodies: &[Arc<NodeBody>],
) -> Result<(), NoMemory>
    requires there { IsSome (cell_at nodes.old.rows (place_view at)) }
    requires whole { AreWhole (bodies_view bodies.now) }
    ensures made { OnOk result (MakesNodes nodes.old nodes.new (place_view at) inferences (bodies_view bodies.now)) }
    ensures err { OnErr result (IsSameWith nodes.old nodes.new worker (place_view at)) }
    ensures stay { StayMade nodes.old.rows nodes.new.rows }
{
    // The proof reads off that there is a tree.
    let _live = nodes.live();
    let spent = nodes.spent(at);
    let Some(total) = spent.checked_add(inferences) else {
        return Err(NoMemory);
    };
    let drawn = nodes.drawn();
    nodes.set(at, AltState::Ready, total);
    match add_nodes(nodes, at, bodies) {
        Ok(()) => Ok(()),
        Err(error) => {
            nodes.take_back(at, worker, spent);
            nodes.give_back(drawn);
            Err(error)
        }
    }
}

// Adds nodes of these bodies, the outermost first, each below the first alternative of the one before.
fn add_nodes(nodes: &mut Nodes, at: AltRef, bodies: &[Arc<NodeBody>]) -> Result<(), NoMemory>
    requires ready { IsReadyAt nodes.old.rows (place_view at) }
    requires whole { AreWhole (bodies_view bodies.now) }
    ensures added { OnOk result (AddsBelow nodes.old nodes.new (place_view at) (bodies_view bodies.now)) }
    ensures some { OnErr result (AddsSome nodes.old nodes.new (place_view at)) }
    ensures stay { StayMade nodes.old.rows nodes.new.rows }
{
    let mut at = at;
    for body in bodies {
        // The proof reads off that there is a tree.
        let _live = nodes.live();
        let node = nodes.add(Some(at), Arc::clone(body)?)?;
        at = AltRef {
            node,
            alternative: 0,
        };
    }
    Ok(())
}

fn sizes_of(nodes: &Nodes, bodies: &[Arc<NodeBody>]) -> Result<Vec<u64>, NoMemory>
    ensures { IfOk result (λ sizes. sizes.items ≡ body_sizes (bodies_view bodies.now)) }
{
    let mut sizes = Vec::new(nodes.allocator());
    for body in bodies {
        sizes.push(body.branches.len() as u64)?;
    }
    Ok(sizes)
}
