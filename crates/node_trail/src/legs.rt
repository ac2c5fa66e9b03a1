//! Segments on a branch.
ghost use Rattle.std.specs.Prelude.{◌≡◌, ◌<◌, [], ◌∷◌, ◌++◌, OnOk, IfOk, length, reverse};
ghost use Rattle.std.specs.Arc.{arc_value};
ghost use Rattle.tree_nodes.specs.Bodies.{body_view};
ghost use Rattle.node_trail.specs.Segments.{branch_segment, all_some};

use au_term::{NoMemory, Segment};
use smallvec::SmallVec;
use std::alloc::Global;
use std::marker::Model;
use std::sync::Arc;
use tree_nodes::NodeBody;

/// The segment of a node, or of one of its branches. Contracts see the segment.
#[derive(Drop)]
pub struct Leg {
    body: Arc<NodeBody>,
    branch: Option<usize>,
}

impl Model for Leg {
    ghost use Rattle.std.specs.Arc.{arc_value};
    ghost use Rattle.std.specs.Coded.{codes};
    ghost use Rattle.au_term.specs.declared.segment.Segment.{Segment};
    ghost use Rattle.au_term.specs.contracts.shared.Shared as shared;

    ghost Value = { Segment };

    ghost coded = { Prim.hlevel (codes, shared.the_row.coded) };

    ghost use Rattle.tree_nodes.specs.Bodies.{body_view};
    ghost use Rattle.node_trail.specs.Segments.{leg_segment, HasBranch};

    ghost view = { λ l. leg_segment (body_view (arc_value l.body)) l.branch };

    ghost invariant = { λ l. HasBranch (body_view (arc_value l.body)) l.branch };
}

impl Leg {
    /// The segment of a node that was made from this.
    pub fn node(body: Arc<NodeBody>) -> Leg
        ensures { result ≡ (body_view (arc_value body)).segment }
    {
        Leg { body, branch: None }
    }

    /// The segment of a branch.
    pub fn branch(body: Arc<NodeBody>, branch: usize) -> Leg
        requires { branch < length (body_view (arc_value body)).branches }
        ensures { result ≡ branch_segment branch (body_view (arc_value body)).branches }
    {
        Leg {
            body,
            branch: Some(branch),
        }
    }

    /// The segment.
    pub fn segment(&self) -> &Segment
        ensures { result.now ≡ self.now }
    {
        match self.branch {
            Some(branch) => &self.body.branches[branch].segment,
            None => &self.body.segment,
        }
    }
}

/// Segments in the order of a branch, from the top down. Contracts see their list.
#[derive(Drop)]
pub struct Legs {
    list: SmallVec<Option<Leg>, 16>,
}

impl Model for Legs {
    ghost use Rattle.std.specs.Prelude.{List};
    ghost use Rattle.std.specs.Coded.{codes};
    ghost use Rattle.au_term.specs.declared.segment.Segment.{Segment};
    ghost use Rattle.au_term.specs.contracts.shared.Shared as shared;

    ghost Value = { List Segment };

    ghost coded = { Prim.hlevel (codes, shared.the_row.coded) };

    ghost use Rattle.node_trail.specs.Segments.{all_some};

    ghost view = { λ l. all_some l.list.items };
}

impl Legs {
    /// No segments.
    pub fn new(alloc: Global) -> Legs
        ensures { result ≡ [] }
    {
        Legs {
            list: SmallVec::new(alloc),
        }
    }

    /// Appends a segment.
    pub fn push(&mut self, leg: Leg) -> Result<(), NoMemory>
        ensures { OnOk result (self.new ≡ self.old ++ leg ∷ []) }
    {
        self.list.push(Some(leg))?;
        Ok(())
    }

    /// The segments; each of them is there.
    pub fn as_slice(&self) -> &[Option<Leg>]
        ensures { all_some result.now ≡ self.now }
    {
        self.list.as_slice()
    }

    /// The same segments from the last to the first.
    pub fn turned(self, alloc: Global) -> Result<Legs, NoMemory>
        ensures { IfOk result (λ legs. legs ≡ reverse self) }
    {
        let Legs { list } = self;
        let mut left = list;
        let mut legs = Legs::new(alloc);
        while let Some(last) = left.pop() {
            if let Some(leg) = last {
                legs.push(leg)?;
            }
        }
        Ok(legs)
    }
}
