//! Trees that are opened.
ghost use Rattle.std.specs.Prelude.{◌≡◌, [], None, Some, false, length, IfOk};
ghost use Rattle.std.specs.Arc.{arc_value};
ghost use Rattle.tree_nodes.specs.Bodies.{IsWhole, body_view};
ghost use Rattle.public_tree.specs.Opening.{opening_body, IsWholeBody, StandsFirst, Opens};

use crate::public::PublicTree;
use au_term::NoMemory;
use std::alloc::Global;
use std::sync::Arc;
use tree_nodes::{NodeBody, Nodes};

impl PublicTree {
    /// The tree of a job to begin with: the node of its first query, or nothing where it has none.
    pub fn open(
        alloc: Global,
        first: Option<Arc<NodeBody>>,
        budget: u64,
        window: u64,
    ) -> Result<PublicTree, NoMemory>
        requires { IsWholeBody (opening_body first) }
        ensures opens { IfOk result (λ p. Opens (opening_body first) p) }
        ensures budget { IfOk result (λ p. p.budget ≡ budget) }
        ensures window { IfOk result (λ p. p.window ≡ window) }
        ensures promised { IfOk result (λ p. p.log.promised ≡ 0) }
    {
        let nodes = first_nodes(alloc, first)?;
        let tree = PublicTree::new(alloc, nodes, budget, window)?;
        Ok(tree)
    }
}

fn first_nodes(alloc: Global, first: Option<Arc<NodeBody>>) -> Result<Nodes, NoMemory>
    requires { IsWholeBody (opening_body first) }
    ensures { IfOk result (λ nodes. StandsFirst (opening_body first) nodes) }
{
    let mut nodes = Nodes::new(alloc);
    match first {
        Some(body) => {
            let _number = nodes.add(None, body)?;
            Ok(nodes)
        }
        None => Ok(nodes),
    }
}
