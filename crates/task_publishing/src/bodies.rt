//! Bodies of nodes, made of choice points that have alternatives left.
ghost use Rattle.std.specs.Prelude.{◌≡◌, ◌∷◌, [], IfOk};
ghost use Rattle.std.specs.Arc.{arc_value};
ghost use Rattle.tree_nodes.specs.Bodies.{body_view, kind_view};
ghost use Rattle.public_tree.specs.Publishing.{bodies_view};
ghost use Rattle.task_publishing.specs.MadeBodies.{IsBodyOf, IsLeading, AreBodiesOf, IsAloneBody, MakeBodies, published_kind};

use crate::branches::{branch_of, branches_of};
use crate::steps::{Lead, LiveChoice, LiveChoices, joined};
use au_term::{Bindings, NoMemory, Segment, VarNo};
use clause_compile::{Branch, Goals};
use region_capture::{CapturedAlternative, CapturedKind};
use std::alloc::Global;
use std::sync::Arc;
use tree_nodes::{NodeBody, NodeKind};

/// The bodies of choice points, the outermost first, by the goals of each number of items: the first branch of each leads to the
/// next one, and that of the last is what is left to do of an alternative. It is alone in a body where there is no choice point.
pub(crate) fn bodies_of(
    alloc: Global,
    live: LiveChoices,
    current: CapturedAlternative,
    goals: &[Goals],
) -> Result<Vec<Arc<NodeBody>>, NoMemory>
    ensures { IfOk result (λ bodies. MakeBodies goals.now live current (bodies_view bodies.items)) }
{
    let LiveChoices { choices, since } = live;
    let Lead { base, bindings } = since;
    let CapturedAlternative {
        first,
        bindings: own,
        next,
    } = current;
    let whole = CapturedAlternative {
        first,
        bindings: joined(bindings, own)?,
        next,
    };
    let branch = branch_of(whole, base, goals)?;
    let mut choices = choices;
    let innermost = choices.pop();
    let mut bodies = outer_bodies(alloc, choices, goals)?;
    let body = match innermost {
        Some(choice) => body_of(alloc, choice, branch, goals)?,
        None => alone_body(alloc, base, branch)?,
    };
    bodies.push(Arc::new(alloc, body)?)?;
    Ok(bodies)
}

fn outer_bodies(
    alloc: Global,
    choices: Vec<LiveChoice>,
    goals: &[Goals],
) -> Result<Vec<Arc<NodeBody>>, NoMemory>
    ensures { IfOk result (λ bodies. AreBodiesOf goals.now choices.items (bodies_view bodies.items)) }
{
    let mut bodies = Vec::new(alloc);
    for choice in choices {
        let first = leading_branch(alloc, choice.next);
        let body = body_of(alloc, choice, first, goals)?;
        bodies.push(Arc::new(alloc, body)?)?;
    }
    Ok(bodies)
}

fn body_of(
    alloc: Global,
    choice: LiveChoice,
    first: Branch,
    goals: &[Goals],
) -> Result<NodeBody, NoMemory>
    ensures { IfOk result (λ body. IsBodyOf goals.now choice first (body_view body)) }
{
    let LiveChoice {
        kind,
        lead,
        next,
        alternatives,
    } = choice;
    let Lead { base, bindings } = lead;
    let segment = Segment {
        base,
        vars: u64::from(next.saturating_sub(base)),
        bindings,
    };
    Ok(NodeBody {
        segment: Arc::new(alloc, segment)?,
        branches: branches_of(alloc, first, alternatives, next, goals)?,
        kind: kind_of(kind),
    })
}

fn alone_body(alloc: Global, base: VarNo, branch: Branch) -> Result<NodeBody, NoMemory>
    ensures { IfOk result (λ body. IsAloneBody base branch (body_view body)) }
{
    let mut branches = Vec::new(alloc);
    branches.push(branch)?;
    Ok(NodeBody {
        segment: Arc::new(alloc, empty_segment(alloc, base))?,
        branches,
        kind: NodeKind::Choice,
    })
}

fn leading_branch(alloc: Global, base: VarNo) -> Branch
    ensures { IsLeading base result }
{
    Branch {
        goals: Goals::empty(),
        segment: empty_segment(alloc, base),
    }
}

fn empty_segment(alloc: Global, base: VarNo) -> Segment
    ensures { result ≡ record { base = base; vars = 0; bindings = [] } }
{
    Segment {
        base,
        vars: 0,
        bindings: Bindings::new(alloc),
    }
}

fn kind_of(kind: CapturedKind) -> NodeKind
    ensures { kind_view result ≡ published_kind kind }
{
    match kind {
        CapturedKind::Choice => NodeKind::Choice,
        CapturedKind::Catch { catcher, recovery } => NodeKind::Catch { catcher, recovery },
        CapturedKind::Findall { list, results } => NodeKind::Findall { results, list },
    }
}
