//! A closing that rests changes the nodes.
ghost use Rattle.std.specs.Prelude.{◌≡◌, ◌∷◌, [], true, false, IsSome, IfOk, OnOk, OnErr, length};
ghost use Rattle.std.specs.Arc.{arc_value};
ghost use Rattle.tree_model.specs.Credits.{no_credit, without_records};
ghost use Rattle.tree_model.specs.EventViews.{place_view};
ghost use Rattle.tree_nodes.specs.Bodies.{body_view};
ghost use Rattle.tree_nodes.specs.Changes.{SetsCell, KeepsNumbers, IsLonger};
ghost use Rattle.tree_nodes.specs.Rows.{ClosedCell, cell_at, credit_view};
ghost use Rattle.tree_nodes.specs.Staying.{StayMade};
ghost use Rattle.tree_closing.specs.Sleeping.{right_of, IsBesideSleeper};
ghost use Rattle.tree_closing.specs.Closings.{ClosesHere, HasSleeper, is_waking, IsSingle, Rests, RestsWoken, credit_after};

use crate::way_up::{Beside, Closing};
use au_term::{Bindings, NoMemory, Segment, VarNo};
use clause_compile::Branch;
use std::alloc::Global;
use std::sync::Arc;
use tree_model::AltRef;
use tree_nodes::{AltState, Credit, NodeBody, NodeKind, Nodes, Records};

/// Closes the alternative in which a closing rests, where nothing wakes.
pub fn settle(nodes: &mut Nodes, closing: Closing)
    requires there { IsSome (cell_at nodes.old.rows (place_view closing.end)) }
    requires sleeper { HasSleeper closing.beside nodes.old.rows (place_view closing.end) }
    requires quiet { is_waking closing.beside ≡ false }
    ensures rests { Rests nodes.old nodes.new (place_view closing.end) (credit_view closing.credit) closing.beside }
    ensures numbers { KeepsNumbers nodes.old nodes.new }
    ensures made { StayMade nodes.old.rows nodes.new.rows }
{
    let Closing {
        end,
        credit,
        beside,
    } = closing;
    match beside {
        Beside::Same => {}
        Beside::Closes => close_sleeper(nodes, end),
        Beside::Gathers => unreachable!(),
        Beside::Ends => unreachable!(),
    }
    close_here(nodes, end, credit);
}

/// Closes the alternative in which a closing rests, and wakes what sleeps beside it: that goes on below a new node of one
/// branch, whose number is the answer.
pub fn wake(nodes: &mut Nodes, closing: Closing, body: Arc<NodeBody>) -> Result<u64, NoMemory>
    requires there { IsSome (cell_at nodes.old.rows (place_view closing.end)) }
    requires sleeper { HasSleeper closing.beside nodes.old.rows (place_view closing.end) }
    requires waking { is_waking closing.beside ≡ true }
    requires single { IsSingle (body_view (arc_value body)) }
    ensures rests { IfOk result (RestsWoken nodes.old nodes.new (place_view closing.end) (credit_view closing.credit) closing.beside (body_view (arc_value body))) }
    ensures number { IfOk result (λ n. n ≡ length nodes.old.rows) }
    ensures grown { OnOk result (IsLonger nodes.old nodes.new) }
    ensures err { OnErr result (nodes.new ≡ nodes.old) }
    ensures made { StayMade nodes.old.rows nodes.new.rows }
{
    // The proof reads off that there is a tree.
    let _live = nodes.live();
    let Closing {
        end,
        credit,
        beside,
    } = closing;
    let second = AltRef {
        node: end.node,
        alternative: 1,
    };
    let number = nodes.add(Some(second), body)?;
    nodes.set(second, AltState::Inner(number), 0);
    let credit = left_of(nodes.allocator(), beside, credit);
    close_here(nodes, end, credit);
    Ok(number)
}

// Closes an alternative; what was spent on it stays.
fn close_here(nodes: &mut Nodes, at: AltRef, credit: Credit)
    requires { IsSome (cell_at nodes.old.rows (place_view at)) }
    ensures closed { ClosesHere nodes.old nodes.new (place_view at) (credit_view credit) }
    ensures numbers { KeepsNumbers nodes.old nodes.new }
    ensures made { StayMade nodes.old.rows nodes.new.rows }
{
    let spent = nodes.spent(at);
    nodes.set(at, AltState::Closed(credit), spent);
}

// What sleeps beside an alternative closes with nothing.
fn close_sleeper(nodes: &mut Nodes, end: AltRef)
    requires there { IsSome (cell_at nodes.old.rows (place_view end)) }
    requires sleeper { IsBesideSleeper nodes.old.rows (place_view end) }
    ensures closed { SetsCell nodes.old nodes.new (right_of (place_view end)) 0 (ClosedCell no_credit) }
    ensures there { IsSome (cell_at nodes.new.rows (place_view end)) }
    ensures numbers { KeepsNumbers nodes.old nodes.new }
    ensures made { StayMade nodes.old.rows nodes.new.rows }
{
    // The proof reads off that there is a tree.
    let _live = nodes.live();
    let second = AltRef {
        node: end.node,
        alternative: 1,
    };
    let credit = Credit {
        inferences: 0,
        answers: 0,
        records: Records::new(nodes.allocator()),
    };
    nodes.set(second, AltState::Closed(credit), 0);
}

// What is left of a credit beside what sleeps: a findall has used its records.
fn left_of(alloc: Global, beside: Beside, credit: Credit) -> Credit
    ensures { credit_view result ≡ credit_after beside (credit_view credit) }
{
    match beside {
        Beside::Gathers => Credit {
            inferences: credit.inferences,
            answers: credit.answers,
            records: Records::new(alloc),
        },
        Beside::Same | Beside::Closes | Beside::Ends => credit,
    }
}

/// What a node of one branch is made from, which takes no variables and makes no bindings but those of the branch.
pub fn body_of_one(alloc: Global, base: VarNo, branch: Branch) -> Result<Arc<NodeBody>, NoMemory>
    ensures single { IfOk result (λ body. IsSingle (body_view (arc_value body))) }
    ensures branch { IfOk result (λ body. (body_view (arc_value body)).branches ≡ branch ∷ []) }
    ensures segment { IfOk result (λ body. (body_view (arc_value body)).segment ≡ record { base = base; vars = 0; bindings = [] }) }
{
    let segment = Segment {
        base,
        vars: 0,
        bindings: Bindings::new(alloc),
    };
    let mut branches = Vec::new(alloc);
    branches.push(branch)?;
    Ok(Arc::new(
        alloc,
        NodeBody {
            segment: Arc::new(alloc, segment)?,
            branches,
            kind: NodeKind::Choice,
        },
    )?)
}
