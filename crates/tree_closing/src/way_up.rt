//! Where a closing comes to rest.
ghost use Rattle.std.specs.Prelude.{◌≡◌, IsSome, IfOk};
ghost use Rattle.tree_model.specs.EventViews.{place_view};
ghost use Rattle.tree_model.specs.Credits.{added, credit_of};
ghost use Rattle.tree_nodes.specs.Rows.{cell_at, credit_view};
ghost use Rattle.tree_closing.specs.Closings.{ClosesUpTo, ComesToRest, HasSleeper};

use crate::sleeping::{Sleeping, sleeper_beside};
use au_term::NoMemory;
use tree_model::AltRef;
use tree_nodes::{Credit, Nodes};

/// What comes of what sleeps beside an alternative in which a closing rests.
#[derive(Clone, Copy, Debug, PartialEq, Eq)]
pub enum Beside {
    /// Nothing sleeps there.
    Same,
    /// A recovery, whose node is below no alternative, closes.
    Closes,
    /// What follows a findall wakes, with the records.
    Gathers,
    /// The end of a query wakes.
    Ends,
}

/// Where a closing comes to rest, with what credit, and what comes of what sleeps beside it.
#[derive(Drop)]
pub struct Closing {
    pub end: AltRef,
    pub credit: Credit,
    pub beside: Beside,
}

/// Where an alternative that closes with this credit comes to rest.
pub fn find_rest(nodes: &Nodes, at: AltRef, credit: Credit) -> Result<Closing, NoMemory>
    requires { IsSome (cell_at nodes.now.rows (place_view at)) }
    ensures rests { IfOk result (λ r. ComesToRest nodes.now (place_view at) (credit_view credit) (place_view r.end) (credit_view r.credit) r.beside) }
    ensures there { IfOk result (λ r. IsSome (cell_at nodes.now.rows (place_view r.end))) }
    ensures sleeper { IfOk result (λ r. HasSleeper r.beside nodes.now.rows (place_view r.end)) }
{
    let mut at = at;
    let mut credit = credit;
    loop {
        let (end, total) = nodes.folded(at, credit)?;
        let beside = match sleeper_beside(nodes, end) {
            Sleeping::Nothing => Beside::Same,
            Sleeping::Following => Beside::Gathers,
            Sleeping::QueryEnd => Beside::Ends,
            Sleeping::Recovery => match nodes.parent(end.node) {
                Some(above) => {
                    at = above;
                    credit = after(nodes.spent(above), total);
                    continue;
                }
                None => Beside::Closes,
            },
        };
        return Ok(Closing {
            end,
            credit: total,
            beside,
        });
    }
}

// A credit with inferences before it.
fn after(inferences: u64, credit: Credit) -> Credit
    ensures { credit_view result ≡ added (credit_of inferences) (credit_view credit) }
{
    Credit {
        inferences: inferences.saturating_add(credit.inferences),
        answers: 0u64.saturating_add(credit.answers),
        records: credit.records,
    }
}
