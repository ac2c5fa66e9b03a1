//! From cells after their arguments to cells in front of them.
ghost use Rattle.std.specs.Prelude.{◌≡◌, List, IfOk, OnOk};
ghost use Rattle.au_term.specs.Term.{Term};
ghost use Rattle.au_term.specs.PrefixOrder.{cells_of};
ghost use Rattle.au_term.specs.declared.cell.Cell.{Cell};
ghost use Rattle.term_reader.specs.Postorder.{postorder};
ghost use Rattle.term_reader.specs.PostorderLevels.{IsCompleting, IsReordering};

use au_term::{Cell, NoMemory};
use std::alloc::Global;

/// A compound's cell, and how many of its arguments are still to come, the last argument first.
#[derive(Drop)]
struct Pending {
    cell: Cell,
    left: u32,
}

/// An argument has come: each compound that has all of them comes too.
fn reduce_operators(waiting: &mut Vec<Pending>, out: &mut Vec<Cell>) -> Result<(), NoMemory>
    ensures { (cells whole : List Cell) → IsCompleting cells waiting.old.items out.old.items whole → OnOk result (IsReordering cells waiting.new.items out.new.items whole) }
{
    while let Some(pending) = waiting.pop() {
        let Pending { cell, left } = pending;
        if left > 1 {
            waiting.push(Pending {
                cell,
                left: left - 1,
            })?;
            return Ok(());
        }
        out.push(cell)?;
    }
    Ok(())
}

/// The cells of a term in prefix order, from those in which each compound's cell is after its arguments.
pub(crate) fn prefix_order(alloc: Global, mut cells: Vec<Cell>) -> Result<Vec<Cell>, NoMemory>
    ensures { (t : Term) → cells.items ≡ postorder t → IfOk result (λ out. out.items ≡ cells_of t) }
{
    let mut push_frame = Vec::new(alloc);
    let mut out = Vec::new(alloc);
    while let Some(cell) = cells.pop() {
        let left = cell.arity();
        if left > 0 {
            push_frame.push(Pending { cell, left })?;
        } else {
            out.push(cell)?;
            reduce_operators(&mut push_frame, &mut out)?;
        }
    }
    out.reverse();
    Ok(out)
}
