//! How many cells the subterms of a term take.
ghost use Rattle.std.specs.Prelude.{◌≡◌, ◌+◌, length};
ghost use Rattle.au_term.specs.PrefixOrder.{all_cells, terms_of, IsForest};
ghost use Rattle.au_term.specs.SubtermSizes.{all_sizes, HasSizes};
ghost use Rattle.au_term.specs.Term.{Terms, take_terms};

use crate::cell::Cell;

/// The place after the first `number` of the terms that begin at `start`, by a step for each.
pub(crate) fn skip_terms(sizes: &[usize], start: usize, number: u32) -> usize
    requires { (ts : Terms) × HasSizes sizes.now start number ts }
    ensures { (ts : Terms) → HasSizes sizes.now start number ts → result ≡ start + length (all_cells (take_terms number ts)) }
{
    let mut at = start;
    for _passed in 0..number {
        at += sizes[at];
    }
    at
}

/// Fills in the sizes, from the last cell to the first. In all it takes a step for each cell,
/// since each subterm is passed once, for the term whose argument it is.
pub(crate) fn fill_sizes(cells: &[Cell], sizes: &mut [usize])
    requires forest { IsForest cells.now }
    requires places { length sizes.old ≡ length cells.now }
    ensures { sizes.new ≡ all_sizes (terms_of cells.now) }
{
    let mut at = cells.len();
    while at > 0 {
        let end = skip_terms(sizes, at, cells[at - 1].arity());
        at -= 1;
        sizes[at] = end - at;
    }
}
