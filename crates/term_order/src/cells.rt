//! Cells compared.
ghost use Rattle.std.specs.Prelude.{◌≡◌};
ghost use Rattle.term_order.specs.Cells.{cell_order};

use au_term::Cell;
use std::cmp::Ordering;

/// How the terms that begin with two cells stand to one another, as far as the cells tell.
pub(crate) fn compare_cells(left: &Cell, right: &Cell) -> Ordering
    ensures { result ≡ cell_order left.now right.now }
{
    match (left, right) {
        (Cell::Var(m), Cell::Var(n)) => m.cmp(n),
        (Cell::Var(_), _) => Ordering::Less,
        (_, Cell::Var(_)) => Ordering::Greater,
        (Cell::Int(y), Cell::Int(z)) => y.cmp(z),
        (Cell::Int(_), _) => Ordering::Less,
        (_, Cell::Int(_)) => Ordering::Greater,
        (Cell::Atom(a), Cell::Atom(b)) => a.cmp(b),
        (Cell::Atom(_), _) => Ordering::Less,
        (_, Cell::Atom(_)) => Ordering::Greater,
        (Cell::Functor(f, m), Cell::Functor(g, n)) => m.cmp(n).then(f.cmp(g)),
    }
}
