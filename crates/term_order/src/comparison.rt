//! Terms compared (ISO/IEC 13211-1, 7.2).
ghost use Rattle.std.specs.Prelude.{◌≡◌};
ghost use Rattle.std.specs.Cmp.Lexicographic.{slice_cmp};
ghost use Rattle.run_model.specs.Goals.StandardOrder.{order};
ghost use Rattle.term_order.specs.Cells.{cell_order};

use crate::cells::compare_cells;
use au_term::{Cell, FlatTerm};
use std::cmp::Ordering;

/// How two terms stand to one another in the standard order.
pub fn compare(left: &FlatTerm, right: &FlatTerm) -> Ordering
    ensures { result ≡ order left.now right.now }
{
    compare_all(left.cells(), right.cells())
}

/// How lists of cells stand to one another: the first two that differ decide, and else the lengths.
pub(crate) fn compare_all(left: &[Cell], right: &[Cell]) -> Ordering
    ensures { result ≡ slice_cmp cell_order left.now right.now }
{
    let common = left.len().min(right.len());
    for at in 0..common {
        let ordering = compare_cells(&left[at], &right[at]);
        if ordering.is_ne() {
            return ordering;
        }
    }
    left.len().cmp(&right.len())
}
