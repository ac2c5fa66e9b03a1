//! Lists sorted.
ghost use Rattle.std.specs.Prelude.{◌≡◌, OnOk};
ghost use Rattle.au_term.specs.PrefixOrder.{cells_of};
ghost use Rattle.run_model.specs.Goals.StandardOrder.{order};
ghost use Rattle.run_model.specs.Goals.Sorting.{sorted_by, sorted_terms, precedes, is_key_before, key_of_pair};

use crate::comparison::{compare, compare_all};
use au_term::{Cell, FlatTerm, NoMemory};
use std::cmp::Ordering;

/// Sorts terms in the standard order, each kept once.
pub fn sort_unique(terms: &mut Vec<FlatTerm>) -> Result<(), NoMemory>
    ensures { OnOk result (terms.new.items ≡ sorted_terms terms.old.items) }
{
    sort_terms(terms)?;
    terms.dedup_by(|next, last| compare(next, last).is_eq());
    Ok(())
}

/// Sorts terms in the standard order.
fn sort_terms(terms: &mut Vec<FlatTerm>) -> Result<(), NoMemory>
    ensures { OnOk result (terms.new.items ≡ sorted_by precedes terms.old.items) }
{
    terms.sort_by(|left, right| compare(left, right))?;
    Ok(())
}

/// Sorts pairs by their keys. Pairs with the same key keep their order.
pub fn key_sort(pairs: &mut Vec<FlatTerm>) -> Result<(), NoMemory>
    ensures { OnOk result (pairs.new.items ≡ sorted_by is_key_before pairs.old.items) }
{
    pairs.sort_by(|left, right| compare_keys(left, right))?;
    Ok(())
}

/// How the keys of two pairs stand to one another.
fn compare_keys(left: &FlatTerm, right: &FlatTerm) -> Ordering
    ensures { result ≡ order (key_of_pair left.now) (key_of_pair right.now) }
{
    compare_all(key_cells(left), key_cells(right))
}

/// The cells of a pair's key.
fn key_cells(pair: &FlatTerm) -> &[Cell]
    ensures { result.now ≡ cells_of (key_of_pair pair.now) }
{
    if pair.arity() == 0 {
        return pair.cells();
    }
    pair.arg(0)
}
