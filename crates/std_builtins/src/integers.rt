//! Integers as terms.
ghost use Rattle.std.specs.Prelude.{◌≡◌, IfOk};
ghost use Rattle.au_term.specs.Term.{IntTerm};

use au_model::build::single;
use au_term::{Cell, FlatTerm, NoMemory};
use std::alloc::Global;

/// An integer.
pub(crate) fn integer(alloc: Global, value: i64) -> Result<FlatTerm, NoMemory>
    ensures { IfOk result (λ t. t ≡ IntTerm value) }
{
    single(alloc, Cell::Int(value))
}
