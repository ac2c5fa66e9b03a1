//! Comparison of terms in the standard order, and of values (ISO/IEC 13211-1, 8.4 and 8.7).
ghost use Rattle.std.specs.Prelude.{◌≡◌, IfOk};
ghost use Rattle.au_term.specs.Term.{AtomTerm};
ghost use Rattle.run_model.specs.Goals.TermTests.{compare_answer, order_symbol, is_order_symbol};
ghost use Rattle.std_builtins.specs.Answers.{IsAnswer};
ghost use Rattle.std_builtins.specs.Meanings.{order_test, value_test};

use crate::answer::{BuiltinRefusal, Solution, equal, failed};
use au_model::build::atom;
use au_model::{DomainName, Fault, TypeName};
use au_term::{Atom, Cell, FlatTerm, NoMemory};
use std::alloc::Global;
use std::cmp::Ordering;
use term_order::compare;

/// How the left side may be to the right one.
#[derive(Clone, Copy, Debug, PartialEq, Eq)]
pub enum Comparison {
    Equal,
    NotEqual,
    Less,
    AtMost,
    Greater,
    AtLeast,
}

impl Comparison {
    /// Whether terms that are ordered so stand to one another in this way.
    pub fn holds_of(self, ordering: Ordering) -> bool
        ensures { result ≡ order_test self ordering }
    {
        match self {
            Comparison::Equal => ordering.is_eq(),
            Comparison::NotEqual => ordering.is_ne(),
            Comparison::Less => ordering.is_lt(),
            Comparison::AtMost => ordering.is_le(),
            Comparison::Greater => ordering.is_gt(),
            Comparison::AtLeast => ordering.is_ge(),
        }
    }

    /// Whether values stand to one another in this way.
    pub fn holds(self, left: i64, right: i64) -> bool
        ensures { result ≡ value_test self left right }
    {
        match self {
            Comparison::Equal => left == right,
            Comparison::NotEqual => left != right,
            Comparison::Less => left < right,
            Comparison::AtMost => left <= right,
            Comparison::Greater => left > right,
            Comparison::AtLeast => left >= right,
        }
    }
}

/// What `compare(O, A, B)` answers.
pub(crate) fn compared(
    alloc: Global,
    symbol: &FlatTerm,
    left: &FlatTerm,
    right: &FlatTerm,
) -> Result<Vec<Solution>, BuiltinRefusal>
    ensures { IsAnswer (compare_answer symbol.now left.now right.now) result }
{
    match symbol.top() {
        Cell::Var(_) => {}
        Cell::Atom(name) => {
            if !is_symbol(name) {
                return failed(Fault::Domain(DomainName::Order, symbol.copy()?));
            }
        }
        _ => return failed(Fault::WrongType(TypeName::Atom, symbol.copy()?)),
    }
    let found = symbol_of(alloc, compare(left, right))?;
    equal(alloc, symbol.copy()?, found)
}

/// Whether an atom is `<`, `=` or `>`.
fn is_symbol(name: &Atom) -> bool
    ensures { result ≡ is_order_symbol name.now }
{
    name.is_text("<") || name.is_text("=") || name.is_text(">")
}

/// The atom for an order.
fn symbol_of(alloc: Global, ordering: Ordering) -> Result<FlatTerm, NoMemory>
    ensures { IfOk result (λ t. t ≡ AtomTerm (order_symbol ordering)) }
{
    match ordering {
        Ordering::Less => atom(alloc, "<"),
        Ordering::Equal => atom(alloc, "="),
        Ordering::Greater => atom(alloc, ">"),
    }
}
