//! Tests of what a term is (ISO/IEC 13211-1, 8.3).
ghost use Rattle.std.specs.Prelude.{◌≡◌};
ghost use Rattle.std_builtins.specs.Meanings.{type_test};

use au_term::{Cell, FlatTerm};

/// What a term may be.
#[derive(Clone, Copy, Debug, PartialEq, Eq)]
pub enum TypeTest {
    Variable,
    Nonvariable,
    Atom,
    Integer,
    Atomic,
    Compound,
    Callable,
    Ground,
}

impl TypeTest {
    /// Whether a term is that.
    pub fn holds(self, term: &FlatTerm) -> bool
        ensures { result ≡ type_test self term.now }
    {
        let top = term.top();
        match self {
            TypeTest::Variable => matches!(top, Cell::Var(_)),
            TypeTest::Nonvariable => !matches!(top, Cell::Var(_)),
            TypeTest::Atom => matches!(top, Cell::Atom(_)),
            TypeTest::Integer => matches!(top, Cell::Int(_)),
            TypeTest::Atomic => matches!(top, Cell::Int(_) | Cell::Atom(_)),
            TypeTest::Compound => matches!(top, Cell::Functor(_, _)),
            TypeTest::Callable => matches!(top, Cell::Atom(_) | Cell::Functor(_, _)),
            TypeTest::Ground => term.bound() == 0,
        }
    }
}
