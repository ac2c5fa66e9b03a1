//! Arguments and items tested one after another: the first that fails is the error.
ghost use Rattle.std.specs.Prelude.{◌≡◌, ◌∷◌, [], IfOk, map};
ghost use Rattle.au_model.specs.Terms.Faults.{error_term_of};
ghost use Rattle.run_model.specs.Goals.BuiltinAnswers.{Answer};
ghost use Rattle.run_model.specs.Goals.AtomGoals.{with_each, with_counts};
ghost use Rattle.std_builtins.specs.Checks.{check_test, check_error, opens_key_pair, IsPassed};

use crate::answer::BuiltinRefusal;
use au_model::{DomainName, Fault, TypeName};
use au_term::{Cell, FlatTerm, NoMemory};

/// What terms may have to be.
#[derive(Clone, Copy, Debug, PartialEq, Eq)]
pub(crate) enum Check {
    /// No variable.
    Bound,
    Integer,
    /// An atom or a variable.
    OpenAtom,
    /// An integer or a variable.
    OpenInteger,
    NotBelowZero,
    /// `K-V`.
    Pair,
}

impl Check {
    /// Whether a term is that.
    pub(crate) fn passes(self, term: &FlatTerm) -> bool
        ensures { result ≡ check_test self term.now }
    {
        let top = term.top();
        match self {
            Check::Bound => !matches!(top, Cell::Var(_)),
            Check::Integer => matches!(top, Cell::Int(_)),
            Check::OpenAtom => matches!(top, Cell::Var(_) | Cell::Atom(_)),
            Check::OpenInteger => matches!(top, Cell::Var(_) | Cell::Int(_)),
            Check::NotBelowZero => match top {
                Cell::Int(value) => *value >= 0,
                _ => true,
            },
            Check::Pair => is_key_pair(top),
        }
    }

    /// The error of a term that is not.
    fn fault(self, term: &FlatTerm) -> Result<Fault, NoMemory>
        ensures { IfOk result (λ fault. check_error self term.now ≡ error_term_of fault) }
    {
        let culprit = term.copy()?;
        Ok(match self {
            Check::Bound => Fault::Instantiation,
            Check::Integer => Fault::WrongType(TypeName::Integer, culprit),
            Check::OpenAtom => Fault::WrongType(TypeName::Atom, culprit),
            Check::OpenInteger => Fault::WrongType(TypeName::Integer, culprit),
            Check::NotBelowZero => Fault::Domain(DomainName::NotLessThanZero, culprit),
            Check::Pair => match term.top() {
                Cell::Var(_) => Fault::Instantiation,
                _ => Fault::WrongType(TypeName::Pair, culprit),
            },
        })
    }
}

/// Whether a term with this first cell is a key and a value.
fn is_key_pair(cell: &Cell) -> bool
    ensures { result ≡ opens_key_pair cell.now }
{
    match cell {
        Cell::Functor(name, arity) => *arity == 2 && name.is_text("-"),
        _ => false,
    }
}

/// Tests terms from the left.
pub(crate) fn check_each(check: Check, terms: &[FlatTerm]) -> Result<(), BuiltinRefusal>
    ensures { (a : Answer) → IsPassed (with_each (check_test check) (check_error check) terms.now a) a result }
{
    for term in terms {
        if !check.passes(term) {
            return Err(BuiltinRefusal::Fault(check.fault(term)?));
        }
    }
    Ok(())
}

/// Tests arguments from the left.
pub(crate) fn check_all(check: Check, terms: &[&FlatTerm]) -> Result<(), BuiltinRefusal>
    ensures { (a : Answer) → IsPassed (with_each (check_test check) (check_error check) (map (λ t. t.now) terms.now) a) a result }
{
    for term in terms {
        if !check.passes(term) {
            return Err(BuiltinRefusal::Fault(check.fault(term)?));
        }
    }
    Ok(())
}

/// Tests a length or a place that is asked for.
pub(crate) fn check_number(term: &FlatTerm) -> Result<(), BuiltinRefusal>
    ensures { (a : Answer) → IsPassed (with_counts (term.now ∷ []) a) a result }
{
    match term.top() {
        Cell::Var(_) => Ok(()),
        Cell::Int(value) if *value >= 0 => Ok(()),
        Cell::Int(_) => Err(BuiltinRefusal::Fault(Check::NotBelowZero.fault(term)?)),
        _ => Err(BuiltinRefusal::Fault(Check::OpenInteger.fault(term)?)),
    }
}
