//! What compounds are made of (ISO/IEC 13211-1, 8.5).
ghost use Rattle.std.specs.Prelude.{◌≡◌, Ok, [], true, pos, MatchOption};
ghost use Rattle.au_term.specs.Term.{Term, IntTerm};
ghost use Rattle.run_model.specs.Goals.TermParts.{argument_answer};
ghost use Rattle.run_model.specs.Goals.TermTests.{is_variable, is_compound};
ghost use Rattle.cell_store.specs.StoreView.{IsValueIn, meaning};
ghost use Rattle.value_goals.specs.Parts.{IsFunctorOf, IsArgumentOf};

use binding_array::BindingCell;
use cell_store::Store;

/// The name of a compound, or an atomic term itself, and how many arguments there are; none of a variable.
pub fn functor(store: &Store, value: BindingCell) -> Option<(BindingCell, u32)>
    requires { IsValueIn store.now value }
    ensures { MatchOption result (is_variable (meaning store.now value) ≡ true) (IsFunctorOf store.now value) }
{
    match store.dereference(value) {
        BindingCell::Free => unreachable!(),
        BindingCell::Var(_) => None,
        BindingCell::Int(value) => Some((BindingCell::Int(value), 0)),
        BindingCell::Atom(name) => Some((BindingCell::Atom(name), 0)),
        BindingCell::Compound(at, _) => {
            let (name, count) = store.functor(at);
            Some((BindingCell::Atom(name), count))
        }
    }
}

/// The argument of a compound with a number, counted from 1.
pub fn argument(store: &Store, number: u64, value: BindingCell) -> Option<BindingCell>
    requires there { IsValueIn store.now value }
    requires compound { is_compound (meaning store.now value) ≡ true }
    ensures { MatchOption result ((x : Term) → argument_answer (IntTerm (pos number)) (meaning store.now value) x ≡ Ok []) (IsArgumentOf store.now number value) }
{
    let BindingCell::Compound(at, base) = store.dereference(value) else {
        unreachable!()
    };
    let (_name, count) = store.functor(at);
    if number == 0 || number > u64::from(count) {
        return None;
    }
    Some(store.argument(at + number as u32, base))
}
