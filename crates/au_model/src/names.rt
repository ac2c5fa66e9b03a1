//! The names of atoms and compounds.
ghost use Rattle.std.specs.Prelude.{◌≡◌, true, IfOk};
ghost use Rattle.au_model.specs.Terms.Forms.{is_callable, name_of};

use au_term::{Atom, Cell, FlatTerm, NoMemory, Shared};

/// The name of an atom or compound.
pub fn name_of(term: &FlatTerm) -> &Atom
    requires { is_callable term.now ≡ true }
    ensures { result.now ≡ name_of term.now }
{
    match term.top() {
        Cell::Atom(name) => name,
        Cell::Functor(name, _) => name,
        _ => unreachable!(),
    }
}

/// The name of a shared atom or compound.
pub fn name_of_shared(term: &Shared) -> Result<Atom, NoMemory>
    requires { is_callable term.now ≡ true }
    ensures { IfOk result (λ name. name ≡ name_of term.now) }
{
    match term.top()? {
        Cell::Atom(name) | Cell::Functor(name, _) => Ok(name),
        _ => unreachable!(),
    }
}
