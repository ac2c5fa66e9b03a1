//! The numbers of heads in a program's text.
ghost use Rattle.std.specs.Prelude.{◌≡◌, ◌<◌, ◌^◌, ◌-◌, true, length, drop};
ghost use Rattle.au_model.specs.Terms.Forms.{is_callable};
ghost use Rattle.clause_compile.specs.Places.{IsPlaceOf, meaning_in, BeginsCompound};
ghost use Rattle.proc_index.specs.Keys.{key_of};
ghost use Rattle.clause_index.specs.Functors.{IsFunctorAt};
ghost use Rattle.clause_index.specs.HeadKeys.{IsHeadKeyOf, IsKeyAmong, named_key};

use crate::key::{HeadKey, NumberKey};
use clause_compile::{Code, Place};

impl NumberKey {
    /// The key of the term at a place; none for a variable.
    pub fn of_place(code: &Code, place: Place) -> Option<NumberKey>
        requires { IsPlaceOf code.now place }
        ensures there { IsKeyAmong code.now.names result }
        ensures key { named_key code.now.names result ≡ key_of (meaning_in code.now place) }
    {
        match place {
            Place::Var(_) => None,
            Place::Int(value) => Some(NumberKey::Int(value)),
            Place::Atom(name) => Some(NumberKey::Atom(name)),
            Place::Sub(at) | Place::Ground(at) => {
                let (name, arity) = functor_at(code, at);
                Some(NumberKey::Functor(name, arity))
            }
            Place::Functor(_, _) => unreachable!(),
        }
    }
}

impl HeadKey {
    /// The numbers of the head at a place.
    pub fn of_head(code: &Code, head: Place) -> HeadKey
        requires there { IsPlaceOf code.now head }
        requires callable { is_callable (meaning_in code.now head) ≡ true }
        ensures { IsHeadKeyOf code.now.names (meaning_in code.now head) result }
    {
        match head {
            Place::Atom(name) => HeadKey {
                name,
                arity: 0,
                first: None,
            },
            Place::Sub(at) | Place::Ground(at) => {
                let (name, arity) = functor_at(code, at);
                let first = NumberKey::of_place(code, code.place(at + 1));
                HeadKey { name, arity, first }
            }
            _ => unreachable!(),
        }
    }
}

/// The functor at a place.
fn functor_at(code: &Code, at: usize) -> (u32, u32)
    requires { BeginsCompound (length code.now.names) (drop at code.now.places) }
    ensures functor { IsFunctorAt code.now at result.0 result.1 }
    ensures short { at < 2 ^ 64 - 1 }
{
    // The proof reads off that the arguments of compounds stand before them.
    let _places = code.len();
    match code.place(at) {
        Place::Functor(name, arity) => (name, arity),
        _ => unreachable!(),
    }
}
