//! Built-in predicates called.
ghost use Rattle.std.specs.Prelude.{◌≡◌, length};
ghost use Rattle.au_model.specs.Terms.Lists.{terms_from};
ghost use Rattle.std_builtins.specs.Answers.{IsAnswer};
ghost use Rattle.std_builtins.specs.Meanings.{answer_of, arguments_of};

use crate::answer::{BuiltinRefusal, Solution, equal, holds_if};
use crate::argument::argument;
use crate::arithmetic::{compared_values, is};
use crate::atom_concat::atom_concat;
use crate::atoms::{atom_length, char_code};
use crate::comparisons::compared;
use crate::functor::functor;
use crate::numbers::number_text;
use crate::parts::{copied, parts};
use crate::sorting::{keysort, sort};
use crate::spelling::atom_text;
use crate::sub_atom::sub_atom;
use crate::table::Builtin;
use crate::unification::differ;
use au_term::{FlatTerm, VarNo};
use std::alloc::Global;
use term_order::compare;

impl Builtin {
    /// The solutions of a goal with these arguments in their order, with new variables from the next number on; or its
    /// error.
    pub fn call(
        self,
        alloc: Global,
        args: &[FlatTerm],
        next: VarNo,
    ) -> Result<Vec<Solution>, BuiltinRefusal>
        requires { length args.now ≡ arguments_of self }
        ensures { IsAnswer (answer_of self (terms_from args.now) next) result }
    {
        match self {
            Builtin::Unify => equal(alloc, args[0].copy()?, args[1].copy()?),
            Builtin::Differ => holds_if(alloc, differ(alloc, &args[0], &args[1])?),
            Builtin::Type(test) => holds_if(alloc, test.holds(&args[0])),
            Builtin::Order(test) => { holds_if(alloc, test.holds_of(compare(&args[0], &args[1]))) }
            Builtin::Compare => compared(alloc, &args[0], &args[1], &args[2]),
            Builtin::Is => is(alloc, &args[0], &args[1]),
            Builtin::Value(test) => compared_values(alloc, test, &args[0], &args[1]),
            Builtin::Functor => functor(alloc, &args[0], &args[1], &args[2], next),
            Builtin::Argument => argument(alloc, &args[0], &args[1], &args[2]),
            Builtin::Parts => parts(alloc, &args[0], &args[1]),
            Builtin::Copy => copied(alloc, &args[0], &args[1], next),
            Builtin::AtomLength => atom_length(alloc, &args[0], &args[1]),
            Builtin::CharCode => char_code(alloc, &args[0], &args[1]),
            Builtin::AtomText(by) => atom_text(alloc, by, &args[0], &args[1]),
            Builtin::AtomConcat => atom_concat(alloc, &args[0], &args[1], &args[2]),
            Builtin::SubAtom => sub_atom(alloc, &args[0], &args[1], &args[2], &args[3], &args[4]),
            Builtin::NumberText(by) => number_text(alloc, by, &args[0], &args[1]),
            Builtin::Sort => sort(alloc, &args[0], &args[1]),
            Builtin::KeySort => keysort(alloc, &args[0], &args[1]),
        }
    }
}
