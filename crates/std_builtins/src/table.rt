//! The built-in predicates by name and number of arguments.
ghost use Rattle.std.specs.Prelude.{◌≡◌, None, is_some, MatchOption, map};
ghost use Rattle.std.specs.List.{list_any};
ghost use Rattle.std.specs.Str.{chars};
ghost use Rattle.run_model.specs.Goals.Control.{construct_of};
ghost use Rattle.run_model.specs.Goals.Builtins.{builtins};
ghost use Rattle.std_builtins.specs.Rows.{kind_in, is_row, IsRowOf};

use crate::comparisons::Comparison;
use crate::spelling::Spelling;
use crate::type_tests::TypeTest;

/// What a built-in predicate does.
#[derive(Clone, Copy, Debug, PartialEq, Eq)]
pub enum Builtin {
    Unify,
    Differ,
    Type(TypeTest),
    Order(Comparison),
    Compare,
    Is,
    Value(Comparison),
    Functor,
    Argument,
    Parts,
    Copy,
    AtomLength,
    CharCode,
    AtomText(Spelling),
    AtomConcat,
    SubAtom,
    NumberText(Spelling),
    Sort,
    KeySort,
}

/// Each built-in predicate with its name and number of arguments.
const BUILTINS: [(&str, u32, Builtin); 40] = [
    ("=", 2, Builtin::Unify),
    ("\\=", 2, Builtin::Differ),
    ("unify_with_occurs_check", 2, Builtin::Unify),
    ("var", 1, Builtin::Type(TypeTest::Variable)),
    ("nonvar", 1, Builtin::Type(TypeTest::Nonvariable)),
    ("atom", 1, Builtin::Type(TypeTest::Atom)),
    ("integer", 1, Builtin::Type(TypeTest::Integer)),
    ("number", 1, Builtin::Type(TypeTest::Integer)),
    ("atomic", 1, Builtin::Type(TypeTest::Atomic)),
    ("compound", 1, Builtin::Type(TypeTest::Compound)),
    ("callable", 1, Builtin::Type(TypeTest::Callable)),
    ("ground", 1, Builtin::Type(TypeTest::Ground)),
    ("==", 2, Builtin::Order(Comparison::Equal)),
    ("\\==", 2, Builtin::Order(Comparison::NotEqual)),
    ("@<", 2, Builtin::Order(Comparison::Less)),
    ("@=<", 2, Builtin::Order(Comparison::AtMost)),
    ("@>", 2, Builtin::Order(Comparison::Greater)),
    ("@>=", 2, Builtin::Order(Comparison::AtLeast)),
    ("compare", 3, Builtin::Compare),
    ("is", 2, Builtin::Is),
    ("=:=", 2, Builtin::Value(Comparison::Equal)),
    ("=\\=", 2, Builtin::Value(Comparison::NotEqual)),
    ("<", 2, Builtin::Value(Comparison::Less)),
    ("=<", 2, Builtin::Value(Comparison::AtMost)),
    (">", 2, Builtin::Value(Comparison::Greater)),
    (">=", 2, Builtin::Value(Comparison::AtLeast)),
    ("functor", 3, Builtin::Functor),
    ("arg", 3, Builtin::Argument),
    ("=..", 2, Builtin::Parts),
    ("copy_term", 2, Builtin::Copy),
    ("atom_length", 2, Builtin::AtomLength),
    ("char_code", 2, Builtin::CharCode),
    ("atom_chars", 2, Builtin::AtomText(Spelling::Characters)),
    ("atom_codes", 2, Builtin::AtomText(Spelling::Codes)),
    ("atom_concat", 3, Builtin::AtomConcat),
    ("sub_atom", 5, Builtin::SubAtom),
    ("number_chars", 2, Builtin::NumberText(Spelling::Characters)),
    ("number_codes", 2, Builtin::NumberText(Spelling::Codes)),
    ("sort", 2, Builtin::Sort),
    ("keysort", 2, Builtin::KeySort),
];

/// The built-in predicate of this name and number of arguments, if there is one.
pub fn builtin_of(name: &str, arity: u32) -> Option<Builtin>
    ensures { MatchOption result (construct_of builtins (chars name.now) arity ≡ None) (IsRowOf (chars name.now) arity) }
{
    builtin_among(&BUILTINS, name, arity)
}

/// The case of the first of these rows that has this name and number of arguments.
fn builtin_among(rows: &[(&str, u32, Builtin)], name: &str, arity: u32) -> Option<Builtin>
    ensures { result ≡ kind_in (chars name.now) arity (map (λ row. (chars row.0.now, row.1, row.2)) rows.now) }
{
    for row in rows {
        if is_row(row.0, row.1, name, arity) {
            return Some(row.2);
        }
    }
    None
}

/// Whether a name with so many arguments is that of a built-in predicate.
pub fn is_builtin(name: &str, arity: u32) -> bool
    ensures { result ≡ is_some (construct_of builtins (chars name.now) arity) }
{
    is_among(&BUILTINS, name, arity)
}

/// Whether a name with so many arguments has one of these rows.
fn is_among(rows: &[(&str, u32, Builtin)], name: &str, arity: u32) -> bool
    ensures { result ≡ list_any (λ row. is_row (chars name.now) arity (chars row.0.now) row.1) rows.now }
{
    rows.iter().any(|row| is_row(row.0, row.1, name, arity))
}

/// Whether a row's name and number are this name and number of arguments.
pub(crate) fn is_row(row: &str, count: u32, name: &str, arity: u32) -> bool
    ensures { result ≡ is_row (chars name.now) arity (chars row.now) count }
{
    count == arity && row == name
}
