//! Effects in turn, and what they come to.

/// A cell of a term: a variable, an integer, an atom, or a compound's name and number of arguments.
#[derive(Clone, Copy)]
pub(crate) enum Part {
    V(u32),
    I(i64),
    A(&'static str),
    F(&'static str, u16),
}

use Part::{A, F, I, V};

/// An effect without its arguments.
#[derive(Clone, Copy)]
pub(crate) enum Kind {
    Write,
    Writeq,
    WriteCanonical,
    Nl,
    PutChar,
    Asserta,
    Assertz,
    Retract,
    Abolish,
    Clause,
    Op,
    CurrentOp,
    Halt,
    HaltWith,
    Call,
    Remove,
    Answer,
    No,
    Uncaught,
}

/// An effect, its arguments, and what it comes to.
pub(crate) type Row = (Kind, &'static [&'static [Part]], &'static str);

/// Clauses that are added and called, where `p/1` is static.
pub(crate) static ADDED: [Row; 16] = [
    (Kind::Assertz, &[&[F("c", 1), I(1)]], "true"),
    (Kind::Asserta, &[&[F("c", 1), I(0)]], "true"),
    (
        Kind::Assertz,
        &[&[
            F(":-", 2),
            F("d", 1),
            V(7),
            F(",", 2),
            F("c", 1),
            V(7),
            V(9),
        ]],
        "true",
    ),
    (Kind::Call, &[&[F("c", 1), V(0)]], "clauses 1 0"),
    (Kind::Call, &[&[F("c", 1), I(1)]], "clauses 0"),
    (Kind::Call, &[&[F("c", 1), I(2)]], "clauses"),
    (Kind::Call, &[&[F("d", 1), A("a")]], "clauses 2"),
    (
        Kind::Call,
        &[&[A("e")]],
        "error(existence_error(procedure,e/0),e/0)",
    ),
    (
        Kind::Assertz,
        &[&[V(0)]],
        "error(instantiation_error,assertz/1)",
    ),
    (
        Kind::Asserta,
        &[&[I(4)]],
        "error(type_error(callable,4),asserta/1)",
    ),
    (
        Kind::Assertz,
        &[&[F(":-", 2), A("foo"), I(4)]],
        "error(type_error(callable,4),assertz/1)",
    ),
    (
        Kind::Assertz,
        &[&[F(":-", 2), V(0), I(4)]],
        "error(instantiation_error,assertz/1)",
    ),
    (
        Kind::Assertz,
        &[&[F(":-", 2), F("p", 1), I(1), I(4)]],
        "error(type_error(callable,4),assertz/1)",
    ),
    (
        Kind::Assertz,
        &[&[F(",", 2), A("foo"), A("bar")]],
        "error(permission_error(modify,static_procedure,(',')/2),assertz/1)",
    ),
    (
        Kind::Assertz,
        &[&[F("p", 1), I(1)]],
        "error(permission_error(modify,static_procedure,p/1),assertz/1)",
    ),
    (
        Kind::Asserta,
        &[&[F(":-", 2), F("atom", 1), V(0), A("true")]],
        "error(permission_error(modify,static_procedure,atom/1),asserta/1)",
    ),
];

/// Clauses to be removed.
pub(crate) static LOOKED_UP: [Row; 13] = [
    (Kind::Assertz, &[&[F("c", 1), I(1)]], "true"),
    (Kind::Asserta, &[&[F("c", 1), I(0)]], "true"),
    (
        Kind::Assertz,
        &[&[F(":-", 2), F("d", 1), V(7), A("c")]],
        "true",
    ),
    (
        Kind::Retract,
        &[&[F(":-", 2), A("x"), A("in_win95")]],
        "false",
    ),
    (Kind::Retract, &[&[F("c", 1), I(1)]], "clauses 0"),
    (Kind::Retract, &[&[F("c", 1), V(3)]], "clauses 1 0"),
    (
        Kind::Retract,
        &[&[F(":-", 2), F("d", 1), I(1), V(0)]],
        "clauses 2",
    ),
    (
        Kind::Retract,
        &[&[F("p", 1), I(1)]],
        "error(permission_error(modify,static_procedure,p/1),retract/1)",
    ),
    (
        Kind::Retract,
        &[&[F(":-", 2), V(0), A("true")]],
        "error(instantiation_error,retract/1)",
    ),
    (
        Kind::Retract,
        &[&[F(":-", 2), I(4), V(0)]],
        "error(type_error(callable,4),retract/1)",
    ),
    (Kind::Clause, &[&[F("c", 1), I(0)], &[V(0)]], "clauses 1"),
    (Kind::Clause, &[&[A("zz")], &[V(0)]], "false"),
    (
        Kind::Clause,
        &[&[V(0)], &[I(5)]],
        "error(instantiation_error,clause/2)",
    ),
];

/// Clauses that are looked at, and removed.
pub(crate) static LOOKED_AT: [Row; 13] = [
    (Kind::Assertz, &[&[F("c", 1), I(1)]], "true"),
    (Kind::Asserta, &[&[F("c", 1), I(0)]], "true"),
    (
        Kind::Assertz,
        &[&[F(":-", 2), F("d", 1), V(7), A("c")]],
        "true",
    ),
    (
        Kind::Clause,
        &[&[I(4)], &[I(5)]],
        "error(type_error(callable,4),clause/2)",
    ),
    (
        Kind::Clause,
        &[&[F("p", 1), I(1)], &[I(5)]],
        "error(type_error(callable,5),clause/2)",
    ),
    (
        Kind::Clause,
        &[&[F("p", 1), I(1)], &[V(0)]],
        "error(permission_error(access,private_procedure,p/1),clause/2)",
    ),
    (
        Kind::Clause,
        &[&[F("atom", 1), V(1)], &[V(0)]],
        "error(permission_error(access,private_procedure,atom/1),clause/2)",
    ),
    (Kind::Remove, &[&[I(0)]], "true"),
    (Kind::Remove, &[&[I(0)]], "false"),
    (Kind::Remove, &[&[I(9)]], "false"),
    (Kind::Call, &[&[F("c", 1), V(0)]], "clauses 1"),
    (Kind::Assertz, &[&[F("c", 1), V(5)]], "true"),
    (Kind::Call, &[&[F("c", 1), A("k")]], "clauses 3"),
];

/// Procedures that become unknown.
pub(crate) static ABOLISHED: [Row; 14] = [
    (Kind::Assertz, &[&[F("d", 1), A("a")]], "true"),
    (
        Kind::Abolish,
        &[&[V(0)]],
        "error(instantiation_error,abolish/1)",
    ),
    (
        Kind::Abolish,
        &[&[F("/", 2), A("foo"), V(0)]],
        "error(instantiation_error,abolish/1)",
    ),
    (
        Kind::Abolish,
        &[&[F("/", 2), V(0), A("a")]],
        "error(instantiation_error,abolish/1)",
    ),
    (
        Kind::Abolish,
        &[&[A("foo")]],
        "error(type_error(predicate_indicator,foo),abolish/1)",
    ),
    (
        Kind::Abolish,
        &[&[F("/", 2), A("foo"), A("a")]],
        "error(type_error(integer,a),abolish/1)",
    ),
    (
        Kind::Abolish,
        &[&[F("/", 2), I(4), A("a")]],
        "error(type_error(atom,4),abolish/1)",
    ),
    (
        Kind::Abolish,
        &[&[F("/", 2), A("foo"), I(-1)]],
        "error(domain_error(not_less_than_zero,-1),abolish/1)",
    ),
    (
        Kind::Abolish,
        &[&[F("/", 2), A("foo"), I(65536)]],
        "error(representation_error(max_arity),abolish/1)",
    ),
    (
        Kind::Abolish,
        &[&[F("/", 2), A("p"), I(1)]],
        "error(permission_error(modify,static_procedure,p/1),abolish/1)",
    ),
    (
        Kind::Abolish,
        &[&[F("/", 2), A("abolish"), I(1)]],
        "error(permission_error(modify,static_procedure,abolish/1),abolish/1)",
    ),
    (Kind::Abolish, &[&[F("/", 2), A("foo"), I(65535)]], "true"),
    (Kind::Abolish, &[&[F("/", 2), A("d"), I(1)]], "true"),
    (
        Kind::Call,
        &[&[F("d", 1), A("a")]],
        "error(existence_error(procedure,d/1),d/1)",
    ),
];

/// Operators that are changed and looked at.
pub(crate) static OPERATORS: [Row; 10] = [
    (Kind::Op, &[&[I(700)], &[A("xfx")], &[A("===>")]], "true"),
    (
        Kind::Op,
        &[&[I(1201)], &[A("xfx")], &[A("a")]],
        "error(domain_error(operator_priority,1201),op/3)",
    ),
    (
        Kind::Op,
        &[&[I(30)], &[A("xfy")], &[A("|")]],
        "error(permission_error(create,operator,'|'),op/3)",
    ),
    (
        Kind::CurrentOp,
        &[&[V(0)], &[A("xfx")], &[A("is")]],
        "rows 40",
    ),
    (Kind::CurrentOp, &[&[I(1200)], &[V(0)], &[V(1)]], "rows 40"),
    (
        Kind::CurrentOp,
        &[&[I(1201)], &[A("yfy")], &[I(4)]],
        "error(domain_error(operator_priority,1201),current_op/3)",
    ),
    (
        Kind::CurrentOp,
        &[&[I(-1)], &[V(0)], &[V(1)]],
        "error(domain_error(operator_priority,-1),current_op/3)",
    ),
    (
        Kind::CurrentOp,
        &[&[A("a")], &[V(0)], &[V(1)]],
        "error(domain_error(operator_priority,a),current_op/3)",
    ),
    (
        Kind::CurrentOp,
        &[&[V(0)], &[A("yfy")], &[I(4)]],
        "error(domain_error(operator_specifier,yfy),current_op/3)",
    ),
    (
        Kind::CurrentOp,
        &[&[V(0)], &[V(1)], &[I(4)]],
        "error(type_error(atom,4),current_op/3)",
    ),
];

/// What is written.
pub(crate) static OUTPUT: [Row; 15] = [
    (Kind::Op, &[&[I(700)], &[A("xfx")], &[A("===>")]], "true"),
    (
        Kind::PutChar,
        &[&[V(0)]],
        "error(instantiation_error,put_char/1)",
    ),
    (
        Kind::PutChar,
        &[&[A("ab")]],
        "error(type_error(character,ab),put_char/1)",
    ),
    (
        Kind::PutChar,
        &[&[I(9)]],
        "error(type_error(character,9),put_char/1)",
    ),
    (Kind::PutChar, &[&[A("\u{e9}")]], "true"),
    (Kind::Nl, &[], "true"),
    (Kind::Write, &[&[F("===>", 2), A("A b"), V(3)]], "true"),
    (Kind::Nl, &[], "true"),
    (Kind::Writeq, &[&[F("===>", 2), A("A b"), V(3)]], "true"),
    (Kind::Nl, &[], "true"),
    (
        Kind::WriteCanonical,
        &[&[F("===>", 2), A("A b"), V(3)]],
        "true",
    ),
    (Kind::Nl, &[], "true"),
    (Kind::Answer, &[&[F("=", 2), A("a"), A("b")]], "true"),
    (Kind::No, &[], "true"),
    (Kind::Uncaught, &[&[F("b", 1), A("B")]], "true"),
];

/// The ends of runs.
pub(crate) static HALTS: [Row; 6] = [
    (Kind::Halt, &[], "halt 0"),
    (Kind::HaltWith, &[&[I(63)]], "halt 63"),
    (
        Kind::HaltWith,
        &[&[V(0)]],
        "error(instantiation_error,halt/1)",
    ),
    (
        Kind::HaltWith,
        &[&[A("a")]],
        "error(type_error(integer,a),halt/1)",
    ),
    (
        Kind::HaltWith,
        &[&[I(64)]],
        "error(domain_error(exit_status,64),halt/1)",
    ),
    (
        Kind::HaltWith,
        &[&[I(-1)]],
        "error(domain_error(exit_status,-1),halt/1)",
    ),
];

/// What is written by then.
pub(crate) const WRITTEN: &str =
    "\u{e9}\nA b ===> _3\n'A b' ===> _3\n===>('A b',_3)\nX = (a = b)\nno\nerror: b('B')\n";
