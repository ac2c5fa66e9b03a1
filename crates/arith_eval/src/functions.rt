//! The functions of expressions, told by name (ISO/IEC 13211-1, 9.1, 9.3 and 9.4).
ghost use Rattle.std.specs.Prelude.{◌≡◌, Some, map, option_map, MatchOption};
ghost use Rattle.std.specs.Str.{chars};
ghost use Rattle.run_model.specs.Goals.Arithmetic.{unary_function, binary_function};
ghost use Rattle.au_model.specs.Terms.Forms.{same_name};
ghost use Rattle.arith_eval.specs.Functions.{unary_meaning, binary_meaning, named_in};
ghost use Rattle.arith_eval.specs.Integers.{outcome};

use crate::integers::{
    absolute, exact_quotient, in_width, modulo, power, quotient, remainder, shift_left, shift_right,
};
use au_model::EvalName;
use au_term::Atom;

/// A function of one argument.
#[derive(Clone, Copy, Debug, PartialEq, Eq)]
pub enum Unary {
    Plus,
    Minus,
    Abs,
    Sign,
    Complement,
}

/// A function of two arguments.
#[derive(Clone, Copy, Debug, PartialEq, Eq)]
pub enum Binary {
    Add,
    Subtract,
    Multiply,
    Quotient,
    ExactQuotient,
    Remainder,
    Modulo,
    Min,
    Max,
    Power,
    ShiftLeft,
    ShiftRight,
    And,
    Or,
}

const UNARY: [(&str, Unary); 5] = [
    ("+", Unary::Plus),
    ("-", Unary::Minus),
    ("abs", Unary::Abs),
    ("sign", Unary::Sign),
    ("\\", Unary::Complement),
];

const BINARY: [(&str, Binary); 15] = [
    ("+", Binary::Add),
    ("-", Binary::Subtract),
    ("*", Binary::Multiply),
    ("//", Binary::Quotient),
    ("/", Binary::ExactQuotient),
    ("rem", Binary::Remainder),
    ("mod", Binary::Modulo),
    ("min", Binary::Min),
    ("max", Binary::Max),
    ("**", Binary::Power),
    ("^", Binary::Power),
    ("<<", Binary::ShiftLeft),
    (">>", Binary::ShiftRight),
    ("/\\", Binary::And),
    ("\\/", Binary::Or),
];

/// The function of one argument with this name, if there is one.
pub fn unary_named(name: &Atom) -> Option<Unary>
    ensures { option_map unary_meaning result ≡ option_map (λ f. f.value) (unary_function name.now) }
{
    let name = name.text();
    match unary_sign(name) {
        Some(function) => Some(function),
        None => unary_among(&UNARY, name),
    }
}

/// The function that the only character of a name tells, without a look at the others.
#[inline]
fn unary_sign(name: &str) -> Option<Unary>
    ensures { MatchOption result (Unit {0}) (λ f. Some (unary_meaning f) ≡ option_map (λ g. g.value) (unary_function (chars name.now))) }
{
    let [sign] = name.as_bytes() else {
        return None;
    };
    match *sign {
        b'+' => Some(Unary::Plus),
        b'-' => Some(Unary::Minus),
        _ => None,
    }
}

fn unary_among(rows: &[(&str, Unary)], name: &str) -> Option<Unary>
    ensures { result ≡ named_in (chars name.now) (map (λ row. (chars row.0.now, row.1)) rows.now) }
{
    for row in rows {
        if is_named(row.0, name) {
            return Some(row.1);
        }
    }
    None
}

/// The function of two arguments with this name, if there is one.
pub fn binary_named(name: &Atom) -> Option<Binary>
    ensures { option_map binary_meaning result ≡ option_map (λ f. f.value) (binary_function name.now) }
{
    let name = name.text();
    match binary_sign(name) {
        Some(function) => Some(function),
        None => binary_among(&BINARY, name),
    }
}

/// The function that the only character of a name tells, without a look at the others.
#[inline]
fn binary_sign(name: &str) -> Option<Binary>
    ensures { MatchOption result (Unit {0}) (λ f. Some (binary_meaning f) ≡ option_map (λ g. g.value) (binary_function (chars name.now))) }
{
    let [sign] = name.as_bytes() else {
        return None;
    };
    match *sign {
        b'+' => Some(Binary::Add),
        b'-' => Some(Binary::Subtract),
        b'*' => Some(Binary::Multiply),
        _ => None,
    }
}

fn binary_among(rows: &[(&str, Binary)], name: &str) -> Option<Binary>
    ensures { result ≡ named_in (chars name.now) (map (λ row. (chars row.0.now, row.1)) rows.now) }
{
    for row in rows {
        if is_named(row.0, name) {
            return Some(row.1);
        }
    }
    None
}

/// Whether a row has this name.
fn is_named(row: &str, name: &str) -> bool
    ensures { result ≡ same_name (chars row.now) (chars name.now) }
{
    row == name
}

impl Unary {
    /// Its value for this argument.
    pub fn value(self, x: i64) -> Result<i64, EvalName>
        ensures { outcome result ≡ unary_meaning self x }
    {
        match self {
            Unary::Plus => Ok(x),
            Unary::Minus => in_width(x.checked_neg()),
            Unary::Abs => absolute(x),
            Unary::Sign => Ok(x.signum()),
            Unary::Complement => Ok(!x),
        }
    }
}

impl Binary {
    /// Its value for these arguments.
    pub fn value(self, x: i64, y: i64) -> Result<i64, EvalName>
        ensures { outcome result ≡ binary_meaning self x y }
    {
        match self {
            Binary::Add => in_width(x.checked_add(y)),
            Binary::Subtract => in_width(x.checked_sub(y)),
            Binary::Multiply => in_width(x.checked_mul(y)),
            Binary::Quotient => quotient(x, y),
            Binary::ExactQuotient => exact_quotient(x, y),
            Binary::Remainder => remainder(x, y),
            Binary::Modulo => modulo(x, y),
            Binary::Min => Ok(x.min(y)),
            Binary::Max => Ok(x.max(y)),
            Binary::Power => power(x, y),
            Binary::ShiftLeft => shift_left(x, y),
            Binary::ShiftRight => shift_right(x, y),
            Binary::And => Ok(x & y),
            Binary::Or => Ok(x | y),
        }
    }
}
