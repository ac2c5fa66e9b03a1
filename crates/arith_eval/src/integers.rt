//! Operations on integers of 64 bits (ISO/IEC 13211-1, 9.1.3, 9.3 and 9.4).
ghost use Rattle.std.specs.Prelude.{◌≡◌, ◌<◌, ◌≤◌, ◌^◌, ◌*ℤ◌, ◌<ℤ◌, ℤ, pos, neg_ℤ, FitsSigned, unsigned_abs};
ghost use Rattle.std.specs.Option.{SomeIff};
ghost use Rattle.std.specs.Int.{w64, int_pow, int_shr};
ghost use Rattle.run_model.specs.Goals.Arithmetic.{in_width, quotient, remainder, modulo, modulus, exact_quotient, power, shifted};
ghost use Rattle.arith_eval.specs.Integers.{outcome, with_sign};

use au_model::EvalName;

/// A result, where it fits 64 bits.
pub(crate) fn in_width(result_if_fits: Option<i64>) -> Result<i64, EvalName>
    ensures { (z : ℤ) → SomeIff result_if_fits (FitsSigned w64 z) z → outcome result ≡ in_width z }
{
    result_if_fits.ok_or(EvalName::IntOverflow)
}

/// The number of this size, negative or not, where it fits 64 bits.
fn signed(negative: bool, size: u64) -> Result<i64, EvalName>
    ensures { outcome result ≡ in_width (with_sign negative size) }
{
    if !negative {
        return i64::try_from(size).or(Err(EvalName::IntOverflow));
    }
    if size == 0 {
        return Ok(0);
    }
    if size > 1 << 63 {
        return Err(EvalName::IntOverflow);
    }
    Ok(-1 - (size - 1) as i64)
}

/// The quotient towards zero.
pub(crate) fn quotient(x: i64, y: i64) -> Result<i64, EvalName>
    ensures { outcome result ≡ quotient x y }
{
    if y == 0 {
        return Err(EvalName::ZeroDivisor);
    }
    in_width(x.checked_div(y))
}

/// The quotient where it is an integer.
pub(crate) fn exact_quotient(x: i64, y: i64) -> Result<i64, EvalName>
    ensures { outcome result ≡ exact_quotient x y }
{
    if y == 0 {
        return Err(EvalName::ZeroDivisor);
    }
    if x.wrapping_rem(y) != 0 {
        return Err(EvalName::Undefined);
    }
    in_width(x.checked_div(y))
}

/// The remainder with the sign of `x`.
pub(crate) fn remainder(x: i64, y: i64) -> Result<i64, EvalName>
    ensures { outcome result ≡ remainder x y }
{
    if y == 0 {
        return Err(EvalName::ZeroDivisor);
    }
    Ok(x.wrapping_rem(y))
}

/// The remainder with the sign of `y`.
pub(crate) fn modulo(x: i64, y: i64) -> Result<i64, EvalName>
    ensures { outcome result ≡ modulo x y }
{
    if y == 0 {
        return Err(EvalName::ZeroDivisor);
    }
    if y > 0 {
        return Ok(positive_modulus(x, y));
    }
    Ok(negative_modulus(x, y))
}

fn positive_modulus(x: i64, y: i64) -> i64
    requires { pos 0 <ℤ y }
    ensures { result ≡ modulus x y }
{
    x.rem_euclid(y)
}

/// The remainder of `x` by a negative `y`: between them and 0, minus that of `-x` by `-y`.
fn negative_modulus(x: i64, y: i64) -> i64
    requires { y <ℤ pos 0 }
    ensures { result ≡ modulus x y }
{
    let size = y.unsigned_abs();
    let remainder = if x > 0 {
        size - 1 - (x - 1) as u64 % size
    } else {
        x.unsigned_abs() % size
    };
    -(remainder as i64)
}

/// The absolute value.
pub(crate) fn absolute(x: i64) -> Result<i64, EvalName>
    ensures { outcome result ≡ in_width (pos (unsigned_abs x)) }
{
    signed(false, x.unsigned_abs())
}

/// `x` to the power `y`.
pub(crate) fn power(x: i64, y: i64) -> Result<i64, EvalName>
    ensures { outcome result ≡ power x y }
{
    let (size, exponent) = (x.unsigned_abs(), y.unsigned_abs());
    if y < 0 && size != 1 {
        return Err(EvalName::Undefined);
    }
    if size > 1 {
        return large_power(x, exponent);
    }
    Ok(small_power(x, exponent))
}

/// The power of 0, 1 or -1.
fn small_power(x: i64, exponent: u64) -> i64
    requires { unsigned_abs x ≤ 1 }
    ensures { result ≡ int_pow x exponent }
{
    if exponent == 0 {
        return 1;
    }
    if x >= 0 {
        return x;
    }
    if exponent % 2 == 0 { 1 } else { x }
}

/// The power of a number further from 0.
fn large_power(x: i64, exponent: u64) -> Result<i64, EvalName>
    requires { 1 < unsigned_abs x }
    ensures { outcome result ≡ in_width (int_pow x exponent) }
{
    if exponent >= 64 {
        return Err(EvalName::IntOverflow);
    }
    match x.unsigned_abs().checked_pow(exponent as u32) {
        Some(size) => signed(x < 0 && exponent % 2 == 1, size),
        None => Err(EvalName::IntOverflow),
    }
}

/// `x` times 2 to the power `by`, or the floor of it.
pub(crate) fn shift_left(x: i64, by: i64) -> Result<i64, EvalName>
    ensures { outcome result ≡ shifted x by }
{
    if by < 0 {
        return Ok(halved(x, by.unsigned_abs()));
    }
    doubled(x, by as u64)
}

/// The floor of `x` by 2 to the power `by`, or a multiple of it.
pub(crate) fn shift_right(x: i64, by: i64) -> Result<i64, EvalName>
    ensures { outcome result ≡ shifted x (neg_ℤ by) }
{
    if by > 0 {
        return Ok(halved(x, by as u64));
    }
    doubled(x, by.unsigned_abs())
}

fn halved(x: i64, times: u64) -> i64
    ensures { result ≡ int_shr x times }
{
    x.unbounded_shr(times.min(64) as u32)
}

fn doubled(x: i64, times: u64) -> Result<i64, EvalName>
    ensures { outcome result ≡ in_width (x *ℤ pos (2 ^ times)) }
{
    if x == 0 {
        return Ok(0);
    }
    if times >= 64 {
        return Err(EvalName::IntOverflow);
    }
    match x.unsigned_abs().checked_mul(1 << times) {
        Some(size) => signed(x < 0, size),
        None => Err(EvalName::IntOverflow),
    }
}
