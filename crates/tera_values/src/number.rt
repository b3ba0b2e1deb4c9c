// Arithmetic. What is not an integer is refused, and so is what no `i128` holds: a `Message` each time.
ghost use Rattle.std.specs.Prelude.{◌≡◌, ℤ, pos, ◌≤ℤ◌, Option, Result, IsOk};
ghost use Rattle.tera_errors.specs.Prelude.{Gives, Fault, Tells, message};
ghost use Rattle.tera_value_types.specs.Prelude.{Val};
ghost use Rattle.tera_values.specs.Number.{told, integers, on_integers, quotient, remainder, exact_quotient, power, add, sub, mul, div, floor_div, rem, pow, negate};

use std::alloc::Global;
use tera_errors::{Error, TeraResult};
use tera_value_types::{Shape, Value};

/// The two integers, or none where there are not two.
#[inline(always)]
fn integers(left: &Value, right: &Value) -> Option<(i128, i128)>
    ensures { result ≡ integers left.now right.now }
{
    match left.shape() {
        Shape::Int(a) => match right.shape() {
            Shape::Int(b) => Some((a, b)),
            _ => None,
        },
        _ => None,
    }
}

/// The number as a value, or an error.
#[inline(always)]
fn answer(alloc: Global, sign: &str, number: Option<i128>) -> TeraResult<Value>
    ensures value { Gives (λ v. v) result (told number) }
    ensures ready { IsOk (told number) → IsOk result }
{
    match number {
        Some(number) => Ok(Value::from_int(number)),
        None => Err(no_number(alloc, sign)),
    }
}

// The operands of the operator with this sign are not two integers.
#[inline(never)]
fn not_two(alloc: Global, sign: &str, left: &Value, right: &Value) -> Error
    ensures { Tells result message }
{
    let (left, right) = (left.in_words(), right.in_words());
    let also = if sign == "+" {
        " (`~` joins texts)"
    } else {
        ""
    };
    Error::message_from(format!(in alloc;
        "`{sign}` takes two integers, and is given {left} and {right}{also}"
    ))
}

// What the operator with this sign makes of two integers is none.
#[inline(never)]
fn no_number(alloc: Global, sign: &str) -> Error
    ensures { Tells result message }
{
    let why = match sign {
        "/" =>
            "the quotient is no integer, and there are no floating-point numbers (`//` rounds down)",
        "**" => "the power is no integer of at most 128 bits",
        _ => "the result is no integer of at most 128 bits",
    };
    Error::message(alloc, why)
}

#[inline(never)]
fn no_sign(alloc: Global, value: &Value) -> Error
    ensures { Tells result message }
{
    let kind = value.in_words();
    Error::message_from(format!(in alloc; "`-` takes an integer, and is given {kind}"))
}

/// What is calculated from the two integers, or an error that names the operator's sign where there are not two.
#[inline(always)]
fn value_of_calculation<F: FnOnce(i128, i128) -> Option<i128>>(
    alloc: Global,
    left: &Value,
    right: &Value,
    sign: &str,
    calculate: F,
) -> TeraResult<Value>
    requires { F.IsAlwaysCallable calculate }
    ensures value { (meant : ℤ → ℤ → Result Val Fault) →
        ((a b : ℤ) (r : Option ℤ) → F.post calculate a b r → told r ≡ meant a b) →
        Gives (λ v. v) result (on_integers meant (integers left.now right.now)) }
    ensures ready { (meant : ℤ → ℤ → Result Val Fault) →
        ((a b : ℤ) (r : Option ℤ) → F.post calculate a b r → told r ≡ meant a b) →
        IsOk (on_integers meant (integers left.now right.now)) → IsOk result }
{
    match integers(left, right) {
        Some((a, b)) => answer(alloc, sign, calculate(a, b)),
        None => Err(not_two(alloc, sign, left, right)),
    }
}

/// Euclid's quotient.
fn quotient(a: i128, b: i128) -> Option<i128>
    ensures { told result ≡ quotient a b }
{
    if b == 0 {
        None
    } else if b == -1 {
        a.checked_neg()
    } else {
        Some(a.div_euclid(b))
    }
}

/// Euclid's remainder.
fn remainder(a: i128, b: i128) -> Option<i128>
    ensures { told result ≡ remainder a b }
{
    if b == 0 {
        None
    } else if b == -1 {
        Some(0)
    } else {
        Some(a.rem_euclid(b))
    }
}

fn exact_quotient(a: i128, b: i128) -> Option<i128>
    ensures { told result ≡ exact_quotient a b }
{
    match remainder(a, b) {
        Some(0) => quotient(a, b),
        _ => None,
    }
}

fn power(a: i128, b: i128) -> Option<i128>
    ensures { told result ≡ power a b }
{
    if b < 0 {
        None
    } else if b < 128 {
        a.checked_pow(b as u32)
    } else {
        far_power(a, b)
    }
}

/// The power at an exponent at which the powers of nothing but 0, 1 and -1 have room.
fn far_power(a: i128, b: i128) -> Option<i128>
    requires { pos 128 ≤ℤ b }
    ensures { told result ≡ power a b }
{
    if a == 0 {
        Some(0)
    } else if a == 1 {
        Some(1)
    } else if a != -1 {
        None
    } else if b.unsigned_abs() % 2 == 0 {
        Some(1)
    } else {
        Some(-1)
    }
}

/// The sum.
#[inline(always)]
pub fn add(alloc: Global, left: &Value, right: &Value) -> TeraResult<Value>
    ensures value { Gives (λ v. v) result (add left.now right.now) }
    ensures ready { IsOk (add left.now right.now) → IsOk result }
{
    value_of_calculation(alloc, left, right, "+", i128::checked_add)
}

/// The difference.
#[inline(always)]
pub fn sub(alloc: Global, left: &Value, right: &Value) -> TeraResult<Value>
    ensures value { Gives (λ v. v) result (sub left.now right.now) }
    ensures ready { IsOk (sub left.now right.now) → IsOk result }
{
    value_of_calculation(alloc, left, right, "-", i128::checked_sub)
}

/// The product.
#[inline(always)]
pub fn mul(alloc: Global, left: &Value, right: &Value) -> TeraResult<Value>
    ensures value { Gives (λ v. v) result (mul left.now right.now) }
    ensures ready { IsOk (mul left.now right.now) → IsOk result }
{
    value_of_calculation(alloc, left, right, "*", i128::checked_mul)
}

/// The exact quotient; an error where it is not whole, as at a zero divisor.
pub fn div(alloc: Global, left: &Value, right: &Value) -> TeraResult<Value>
    ensures value { Gives (λ v. v) result (div left.now right.now) }
    ensures ready { IsOk (div left.now right.now) → IsOk result }
{
    value_of_calculation(alloc, left, right, "/", exact_quotient)
}

/// Euclid's quotient; an error at a zero divisor.
pub fn floor_div(alloc: Global, left: &Value, right: &Value) -> TeraResult<Value>
    ensures value { Gives (λ v. v) result (floor_div left.now right.now) }
    ensures ready { IsOk (floor_div left.now right.now) → IsOk result }
{
    value_of_calculation(alloc, left, right, "//", quotient)
}

/// Euclid's remainder, which is never negative; an error at a zero divisor.
pub fn rem(alloc: Global, left: &Value, right: &Value) -> TeraResult<Value>
    ensures value { Gives (λ v. v) result (rem left.now right.now) }
    ensures ready { IsOk (rem left.now right.now) → IsOk result }
{
    value_of_calculation(alloc, left, right, "%", remainder)
}

/// The power; an error at a negative exponent. `0 ** 0` is 1.
pub fn pow(alloc: Global, left: &Value, right: &Value) -> TeraResult<Value>
    ensures value { Gives (λ v. v) result (pow left.now right.now) }
    ensures ready { IsOk (pow left.now right.now) → IsOk result }
{
    value_of_calculation(alloc, left, right, "**", power)
}

/// The number with the other sign.
pub fn negate(alloc: Global, value: &Value) -> TeraResult<Value>
    ensures value { Gives (λ v. v) result (negate value.now) }
    ensures ready { IsOk (negate value.now) → IsOk result }
{
    match value.shape() {
        Shape::Int(number) => answer(alloc, "-", number.checked_neg()),
        _ => Err(no_sign(alloc, value)),
    }
}
