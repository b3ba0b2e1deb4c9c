// Arithmetic.
use self::Operation::{Add, Div, FloorDiv, Mul, Negate, Pow, Rem, Sub};
use crate::sample::answers;
use std::alloc::Global;
use tera_values::{TeraResult, Value, number};

#[derive(Clone, Copy)]
enum Operation {
    Add,
    Sub,
    Mul,
    Div,
    FloorDiv,
    Rem,
    Pow,
    Negate,
}

/// What the operation answers; the sign is turned of the left number.
fn answer(alloc: Global, operation: Operation, left: i128, right: i128) -> TeraResult<Value> {
    let left = Value::from_int(left);
    let right = Value::from_int(right);
    match operation {
        Add => number::add(alloc, &left, &right),
        Sub => number::sub(alloc, &left, &right),
        Mul => number::mul(alloc, &left, &right),
        Div => number::div(alloc, &left, &right),
        FloorDiv => number::floor_div(alloc, &left, &right),
        Rem => number::rem(alloc, &left, &right),
        Pow => number::pow(alloc, &left, &right),
        Negate => number::negate(alloc, &left),
    }
}

#[test]
fn numbers_are_exact(rt: HostRuntime) {
    let alloc = rt.alloc();
    let mut right = true;
    for (operation, a, b, want) in [
        (Add, 7, 2, "int 9"),
        (Sub, 7, 9, "int -2"),
        (Mul, 7, -2, "int -14"),
        (Mul, i128::MIN, -1, "message"),
        (Div, -14, 7, "int -2"),
        (Div, 7, 2, "message"),
        (FloorDiv, -7, 2, "int -4"),
        (FloorDiv, -7, -2, "int 4"),
        (FloorDiv, i128::MIN, -1, "message"),
        (Rem, -7, 2, "int 1"),
        (Rem, i128::MIN, -1, "int 0"),
        (Rem, 7, 0, "message"),
        (Pow, 0, 0, "int 1"),
        (Pow, -2, 127, "int -170141183460469231731687303715884105728"),
        (Pow, 2, 127, "message"),
        (Pow, -1, 340282366920938463463, "int -1"),
        (Pow, 2, -1, "message"),
        (Negate, 7, 0, "int -7"),
        (Negate, i128::MIN, 0, "message"),
    ] {
        right = right && answers(alloc, answer(alloc, operation, a, b), want);
    }
    assert!(rt; right);
}
