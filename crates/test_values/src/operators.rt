// Answers of operators, accesses and literals, and the positions of their faults.
ghost use Rattle.std.specs.Prelude.{◌<◌};

use crate::sample::Sample::{Int, Ints, Nothing, Pairs, Safe, Text, Truth, Undefined};
use crate::sample::{Sample, first_wrong_row, value};
use std::alloc::Global;
use tera_operators::{
    Operand, array, attribute, binary, binary_in_place, item, map, negate, not, slice,
};
use tera_syntax_tree::{BinaryOperator as Op, OwnedKey};
use tera_values::{Error, ErrorKind, Shape, Span, TeraResult};

const NODE: Span = Span { start: 1, end: 99 };

/// An operand whose two bytes begin here.
fn operand_at(alloc: Global, sample: Sample, start: usize) -> Option<Operand>
    requires { start < 1000 }
{
    let span = Span {
        start,
        end: start + 2,
    };
    Some(Operand::new(value(alloc, sample)?, span))
}

/// Operands from 10 to 12 and from 20 to 22.
fn pair(alloc: Global, left: Sample, right: Sample) -> Option<(Operand, Operand)> {
    Some((operand_at(alloc, left, 10)?, operand_at(alloc, right, 20)?))
}

fn push(all: &mut Vec<Operand>, alloc: Global, sample: Sample, start: usize) -> bool
    requires { start < 1000 }
{
    match operand_at(alloc, sample, start) {
        Some(operand) => all.push(operand).is_ok(),
        None => false,
    }
}

/// Operands from 10 to 12, from 20 to 22, from 30 to 32 and from 40 to 42.
fn operands(alloc: Global, samples: &[Sample]) -> Option<Vec<Operand>> {
    let mut all = Vec::new(alloc);
    let mut whole = true;
    for (sample, start) in samples.iter().zip([10, 20, 30, 40]) {
        whole = whole && push(&mut all, alloc, *sample, start);
    }
    if whole { Some(all) } else { None }
}

/// The kind, the printed text and the span of an operand.
fn operand_in_words(alloc: Global, operand: &Operand) -> Option<String> {
    let kind = operand.value().name();
    let mark = match operand.value().shape() {
        Shape::Text(_, true) => "safe ",
        _ => "",
    };
    let Span { start, end } = operand.span();
    match operand.value().printed(alloc) {
        Ok(text) => format!(in alloc; "{mark}{kind} [{text}] {start}-{end}").ok(),
        Err(_) => None,
    }
}

/// The position of a fault.
fn fault_in_words(alloc: Global, error: &Error) -> Option<String> {
    match error.kind() {
        ErrorKind::RenderingError(report) => {
            let file = report.file();
            let Span { start, end } = report.span();
            format!(in alloc; "fault in {file} {start}-{end}").ok()
        }
        _ => None,
    }
}

fn reads(words: Option<String>, want: &str) -> bool {
    match words {
        Some(words) => words.as_str() == want,
        None => false,
    }
}

fn answers(alloc: Global, answer: TeraResult<Operand>, want: &str) -> bool {
    match answer {
        Ok(operand) => reads(operand_in_words(alloc, &operand), want),
        Err(error) => reads(fault_in_words(alloc, &error), want),
    }
}

/// An operator between operands from 10 to 12 and from 20 to 22, and what it comes to.
#[derive(Clone, Copy)]
struct OperatorRow(Op, Sample, Sample, &'static str);

fn joins(alloc: Global, row: OperatorRow) -> bool {
    let OperatorRow(operator, left, right, want) = row;
    match pair(alloc, left, right) {
        Some((left, right)) => {
            let answer = binary(alloc, "page", operator, &left, &right, NODE);
            answers(alloc, answer, want)
        }
        None => false,
    }
}

const JOINED: [OperatorRow; 35] = [
    OperatorRow(Op::Add, Int(2), Int(3), "int [5] 10-22"),
    OperatorRow(Op::Add, Text("a"), Int(1), "fault in page 10-22"),
    OperatorRow(Op::Add, Int(i128::MAX), Int(1), "fault in page 10-22"),
    OperatorRow(Op::Subtract, Int(2), Int(3), "int [-1] 10-22"),
    OperatorRow(Op::Subtract, Nothing, Text("a"), "fault in page 10-12"),
    OperatorRow(Op::Subtract, Int(2), Text("a"), "fault in page 20-22"),
    OperatorRow(Op::Subtract, Int(i128::MIN), Int(1), "fault in page 10-22"),
    OperatorRow(Op::Multiply, Int(6), Int(-7), "int [-42] 10-22"),
    OperatorRow(Op::Divide, Int(8), Int(2), "int [4] 10-22"),
    OperatorRow(Op::Divide, Int(7), Int(2), "fault in page 10-22"),
    OperatorRow(Op::Divide, Text("a"), Int(0), "fault in page 10-12"),
    OperatorRow(Op::FloorDivide, Int(-7), Int(2), "int [-4] 10-22"),
    OperatorRow(Op::FloorDivide, Int(7), Int(0), "fault in page 20-22"),
    OperatorRow(
        Op::FloorDivide,
        Int(i128::MIN),
        Int(-1),
        "fault in page 10-22",
    ),
    OperatorRow(Op::Remainder, Int(-7), Int(2), "int [1] 10-22"),
    OperatorRow(Op::Remainder, Int(7), Nothing, "fault in page 20-22"),
    OperatorRow(Op::Power, Int(2), Int(10), "int [1024] 10-22"),
    OperatorRow(Op::Power, Int(0), Int(0), "int [1] 10-22"),
    OperatorRow(Op::Power, Int(2), Int(-1), "fault in page 10-22"),
    OperatorRow(Op::Power, Int(2), Int(127), "fault in page 10-22"),
    OperatorRow(Op::Concat, Int(1024), Text("x"), "string [1024x] 10-22"),
    OperatorRow(Op::Concat, Safe("a"), Safe("b"), "string [ab] 10-22"),
    OperatorRow(
        Op::Concat,
        Undefined,
        Ints(&[1, 2]),
        "string [[1, 2]] 10-22",
    ),
    OperatorRow(Op::In, Int(2), Ints(&[1, 2]), "bool [true] 1-99"),
    OperatorRow(Op::In, Text("x"), Text("abc"), "bool [false] 1-99"),
    OperatorRow(Op::In, Text("b"), Pairs(&[("b", 1)]), "bool [true] 1-99"),
    OperatorRow(Op::In, Int(1), Int(2), "fault in page 20-22"),
    OperatorRow(Op::Equal, Safe("a"), Text("a"), "bool [true] 10-22"),
    OperatorRow(Op::NotEqual, Int(1), Text("1"), "bool [true] 10-22"),
    OperatorRow(Op::Less, Int(1), Int(2), "bool [true] 10-22"),
    OperatorRow(Op::Less, Text("a"), Int(2), "fault in page 10-22"),
    OperatorRow(Op::Greater, Ints(&[1, 2]), Ints(&[1]), "bool [true] 10-22"),
    OperatorRow(
        Op::LessOrEqual,
        Truth(false),
        Truth(false),
        "bool [true] 10-22",
    ),
    OperatorRow(
        Op::GreaterOrEqual,
        Text("a"),
        Text("b"),
        "bool [false] 10-22",
    ),
    OperatorRow(Op::GreaterOrEqual, Nothing, Nothing, "fault in page 10-22"),
];

#[test]
fn operators_between_operands(rt: HostRuntime) {
    let row = first_wrong_row(&JOINED, |row| joins(rt.alloc(), row));
    assert!(rt; row.is_none(), "at row {row:?}");
}

/// The operator, done in place: whether that is done where it is due, and what the left operand is after.
fn changes(alloc: Global, row: OperatorRow, is_due: bool) -> bool {
    let OperatorRow(operator, left, right, want) = row;
    match pair(alloc, left, right) {
        Some((mut left, right)) => {
            let is_done = binary_in_place(operator, &mut left, &right);
            is_done == is_due && reads(operand_in_words(alloc, &left), want)
        }
        None => false,
    }
}

fn of_numbers(row: (Op, i128, i128, &'static str)) -> OperatorRow {
    OperatorRow(row.0, Int(row.1), Int(row.2), row.3)
}

/// The bounds of 64 bits, and one number beyond them.
const LEAST: i128 = -9223372036854775808;

const MOST: i128 = 9223372036854775807;

const LARGE: i128 = 9223372036854775808;

/// Numbers that change in place: small ones, and those at the bounds.
const CHANGED: [(Op, i128, i128, &str); 22] = [
    (Op::Add, 2, 3, "int [5] 10-22"),
    (Op::Subtract, 2, 3, "int [-1] 10-22"),
    (Op::Multiply, 6, -7, "int [-42] 10-22"),
    (Op::FloorDivide, 7, 2, "int [3] 10-22"),
    (Op::FloorDivide, -7, 2, "int [-4] 10-22"),
    (Op::FloorDivide, -8, 2, "int [-4] 10-22"),
    (Op::Remainder, 7, 3, "int [1] 10-22"),
    (Op::Remainder, -7, 3, "int [2] 10-22"),
    (Op::Remainder, -6, 3, "int [0] 10-22"),
    (Op::Equal, 2, 2, "bool [true] 10-22"),
    (Op::NotEqual, 2, 2, "bool [false] 10-22"),
    (Op::Less, -2, 1, "bool [true] 10-22"),
    (Op::Greater, 2, 2, "bool [false] 10-22"),
    (Op::LessOrEqual, 2, 2, "bool [true] 10-22"),
    (Op::GreaterOrEqual, 1, 2, "bool [false] 10-22"),
    (Op::Less, i128::MIN, i128::MAX, "bool [true] 10-22"),
    (Op::Add, i128::MAX, i128::MIN, "int [-1] 10-22"),
    (Op::Subtract, i128::MIN, i128::MIN, "int [0] 10-22"),
    (
        Op::Multiply,
        LEAST,
        LEAST,
        "int [85070591730234615865843651857942052864] 10-22",
    ),
    (
        Op::FloorDivide,
        LEAST,
        1,
        "int [-9223372036854775808] 10-22",
    ),
    (Op::FloorDivide, LEAST, MOST, "int [-2] 10-22"),
    (
        Op::Remainder,
        LEAST,
        MOST,
        "int [9223372036854775806] 10-22",
    ),
];

#[test]
fn numbers_change_in_place(rt: HostRuntime) {
    let row = first_wrong_row(&CHANGED, |row| changes(rt.alloc(), of_numbers(row), true));
    assert!(rt; row.is_none(), "at row {row:?}");
}

/// Large numbers, and divisors that are not above zero.
const UNCHANGED: [(Op, i128, i128, &str); 15] = [
    (
        Op::Add,
        i128::MAX,
        1,
        "int [170141183460469231731687303715884105727] 10-12",
    ),
    (
        Op::Subtract,
        i128::MIN,
        1,
        "int [-170141183460469231731687303715884105728] 10-12",
    ),
    (Op::Multiply, LARGE, 0, "int [9223372036854775808] 10-12"),
    (Op::Multiply, 2, LARGE, "int [2] 10-12"),
    (Op::FloorDivide, LARGE, 2, "int [9223372036854775808] 10-12"),
    (Op::FloorDivide, 7, LARGE, "int [7] 10-12"),
    (Op::FloorDivide, 7, 0, "int [7] 10-12"),
    (Op::FloorDivide, 7, -2, "int [7] 10-12"),
    (Op::Remainder, LARGE, 2, "int [9223372036854775808] 10-12"),
    (Op::Remainder, 7, LARGE, "int [7] 10-12"),
    (Op::Remainder, 7, 0, "int [7] 10-12"),
    (Op::Remainder, 7, -2, "int [7] 10-12"),
    (Op::Divide, 8, 2, "int [8] 10-12"),
    (Op::Power, 2, 3, "int [2] 10-12"),
    (Op::Concat, 2, 3, "int [2] 10-12"),
];

/// What is no number.
const OTHERS: [OperatorRow; 7] = [
    OperatorRow(Op::Add, Text("a"), Int(1), "string [a] 10-12"),
    OperatorRow(Op::Add, Int(1), Text("a"), "int [1] 10-12"),
    OperatorRow(Op::Equal, Safe("a"), Safe("a"), "safe string [a] 10-12"),
    OperatorRow(Op::NotEqual, Int(1), Text("1"), "int [1] 10-12"),
    OperatorRow(Op::Less, Truth(false), Int(1), "bool [false] 10-12"),
    OperatorRow(Op::Remainder, Undefined, Int(2), "undefined [] 10-12"),
    OperatorRow(Op::In, Int(1), Ints(&[1]), "int [1] 10-12"),
];

#[test]
fn what_changes_nothing(rt: HostRuntime) {
    let row = first_wrong_row(
        &UNCHANGED,
        |row| changes(rt.alloc(), of_numbers(row), false),
    );
    assert!(rt; row.is_none(), "at row {row:?} of numbers");
    let row = first_wrong_row(&OTHERS, |row| changes(rt.alloc(), row, false));
    assert!(rt; row.is_none(), "at row {row:?} of others");
}

fn turns(alloc: Global, row: (Sample, &str, &str)) -> bool {
    let (sample, inverse, minus) = row;
    match operand_at(alloc, sample, 10) {
        Some(operand) => {
            answers(alloc, Ok(not(&operand)), inverse)
                && answers(alloc, negate(alloc, "page", &operand), minus)
        }
        None => false,
    }
}

const SIGNS: [(Sample, &str, &str); 4] = [
    (Int(2), "bool [false] 10-12", "int [-2] 10-12"),
    (Int(0), "bool [true] 10-12", "int [0] 10-12"),
    (Int(i128::MIN), "bool [false] 10-12", "fault in page 10-12"),
    (Undefined, "bool [true] 10-12", "fault in page 10-12"),
];

#[test]
fn signs_are_turned(rt: HostRuntime) {
    let row = first_wrong_row(&SIGNS, |row| turns(rt.alloc(), row));
    assert!(rt; row.is_none(), "at row {row:?}");
}

fn has_attribute(alloc: Global, target: Sample, name: &str, optional: bool, want: &str) -> bool {
    match operand_at(alloc, target, 10) {
        Some(target) => {
            let answer = attribute(alloc, "page", &target, name, optional, NODE);
            answers(alloc, answer, want)
        }
        None => false,
    }
}

fn has_item(alloc: Global, target: Sample, index: Sample, optional: bool, want: &str) -> bool {
    match pair(alloc, target, index) {
        Some((target, index)) => {
            let answer = item(alloc, "page", &target, &index, optional, NODE);
            answers(alloc, answer, want)
        }
        None => false,
    }
}

const ATTRIBUTES: [(Sample, &str, bool, &str); 6] = [
    (Pairs(&[("a", 1)]), "a", false, "int [1] 1-99"),
    (Pairs(&[("a", 1)]), "b", false, "undefined [] 1-99"),
    (Nothing, "a", false, "undefined [] 1-99"),
    (Undefined, "a", false, "fault in page 10-12"),
    (Undefined, "a", true, "undefined [] 1-99"),
    (Pairs(&[("a", 1)]), "a", true, "int [1] 1-99"),
];

const ITEMS: [(Sample, Sample, bool, &str); 9] = [
    (Ints(&[1, 2, 3]), Int(-1), false, "int [3] 10-22"),
    (Ints(&[1, 2, 3]), Int(3), true, "undefined [] 10-22"),
    (Pairs(&[("a", 1)]), Text("a"), false, "int [1] 10-22"),
    (Safe("aé"), Int(1), false, "string [é] 10-22"),
    (Ints(&[1]), Text("a"), false, "fault in page 20-22"),
    (Nothing, Int(0), false, "fault in page 20-22"),
    (Nothing, Int(0), true, "undefined [] 1-99"),
    (Undefined, Undefined, false, "fault in page 10-12"),
    (Ints(&[1]), Undefined, true, "fault in page 20-22"),
];

#[test]
fn parts_are_reached(rt: HostRuntime) {
    let alloc = rt.alloc();
    let row = first_wrong_row(
        &ATTRIBUTES,
        |(target, name, optional, want)| has_attribute(alloc, target, name, optional, want),
    );
    assert!(rt; row.is_none(), "at attribute {row:?}");
    let row = first_wrong_row(
        &ITEMS,
        |(target, index, optional, want)| has_item(alloc, target, index, optional, want),
    );
    assert!(rt; row.is_none(), "at item {row:?}");
}

fn slices(alloc: Global, row: ([Sample; 4], bool, &str)) -> bool {
    let (samples, optional, want) = row;
    match operands(alloc, &samples) {
        Some(all) => match all.as_slice() {
            [target, start, end, step] => {
                let answer = slice(alloc, "page", target, start, end, step, optional, NODE);
                answers(alloc, answer, want)
            }
            _ => false,
        },
        None => false,
    }
}

const SLICES: [([Sample; 4], bool, &str); 9] = [
    (
        [Ints(&[1, 2, 3]), Int(-1), Int(0), Int(-1)],
        false,
        "array [[3, 2]] 10-12",
    ),
    (
        [Safe("héllo"), Int(1), Int(3), Nothing],
        true,
        "string [él] 10-12",
    ),
    (
        [Nothing, Text("a"), Nothing, Nothing],
        true,
        "undefined [] 1-99",
    ),
    (
        [Ints(&[1, 2, 3]), Text("a"), Undefined, Int(0)],
        false,
        "fault in page 20-22",
    ),
    (
        [Ints(&[1, 2, 3]), Nothing, Undefined, Truth(true)],
        false,
        "fault in page 30-32",
    ),
    (
        [Ints(&[1, 2, 3]), Nothing, Nothing, Truth(true)],
        false,
        "fault in page 40-42",
    ),
    (
        [Ints(&[1, 2, 3]), Nothing, Nothing, Int(0)],
        false,
        "fault in page 10-12",
    ),
    (
        [Int(1), Nothing, Nothing, Nothing],
        false,
        "fault in page 10-12",
    ),
    (
        [Undefined, Text("a"), Nothing, Nothing],
        false,
        "fault in page 10-12",
    ),
];

#[test]
fn slices_are_cut(rt: HostRuntime) {
    let row = first_wrong_row(&SLICES, |row| slices(rt.alloc(), row));
    assert!(rt; row.is_none(), "at row {row:?}");
}

/// Three operands, of which the second and the third may be spread.
fn spells_array(alloc: Global, row: ((bool, bool), (Sample, Sample), &str)) -> bool {
    let (spreads, samples, want) = row;
    let spreads = [false, spreads.0, spreads.1];
    match operands(alloc, &[Int(0), samples.0, samples.1]) {
        Some(operands) if operands.len() == spreads.len() => {
            answers(alloc, array(alloc, "page", &spreads, operands, NODE), want)
        }
        _ => false,
    }
}

fn push_key(keys: &mut Vec<Option<OwnedKey>>, alloc: Global, name: &str) -> bool {
    if name.is_empty() {
        return keys.push(None).is_ok();
    }
    match String::from_str(alloc, name) {
        Ok(name) => keys.push(Some(OwnedKey::Text(name))).is_ok(),
        Err(_) => false,
    }
}

fn maps_to(
    alloc: Global,
    keys: &[Option<OwnedKey>],
    operands: Option<Vec<Operand>>,
    want: &str,
) -> bool {
    match operands {
        Some(operands) if operands.len() == keys.len() => {
            answers(alloc, map(alloc, "page", keys, operands, NODE), want)
        }
        _ => false,
    }
}

/// A map of three entries: `a` at 1, and at each name one of the samples; an empty name spreads it.
fn spells_map(alloc: Global, row: ((&str, &str), (Sample, Sample), &str)) -> bool {
    let (names, samples, want) = row;
    let mut keys = Vec::new(alloc);
    push_key(&mut keys, alloc, "a")
        && push_key(&mut keys, alloc, names.0)
        && push_key(&mut keys, alloc, names.1)
        && maps_to(
            alloc,
            keys.as_slice(),
            operands(alloc, &[Int(1), samples.0, samples.1]),
            want,
        )
}

const ARRAYS: [((bool, bool), (Sample, Sample), &str); 4] = [
    (
        (false, false),
        (Int(1), Ints(&[3, 4])),
        "array [[0, 1, [3, 4]]] 1-99",
    ),
    (
        (true, false),
        (Ints(&[3, 4]), Int(2)),
        "array [[0, 3, 4, 2]] 1-99",
    ),
    ((true, true), (Int(1), Int(2)), "fault in page 30-32"),
    ((true, true), (Int(1), Ints(&[3, 4])), "fault in page 20-22"),
];

#[test]
fn arrays_are_spelled(rt: HostRuntime) {
    let row = first_wrong_row(&ARRAYS, |row| spells_array(rt.alloc(), row));
    assert!(rt; row.is_none(), "at row {row:?}");
}

const MORE: Sample = Pairs(&[("b", 5), ("a", 6), ("c", 7)]);

const MAPS: [((&str, &str), (Sample, Sample), &str); 6] = [
    (
        ("b", "a"),
        (Int(1), Int(2)),
        "map [{\"a\": 2, \"b\": 1}] 1-99",
    ),
    (
        ("b", ""),
        (Int(1), MORE),
        "map [{\"b\": 5, \"a\": 6, \"c\": 7}] 1-99",
    ),
    (
        ("", "b"),
        (MORE, Int(2)),
        "map [{\"b\": 2, \"a\": 6, \"c\": 7}] 1-99",
    ),
    (("", "a"), (Pairs(&[]), Int(2)), "map [{\"a\": 2}] 1-99"),
    (
        ("", ""),
        (Ints(&[3, 4]), Ints(&[3, 4])),
        "fault in page 30-32",
    ),
    (("", ""), (Ints(&[3, 4]), MORE), "fault in page 20-22"),
];

#[test]
fn maps_are_spelled(rt: HostRuntime) {
    let row = first_wrong_row(&MAPS, |row| spells_map(rt.alloc(), row));
    assert!(rt; row.is_none(), "at row {row:?}");
}
