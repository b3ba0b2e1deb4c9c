// The order of values, their equality, and which of them an order makes sense of.
ghost use Rattle.std.specs.Prelude.{◌≡◌};
ghost use Rattle.std.specs.Cmp.Lexicographic.{slice_cmp};
ghost use Rattle.tera_value_types.specs.View.{entry_views};
ghost use Rattle.tera_value_types.specs.Index.{IsIndex, picked};
ghost use Rattle.tera_value_types.specs.KeyOrder.{left};
ghost use Rattle.tera_value_types.specs.Order.{rank, order, pair_order, comparable, checked_order, checked_items};
ghost use Rattle.tera_value_types.specs.Finite.{IsSameMap};

use crate::key::compare_key;
use crate::key_order::KeyWalk;
use crate::shape::Shape;
use crate::value::{Entry, Map, Value};
use std::cmp::Ordering;

impl Value {
    fn rank(&self) -> u8
        ensures { result ≡ rank self.now }
    {
        match self.shape() {
            Shape::Undefined => 0,
            Shape::None => 1,
            Shape::Bool(_) => 2,
            Shape::Int(_) => 3,
            Shape::Text(_, _) => 4,
            Shape::Bytes(_) => 5,
            Shape::Array(_) => 6,
            Shape::Map(_) => 7,
        }
    }
}

impl Value {
    /// How the value stands to the other in the order of values.
    #[cycle(comparing)]
    fn compare(&self, other: &Value) -> Ordering
        ensures { result ≡ order self.now other.now }
    {
        match self.shape() {
            Shape::Bool(a) => match other.shape() {
                Shape::Bool(b) => a.cmp(&b),
                _ => self.rank().cmp(&other.rank()),
            },
            Shape::Int(a) => match other.shape() {
                Shape::Int(b) => a.cmp(&b),
                _ => self.rank().cmp(&other.rank()),
            },
            Shape::Text(a, _) => match other.shape() {
                Shape::Text(b, _) => a.cmp(b),
                _ => self.rank().cmp(&other.rank()),
            },
            Shape::Bytes(a) => match other.shape() {
                Shape::Bytes(b) => a.cmp(b),
                _ => self.rank().cmp(&other.rank()),
            },
            Shape::Array(a) => match other.shape() {
                Shape::Array(b) => compare_items(a, b),
                _ => self.rank().cmp(&other.rank()),
            },
            Shape::Map(a) => match other.shape() {
                Shape::Map(b) => compare_entries(a.entries(), a.by_key(), b.entries(), b.by_key()),
                _ => self.rank().cmp(&other.rank()),
            },
            _ => self.rank().cmp(&other.rank()),
        }
    }
}

#[cycle(comparing)]
fn compare_items(a: &[Value], b: &[Value]) -> Ordering
    ensures { result ≡ slice_cmp order a.now b.now }
{
    let mut position = 0;
    while position < a.len() && position < b.len() {
        let answer = a[position].compare(&b[position]);
        if answer.is_ne() {
            return answer;
        }
        position += 1;
    }
    a.len().cmp(&b.len())
}

/// The entries of two maps, each in the order of its keys.
#[cycle(comparing)]
fn compare_entries(a: &[Entry], a_keys: KeyWalk<'_>, b: &[Entry], b_keys: KeyWalk<'_>) -> Ordering
    requires first { IsIndex (left a_keys) (entry_views a.now) }
    requires second { IsIndex (left b_keys) (entry_views b.now) }
    ensures { result ≡ slice_cmp pair_order (picked (left a_keys.entry) (entry_views a.now))
        (picked (left b_keys.entry) (entry_views b.now)) }
{
    let mut a_keys = a_keys;
    let mut b_keys = b_keys;
    while let Some(i) = a_keys.next() {
        let Some(j) = b_keys.next() else {
            return Ordering::Greater;
        };
        let x = &a[i];
        let y = &b[j];
        let keys = compare_key(&x.key, &y.key.as_key_ref());
        if keys.is_ne() {
            return keys;
        }
        let values = x.value.compare(&y.value);
        if values.is_ne() {
            return values;
        }
    }
    match b_keys.next() {
        Some(_) => Ordering::Less,
        None => Ordering::Equal,
    }
}

impl Value {
    /// How the value stands to the other in the order of values; none where the two are not comparable.
    #[cycle(comparable)]
    pub fn checked_cmp(&self, other: &Value) -> Option<Ordering>
        ensures { result ≡ checked_order self.now other.now }
    {
        match self.shape() {
            Shape::Bool(a) => match other.shape() {
                Shape::Bool(b) => Some(a.cmp(&b)),
                _ => None,
            },
            Shape::Int(a) => match other.shape() {
                Shape::Int(b) => Some(a.cmp(&b)),
                _ => None,
            },
            Shape::Text(a, _) => match other.shape() {
                Shape::Text(b, _) => Some(a.cmp(b)),
                _ => None,
            },
            Shape::Bytes(a) => match other.shape() {
                Shape::Bytes(b) => Some(a.cmp(b)),
                _ => None,
            },
            Shape::Array(a) => match other.shape() {
                Shape::Array(b) => checked_cmp_items(a, b),
                _ => None,
            },
            _ => None,
        }
    }

    /// Whether the two are of one kind that has an order; of arrays, up to and with the first unequal items.
    pub fn comparable(&self, other: &Value) -> bool
        ensures { result ≡ comparable self.now other.now }
    {
        self.checked_cmp(other).is_some()
    }
}

/// Whether items are comparable and how they stand is answered in one walk, so that no depth of arrays is walked twice.
#[cycle(comparable)]
fn checked_cmp_items(a: &[Value], b: &[Value]) -> Option<Ordering>
    ensures { result ≡ checked_items a.now b.now }
{
    let mut position = 0;
    while position < a.len() && position < b.len() {
        let standing = a[position].checked_cmp(&b[position])?;
        if standing.is_ne() {
            return Some(standing);
        }
        position += 1;
    }
    Some(a.len().cmp(&b.len()))
}

impl Map {
    /// Whether the two maps find equal values at every key.
    pub fn is_same_as(&self, other: &Map) -> bool
        ensures { IsSameMap result self.now other.now }
    {
        let answer = compare_entries(
            self.entries(),
            self.by_key(),
            other.entries(),
            other.by_key(),
        );
        answer.is_eq()
    }
}

impl PartialEq for Value {
    ghost use Rattle.std.specs.Cmp.{partial_equiv_from_equiv};
    ghost use Rattle.std.proofs.lemmas.Cmp.{eq_by_cmp_equiv};
    ghost use Rattle.tera_value_types.specs.Order.{same};
    ghost use Rattle.tera_value_types.specs.Laws.{order_total};

    ghost eq = { same };

    ghost laws = { partial_equiv_from_equiv (eq_by_cmp_equiv order_total) };

    fn eq(&self, other: &Value) -> bool {
        self.compare(other).is_eq()
    }
}

impl Eq for Value {
    ghost use Rattle.std.proofs.lemmas.Cmp.{eq_by_cmp_equiv};
    ghost use Rattle.tera_value_types.specs.Laws.{order_total};

    ghost laws = { eq_by_cmp_equiv order_total };
}

impl Ord for Value {
    ghost use Rattle.std.proofs.Common.{refl};
    ghost use Rattle.tera_value_types.specs.Order.{order};
    ghost use Rattle.tera_value_types.specs.Laws.{order_total};

    ghost cmp = { order };

    ghost total = { order_total };

    ghost matches_partial_cmp = { λ x y. refl };

    ghost matches_eq = { λ x y. refl };

    fn cmp(&self, other: &Value) -> Ordering {
        self.compare(other)
    }
}

impl PartialOrd for Value {
    ghost use Rattle.std.specs.Ordering.{as_partial_cmp};
    ghost use Rattle.std.specs.Cmp.{partial_order_from_total};
    ghost use Rattle.tera_value_types.specs.Order.{order};
    ghost use Rattle.tera_value_types.specs.Laws.{order_total};

    ghost partial_cmp = { as_partial_cmp order };

    ghost laws = { partial_order_from_total order_total };

    fn partial_cmp(&self, other: &Value) -> Option<Ordering> {
        Some(self.compare(other))
    }
}
