// Maps that are written out.
ghost use Rattle.std.specs.Prelude.{◌≡◌, [], ◌∷◌, Ok, length, map as map_list, OnOk, IfErr, option_copied, is_none};
ghost use Rattle.std.specs.List.{zip, list_any};
ghost use Rattle.tera_errors.specs.Prelude.{Gives, Lacks};
ghost use Rattle.tera_syntax_tree.specs.Prelude.{key_of, key_option};
ghost use Rattle.tera_values.specs.Prelude.{key_view};
ghost use Rattle.tera_operators.specs.Literals.{key_val, pairs_of, kept, entry_after, from_left, map_entries, map_of};

use crate::map_entries::Entries;
use crate::operand::Operand;
use std::alloc::Global;
use tera_syntax_tree::OwnedKey;
use tera_values::{Error, Key, Map, Shape, Span, TeraResult, Value};

/// Up to so many entries are looked at one after the other.
const FEW: usize = 16;

/// The key of a map that is written out as this one.
pub(crate) fn key_from(alloc: Global, key: &OwnedKey) -> TeraResult<Key>
    ensures { Gives key_view result (Ok (key_val (key_of key.now))) }
{
    match key {
        OwnedKey::Bool(flag) => Ok(Key::Bool(*flag)),
        OwnedKey::Int(number) => Ok(Key::Int(*number)),
        OwnedKey::Text(text) => Ok(Key::Text(String::from_str(alloc, text.as_str())?)),
    }
}

/// The entries of a map.
fn entries_in(value: &Value) -> Option<&Map>
    ensures { option_copied result ≡ pairs_of value.now }
{
    match value.shape() {
        Shape::Map(entries) => Some(entries),
        _ => None,
    }
}

/// Puts the value at the key, unless one is there.
#[tactic(auto, using(crate::proofs::Keeping::inserted_last))]
fn keep(all: &mut Map, key: Key, value: Value) -> TeraResult<()>
    ensures ok { OnOk result (all.new ≡ kept all.old ((key_view key, value) ∷ [])) }
    ensures lacks { IfErr result Lacks }
{
    if all.get(&key).is_some() {
        drop(value);
        drop(key);
        return Ok(());
    }
    all.insert(key, value)
}

/// The same of a copy.
#[tactic(auto, using(crate::proofs::Keeping::inserted_last))]
fn keep_copy(all: &mut Map, key: &Key, value: &Value) -> TeraResult<()>
    ensures ok { OnOk result (all.new ≡ kept all.old ((key_view key.now, value.now) ∷ [])) }
    ensures lacks { IfErr result Lacks }
{
    if all.get(key).is_some() {
        return Ok(());
    }
    let key = key.try_clone()?;
    let value = value.try_clone()?;
    all.insert(key, value)
}

/// Puts each of the entries whose key is not there yet.
fn keep_all(all: &mut Map, more: &Map) -> TeraResult<()>
    ensures ok { OnOk result (all.new ≡ kept all.old more.now) }
    ensures lacks { IfErr result Lacks }
{
    for position in 0..more.len() {
        if let Some((key, value)) = more.entry_at(position) {
            keep_copy(all, key, value)?;
        }
    }
    Ok(())
}

/// The entries from left to right; a key that is there takes the later value.
fn map_from_left(
    alloc: Global,
    keys: &[Option<OwnedKey>],
    operands: Vec<Operand>,
) -> TeraResult<Map>
    requires { length keys.now ≡ length operands.items }
    ensures { Gives (λ m. m) result
        (Ok (from_left [] (zip (map_list key_option keys.now) operands.items))) }
{
    let mut all = Map::new(alloc);
    for (key, operand) in keys.iter().zip(operands) {
        if let Some(key) = key {
            all.insert(key_from(alloc, key)?, operand.into_value())?;
        }
    }
    Ok(all)
}

/// Puts each entry of the map that is spread, unless its key is there; a fault at the operand where it is no map.
#[tactic(auto, using(crate::proofs::Keeping::spread_fits, crate::proofs::Keeping::spread_unfit))]
fn spread_after(alloc: Global, file: &str, operand: &Operand, all: &mut Map) -> TeraResult<()>
    ensures { Gives (λ _. all.new) result (entry_after file.now None operand.now all.old) }
{
    match entries_in(operand.value()) {
        Some(more) => keep_all(all, more),
        None => Err(Error::rendering_of(
            alloc,
            "is no map, and only a map can be spread here",
            file,
            operand.span(),
        )),
    }
}

/// Puts the entry, or the entries that are spread, after those that stand on its right.
fn put_after(
    alloc: Global,
    file: &str,
    key: &Option<OwnedKey>,
    operand: Operand,
    all: &mut Map,
) -> TeraResult<()>
    ensures { Gives (λ _. all.new) result
        (entry_after file.now (key_option key.now) operand all.old) }
{
    match key {
        Some(key) => keep(all, key_from(alloc, key)?, operand.into_value()),
        None => {
            let outcome = spread_after(alloc, file, &operand, all);
            drop(operand);
            outcome
        }
    }
}

/// Whether an entry has no key.
fn has_spread(keys: &[Option<OwnedKey>]) -> bool
    ensures { result ≡ list_any is_none keys.now }
{
    keys.iter().any(|key| key.is_none())
}

/// The map of all entries. Where one of them is spread they are put from right to left, and a key that is there keeps its value.
#[tactic(auto, using(crate::proofs::Keeping::without_spread))]
fn map_of_entries(
    alloc: Global,
    file: &str,
    keys: &[Option<OwnedKey>],
    operands: Vec<Operand>,
) -> TeraResult<Map>
    requires { length keys.now ≡ length operands.items }
    ensures { Gives (λ m. m) result
        (map_entries file.now (zip (map_list key_option keys.now) operands.items)) }
{
    if !has_spread(keys) {
        return map_from_left(alloc, keys, operands);
    }
    let mut all = Map::new(alloc);
    let mut operands = operands;
    while let Some(operand) = operands.pop() {
        put_after(alloc, file, &keys[operands.len()], operand, &mut all)?;
    }
    Ok(all)
}

/// The entries, which lie as they were evaluated. Where one of them is spread, or where they are many, they are a map.
#[tactic(auto, using(crate::proofs::Keeping::without_spread))]
pub fn entries<'k>(
    alloc: Global,
    file: &str,
    keys: &'k [Option<OwnedKey>],
    operands: Vec<Operand>,
) -> TeraResult<Entries<'k>>
    requires { length keys.now ≡ length operands.items }
    ensures { Gives (λ m. m) result
        (map_entries file.now (zip (map_list key_option keys.now) operands.items)) }
{
    if keys.len() > FEW || has_spread(keys) {
        Ok(Entries::of_owned_map(map_of_entries(alloc, file, keys, operands)?))
    } else {
        Ok(Entries::of_operands(keys, operands))
    }
}

/// `{"a": 1, ...more}`: each operand is the value at its key, or, where there is no key, a map whose entries are spread.
/// Without a spread the later value of a key counts. With one, what stands on the right goes first and stays; of the
/// spreads that are no maps the last one is the fault. The map is in shared form, so a copy is a count.
pub fn map(
    alloc: Global,
    file: &str,
    keys: &[Option<OwnedKey>],
    operands: Vec<Operand>,
    span: Span,
) -> TeraResult<Operand>
    requires { length keys.now ≡ length operands.items }
    ensures { Gives (λ o. o) result
        (map_of file.now (zip (map_list key_option keys.now) operands.items) span) }
{
    let all = map_of_entries(alloc, file, keys, operands)?;
    Ok(Operand::new(Value::map(all).into_shared(alloc)?, span))
}
