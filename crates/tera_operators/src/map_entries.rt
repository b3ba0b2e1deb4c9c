// The entries of a map that is written out, as they lie.
ghost use Rattle.std.specs.Prelude.{◌≡◌, true, Ok, IfSome, length, option_copied};
ghost use Rattle.std.specs.List.{list_all};
ghost use Rattle.tera_errors.specs.Prelude.{Gives};
ghost use Rattle.tera_syntax_tree.specs.Prelude.{key_option};
ghost use Rattle.tera_values.specs.Prelude.{ktext, key_view, find};
ghost use Rattle.tera_operators.specs.Entries.{listed, is_at, is_key_named, is_named, are_named, AreAmong};

use crate::map_literals::key_from;
use crate::operand::Operand;
use std::alloc::Global;
use std::marker::Model;
use tera_syntax_tree::OwnedKey;
use tera_values::{Key, Map, TeraResult, Value};

/// How entries lie: operands beside their keys, where none is spread; a map that was made of them; or a map that belongs
/// to someone else.
#[derive(Drop)]
enum Form<'k> {
    Listed(&'k [Option<OwnedKey>], Vec<Operand>),
    Made(Map),
    Lent(&'k Map),
}

/// The entries of a map that is written out, which lie as they were evaluated until a map of them is wanted; or those of
/// a map. A contract sees the entries, and not how they lie.
#[derive(Drop)]
pub struct Entries<'k>(Form<'k>);

impl<'k> Model for Entries<'k> {
    ghost use Rattle.std.specs.Prelude.{List};
    ghost use Rattle.tera_values.specs.Val.{Val, KeyVal};
    ghost use Rattle.tera_values.specs.Coding.{entries_coding};
    ghost use Rattle.tera_operators.specs.Entries.{entries_in, Fits};

    ghost Value = { List (KeyVal × Val) };

    ghost coded = { entries_coding };

    ghost view = { λ e. entries_in e.0 };

    ghost invariant = { λ e. Fits e.0 };
}

impl<'k> Entries<'k> {
    /// The operands at these keys, as they lie. Takes no memory.
    pub(crate) fn of_operands(keys: &'k [Option<OwnedKey>], operands: Vec<Operand>) -> Entries<'k>
        requires { length keys.now ≡ length operands.items }
        ensures { result ≡ listed keys.now operands.items }
    {
        Entries(Form::Listed(keys, operands))
    }

    /// The entries of a map that was made of them. Takes no memory.
    pub(crate) fn of_owned_map(map: Map) -> Entries<'k>
        ensures { result ≡ map }
    {
        Entries(Form::Made(map))
    }

    /// The entries of the map. Takes no memory.
    pub fn of_map(map: &'k Map) -> Entries<'k>
        ensures { result ≡ map.now }
    {
        Entries(Form::Lent(map))
    }

    /// The value at a text key. Takes no memory.
    pub fn get_text(&self, name: &str) -> Option<&Value>
        ensures { option_copied result ≡ find (ktext name.now) self.now }
    {
        match &self.0 {
            Form::Listed(keys, operands) => value_at_key(keys, operands.as_slice(), name),
            Form::Made(map) => map.get_text(name),
            Form::Lent(map) => map.get_text(name),
        }
    }

    /// Whether each text key is a key of the names. A key that is no text names nothing. Takes no memory.
    #[inline(always)]
    pub fn are_among(&self, names: &Map) -> bool
        ensures is { result ≡ are_named names.now self.now }
        ensures among { result ≡ true → AreAmong names.now self.now }
    {
        match &self.0 {
            Form::Listed(keys, _) => are_keys_named(keys, names),
            Form::Made(map) => map_named(map, names),
            Form::Lent(map) => map_named(map, names),
        }
    }

    /// A map of its own with the same entries.
    pub fn to_map(&self, alloc: Global) -> TeraResult<Map>
        ensures { Gives (λ m. m) result (Ok self.now) }
    {
        match &self.0 {
            Form::Listed(keys, operands) => listed_map(alloc, keys, operands.as_slice()),
            Form::Made(map) => map.try_clone(),
            Form::Lent(map) => map.try_clone(),
        }
    }

    /// The map with these entries, where there is one already.
    pub fn as_map(&self) -> Option<&Map>
        ensures { IfSome result (λ m. m.now ≡ self.now) }
    {
        match &self.0 {
            Form::Listed(_, _) => None,
            Form::Made(map) => Some(map),
            Form::Lent(map) => Some(*map),
        }
    }
}

/// Whether the key is this text.
fn is_at(key: &Option<OwnedKey>, name: &str) -> bool
    ensures { result ≡ is_at (ktext name.now) (key_option key.now) }
{
    match key {
        Some(OwnedKey::Text(text)) => name == text.as_str(),
        _ => false,
    }
}

/// The value at a text key. The last of its values counts, so they are looked at from behind.
fn value_at_key<'a>(
    keys: &[Option<OwnedKey>],
    operands: &'a [Operand],
    name: &str,
) -> Option<&'a Value>
    requires { length keys.now ≡ length operands.now }
    ensures { option_copied result ≡ find (ktext name.now) (listed keys.now operands.now) }
{
    let mut left = operands.len();
    while left > 0 {
        left -= 1;
        if is_at(&keys[left], name) {
            return Some(operands[left].value());
        }
    }
    None
}

/// Whether the key is among the names.
fn is_key_named(key: &Option<OwnedKey>, names: &Map) -> bool
    ensures { result ≡ is_key_named names.now (key_option key.now) }
{
    match key {
        Some(OwnedKey::Text(text)) => names.get_text(text.as_str()).is_some(),
        _ => true,
    }
}

/// Whether all keys are among the names.
fn are_keys_named(keys: &[Option<OwnedKey>], names: &Map) -> bool
    ensures { result ≡ list_all (λ k. is_key_named names.now (key_option k)) keys.now }
{
    for key in keys {
        if !is_key_named(key, names) {
            return false;
        }
    }
    true
}

/// The same of a key of a map.
fn is_named(key: &Key, names: &Map) -> bool
    ensures { result ≡ is_named names.now (key_view key.now) }
{
    match key {
        Key::Text(text) => names.get_text(text.as_str()).is_some(),
        _ => true,
    }
}

/// Whether all keys of the map are among the names.
fn map_named(map: &Map, names: &Map) -> bool
    ensures { result ≡ are_named names.now map.now }
{
    for position in 0..map.len() {
        if let Some((key, _)) = map.entry_at(position) {
            if !is_named(key, names) {
                return false;
            }
        }
    }
    true
}

/// A map of copies of the operands, from left to right; a key that is there takes the later value.
fn listed_map(alloc: Global, keys: &[Option<OwnedKey>], operands: &[Operand]) -> TeraResult<Map>
    requires { length keys.now ≡ length operands.now }
    ensures { Gives (λ m. m) result (Ok (listed keys.now operands.now)) }
{
    let mut all = Map::new(alloc);
    for (key, operand) in keys.iter().zip(operands.iter()) {
        if let Some(key) = key {
            all.insert(key_from(alloc, key)?, operand.value().try_clone()?)?;
        }
    }
    Ok(all)
}
