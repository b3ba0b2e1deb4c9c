// Names, shared by all that hold them, and what is known of them beside their text.
ghost use Rattle.std.specs.Prelude.{◌≡◌, ◌<◌, length, Ok, bytes_eq};
ghost use Rattle.std.specs.Cmp.{partial_equiv_from_equiv};
ghost use Rattle.std.specs.Cmp.Lexicographic.{nat_list_eq_equiv};
ghost use Rattle.tera_errors.specs.Prelude.{Gives};
ghost use Rattle.tera_values.specs.Named.{name_cmp};
ghost use Rattle.tera_values.specs.Naming.{counter_of, hashed, long_hash, name_hash, packed, same_hashed, short_hash};

use crate::counter::Counter;
use indexmap::Equivalent;
use std::alloc::Global;
use std::cmp::Ordering;
use std::hash::{FoldHasher, Hash, Hasher};
use std::marker::Model;
use std::rc::RcStr;
use tera_errors::TeraResult;

/// A name; a copy shares its text. Its hash and what it counts are found once, when it is made.
#[derive(Drop)]
pub struct Name {
    text: RcStr,
    hash: u64,
    counter: Option<Counter>,
}

impl Model for Name {
    ghost use Rattle.std.specs.Prelude.{ℕ, List};
    ghost use Rattle.std.specs.Rc.{rc_str_bytes};
    ghost use Rattle.tera_values.specs.Naming.{IsOf};

    ghost Value = { List ℕ };

    ghost view = { λ n. rc_str_bytes n.text };

    ghost invariant = { λ n. IsOf (rc_str_bytes n.text) n.hash n.counter };
}

impl Name {
    /// A copy of the text.
    pub fn new(alloc: Global, text: &str) -> TeraResult<Name>
        ensures { Gives (λ n. n) result (Ok text.now) }
    {
        Name::from_name_ref(alloc, &NameRef::new(text))
    }

    /// A name of its own with this text.
    pub fn from_name_ref(alloc: Global, sought: &NameRef<'_>) -> TeraResult<Name>
        ensures { Gives (λ n. n) result (Ok sought.now) }
    {
        Ok(Name {
            text: RcStr::from_str(alloc, sought.text)?,
            hash: sought.hash,
            counter: sought.counter,
        })
    }

    /// The same name once more: a count, and no copy of the text.
    pub fn share(&self) -> TeraResult<Name>
        ensures { Gives (λ n. n) result (Ok self.now) }
    {
        Ok(Name {
            text: self.text.clone()?,
            hash: self.hash,
            counter: self.counter,
        })
    }

    /// The text of the name.
    pub fn as_str(&self) -> &str
        ensures { result.now ≡ self.now }
    {
        self.text.as_str()
    }

    /// The name to look for: nothing is copied, and nothing is found anew.
    pub fn as_name_ref(&self) -> NameRef<'_>
        ensures { result ≡ self.now }
    {
        NameRef {
            text: self.text.as_str(),
            hash: self.hash,
            counter: self.counter,
        }
    }
}

// Two names are the same where their texts are.
impl PartialEq for Name {
    ghost eq = { bytes_eq };

    ghost laws = { partial_equiv_from_equiv nat_list_eq_equiv };

    fn eq(&self, other: &Name) -> bool {
        is_text(
            self.hash,
            self.text.as_str(),
            other.hash,
            other.text.as_str(),
        )
    }
}

impl Eq for Name {
    ghost laws = { nat_list_eq_equiv };
}

// Names stand in byte order of their texts.
impl Ord for Name {
    ghost use Rattle.std.proofs.Common.{refl};
    ghost use Rattle.std.specs.Cmp.Lexicographic.{nat_list_cmp_total, texts_ties};

    ghost cmp = { name_cmp };

    ghost total = { nat_list_cmp_total };

    ghost matches_partial_cmp = { λ x y. refl };

    ghost matches_eq = { texts_ties };

    fn cmp(&self, other: &Name) -> Ordering {
        self.as_str().cmp(other.as_str())
    }
}

impl PartialOrd for Name {
    ghost use Rattle.std.specs.Prelude.{Some};
    ghost use Rattle.std.specs.Cmp.Lexicographic.{texts_po};

    ghost partial_cmp = { λ x y. Some (name_cmp x y) };

    ghost laws = { texts_po };

    fn partial_cmp(&self, other: &Name) -> Option<Ordering> {
        Some(self.cmp(other))
    }
}

// A map that hashes a name takes in the hash that was found once, and not the text.
impl Hash for Name {
    ghost hash_input = { hashed };

    ghost respects_eq = { same_hashed };

    fn hash<H: Hasher>(&self, state: &mut H) {
        state.write_u64(self.hash);
    }
}

/// A name that is looked for. Its text lies elsewhere; its hash and what it counts are found once, so that a look-up
/// compares texts only where they are long and their hashes are the same. Takes no memory.
#[derive(Drop)]
pub struct NameRef<'a> {
    text: &'a str,
    hash: u64,
    counter: Option<Counter>,
}

impl<'a> Model for NameRef<'a> {
    ghost use Rattle.std.specs.Prelude.{ℕ, List};
    ghost use Rattle.tera_values.specs.Naming.{IsOf};

    ghost Value = { List ℕ };

    ghost view = { λ s. s.text.now };

    ghost invariant = { λ s. IsOf s.text.now s.hash s.counter };
}

impl<'a> NameRef<'a> {
    /// The text as a name to look for.
    pub fn new(text: &'a str) -> NameRef<'a>
        ensures { result ≡ text.now }
    {
        NameRef {
            text,
            hash: hash_of(text),
            counter: Counter::by_name(text),
        }
    }

    /// The text of the name.
    pub fn as_str(&self) -> &'a str
        ensures { result.now ≡ self.now }
    {
        self.text
    }

    /// The hash of the text, which is the same for the same text.
    pub fn hash(&self) -> u64
        ensures { result ≡ name_hash self.now }
    {
        self.hash
    }

    /// What a loop counts under the name, if anything.
    pub fn counter(&self) -> Option<Counter>
        ensures { result ≡ counter_of self.now }
    {
        self.counter
    }

    /// Whether this is the name.
    #[inline(always)]
    pub fn is(&self, name: &Name) -> bool
        ensures { result ≡ bytes_eq self.now name.now }
    {
        is_text(self.hash, self.text, name.hash, name.text.as_str())
    }
}

impl<'a> PartialEq for NameRef<'a> {
    ghost eq = { bytes_eq };

    ghost laws = { partial_equiv_from_equiv nat_list_eq_equiv };

    fn eq(&self, other: &NameRef<'a>) -> bool {
        is_text(self.hash, self.text, other.hash, other.text)
    }
}

impl<'a> Eq for NameRef<'a> {
    ghost laws = { nat_list_eq_equiv };
}

impl<'a> Hash for NameRef<'a> {
    ghost hash_input = { hashed };

    ghost respects_eq = { same_hashed };

    fn hash<H: Hasher>(&self, state: &mut H) {
        state.write_u64(self.hash);
    }
}

// So a map whose keys are names is asked for one that is looked for, and hashes eight bytes.
impl<'a, 's> Equivalent<Name> for &'s NameRef<'a> {
    ghost equivalent = { λ q n. bytes_eq q.now n };

    ghost respects_hash = { λ q. same_hashed q.now };

    ghost respects_eq = { λ q x y. nat_list_eq_equiv.congr q.now x y };

    fn equivalent(&self, key: &Name) -> bool {
        (*self).is(key)
    }
}

// The least hash of a long text, which is one of eight bytes or more. A hash below it is that of one text alone.
const LONG: u64 = 1 << 63;

// Whether two texts, each with its hash, are the same. Only long texts with the same hash are compared byte by byte.
#[inline(always)]
fn is_text(hash: u64, text: &str, other_hash: u64, other: &str) -> bool
    requires { (hash ≡ name_hash text.now) × (other_hash ≡ name_hash other.now) }
    ensures { result ≡ bytes_eq text.now other.now }
{
    hash == other_hash && (hash < LONG || are_same(text, other))
}

// Not inlined, so that only the hashes are compared where a short name is looked for. Their order is told in fewer steps than `==`
// takes where they are equally long.
#[inline(never)]
fn are_same(a: &str, b: &str) -> bool
    ensures { result ≡ bytes_eq a.now b.now }
{
    a.as_bytes().cmp(&b.as_bytes()).is_eq()
}

// The hash of a short text tells the text.
#[inline(always)]
fn hash_of(text: &str) -> u64
    ensures { result ≡ name_hash text.now }
{
    if text.len() < 8 {
        short_hash(text)
    } else {
        long_hash(text)
    }
}

// A short text's hash: the text as a number, and in the six bits below it, for those who take only low bits of a hash,
// a remainder to which each byte adds.
#[inline(always)]
fn short_hash(text: &str) -> u64
    requires { length text.now < 8 }
    ensures { result ≡ short_hash text.now }
{
    let number = pack_bytes(text);
    number * 64 + number % 63
}

// A short text as a number: its bytes as digits behind a 1, which tells how many they are.
#[inline(always)]
fn pack_bytes(text: &str) -> u64
    requires { length text.now < 8 }
    ensures { result ≡ packed text.now }
{
    let mut number: u64 = 1;
    for byte in text.as_bytes() {
        number = number * 256 + u64::from(*byte);
    }
    number
}

// A long text's hash, from `LONG` on.
fn long_hash(text: &str) -> u64
    ensures { result ≡ long_hash text.now }
{
    let mut state = FoldHasher::default();
    text.hash(&mut state);
    LONG + state.finish() / 2
}
