// The order of a map's keys.
ghost use Rattle.std.specs.Prelude.{◌≡◌, ◌≢◌, ◌+◌, ◌<◌, ◌≤◌, IfOk, IfErr, OnOk, OnErr, MatchOption, [], ◌∷◌, length, take, drop, slice_set, suc, true, false};
ghost use Rattle.std.specs.List.{insert};
ghost use Rattle.std.specs.declared.cmp.Ordering.TheVariants.{Greater};
ghost use Rattle.tera_value_types.specs.View.{wanted_view, entry_views};
ghost use Rattle.tera_value_types.specs.Index.{nth_key, IsRising, IsAt, IsGapFor};
ghost use Rattle.tera_value_types.specs.Keys.{key_cmp};
ghost use Rattle.tera_value_types.specs.KeyOrder.{pieces, flat, piece_at, place_of, left, IsFull, IsKept, IsInside, Stands, HasGap};

use crate::key::{KeyRef, compare_key};
use crate::value::Entry;
use std::alloc::{AllocError, Global};
use std::cmp::Ordering;

/// A piece that has grown longer than this is cut behind so many of its positions as `KEPT` says.
const LONGEST: usize = 256;

const KEPT: usize = 128;

/// The positions of a map's entries, in the order of their keys. Those of a small map are one piece. Of a large one
/// they are many, of which none but the first is empty: so a new position moves the others of its piece alone, in
/// whatever order keys come.
#[derive(Drop)]
pub(crate) struct KeyOrder {
    first: Vec<usize>,
    rest: Vec<Vec<usize>>,
}

/// Where a key would stand: the number of a piece, and a place in it.
#[derive(Clone, Copy)]
pub(crate) struct Gap {
    piece: usize,
    at: usize,
}

/// A walk along the positions.
#[derive(Drop)]
pub(crate) struct KeyWalk<'a> {
    piece: &'a [usize],
    rest: &'a [Vec<usize>],
}

/// How the first key of a piece stands to the wanted one.
#[inline]
fn compare_first(all: &[Entry], by_key: &[usize], wanted: &KeyRef<'_>) -> Ordering
    requires rising { IsRising by_key.now (entry_views all.now) }
    requires some { 0 < length by_key.now }
    ensures { result ≡ key_cmp (nth_key by_key.now (entry_views all.now) 0) (wanted_view wanted.now) }
{
    compare_key(&all[by_key[0]].key, wanted)
}

/// Where the key stands in a piece, or where it would stand.
fn search(all: &[Entry], by_key: &[usize], wanted: &KeyRef<'_>) -> Result<usize, usize>
    requires { IsRising by_key.now (entry_views all.now) }
    ensures found { IfOk result (IsAt by_key.now (entry_views all.now) (wanted_view wanted.now)) }
    ensures absent { IfErr result (IsGapFor by_key.now (entry_views all.now)
        (wanted_view wanted.now)) }
{
    let mut low = 0;
    let mut high = by_key.len();
    while low < high {
        let middle = low + (high - low) / 2;
        match compare_key(&all[by_key[middle]].key, wanted) {
            Ordering::Less => low = middle + 1,
            Ordering::Equal => return Ok(middle),
            Ordering::Greater => high = middle,
        }
    }
    Err(low)
}

impl KeyOrder {
    pub(crate) fn new(alloc: Global) -> KeyOrder
        ensures all { flat result ≡ [] }
        ensures full { IsFull result }
    {
        KeyOrder {
            first: Vec::new(alloc),
            rest: Vec::new(alloc),
        }
    }

    pub(crate) fn try_clone(&self) -> Result<KeyOrder, AllocError>
        ensures { IfOk result (λ o. pieces o ≡ pieces self.now) }
    {
        let first = self.first.clone()?;
        let rest = self.rest.clone()?;
        Ok(KeyOrder { first, rest })
    }

    #[inline]
    fn piece(&self, number: usize) -> &[usize]
        requires { number ≤ length self.now.rest.items }
        ensures { result.now ≡ piece_at (pieces self.now) number }
    {
        if number == 0 {
            self.first.as_slice()
        } else {
            self.rest[number - 1].as_slice()
        }
    }

    /// The piece in which a key stands, or would stand: the last that does not begin above it.
    fn piece_of(&self, all: &[Entry], wanted: &KeyRef<'_>) -> usize
        requires { IsKept self.now (entry_views all.now) }
        ensures there { result ≤ length self.now.rest.items }
        ensures from { 0 < result → key_cmp (nth_key (piece_at (pieces self.now) result)
            (entry_views all.now) 0) (wanted_view wanted.now) ≢ Greater }
        ensures until { result < length self.now.rest.items
            → key_cmp (nth_key (piece_at (pieces self.now) (result + 1))
            (entry_views all.now) 0) (wanted_view wanted.now) ≡ Greater }
    {
        let mut low = 0;
        let mut high = self.rest.len();
        while low < high {
            let middle = low + (high - low) / 2;
            match compare_first(all, self.piece(middle + 1), wanted) {
                Ordering::Greater => high = middle,
                _ => low = middle + 1,
            }
        }
        low
    }

    /// The position of the entry that has the key, or the gap that the key would fill.
    pub(crate) fn find(&self, all: &[Entry], wanted: &KeyRef<'_>) -> Result<usize, Gap>
        requires { IsKept self.now (entry_views all.now) }
        ensures found { IfOk result (Stands (flat self.now) (entry_views all.now)
            (wanted_view wanted.now)) }
        ensures absent { IfErr result (HasGap self.now (entry_views all.now)
            (wanted_view wanted.now)) }
    {
        let number = self.piece_of(all, wanted);
        let piece = self.piece(number);
        match search(all, piece, wanted) {
            Ok(at) => Ok(piece[at]),
            Err(at) => Err(Gap { piece: number, at }),
        }
    }

    /// Puts a position into a gap.
    pub(crate) fn fill(&mut self, gap: Gap, position: usize) -> Result<(), AllocError>
        requires inside { IsInside self.old gap }
        requires full { IsFull self.old }
        ensures ok { OnOk result (flat self.new
            ≡ insert (flat self.old) (place_of self.old gap) position) }
        ensures err { OnErr result (flat self.new ≡ flat self.old) }
        ensures full { IsFull self.new }
    {
        self.put(gap, position)?;
        self.cut(gap.piece);
        Ok(())
    }

    fn put(&mut self, gap: Gap, position: usize) -> Result<(), AllocError>
        requires inside { IsInside self.old gap }
        requires full { IsFull self.old }
        ensures ok { OnOk result (flat self.new
            ≡ insert (flat self.old) (place_of self.old gap) position) }
        ensures err { OnErr result (flat self.new ≡ flat self.old) }
        ensures full { IsFull self.new }
        ensures as_many { length self.new.rest.items ≡ length self.old.rest.items }
    {
        if gap.piece == 0 {
            self.first.insert(gap.at, position)?;
            Ok(())
        } else {
            let later = &mut self.rest[gap.piece - 1];
            later.insert(gap.at, position)?;
            Ok(())
        }
    }

    /// Cuts a piece in two that has grown too long. Where memory for that is refused it stays long: all is found
    /// in it as before, and the next position that comes into it tries again.
    fn cut(&mut self, number: usize)
        requires there { number ≤ length self.old.rest.items }
        requires full { IsFull self.old }
        ensures same { flat self.new ≡ flat self.old }
        ensures full { IsFull self.new }
    {
        let piece = self.piece(number);
        if piece.len() <= LONGEST {
            return;
        }
        if let Ok(later) = Vec::from_slice(*self.first.allocator(), &piece[KEPT..]) {
            self.split_piece(number, later);
        }
    }

    /// Puts behind a piece, as one of its own, what stands there behind `KEPT` positions, if there is memory for it.
    fn split_piece(&mut self, number: usize, later: Vec<usize>)
        requires there { number ≤ length self.old.rest.items }
        requires long { 128 < length (piece_at (pieces self.old) number) }
        requires behind { later.items ≡ drop 128 (piece_at (pieces self.old) number) }
        requires full { IsFull self.old }
        ensures same { flat self.new ≡ flat self.old }
        ensures full { IsFull self.new }
    {
        match self.rest.insert(number, later) {
            Ok(()) => self.shorten(number),
            Err(_) => {}
        }
    }

    /// Leaves `KEPT` positions in a piece.
    fn shorten(&mut self, number: usize)
        requires { number ≤ length self.old.rest.items }
        ensures { pieces self.new ≡ slice_set (pieces self.old) number
            (take 128 (piece_at (pieces self.old) number)) }
    {
        if number == 0 {
            self.first.truncate(KEPT);
        } else {
            self.rest[number - 1].truncate(KEPT);
        }
    }

    pub(crate) fn walk(&self) -> KeyWalk<'_>
        ensures { left result ≡ flat self.now }
    {
        KeyWalk {
            piece: self.first.as_slice(),
            rest: self.rest.as_slice(),
        }
    }
}

impl<'a> KeyWalk<'a> {
    /// A walk along no positions.
    pub(crate) fn of_none() -> KeyWalk<'a>
        ensures { left result ≡ [] }
    {
        KeyWalk {
            piece: &[],
            rest: &[],
        }
    }

    /// The next position in the order of keys.
    pub(crate) fn next(&mut self) -> Option<usize>
        ensures { MatchOption result (left self.old ≡ []) (λ i. left self.old ≡ i ∷ left self.new) }
    {
        self.pass_ends();
        match self.piece.split_first() {
            Some((position, later)) => {
                self.piece = later;
                Some(*position)
            }
            None => None,
        }
    }

    /// Goes on to the next piece that has positions, where this one has no more.
    fn pass_ends(&mut self)
        ensures same { left self.new ≡ left self.old }
        ensures ended { length self.new.piece.now ≡ 0 → left self.new ≡ [] }
    {
        while self.piece.is_empty() {
            match self.rest.split_first() {
                Some((piece, rest)) => {
                    self.piece = piece.as_slice();
                    self.rest = rest;
                }
                None => return,
            }
        }
    }
}
