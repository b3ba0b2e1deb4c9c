//! Memory that is taken up but for some bytes, for tests of what happens where there is no more of it.
#![tactic(auto)]

use std::alloc::Global;

/// How many bytes are free at most while a call is tried.
const ROOM: usize = 65_536;

/// How many pieces of a size are taken at most.
const MOST: usize = 20_000;

/// The least that the C library hands out: with steps of it each request is once the first that is refused.
const STEP: usize = 32;

/// How a call ends where little memory is left.
#[derive(Clone, Copy, PartialEq, Eq)]
pub enum Tried {
    /// It had memory enough, and answered what it should.
    Answered,
    /// It was refused memory, and changed nothing.
    Refused,
    /// Neither of these.
    Wrong,
}

/// How often a call is refused before it answers, where it has more and more bytes; none where it goes wrong.
pub fn refusals<F: Fn(usize) -> Tried>(alloc: Global, call: F) -> Option<usize>
    requires { F.IsAlwaysCallable call }
{
    with_little(alloc, || refusals_of_little(|budget| call(budget)))?
}

/// The same within a call of `with_little` or `with_pieces`: to take all memory and give it back needs half a second, and many calls can be tried
/// in between.
pub fn refusals_of_little<F: FnMut(usize) -> Tried>(mut call: F) -> Option<usize>
    requires { F.IsAlwaysCallable call }
{
    for refused in 0..ROOM / STEP {
        match call(STEP * refused) {
            Tried::Answered => return Some(refused),
            Tried::Refused => {}
            Tried::Wrong => return None,
        }
    }
    None
}

/// What the call answers where all memory is taken but for some four million bytes, so that it takes the rest in no time; none
/// where there are not even these.
pub fn with_little<T, F: FnOnce() -> T>(alloc: Global, call: F) -> Option<T>
    requires { F.IsAlwaysCallable call }
{
    with_pieces(alloc, 64, call)
}

/// What the call answers where all memory is taken but for so many pieces of `ROOM` bytes; none where there are not even these.
/// The C library keeps up to seven pieces of each of 64 sizes for itself that were given back. Where a call is tried hundreds of
/// times these lie anywhere: with a thousand pieces there is always one of `ROOM` left between them.
pub fn with_pieces<T, F: FnOnce() -> T>(alloc: Global, pieces: usize, call: F) -> Option<T>
    requires { F.IsAlwaysCallable call }
{
    let mut taken = Vec::with_capacity(alloc, 200_000).ok()?;
    let mut little = Vec::with_capacity(alloc, pieces).ok()?;
    take_pieces(alloc, &mut little, ROOM, pieces);
    take_halves(alloc, &mut taken, 18);
    drop(little);
    let answer = call();
    drop(taken);
    Some(answer)
}

/// What the call answers where so many bytes are left of little memory; none where there is not even room for this test itself.
pub fn with_budget<T, F: FnOnce() -> T>(alloc: Global, budget: usize, call: F) -> Option<T>
    requires { F.IsAlwaysCallable call }
{
    match Vec::with_capacity(alloc, 4_000) {
        Ok(mut taken) => with_taken(alloc, &mut taken, budget, call),
        Err(_) => None,
    }
}

fn with_taken<T, F: FnOnce() -> T>(
    alloc: Global,
    taken: &mut Vec<Vec<u8>>,
    budget: usize,
    call: F,
) -> Option<T>
    requires { F.IsAlwaysCallable call }
{
    if !take_all_but(alloc, taken, ROOM) {
        return None;
    }
    // Between this plug and the end of the room lies all that is left.
    match Vec::<u8>::with_capacity(alloc, ROOM.saturating_sub(budget)) {
        Ok(plug) => {
            let answer = call();
            drop(plug);
            Some(answer)
        }
        Err(_) => None,
    }
}

/// What the call answers where one piece of so many bytes is left; none where there is not even that.
pub fn with_room<T, F: FnOnce() -> T>(alloc: Global, room: usize, call: F) -> Option<T>
    requires { F.IsAlwaysCallable call }
{
    let mut taken = Vec::with_capacity(alloc, 200_000).ok()?;
    if !take_all_but(alloc, &mut taken, room) {
        return None;
    }
    let answer = call();
    drop(taken);
    Some(answer)
}

/// How many bytes are left, each piece with the 16 that the C library keeps beside it. The pieces lie in this list for
/// that time, and it needs a position for each.
pub fn bytes_left(alloc: Global, pieces: &mut Vec<Vec<u8>>) -> usize {
    take_all(alloc, pieces);
    let mut sum: usize = 0;
    for piece in pieces.iter() {
        sum = sum.saturating_add(piece.capacity()).saturating_add(16);
    }
    pieces.clear();
    sum
}

/// Takes all the memory that there is, but for a piece of so many bytes; false where there is not even that.
fn take_all_but(alloc: Global, taken: &mut Vec<Vec<u8>>, room: usize) -> bool {
    match Vec::<u8>::with_capacity(alloc, room) {
        Ok(room) => {
            take_all(alloc, taken);
            drop(room);
            true
        }
        Err(_) => false,
    }
}

/// Takes all the memory that there is.
fn take_all(alloc: Global, taken: &mut Vec<Vec<u8>>) {
    take_halves(alloc, taken, 34);
    // The C library keeps small pieces that were given back, by their size, and hands them out for that size alone.
    for position in 0..64 {
        take_pieces(alloc, taken, 1032 - 16 * position, MOST);
    }
}

/// Takes pieces of 16 GiB until there are no more, then of half of that, and so on for so many sizes.
fn take_halves(alloc: Global, taken: &mut Vec<Vec<u8>>, sizes: usize) {
    let mut size: usize = 1 << 34;
    for _ in 0..sizes {
        take_pieces(alloc, taken, size, MOST);
        size = size / 2;
    }
}

/// Takes pieces of a size until there are no more, or so many are taken.
fn take_pieces(alloc: Global, taken: &mut Vec<Vec<u8>>, size: usize, most: usize) {
    for _ in 0..most {
        match Vec::with_capacity(alloc, size) {
            Ok(piece) => {
                let _ = taken.push(piece);
            }
            Err(_) => break,
        }
    }
}
