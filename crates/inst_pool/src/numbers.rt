//! A number beside each piece.
ghost use Rattle.std.specs.Prelude.{◌≡◌, ◌+◌, ◌-◌, ◌<◌, ◌≤◌, [], ◌∷◌, ◌++◌, length, replicate, reverse, slice_index, slice_set, OnOk, vec_capacity};

use crate::room::widen;
use std::alloc::{AllocError, Global};
use std::marker::Model;

/// The greatest number of 32 bits.
const MOST: u64 = 0xFFFF_FFFF;

/// A list of numbers, in 32 bits each as long as none is greater. Those that are set one after the other, from the first on
/// or from the last one down, are kept in two blocks, and what is between them is 0. So no block is written to before it is
/// wanted, and none further than it is wanted.
#[derive(Debug, Drop)]
pub(crate) struct Numbers {
    /// The first ones.
    front: Vec<u32>,
    /// The place where the last ones begin. From those in front up to it all are 0.
    behind: usize,
    /// The last ones, the very last first.
    back: Vec<u32>,
    /// All of them, once one is greater; the other blocks are then empty.
    wide: Vec<u64>,
}

impl Model for Numbers {
    ghost use Rattle.std.specs.Prelude.{◌≤◌, length, min, vec_capacity};
    ghost use Rattle.inst_pool.specs.inner.Numbers.{Column, numbers_kept_in, AreKeptInForm};

    ghost Value = { Column };

    ghost view = { λ n. record { items = numbers_kept_in n.front.items n.behind n.back.items n.wide.items; room = min (min (vec_capacity n.front) (vec_capacity n.back)) (vec_capacity n.wide) } };

    ghost invariant = { λ n. AreKeptInForm n.front.items n.behind n.back.items n.wide.items (min (min (vec_capacity n.front) (vec_capacity n.back)) (vec_capacity n.wide)) };
}

impl Numbers {
    /// No number. It takes no memory.
    pub(crate) fn new(alloc: Global) -> Numbers
        ensures { result.items ≡ [] }
    {
        Numbers {
            front: Vec::new(alloc),
            behind: 0,
            back: Vec::new(alloc),
            wide: Vec::new(alloc),
        }
    }

    /// Makes room for so many in all.
    pub(crate) fn widen(&mut self, room: usize) -> Result<(), AllocError>
        ensures ok { OnOk result (room ≤ self.new.room) }
        ensures room { self.old.room ≤ self.new.room }
        ensures items { self.new.items ≡ self.old.items }
    {
        widen(&mut self.front, room)?;
        widen(&mut self.back, room)?;
        widen(&mut self.wide, room)?;
        Ok(())
    }

    /// So many numbers, each 0, for which there is room.
    pub(crate) fn begin(&mut self, count: usize)
        requires { count ≤ self.old.room }
        ensures items { self.new.items ≡ replicate count 0 }
        ensures room { self.new.room ≡ self.old.room }
    {
        self.front.clear();
        self.back.clear();
        self.wide.clear();
        self.behind = count;
    }

    /// The number at that place, from 0.
    #[inline(always)]
    pub(crate) fn get(&self, at: usize) -> u64
        requires { at < length self.now.items }
        ensures { result ≡ slice_index self.now.items at }
    {
        if at < self.front.len() {
            return self.front[at] as u64;
        }
        if at < self.behind {
            return 0;
        }
        let place = at - self.behind;
        if place < self.back.len() {
            return self.back[self.back.len() - 1 - place] as u64;
        }
        self.wide[at]
    }

    /// Keeps a number at that place.
    #[inline(always)]
    pub(crate) fn set(&mut self, at: usize, number: u64)
        requires { at < length self.old.items }
        ensures items { self.new.items ≡ slice_set self.old.items at number }
        ensures room { self.old.room ≤ self.new.room }
    {
        if number > MOST {
            self.set_wide(at, number);
            return;
        }
        let narrow = number as u32;
        if at < self.front.len() {
            self.front[at] = narrow;
            return;
        }
        if at < self.behind {
            if at == self.front.len() {
                self.front.push_reserved(narrow);
                return;
            }
            if at + 1 == self.behind {
                self.back.push_reserved(narrow);
                self.behind = at;
                return;
            }
            add(&mut self.front, at, narrow);
            return;
        }
        let place = at - self.behind;
        if place < self.back.len() {
            let last = self.back.len() - 1;
            self.back[last - place] = narrow;
            return;
        }
        self.set_wide(at, number);
    }

    /// The same, among wide ones, in which all are kept from then on.
    #[cold]
    #[inline(never)]
    fn set_wide(&mut self, at: usize, number: u64)
        requires { at < length self.old.items }
        ensures items { self.new.items ≡ slice_set self.old.items at number }
        ensures room { self.old.room ≤ self.new.room }
    {
        if self.wide.is_empty() {
            fill(&mut self.front, self.behind);
            copy(self.front.as_slice(), &mut self.wide);
            copy_back(self.back.as_slice(), &mut self.wide);
            self.front.clear();
            self.back.clear();
            self.behind = 0;
        }
        self.wide[at] = number;
    }
}

/// Keeps a number at a place behind those of a block, with zeros between.
#[cold]
#[inline(never)]
fn add(block: &mut Vec<u32>, at: usize, number: u32)
    requires place { length block.old.items ≤ at }
    requires room { at < vec_capacity block.old }
    ensures items { block.new.items ≡ (block.old.items ++ replicate (at - length block.old.items) 0) ++ number ∷ [] }
    ensures room { vec_capacity block.old ≤ vec_capacity block.new }
{
    fill(block, at);
    block.push_reserved(number);
}

/// Adds zeros to a block, so that it has so many items.
fn fill(block: &mut Vec<u32>, count: usize)
    requires place { length block.old.items ≤ count }
    requires room { count ≤ vec_capacity block.old }
    ensures items { block.new.items ≡ block.old.items ++ replicate (count - length block.old.items) 0 }
    ensures room { vec_capacity block.old ≤ vec_capacity block.new }
{
    match block.resize(count, 0) {
        Ok(()) => {}
        Err(_) => unreachable!(),
    }
}

/// Copies numbers into an empty block of wide ones.
fn copy(narrow: &[u32], wide: &mut Vec<u64>)
    requires empty { wide.old.items ≡ [] }
    requires room { length narrow.now ≤ vec_capacity wide.old }
    ensures items { wide.new.items ≡ narrow.now }
    ensures room { vec_capacity wide.new ≡ vec_capacity wide.old }
{
    for number in narrow.iter() {
        wide.push_reserved(*number as u64);
    }
}

/// Copies numbers behind wide ones, the last one first.
fn copy_back(narrow: &[u32], wide: &mut Vec<u64>)
    requires { length wide.old.items + length narrow.now ≤ vec_capacity wide.old }
    ensures items { wide.new.items ≡ wide.old.items ++ reverse narrow.now }
    ensures room { vec_capacity wide.new ≡ vec_capacity wide.old }
{
    let mut left = narrow;
    while let Some((last, others)) = left.split_last() {
        wide.push_reserved(*last as u64);
        left = others;
    }
}
