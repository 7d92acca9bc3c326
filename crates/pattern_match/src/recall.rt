//! What a matcher remembers: marks that it has met, and which follow them by an ASCII character.
ghost use Rattle.std.specs.Prelude.{◌≡◌, ℕ, suc, ◌+◌, ◌*◌, ◌<◌, ◌≤◌, ◌⊎◌, IsTrue, Bool, Some, List, [], ◌∷◌, ◌++◌, length, take, slice_index_or, slice_set, IfOk, IfSome};
ghost use Rattle.pattern_match.specs.Recall.{Known, row, rows_of, cell, marks_behind, IsRightTable, IsRow};

use std::alloc::{AllocError, Global};
use std::marker::Model;

/// The ASCII characters.
const WIDTH: usize = 128;

/// The most marks that are remembered.
const MOST: usize = 64;

/// The most instructions of a pattern whose marks are remembered. To look for marks among those that were met takes as
/// long as they are, and a step over more of them is short where few are set.
const WIDEST: usize = 1_024;

#[derive(Drop)]
pub struct Recall {
    /// The marks that were met, one after another, as many as `count`, and each of them of this width.
    cells: Vec<bool>,
    count: usize,
    width: usize,
    /// For how many more cells there is room.
    spare: usize,
    table: Vec<u8>,
}

impl Model for Recall {
    ghost use Rattle.pattern_match.specs.Recall.{Known, rows_of};

    ghost Value = { Known };

    ghost view = { λ r. record { rows = rows_of r.count r.width r.cells.items; table = r.table.items } };

    ghost use Rattle.std.specs.Prelude.{◌≡◌, ◌*◌, ◌+◌, ◌≤◌, length, vec_capacity};

    ghost invariant = { λ r. (length r.cells.items ≡ r.count * r.width) × (length r.cells.items + r.spare ≤ vec_capacity r.cells) };
}

/// So many characters of which the marks that follow are remembered, and the number of the marks behind the last.
#[derive(Clone, Copy)]
pub struct Followed {
    pub count: usize,
    pub at: usize,
}

/// So many cells, none of them known.
fn no_cells(alloc: Global, count: usize) -> Result<Vec<u8>, AllocError>
    ensures { IfOk result (λ v. (i : ℕ) → slice_index_or v.items i 0 ≡ 0) }
{
    vec![in alloc; 0u8; count]
}

/// Whether the marks are the same.
fn are_same(xs: &[bool], ys: &[bool]) -> bool
    ensures { IsTrue result → xs.now ≡ ys.now }
{
    xs == ys
}

/// The row of this number, of so many rows of this width.
fn row_of(cells: &[bool], width: usize, count: usize, at: usize) -> &[bool]
    requires at { at < count }
    requires cells { length cells.now ≡ count * width }
    ensures { result.now ≡ slice_index_or (rows_of count width cells.now) at [] }
{
    let (_, behind) = cells.split_at(at * width);
    behind.split_at(width).0
}

/// How many rows of so many marks are remembered.
fn rows_for(width: usize) -> usize
    ensures { result ≤ 64 }
{
    if width > WIDEST {
        0
    } else {
        MOST.min(width + 2) // no more are met where a character is taken by one position at most
    }
}

/// One more than the number of the marks that follow those of this number by the code; 0 if it is not known.
#[inline]
fn cell_at(table: &[u8], at: usize, code: u8) -> u8
    requires { at < 256 }
    ensures { 0 < result → (code < 128) × (slice_index_or table.now (128 * at + code) 0 ≡ result) }
{
    let place = WIDTH * at + usize::from(code);
    if !code.is_ascii() || place >= table.len() {
        return 0;
    }
    table[place]
}

impl Recall {
    /// Nothing is known yet. There is room for some rows of so many marks.
    pub fn new(alloc: Global, width: usize) -> Result<Recall, AllocError>
        ensures rows { IfOk result (λ r. r.rows ≡ []) }
        ensures table { IfOk result (λ r. (i : ℕ) → slice_index_or r.table i 0 ≡ 0) }
    {
        let count = rows_for(width);
        let spare = count.saturating_mul(width);
        Ok(Recall {
            cells: Vec::with_capacity(alloc, spare)?,
            count: 0,
            width,
            spare,
            table: no_cells(alloc, WIDTH * count)?,
        })
    }

    /// The number of the marks that follow these by the character, if it is known.
    #[inline]
    pub fn after(&self, at: usize, c: char) -> Option<usize>
        ensures { IfSome result (λ t. (c < 128) × (cell self.now at c ≡ suc t)) }
    {
        let c = c as usize;
        if c >= WIDTH || at >= MOST {
            return None;
        }
        let place = WIDTH * at + c;
        if place >= self.table.len() {
            return None;
        }
        usize::from(self.table[place]).checked_sub(1)
    }

    /// The table of what is known.
    #[inline]
    fn known_cells(&self) -> &[u8]
        ensures { result.now ≡ self.now.table }
    {
        self.table.as_slice()
    }

    /// How many of these codes from the first on can be followed behind the marks of this number, and to which.
    pub fn follow(&self, at: usize, codes: &[u8]) -> Followed
        ensures few { result.count ≤ length codes.now }
        ensures row { (next : ℕ → List Bool → List Bool) (marks : List Bool) → IsRightTable next self.now → IsRow self.now (Some at) marks → IsRow self.now (Some result.at) (marks_behind next marks (take result.count codes.now)) }
    {
        if at >= MOST {
            return Followed { count: 0, at };
        }
        let table = self.known_cells();
        let mut here = at;
        for (count, code) in codes.iter().enumerate() {
            let cell = cell_at(table, here, *code);
            if cell == 0 {
                return Followed { count, at: here };
            }
            here = cell as usize - 1;
        }
        Followed {
            count: codes.len(),
            at: here,
        }
    }

    /// The number of the marks that are reached behind those of this number by these codes, if all on the way are known.
    #[inline]
    pub fn reach(&self, at: usize, codes: &[u8]) -> Option<usize>
        ensures { IfSome result (λ t. (next : ℕ → List Bool → List Bool) (marks : List Bool) → IsRightTable next self.now → IsRow self.now (Some at) marks → IsRow self.now (Some t) (marks_behind next marks codes.now)) }
    {
        if at >= MOST {
            return None;
        }
        let table = self.known_cells();
        let mut here = at;
        for code in codes {
            let cell = cell_at(table, here, *code);
            if cell == 0 {
                return None;
            }
            here = cell as usize - 1;
        }
        Some(here)
    }

    /// The marks of this number.
    pub fn row(&self, at: usize) -> &[bool]
        requires { at < length self.now.rows }
        ensures { result.now ≡ row self.now at }
    {
        row_of(self.cells.as_slice(), self.width, self.count, at)
    }

    /// How many marks were met.
    fn len(&self) -> usize
        ensures { result ≡ length self.now.rows }
    {
        self.count
    }

    /// The number of the marks, if they were met.
    fn find(&self, marks: &[bool]) -> Option<usize>
        ensures { IsRow self.now result marks.now }
    {
        for at in 0..self.len() {
            if are_same(self.row(at), marks) {
                return Some(at);
            }
        }
        None
    }

    /// Keeps the marks, if there is room: their number.
    fn keep(&mut self, marks: &[bool]) -> Option<usize>
        ensures row { IsRow self.new result marks.now }
        ensures table { self.new.table ≡ self.old.table }
        ensures rows { (self.new.rows ≡ self.old.rows) ⊎ (self.new.rows ≡ self.old.rows ++ marks.now ∷ []) }
    {
        let at = self.count;
        if at == usize::MAX || marks.len() != self.width || self.spare < self.width {
            return None;
        }
        match self.cells.extend_from_slice(marks) {
            Ok(()) => {}
            Err(_) => unreachable!(), // there is room
        }
        self.spare -= self.width;
        self.count += 1;
        Some(at)
    }

    /// The number of the marks, if they were met or there is room for them.
    pub fn number(&mut self, marks: &[bool]) -> Option<usize>
        ensures row { IsRow self.new result marks.now }
        ensures table { self.new.table ≡ self.old.table }
        ensures rows { (self.new.rows ≡ self.old.rows) ⊎ (self.new.rows ≡ self.old.rows ++ marks.now ∷ []) }
    {
        match self.find(marks) {
            Some(at) => Some(at),
            None => self.keep(marks),
        }
    }

    /// Notes that the marks of the number `next` follow those of the number `at` by the character.
    fn note(&mut self, at: usize, c: char, next: usize)
        ensures rows { self.new.rows ≡ self.old.rows }
        ensures table { (self.new.table ≡ self.old.table) ⊎ ((c < 128) × (128 * at + c < length self.old.table) × (self.new.table ≡ slice_set self.old.table (128 * at + c) (next + 1))) }
    {
        let c = c as usize;
        if c >= WIDTH || at >= MOST || next >= MOST {
            return;
        }
        let place = WIDTH * at + c;
        if place >= self.table.len() {
            return;
        }
        self.table[place] = (next + 1) as u8;
    }

    /// Learns that these marks follow those of the number `at`, if there is one, by the character: their number.
    pub fn learn(&mut self, at: Option<usize>, c: char, marks: &[bool]) -> Option<usize>
        ensures row { IsRow self.new result marks.now }
        ensures rows { (self.new.rows ≡ self.old.rows) ⊎ (self.new.rows ≡ self.old.rows ++ marks.now ∷ []) }
        ensures table { (next : ℕ → List Bool → List Bool) → IsRightTable next self.old → ((s : ℕ) → at ≡ Some s → (s < length self.old.rows) × (marks.now ≡ next c (row self.old s))) → IsRightTable next self.new }
    {
        let before = at?;
        let after = self.number(marks)?;
        self.note(before, c, after);
        Some(after)
    }
}
