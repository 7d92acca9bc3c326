//! The marks of a matcher: a pass goes over them from the first to the last, and knows where the next may be that is set.
ghost use Rattle.std.specs.Prelude.{◌≡◌, ◌+◌, ◌<◌, ◌≤◌, false, ◌||◌, if◌then◌else◌, [], ◌∷◌, ◌++◌, length, drop, replicate, slice_index_or, slice_set, IfOk, vec_capacity};
ghost use Rattle.pattern_match.specs.Marks.{Walk, first_place_or, past};

use std::alloc::{AllocError, Global};
use std::marker::Model;
use std::mem;

/// Marks, of which a pass has the first `at` behind it. Of the listed places of those behind it `behind` are kept, of
/// all from before the pass the first `passed` are behind it.
#[derive(Drop)]
pub struct Marks {
    cells: Vec<bool>,
    at: usize,
    behind: Vec<usize>,
    before: Vec<usize>,
    passed: usize,
}

impl Model for Marks {
    ghost use Rattle.std.specs.Prelude.{◌≤◌, length, drop, vec_capacity};
    ghost use Rattle.pattern_match.specs.Marks.{Walk};

    ghost Value = { Walk };

    ghost view = { λ m. record { cells = m.cells.items; at = m.at; behind = m.behind.items; ahead = drop m.passed m.before.items } };

    ghost invariant = { λ m. (length m.behind.items ≤ m.at) × (m.at ≤ length m.cells.items) × (length m.cells.items ≤ vec_capacity m.behind) × (length m.cells.items ≤ vec_capacity m.before) };
}

/// So many marks, none of them set.
fn no_cells(alloc: Global, count: usize) -> Result<Vec<bool>, AllocError>
    ensures { IfOk result (λ v. v.items ≡ replicate count false) }
{
    vec![in alloc; false; count]
}

/// The first place behind so many, or the end.
fn first_place(places: &[usize], passed: usize, end: usize) -> usize
    ensures { result ≡ first_place_or (drop passed places.now) end }
{
    if passed < places.len() {
        places[passed]
    } else {
        end
    }
}

/// The first place behind so many and one more, or the end.
fn second_place(places: &[usize], passed: usize, end: usize) -> usize
    ensures { result ≡ first_place_or (drop 1 (drop passed places.now)) end }
{
    if passed >= places.len() {
        return end;
    }
    first_place(places, passed + 1, end)
}

/// How many of the places are passed behind this one, which may be the first behind so many.
fn passed_behind(places: &[usize], passed: usize, at: usize) -> usize
    ensures { drop result places.now ≡ past at (drop passed places.now) }
{
    if passed >= places.len() {
        return passed;
    }
    if places[passed] == at {
        passed + 1
    } else {
        passed
    }
}

/// Lists the place, if it is to be listed.
fn list(places: &mut Vec<usize>, at: usize, listed: bool)
    requires { length places.old.items < vec_capacity places.old }
    ensures items { places.new.items ≡ (if listed then places.old.items ++ at ∷ [] else places.old.items) }
    ensures capacity { vec_capacity places.old ≤ vec_capacity places.new }
{
    if !listed {
        return;
    }
    match places.push(at) {
        Ok(()) => {}
        Err(_) => unreachable!(),
    }
}

/// Lists these places in the place of those.
fn copy_places(from: &[usize], to: &mut Vec<usize>)
    requires { length from.now ≤ vec_capacity to.old }
    ensures items { to.new.items ≡ from.now }
    ensures capacity { vec_capacity to.old ≤ vec_capacity to.new }
{
    to.clear();
    for place in from {
        match to.push(*place) {
            Ok(()) => {}
            Err(_) => unreachable!(),
        }
    }
}

impl Marks {
    /// So many marks and one for the end, none of them set, and a pass that has all but that one behind it.
    pub fn new(alloc: Global, count: usize) -> Result<Marks, AllocError>
        requires { count < usize.MAX }
        ensures { IfOk result (λ m. m ≡ record { cells = replicate (count + 1) false; at = count; behind = []; ahead = [] }) }
    {
        Ok(Marks {
            cells: no_cells(alloc, count + 1)?,
            at: count,
            behind: Vec::with_capacity(alloc, count + 1)?,
            before: Vec::with_capacity(alloc, count + 1)?,
            passed: 0,
        })
    }

    /// All marks.
    pub fn cells(&self) -> &[bool]
        ensures { result.now ≡ self.now.cells }
    {
        self.cells.as_slice()
    }

    /// The place of the next mark of the pass.
    pub fn at(&self) -> usize
        ensures { result ≡ self.now.at }
    {
        self.at
    }

    /// Whether the mark of this place is set: none is behind the last.
    pub fn is_set(&self, place: usize) -> bool
        ensures { result ≡ slice_index_or self.now.cells place false }
    {
        if place < self.cells.len() {
            self.cells[place]
        } else {
            false
        }
    }

    /// Begins a pass.
    pub fn begin(&mut self)
        ensures { self.new ≡ record { cells = self.old.cells; at = 0; behind = []; ahead = self.old.behind } }
    {
        mem::swap(&mut self.behind, &mut self.before);
        self.behind.clear();
        self.passed = 0;
        self.at = 0;
    }

    /// Lists before the pass what is listed of other marks, as many as these, behind theirs.
    pub fn relist(&mut self, other: &Marks)
        requires { length other.now.cells ≡ length self.old.cells }
        ensures { self.new ≡ record self.old { ahead = other.now.behind } }
    {
        copy_places(other.behind.as_slice(), &mut self.before);
        self.passed = 0;
    }

    /// The next place that is listed, or the end.
    pub fn next(&self, end: usize) -> usize
        ensures { result ≡ first_place_or self.now.ahead end }
    {
        first_place(self.before.as_slice(), self.passed, end)
    }

    /// Goes on to this place.
    pub fn jump(&mut self, place: usize)
        requires low { self.old.at ≤ place }
        requires high { place ≤ length self.old.cells }
        ensures { self.new ≡ record self.old { at = place } }
    {
        self.at = place;
    }

    /// The next place that is listed but the first, or the end.
    pub fn second(&self, end: usize) -> usize
        ensures { result ≡ first_place_or (drop 1 self.now.ahead) end }
    {
        second_place(self.before.as_slice(), self.passed, end)
    }

    /// Lists the next place no longer.
    pub fn forget(&mut self)
        ensures { self.new ≡ record self.old { ahead = past self.old.at self.old.ahead } }
    {
        self.passed = passed_behind(self.before.as_slice(), self.passed, self.at);
    }

    /// Sets the next mark, or takes it away. It is listed where it is set.
    pub fn put(&mut self, mark: bool, listed: bool)
        requires { self.old.at < length self.old.cells }
        ensures cells { self.new.cells ≡ slice_set self.old.cells self.old.at mark }
        ensures at { self.new.at ≡ self.old.at + 1 }
        ensures behind { self.new.behind ≡ (if mark || listed then self.old.behind ++ self.old.at ∷ [] else self.old.behind) }
        ensures ahead { self.new.ahead ≡ past self.old.at self.old.ahead }
    {
        self.passed = passed_behind(self.before.as_slice(), self.passed, self.at);
        list(&mut self.behind, self.at, mark || listed);
        self.cells[self.at] = mark;
        self.at += 1;
    }

    /// Sets the next mark, or takes it away, and stays before it. It is not listed.
    pub fn put_last(&mut self, mark: bool)
        requires { self.old.at < length self.old.cells }
        ensures { self.new ≡ record self.old { cells = slice_set self.old.cells self.old.at mark } }
    {
        self.cells[self.at] = mark;
    }
}
