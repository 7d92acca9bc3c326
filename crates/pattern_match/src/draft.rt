//! The code of a pattern while it is made. A group of one item loses its marks: then the item's first instruction takes
//! the place of the `Open`, and leaves an empty cell.
ghost use Rattle.std.specs.Prelude.{◌≡◌, ◌+◌, ◌-◌, ◌<◌, false, IsTrue, Option, Some, List, [], ◌∷◌, ◌++◌, length, take, drop, slice_set, OnOk, IfOk};
ghost use Rattle.pattern_match.specs.declared.instruction.Instruction.{Instruction};
ghost use Rattle.pattern_match.specs.declared.instruction.Place.{Place};
ghost use Rattle.pattern_match.specs.Building.{add_flags, flagged_first, is_item};
ghost use Rattle.pattern_match.specs.inner.Drafting.{live, flagged_cell, next_cell_place, IsPlace, IsGroup, IsGroupBegun, KeepsFront, Loses};

use crate::instruction::{Instruction, Place};
use std::alloc::{AllocError, Global};
use std::marker::Model;

/// An instruction with these flags too.
pub fn with_flags(instruction: Instruction, optional: bool, repeated: bool) -> Instruction
    ensures { result ≡ add_flags optional repeated instruction }
{
    match instruction {
        Instruction::Take {
            at,
            optional: o,
            repeated: r,
        } => Instruction::Take {
            at,
            optional: optional || o,
            repeated: repeated || r,
        },
        Instruction::Open {
            length,
            optional: o,
            repeated: r,
        } => Instruction::Open {
            length,
            optional: optional || o,
            repeated: repeated || r,
        },
        other => other,
    }
}

/// A cell with these flags too.
fn cell_with_flags(cell: Option<Instruction>, optional: bool, repeated: bool) -> Option<Instruction>
    ensures { result ≡ flagged_cell optional repeated cell }
{
    match cell {
        Some(instruction) => Some(with_flags(instruction, optional, repeated)),
        None => None,
    }
}

/// Whether an instruction is one item with so many behind it.
fn is_one_item(instruction: Instruction, behind: usize) -> bool
    ensures { (code : List Instruction) → length code ≡ behind → result ≡ is_item (instruction ∷ code) }
{
    match instruction {
        Instruction::Take { .. } => behind == 0,
        Instruction::Open { length, .. } => behind > 0 && behind - 1 == length,
        _ => false,
    }
}

/// Takes the last cell that is not empty, and those behind it.
fn pop_last(cells: &mut Vec<Option<Instruction>>)
    requires { 0 < length (live cells.old.items) }
    ensures { Loses cells.old.items cells.new.items }
{
    while let Some(cell) = cells.pop() {
        if cell.is_some() {
            return;
        }
    }
}

/// The instructions from a cell on.
fn code_in(
    alloc: Global,
    cells: &[Option<Instruction>],
    start: usize,
) -> Result<Vec<Instruction>, AllocError>
    ensures { IfOk result (λ v. v.items ≡ live (drop start cells.now)) }
{
    let mut code = Vec::with_capacity(alloc, cells.len().saturating_sub(start))?;
    if start < cells.len() {
        for cell in &cells[start..] {
            if let Some(instruction) = *cell {
                code.push(instruction)?;
            }
        }
    }
    Ok(code)
}

/// The code so far, in cells of which so many are empty.
#[derive(Drop)]
pub struct Draft {
    cells: Vec<Option<Instruction>>,
    holes: usize,
}

impl Model for Draft {
    ghost use Rattle.std.specs.Prelude.{◌≡◌, ◌+◌, Option, List, length};
    ghost use Rattle.pattern_match.specs.declared.instruction.Instruction.{Instruction};
    ghost use Rattle.pattern_match.specs.inner.Drafting.{live};

    ghost Value = { List (Option Instruction) };

    ghost view = { λ d. d.cells.items };

    ghost invariant = { λ d. d.holes + length (live d.cells.items) ≡ length d.cells.items };
}

impl Draft {
    /// No code.
    pub fn new(alloc: Global) -> Draft
        ensures { result ≡ [] }
    {
        Draft {
            cells: Vec::new(alloc),
            holes: 0,
        }
    }

    /// How many instructions there are.
    pub fn len(&self) -> usize
        ensures { result ≡ length (live self.now) }
    {
        self.cells.len() - self.holes
    }

    /// Where the next instruction stands.
    pub fn end(&self) -> Place
        ensures { result ≡ next_cell_place self.now }
    {
        Place {
            cell: self.cells.len(),
            count: self.len(),
        }
    }

    /// Puts an instruction behind the last.
    pub fn push(&mut self, instruction: Instruction) -> Result<(), AllocError>
        ensures cells { OnOk result (self.new ≡ self.old ++ Some instruction ∷ []) }
        ensures code { OnOk result (live self.new ≡ live self.old ++ instruction ∷ []) }
    {
        self.cells.push(Some(instruction))?;
        Ok(())
    }

    /// Drops what stands from a place on.
    pub fn truncate(&mut self, place: Place)
        requires { IsPlace self.old place }
        ensures cells { self.new ≡ take place.cell self.old }
        ensures code { live self.new ≡ take place.count (live self.old) }
        ensures kept { KeepsFront self.old self.new place }
    {
        self.cells.truncate(place.cell);
        self.holes = place.cell.saturating_sub(place.count);
    }

    /// Sets these flags on the instruction at a place.
    pub fn flag_at(&mut self, place: Place, optional: bool, repeated: bool)
        requires { IsPlace self.old place }
        ensures code { live self.new ≡ take place.count (live self.old) ++ flagged_first optional repeated (drop place.count (live self.old)) }
        ensures kept { KeepsFront self.old self.new place }
    {
        if place.cell < self.cells.len() {
            self.cells[place.cell] = cell_with_flags(self.cells[place.cell], optional, repeated);
        }
    }

    /// Drops the last instruction.
    pub fn drop_last(&mut self)
        requires { 0 < length (live self.old) }
        ensures code { live self.new ≡ take (length (live self.old) - 1) (live self.old) }
        ensures kept { (place : Place) → IsGroupBegun self.old place → KeepsFront self.old self.new place }
        ensures group { (place : Place) → IsGroupBegun self.old place → IsGroup self.new place }
    {
        let left = self.len().saturating_sub(1);
        pop_last(&mut self.cells);
        self.holes = self.cells.len().saturating_sub(left);
    }

    /// Whether one item stands behind the cell of a group.
    pub fn has_one_item(&self, place: Place) -> bool
        requires { IsGroup self.now place }
        ensures item { result ≡ is_item (drop (place.count + 1) (live self.now)) }
        ensures some { IsTrue result → place.cell + 1 < length self.now }
    {
        if place.cell < self.cells.len().saturating_sub(1) {
            let behind = self.len().saturating_sub(place.count).saturating_sub(2);
            match self.cells[place.cell + 1] {
                Some(first) => return is_one_item(first, behind),
                None => return false,
            }
        }
        false
    }

    /// Puts the first instruction of a group into the place of the `Open`. It may be left out where the group may.
    pub fn lift_item(&mut self, place: Place, empty: bool)
        requires group { IsGroup self.old place }
        requires some { place.cell + 1 < length self.old }
        ensures code { live self.new ≡ take place.count (live self.old) ++ flagged_first empty false (drop (place.count + 1) (live self.old)) }
        ensures kept { KeepsFront self.old self.new place }
    {
        let holes = self
            .cells
            .len()
            .saturating_sub(self.len().saturating_sub(1));
        self.cells[place.cell] = cell_with_flags(self.cells[place.cell + 1], empty, false);
        self.cells[place.cell + 1] = None;
        self.holes = holes;
    }

    /// Puts the `Open` of a group that ends here into its place.
    fn set_open(&mut self, place: Place, empty: bool)
        requires { IsPlace self.old place }
        ensures { self.new ≡ slice_set self.old place.cell (Some (Instruction.Open (length (live self.old) - place.count - 1) empty false)) }
    {
        if place.cell < self.cells.len() {
            let length = self.len().saturating_sub(place.count).saturating_sub(1);
            self.cells[place.cell] = Some(Instruction::Open {
                length,
                optional: empty,
                repeated: false,
            });
        }
    }

    /// Marks where a group begins and ends.
    pub fn mark_group(&mut self, place: Place, empty: bool) -> Result<(), AllocError>
        requires { IsPlace self.old place }
        ensures code { OnOk result (live self.new ≡ slice_set (live self.old) place.count (Instruction.Open (length (live self.old) - place.count - 1) empty false) ++ Instruction.Close ∷ []) }
        ensures kept { OnOk result (KeepsFront self.old self.new place) }
    {
        self.set_open(place, empty);
        self.push(Instruction::Close)?;
        Ok(())
    }

    /// The instructions from a place on.
    pub fn code_from(&self, alloc: Global, place: Place) -> Result<Vec<Instruction>, AllocError>
        requires { IsPlace self.now place }
        ensures { IfOk result (λ v. v.items ≡ drop place.count (live self.now)) }
    {
        code_in(alloc, self.cells.as_slice(), place.cell)
    }

    /// All instructions.
    pub fn code(&self, alloc: Global) -> Result<Vec<Instruction>, AllocError>
        ensures { IfOk result (λ v. v.items ≡ live self.now) }
    {
        code_in(alloc, self.cells.as_slice(), 0)
    }
}
