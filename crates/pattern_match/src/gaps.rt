//! How far it is to the end of a branch, from each instruction of a code.
ghost use Rattle.std.specs.Prelude.{◌≡◌, ℕ, ◌+◌, ◌<◌, ◌≤◌, length, drop, slice_index_or, IfOk};
ghost use Rattle.pattern_match.specs.Gaps.{gap_of, gaps as gaps_from};

use crate::instruction::Instruction;
use std::alloc::{AllocError, Global};

/// So many numbers.
fn no_gaps(alloc: Global, count: usize) -> Result<Vec<usize>, AllocError>
    ensures { IfOk result (λ v. length v.items ≡ count) }
{
    vec![in alloc; 0usize; count]
}

/// The number of this place, or 0 behind the last.
pub fn gap_at(gaps: &[usize], place: usize) -> usize
    ensures { result ≡ slice_index_or gaps.now place 0 }
{
    if place < gaps.len() { gaps[place] } else { 0 }
}

/// How many instructions stand from this one on before the bar or the end of the group around it, from how many do
/// from each behind it.
fn gap_before(instruction: Instruction, later: &[usize]) -> usize
    requires { (k : ℕ) → k ≤ length later.now → slice_index_or later.now k 0 + k ≤ length later.now }
    ensures { result ≡ gap_of instruction later.now }
{
    match instruction {
        Instruction::Take { .. } => gap_at(later, 0) + 1,
        Instruction::Open { length, .. } => {
            if length < later.len() {
                gap_at(later, length + 1) + length + 2
            } else {
                0
            }
        }
        Instruction::Bar => 0,
        Instruction::Close => 0,
    }
}

/// Sets the number of this place, from those behind it.
fn fill_gap(code: &[Instruction], gaps: &mut [usize], i: usize)
    requires inside { i < length code.now }
    requires long { length gaps.old ≡ length code.now }
    requires later { drop (i + 1) gaps.old ≡ gaps_from (drop (i + 1) code.now) }
    ensures { drop i gaps.new ≡ gaps_from (drop i code.now) }
{
    let gap = gap_before(code[i], &gaps[i + 1..]);
    gaps[i] = gap;
}

/// How many do from each.
pub fn gaps_of(alloc: Global, code: &[Instruction]) -> Result<Vec<usize>, AllocError>
    ensures { IfOk result (λ v. v.items ≡ gaps_from code.now) }
{
    let mut gaps = no_gaps(alloc, code.len())?;
    fill_gaps(code, gaps.as_mut_slice());
    Ok(gaps)
}

/// Sets all numbers.
fn fill_gaps(code: &[Instruction], gaps: &mut [usize])
    requires { length gaps.old ≡ length code.now }
    ensures { gaps.new ≡ gaps_from code.now }
{
    let mut i = code.len();
    while i > 0 {
        i -= 1;
        fill_gap(code, gaps, i);
    }
}
